//! All between the program's arguments and its exit: the arguments, the deck read into memory, the file of the path opened and
//! closed, the exit status. It promises that what is printed, and the status, are those of `run` on the deck that was read.
//!
//! For the program `b67`, by `b67_recorded`: `carry_out`. For callers with sources of their own: `serve`, `serve_process`. For a page:
//! `serve_in_memory`, over text, sectors and room that the caller lends, `find_in_memory` and `step_in_memory`.
//!
//! Begin with `serve`: `opened`, `served`, `unread`, `reading`.
#![tactic(auto)]

mod files;
mod finding;
mod in_memory;
mod lent;
mod reading;
mod serving;
mod starting;
mod stepping;
mod words;

pub use b67_job::{CodePlace, SearchFault, Sought, backing_path, command_of, run};
pub use b67_word::Place;
pub use files::{Devices, SystemFile, lead_to_one_file, open_apart};
pub use finding::{FindFault, find_in_memory};
pub use in_memory::{calm_paper, print_into, serve_in_memory, tape_of};
pub use lent::LentSectors;
pub use reading::{InputFault, read_input};
pub use serving::{carry_out, memory_backing, serve, text_limit};
pub use starting::serve_process;
pub use stepping::step_in_memory;
pub use words::Words;
