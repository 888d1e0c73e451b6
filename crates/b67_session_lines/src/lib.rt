//! The lines that a run prints, the two parts in which a step prints, and how a call ends that prints. It promises that each
//! line is the model's text, and that a text is taken by the printer from where it was left: no byte is printed twice.
//!
//! For `b67_session`, `b67_mcp` and `b67_job`: `say`, `put_rest` (`text`, `whole`, `part`). Laws: `runs_stop_once`,
//! `runs_stop_with_their_status`, `steps_have_parts`.
//!
//! Begin with the law `steps_have_parts`, then `put_rest` (`text`, `whole`, `part`).
#![tactic(auto)]

mod laws;
mod lines;
mod names;
mod printing;

pub use laws::{runs_stop_once, runs_stop_with_their_status, steps_have_parts};
pub use lines::{ending_line, halted_line, line_of, value_line, with_number, with_text};
pub use printing::{put_rest, say};
