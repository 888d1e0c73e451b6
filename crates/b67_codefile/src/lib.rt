//! Codefiles of both versions: programs of segments and data rows, and their bytes. It promises that each program has one
//! spelling in a version, and of other bytes the first flaw with its place.
//!
//! For texts and programs: `read` (`found`, `only`, `exact`), `write`, `convert` (`same`, `within`); `copy_of_segment` and its
//! like.
//!
//! Begin with `read`: `found`, `only` and `exact`.
#![tactic(auto)]

mod converting;
mod copying;
mod fault;
mod file;
mod reading;
mod writing;

pub use converting::convert;
pub use copying::{
    copy_of_entries, copy_of_rows, copy_of_segment, copy_of_segments, copy_of_words,
};
pub use fault::BadFile;
pub use file::{Codefile, Entries, Rows, Segment, Segments, place_of_entry};
pub use reading::read;
pub use writing::write;
