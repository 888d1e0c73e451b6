//! The program's input, output and files, which record what went through them: an input and an output that record their bytes, a
//! file that is compared with a copy of its sectors in memory, and a process that records its arguments and the paths that it opened.
//! It guarantees of the program's call over any reader, any writer and any files what `serve` guarantees over observable devices.
//!
//! For the program `b67`, by `program` of `b67_promises`. Records are for proofs alone: they take no memory and no time.
//!
//! Begin with `serve_recorded`: `served`, `faithful`; then `Mirrored`.
#![tactic(auto)]

mod mirror;
mod process;
mod record;
mod serving;
mod sink;
mod source;

pub use mirror::Mirrored;
pub use process::RecordedProcess;
pub use record::{Record, Texts};
pub use serving::serve_recorded;
pub use sink::RecordedSink;
pub use source::RecordedSource;
