//! The program: it reads a deck from standard input, prints to standard output and pages to the file that its arguments name. It
//! guarantees nothing itself: all of it is one call of `program`, whose contract is in `b67_promises`.
//!
//! For whoever is at the shell; the manual page `docs/b67.1` says its words and statuses.
//!
//! Begin with `main`.
#![tactic(auto)]

use b67_promises::program;
use b67_recorded::{RecordedProcess, RecordedSink, RecordedSource};
use std::process::ExitCode;

fn main(rt: HostRuntime) -> ExitCode {
    let alloc = rt.alloc();
    let mut input = RecordedSource::new(rt.stdin());
    let mut printer = RecordedSink::new(rt.stdout());
    let mut process = RecordedProcess::new(rt);
    program(alloc, &mut process, &mut input, &mut printer)
}
