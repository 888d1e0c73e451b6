//! The adapters over std's readers and writers, over files of the system: what they move, and that a failure of a file is one of theirs.

use crate::given::{length_of, remove_file, same, write_file};
use b67_io::{Sink, Source, StdSink, StdSource};
use b67_word::Failed;
use std::fs;
use std::fs::{File, OpenFile, OpenOptions};
use std::process::Abort;
use std::rt::Files;

/// Files of these names aren't there when a test begins.
const READ: &str = "b67_surface_read";

const WRITTEN: &str = "b67_surface_written";

// How many bytes a call moved, or 99 if it failed.
fn moved(answer: Result<usize, Failed>) -> usize {
    match answer {
        Ok(count) => count,
        Err(_) => 99,
    }
}

/// A file that may only be read, and one that may only be written.
fn to_read(rt: &(impl Abort + Files<File = File>), path: &str) -> File {
    fs::open(rt, path).expect(rt, "a file")
}

fn to_write(rt: &(impl Abort + Files<File = File>), path: &str) -> File {
    OpenOptions::new()
        .write(true)
        .open(rt, path)
        .expect(rt, "a file")
}

/// A file is read to its end. One that may only be written can't be read.
#[test]
fn a_source_over_a_file(rt: HostRuntime) {
    write_file(&rt, READ, b"AB");
    let mut bytes = [0u8; 4];
    let mut source = StdSource::new(to_read(&rt, READ));
    same(&rt, moved(source.read(&mut bytes)), 2);
    same(&rt, bytes, *b"AB\0\0");
    same(&rt, moved(source.read(&mut bytes)), 0);
    let mut closed = StdSource::new(to_write(&rt, READ));
    same(&rt, moved(closed.read(&mut bytes)), 99);
    remove_file(&rt, READ);
}

/// A file takes what is put. One that may only be read takes nothing.
#[test]
fn a_printer_over_a_file(rt: HostRuntime) {
    write_file(&rt, WRITTEN, b"");
    let mut printer = StdSink::new(to_write(&rt, WRITTEN));
    same(&rt, moved(printer.put(b"AB")), 2);
    same(&rt, length_of(&rt, WRITTEN), 2);
    let mut closed = StdSink::new(to_read(&rt, WRITTEN));
    same(&rt, moved(closed.put(b"AB")), 99);
    remove_file(&rt, WRITTEN);
}
