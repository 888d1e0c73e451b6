//! What the tests share: two values compared, files, texts and printers.

use b67_io::Paper;
use b67_word::{Bytes, Numbers};
use std::alloc::Global;
use std::fmt::Debug;
use std::fs;
use std::process::Abort;
use std::rt::Files;

/// A file of the system with these bytes.
pub fn write_file(rt: &(impl Abort + Files), path: &str, bytes: &[u8]) {
    fs::write(rt, path, bytes).expect(rt, "a file");
}

pub fn remove_file(rt: &(impl Abort + Files), path: &str) {
    fs::remove_file(rt, path).expect(rt, "a file");
}

pub fn length_of(rt: &(impl Abort + Files), path: &str) -> u64 {
    fs::metadata(rt, path).expect(rt, "a file").len()
}

/// Two values are the same. An `assert_eq!` of its own in each place costs the prover ten times as much.
pub fn same<T: PartialEq + Debug + Drop>(rt: &impl Abort, given: T, wanted: T) {
    assert_eq!(rt; given, wanted);
}

/// A text.
pub fn text_of(rt: &impl Abort, alloc: Global, text: &[u8]) -> Bytes {
    let mut bytes = Bytes::new(alloc);
    bytes.extend(text).expect(rt, "memory");
    bytes
}

/// A printer with room for so many bytes.
pub fn paper_of(rt: &impl Abort, alloc: Global, room: usize) -> Paper {
    Paper::new(alloc, room, Numbers::new(alloc)).expect(rt, "memory")
}
