//! What the tests share: two values compared, texts, printers, devices of which a call fails, and a run of the program.

ghost use Rattle.b67_backing.specs.Held.{blank};
ghost use Rattle.b67_backing.specs.Memory.{memory_sectors};
ghost use Rattle.b67_session.specs.Slices.{IsOpen};
ghost use Rattle.std.specs.Prelude.{◌≡◌, ◌+◌, ◌<◌, ◌≤◌, ◌^◌, length, IfSome};

use b67_backing::{Backing, MemoryBacking};
use b67_io::{Paper, Tape};
use b67_job::{Outcome, run};
use b67_word::{Bytes, Numbers};
use std::alloc::Global;
use std::fmt::Debug;
use std::fs;
use std::process::Abort;
use std::rt::Files;

/// A file of the system with these bytes.
pub fn write_file(rt: &(impl Abort + Files), path: &str, bytes: &[u8]) {
    fs::write(rt, path, bytes).expect(rt, "a file");
}

pub fn remove_file(rt: &(impl Abort + Files), path: &str) {
    fs::remove_file(rt, path).expect(rt, "a file");
}

pub fn length_of(rt: &(impl Abort + Files), path: &str) -> u64 {
    fs::metadata(rt, path).expect(rt, "a file").len()
}

/// Two values are the same. An `assert_eq!` of its own in each place costs the prover ten times as much.
pub fn same<T: PartialEq + Debug + Drop>(rt: &impl Abort, given: T, wanted: T) {
    assert_eq!(rt; given, wanted);
}

/// An item of a list that has one at this place.
pub fn nth<'a, T>(rt: &impl Abort, items: &'a [T], place: usize) -> &'a T {
    match items.get(place) {
        Some(item) => item,
        None => panic!(rt; "a list is too short"),
    }
}

/// The number of the call that fails, from 1 on. With 0 none does.
pub fn fails_at(rt: &impl Abort, alloc: Global, number: i64) -> Numbers {
    let mut numbers = Numbers::new(alloc);
    if number > 0 {
        numbers.push(number).expect(rt, "memory");
    }
    numbers
}

/// A text of two parts.
pub fn text_of(rt: &impl Abort, alloc: Global, first: &[u8], more: &[u8]) -> Bytes {
    let mut text = Bytes::new(alloc);
    text.extend(first).expect(rt, "memory");
    text.extend(more).expect(rt, "memory");
    text
}

/// A printer with room for so many bytes, of which a put fails.
pub fn paper_of(rt: &impl Abort, alloc: Global, room: usize, put: i64) -> Paper {
    Paper::new(alloc, room, fails_at(rt, alloc, put)).expect(rt, "memory")
}

/// A device in memory of which a read and a write fail.
pub fn device_of(rt: &impl Abort, alloc: Global, count: u32, read: i64, write: i64) -> MemoryBacking
    requires low { 1 ≤ count }
    requires high { count < 2 ^ 20 }
    ensures { memory_sectors result ≡ blank count }
{
    let reads = fails_at(rt, alloc, read);
    match MemoryBacking::new(alloc, count, reads, fails_at(rt, alloc, write)) {
        Ok(device) => device,
        Err(_) => panic!(rt; "memory"),
    }
}

/// The words of a run in so much core. No other function holds them one by one.
fn run_words<'a>(core: &'a str) -> [&'a str; 5] {
    ["run", "--core", core, "--backing", "b"]
}

/// Runs a deck in so much core, with a printer of its own.
pub fn run_over<B: Backing>(
    rt: &impl Abort,
    alloc: Global,
    core: &str,
    deck: Bytes,
    backing: &mut B,
) -> Outcome
    ensures open { IfSome result.machine (λ k. IsOpen (B.holds backing.new) k) }
    ensures same { IfSome result.machine (λ k. B.size backing.new + 1 ≡ length k.sectors.links) }
{
    let mut tape = Tape::new(deck, 4096, Numbers::new(alloc));
    let mut paper = paper_of(rt, alloc, 1000, 0);
    run(alloc, &run_words(core), &mut tape, &mut paper, backing)
}
