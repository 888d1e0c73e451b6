//! An input over any reader, which records the bytes that the reader gave.

ghost use Rattle.std.specs.Prelude.{◌≡◌, ◌≤◌, ◌<◌, ◌++◌, ◌^◌, ℕ, List, [], None, Ok, IfOk, OnOk, OnErr, length, true, false};
ghost use Rattle.std.specs.Io.KnownBytes.{Consumes};
ghost use Rattle.std.specs.Io.KnownBytes as known;
ghost use Rattle.b67_io.specs.Told.{Gave, IsAtEnd, moved};
ghost use Rattle.b67_io.specs.Causes.{HasCause};
ghost use Rattle.b67_recorded.specs.Given.{WasTakenIn};

use crate::record::Record;
use b67_io::Source;
use b67_program::InputFault;
use b67_word::{Bytes, Failed};
use std::alloc::Global;
use std::io::Read;

/// How many bytes are asked for at once.
const PIECE: usize = 4096;

/// Any reader, as an input. It records the bytes that the reader gave, in order, and whether the reader answered that no more come.
#[derive(Drop)]
pub struct RecordedSource<R: Read> {
    inner: R,
    faults: u64,
    ended: bool,
    given: Record,
}

impl<R: Read> RecordedSource<R> {
    /// Over a reader, which gave nothing yet.
    pub fn new(inner: R) -> Self
        ensures asked { result.inner ≡ inner }
        ensures given { result.given.bytes ≡ [] }
        ensures faults { result.faults ≡ 0 }
        ensures ended { result.ended ≡ false }
    {
        RecordedSource {
            inner,
            faults: 0,
            ended: false,
            given: Record::new(),
        }
    }

    /// Reads the input into memory: to its end, or up to the first byte past a limit. The first read that fails ends it.
    pub fn take_in(&mut self, alloc: Global, limit: usize) -> Result<Bytes, InputFault>
        requires { limit < 2 ^ 31 }
        ensures answer { WasTakenIn limit self.old.given.bytes self.new.given.bytes self.old.faults self.new.faults self.new.ended result }
        ensures whole { IfOk result (λ bytes. length bytes ≤ limit → known.IsAtEnd (R.remaining self.new.inner)) }
        ensures asked { (part : List ℕ) → self.new.given.bytes ≡ self.old.given.bytes ++ part → Consumes (R.remaining self.old.inner) (R.remaining self.new.inner) part }
        ensures at_end { self.old.ended ≡ false → self.new.ended ≡ true → known.IsAtEnd (R.remaining self.new.inner) }
        ensures later { self.old.faults ≤ self.new.faults }
        ensures gave { (part : List ℕ) × (self.new.given.bytes ≡ self.old.given.bytes ++ part) }
    {
        let mut bytes = Bytes::new(alloc);
        let mut piece = [0u8; PIECE];
        'read: while bytes.as_slice().len() <= limit {
            let room = PIECE.min(limit + 1 - bytes.as_slice().len());
            match self.read(&mut piece[..room]) {
                Ok(0) => return Ok(bytes),
                Ok(count) => match bytes.extend(&piece[..count]) {
                    Ok(()) => {}
                    Err(_) => return Err(InputFault::Memory),
                },
                Err(_) => return Err(InputFault::SourceFault),
            }
        }
        Ok(bytes)
    }
}

/// As a source it tells nothing of what is to come.
impl<R: Read> Source for RecordedSource<R> {
    ghost left = { λ _. None };

    ghost faults = { λ s. s.faults };

    fn read(&mut self, into: &mut [u8]) -> Result<usize, Failed>
        ensures given { self.new.given.bytes ≡ self.old.given.bytes ++ moved result into.new }
        ensures ended { result ≡ Ok 0 → 0 < length into.new → self.new.ended ≡ true }
        ensures asked { Consumes (R.remaining self.old.inner) (R.remaining self.new.inner) (moved result into.new) }
        ensures at_end { result ≡ Ok 0 → 0 < length into.new → known.IsAtEnd (R.remaining self.new.inner) }
        ensures goes_on { IfOk result (λ k. 0 < k → self.new.ended ≡ false) }
        ensures kept { OnErr result (self.new.ended ≡ self.old.ended) }
        ensures count { IfOk result (λ k. k ≤ length into.new) }
        ensures bytes { Gave (λ _. None) self.old self.new (moved result into.new) }
        ensures end { result ≡ Ok 0 → 0 < length into.new → IsAtEnd (λ _. None) self.new }
        ensures calm { OnOk result (self.new.faults ≡ self.old.faults) }
        ensures cause { HasCause (λ s. s.faults) self.old self.new result }
    {
        match self.inner.read(into) {
            Ok(count) => {
                self.given.note(&into[..count]);
                self.ended = count == 0 && !into.is_empty();
                Ok(count)
            }
            Err(_) => {
                self.faults = self.faults.saturating_add(1);
                Err(Failed)
            }
        }
    }
}
