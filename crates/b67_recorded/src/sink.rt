//! A printer over any writer, which tells the bytes that the writer took.

ghost use Rattle.std.specs.Prelude.{◌≡◌, ◌<◌, ◌≤◌, Some, IfOk, OnOk, length};
ghost use Rattle.std.specs.Io.KnownBytes.{Appends};
ghost use Rattle.std.proofs.Props.{props};
ghost use Rattle.b67_io.specs.Told.{Took, moved};
ghost use Rattle.b67_io.specs.Causes.{HasCause};
ghost use Rattle.b67_recorded.specs.Telling.{AllTell, known};

use crate::record::Record;
use b67_io::Sink;
use b67_word::Failed;
use std::io::Write;

/// Any writer, as a printer. It tells the bytes for which the writer answered that it took them, in order; before them those that the writer held at first, if all writers of
/// its kind tell what they hold: then what is noted is what it holds.
#[derive(Drop)]
pub struct RecordedSink<W: Write> {
    inner: W,
    faults: u64,
    noted: Record,
    ghost told: { AllTell W.contents → W.contents inner ≡ Some noted.bytes } by { Prim.hlevel props },
}

impl<W: Write> RecordedSink<W> {
    ghost use Rattle.b67_recorded.specs.Taken.{recorded};

    /// Over a writer; nothing was taken yet.
    pub fn new(inner: W) -> Self
        ensures given { recorded result.noted ≡ Some (known (W.contents inner)) }
        ensures asked { result.inner ≡ inner }
    {
        let noted = Record::holding(&inner);
        RecordedSink {
            inner,
            faults: 0,
            noted,
        }
    }

    /// The writer, with what it took.
    pub fn into_inner(self) -> W
        ensures { result ≡ self.inner }
    {
        let RecordedSink {
            inner,
            faults: _,
            noted: _,
        } = self;
        inner
    }
}

impl<W: Write> Sink for RecordedSink<W> {
    ghost use Rattle.b67_recorded.specs.Taken.{recorded};

    ghost taken = { λ s. recorded s.noted };

    ghost faults = { λ s. s.faults };

    fn put(&mut self, piece: &[u8]) -> Result<usize, Failed>
        ensures count { IfOk result (λ k. (0 < k) × (k ≤ length piece.now)) }
        ensures bytes { Took (λ s. recorded s.noted) self.old self.new (moved result piece.now) }
        ensures calm { OnOk result (self.new.faults ≡ self.old.faults) }
        ensures cause { HasCause (λ s. s.faults) self.old self.new result }
        ensures asked { Appends (W.contents self.old.inner) (W.contents self.new.inner) (moved result piece.now) }
    {
        match self.inner.write(piece) {
            Ok(0) => {
                self.faults = self.faults.saturating_add(1);
                Err(Failed)
            }
            Ok(count) => {
                self.noted.note(&piece[..count]);
                Ok(count)
            }
            Err(_) => {
                self.faults = self.faults.saturating_add(1);
                Err(Failed)
            }
        }
    }
}
