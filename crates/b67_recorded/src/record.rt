//! What only clauses read: bytes, and texts.

ghost use Rattle.std.specs.Prelude.{◌≡◌, ◌∷◌, ◌++◌, ℕ, List, []};
ghost use Rattle.std.specs.Borrow.{ftrue};
ghost use Rattle.b67_recorded.specs.Telling.{known};

use std::io::Write;
use std::marker::{Model, PhantomData};

/// Bytes that were noted. It takes no memory.
#[derive(Drop)]
pub struct Record {
    marker: PhantomData<u8>,
    pub ghost bytes: { List ℕ },
}

impl Model for Record {
    ghost also_owns = { λ _. ftrue };
}

impl Record {
    /// None was noted.
    pub(crate) fn new() -> Record
        ensures { result.bytes ≡ [] }
    {
        Record {
            marker: PhantomData,
        }
    }

    /// What a writer holds is noted, or nothing if it doesn't tell that.
    pub(crate) fn holding<W: Write>(_writer: &W) -> Record
        ensures { result.bytes ≡ known (W.contents _writer.now) }
    {
        Record {
            marker: PhantomData,
        }
    }

    /// Notes these.
    pub(crate) fn note(&mut self, _bytes: &[u8])
        ensures { self.new.bytes ≡ self.old.bytes ++ _bytes.now }
    {}
}

/// Texts that were noted, the first one first. It takes no memory.
#[derive(Drop)]
pub struct Texts {
    marker: PhantomData<u8>,
    pub ghost texts: { List (List ℕ) },
}

impl Model for Texts {
    ghost also_owns = { λ _. ftrue };
}

impl Texts {
    /// None was noted.
    pub(crate) fn new() -> Texts
        ensures { result.texts ≡ [] }
    {
        Texts {
            marker: PhantomData,
        }
    }

    /// Notes this one.
    pub(crate) fn note(&mut self, _text: &[u8])
        ensures { self.new.texts ≡ self.old.texts ++ _text.now ∷ [] }
    {}
}
