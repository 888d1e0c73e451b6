//! What areas hold.

ghost use Rattle.std.specs.Prelude.{◌≡◌, ◌^◌, ◌<◌};
ghost use Rattle.b67_area.specs.Words.{kind_number, head_word, tail_word};

use b67_ctl::{AreaHead, AreaTail};
use b67_word::Word;

/// What an area holds.
#[derive(Clone, Copy, Debug, PartialEq, Eq)]
pub enum Kind {
    Array,
    Row,
    Code,
}

/// What is known of an area: its words, the core address of its original or segment descriptor, and the first sector that is
/// kept for it, 0 for none.
#[derive(Clone, Copy, Debug, PartialEq, Eq)]
pub struct Info {
    pub kind: Kind,
    pub words: u32,
    pub owner: u32,
    pub kept: u32,
}

impl Kind {
    fn number(self) -> u8
        ensures value { result ≡ kind_number self }
        ensures small { result < 3 }
    {
        match self {
            Kind::Array => 0,
            Kind::Row => 1,
            Kind::Code => 2,
        }
    }
}

impl Info {
    /// The head word of an area.
    pub fn head(self) -> Word
        requires words { self.words < 2 ^ 20 }
        requires owner { self.owner < 2 ^ 20 }
        ensures { result ≡ head_word self }
    {
        AreaHead {
            kind: self.kind.number(),
            words: self.words,
            owner: self.owner,
        }
        .word()
    }

    /// The tail word of an area.
    pub fn tail(self) -> Word
        requires words { self.words < 2 ^ 20 }
        requires kept { self.kept < 2 ^ 20 }
        ensures { result ≡ tail_word self }
    {
        AreaTail {
            words: self.words,
            kept: self.kept,
        }
        .word()
    }
}
