//! A program's segments and data rows.

ghost use Rattle.std.specs.Prelude.{◌≡◌};
ghost use Rattle.b67_model.specs.Operators.{place_of_bits};

use b67_word::{List, Place, Words};

/// The further places at which procedures may begin in a segment, in their order. Each is written as a branch's 16 bits:
/// three of syllable, thirteen of word.
pub type Entries = List<u16>;

/// The place that an entry's 16 bits name.
pub fn place_of_entry(entry: u16) -> Place
    ensures { result ≡ place_of_bits entry }
{
    Place {
        word: entry % 0x2000,
        syllable: (entry / 0x2000) as u8,
    }
}

/// A segment: its level, its entries and its code, words of tag 3. Segments are numbered from 1 in the order of the file.
#[derive(Drop)]
pub struct Segment {
    pub level: u8,
    pub entries: Entries,
    pub code: Words,
}

/// A list of segments.
pub type Segments = List<Segment>;

/// A list of data rows, each a list of words of tag 0.
pub type Rows = List<Words>;

/// A program: its segments and its data rows. Its version, 1 or 2, says how it is spelled: only in version 2 may segments
/// have entries.
#[derive(Drop)]
pub struct Codefile {
    pub version: u8,
    pub segments: Segments,
    pub rows: Rows,
}
