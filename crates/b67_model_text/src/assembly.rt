//! Assembly: what its cards say.

use crate::text::Name;
use b67_model::Op;
use b67_word::{Couple, List};

/// The operators that name a cell.
#[derive(Clone, Copy, Debug)]
pub enum Call {
    Value,
    Name,
}

/// The operators that name a label.
#[derive(Clone, Copy, Debug)]
pub enum Branch {
    Always,
    IfTrue,
    IfFalse,
}

/// An operator as a card writes it.
#[derive(Drop)]
pub enum Sketch {
    Whole(Op),
    /// With a number out of its range.
    OutOfRange,
    /// A couple, unless a part of it is out of every range.
    Couple { call: Call, couple: Option<Couple> },
    /// A data row at level 1.
    Row { call: Call, row: Name },
    Jump { branch: Branch, label: Name },
    /// The procedure of a segment, from its first place.
    Pcw { segment: Name },
    /// The procedure of a segment, from an entry of it.
    PcwAt { segment: Name, label: Name },
}

/// Words of a data row, None for one out of its range.
pub type Values = List<Option<u64>>;

/// What a card says.
#[derive(Drop)]
pub enum Statement {
    /// Begins a segment, at no level where that is out of its range.
    Segment { name: Name, level: Option<u8> },
    Row { name: Name },
    /// One word of a data row or more.
    Values { first: Option<u64>, more: Values },
    Operator { label: Option<Name>, sketch: Sketch },
    /// Makes a label's place an entry of the current segment.
    Entry { label: Name },
}

/// What a card is by its first word.
#[derive(Clone, Copy, Debug, PartialEq, Eq)]
pub enum Kind {
    Segment,
    Row,
    Numbers,
    Entry,
    Operator,
}

/// A card that isn't ignored: its number, its kind, and what it says or the reason, 1 or 2, why it says nothing.
#[derive(Drop)]
pub struct Line {
    pub number: u32,
    pub kind: Kind,
    pub says: Result<Statement, u8>,
}

/// A list of such cards.
pub type Lines = List<Line>;

/// What a name means: a segment or a data row, by its place among those of its kind, counted from 0.
#[derive(Clone, Copy, Debug)]
pub enum Named {
    Segment { number: u32, level: Option<u8> },
    Row { number: u32 },
}
