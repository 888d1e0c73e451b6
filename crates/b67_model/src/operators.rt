//! The operators of the machine, as code and definitions name them.

use b67_word::Place;

/// An operator without parameters.
#[derive(Clone, Copy, Debug, PartialEq, Eq)]
pub enum Code {
    Add,
    Subt,
    Mult,
    Idiv,
    Rdiv,
    Less,
    Greq,
    Grtr,
    Lseq,
    Equl,
    Neql,
    Chsn,
    Land,
    Lor,
    Leqv,
    Lnot,
    Same,
    Exit,
    Indx,
    Retn,
    Entr,
    Nxlv,
    Mkst,
    Stff,
    Zero,
    One,
    Push,
    Dlet,
    Exch,
    Dupl,
    Stod,
    Ston,
    Load,
    Noop,
    Nvld,
}

/// What an operator's name represents.
#[derive(Clone, Copy, Debug)]
pub enum Mnemonic {
    Plain(Code),
    Valc,
    Namc,
    Brun,
    Brtr,
    Brfl,
    Lt8,
    Lt16,
    Lt48,
    Mpcw,
    Bset,
    Brst,
    Isol,
    Insr,
}

/// The operators by their first syllables, with their names: VALC and NAMC have the 64 syllables from theirs on. Definitions and
/// code look them up here, or are proved to say the same; `tools/tables.py` makes all other lists of them from these lines.
pub const OPERATORS: [(u8, &[u8], Mnemonic); 48] = [
    (0x00, b"VALC", Mnemonic::Valc),
    (0x40, b"NAMC", Mnemonic::Namc),
    (0x80, b"ADD", Mnemonic::Plain(Code::Add)),
    (0x81, b"SUBT", Mnemonic::Plain(Code::Subt)),
    (0x82, b"MULT", Mnemonic::Plain(Code::Mult)),
    (0x84, b"IDIV", Mnemonic::Plain(Code::Idiv)),
    (0x85, b"RDIV", Mnemonic::Plain(Code::Rdiv)),
    (0x88, b"LESS", Mnemonic::Plain(Code::Less)),
    (0x89, b"GREQ", Mnemonic::Plain(Code::Greq)),
    (0x8A, b"GRTR", Mnemonic::Plain(Code::Grtr)),
    (0x8B, b"LSEQ", Mnemonic::Plain(Code::Lseq)),
    (0x8C, b"EQUL", Mnemonic::Plain(Code::Equl)),
    (0x8D, b"NEQL", Mnemonic::Plain(Code::Neql)),
    (0x8E, b"CHSN", Mnemonic::Plain(Code::Chsn)),
    (0x90, b"LAND", Mnemonic::Plain(Code::Land)),
    (0x91, b"LOR", Mnemonic::Plain(Code::Lor)),
    (0x92, b"LNOT", Mnemonic::Plain(Code::Lnot)),
    (0x93, b"LEQV", Mnemonic::Plain(Code::Leqv)),
    (0x94, b"SAME", Mnemonic::Plain(Code::Same)),
    (0x96, b"BSET", Mnemonic::Bset),
    (0x9A, b"ISOL", Mnemonic::Isol),
    (0x9C, b"INSR", Mnemonic::Insr),
    (0x9E, b"BRST", Mnemonic::Brst),
    (0xA0, b"BRFL", Mnemonic::Brfl),
    (0xA1, b"BRTR", Mnemonic::Brtr),
    (0xA2, b"BRUN", Mnemonic::Brun),
    (0xA3, b"EXIT", Mnemonic::Plain(Code::Exit)),
    (0xA6, b"INDX", Mnemonic::Plain(Code::Indx)),
    (0xA7, b"RETN", Mnemonic::Plain(Code::Retn)),
    (0xAB, b"ENTR", Mnemonic::Plain(Code::Entr)),
    (0xAD, b"NXLV", Mnemonic::Plain(Code::Nxlv)),
    (0xAE, b"MKST", Mnemonic::Plain(Code::Mkst)),
    (0xAF, b"STFF", Mnemonic::Plain(Code::Stff)),
    (0xB0, b"ZERO", Mnemonic::Plain(Code::Zero)),
    (0xB1, b"ONE", Mnemonic::Plain(Code::One)),
    (0xB2, b"LT8", Mnemonic::Lt8),
    (0xB3, b"LT16", Mnemonic::Lt16),
    (0xB4, b"PUSH", Mnemonic::Plain(Code::Push)),
    (0xB5, b"DLET", Mnemonic::Plain(Code::Dlet)),
    (0xB6, b"EXCH", Mnemonic::Plain(Code::Exch)),
    (0xB7, b"DUPL", Mnemonic::Plain(Code::Dupl)),
    (0xB8, b"STOD", Mnemonic::Plain(Code::Stod)),
    (0xB9, b"STON", Mnemonic::Plain(Code::Ston)),
    (0xBD, b"LOAD", Mnemonic::Plain(Code::Load)),
    (0xBE, b"LT48", Mnemonic::Lt48),
    (0xBF, b"MPCW", Mnemonic::Mpcw),
    (0xFE, b"NOOP", Mnemonic::Plain(Code::Noop)),
    (0xFF, b"NVLD", Mnemonic::Plain(Code::Nvld)),
];

/// An operator with its parameters.
#[derive(Clone, Copy, Debug, PartialEq, Eq)]
pub enum Op {
    Valc(u16),
    Namc(u16),
    Lt8(u8),
    Lt16(u16),
    Lt48(u64),
    Mpcw(u64),
    Brun(Place),
    Brtr(Place),
    Brfl(Place),
    Bset(u8),
    Brst(u8),
    Isol(u8, u8),
    Insr(u8, u8),
    Plain(Code),
}

/// Why no operator is read.
#[derive(Clone, Copy, Debug, PartialEq, Eq)]
pub enum Undecodable {
    BadPlace,
    NotAdmitted,
    PastEnd,
}
