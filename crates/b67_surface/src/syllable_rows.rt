//! Rows of the format of code.

ghost use Rattle.std.specs.Prelude.{◌≡◌, IsTrue};
ghost use Rattle.b67_model.specs.Encoding.{has_bits};

use crate::given::same;
use arrayvec::ArrayVec;
use b67_syllable::{Code, Op, Undecodable, decode, encode};
use b67_word::{Place, Word};
use std::process::Abort;

fn at(word: u16, syllable: u8) -> Place
    ensures { result ≡ record { word = word; syllable = syllable } }
{
    Place { word, syllable }
}

/// MKST / NAMC 0,9 / LT8 2 / LT8 3 / ADD / ENTR / EXIT, and an LT48 without its word.
fn code() -> [Word; 3] {
    [
        Word::of(3, 0xae40_09b2_02b2),
        Word::of(3, 0x0380_aba3_ffff),
        Word::of(0, 0xffff_ffff_ffbe),
    ]
}

#[test]
fn reads_a_program(rt: HostRuntime) {
    let code = code();
    same(
        &rt,
        decode(&code, at(0, 0)),
        Ok((Op::Plain(Code::Mkst), at(0, 1))),
    );
    same(&rt, decode(&code, at(0, 1)), Ok((Op::Namc(9), at(0, 3))));
    same(&rt, decode(&code, at(0, 5)), Ok((Op::Lt8(3), at(1, 1))));
    same(
        &rt,
        decode(&code, at(1, 3)),
        Ok((Op::Plain(Code::Exit), at(1, 4))),
    );
}

#[test]
fn refuses_in_order(rt: HostRuntime) {
    let code = code();
    same(&rt, decode(&code, at(0, 6)), Err(Undecodable::BadPlace));
    same(&rt, decode(&code, at(0, 255)), Err(Undecodable::BadPlace));
    same(&rt, decode(&code, at(3, 0)), Err(Undecodable::BadPlace));
    same(&rt, decode(&[], at(0, 0)), Err(Undecodable::BadPlace));
    same(&rt, decode(&code, at(2, 5)), Err(Undecodable::PastEnd));
    let no_operator = [Word::of(0, 0x83)];
    same(
        &rt,
        decode(&no_operator, at(0, 5)),
        Err(Undecodable::NotAdmitted),
    );
}

fn is_spelled(rt: &impl Abort, op: Op, syllables: &[u8], literal: Option<u64>)
    requires { IsTrue (has_bits op) }
{
    let mut out = ArrayVec::new();
    same(rt, encode(op, &mut out), literal);
    same(rt, out.as_slice(), syllables);
}

#[test]
fn spells_operators(rt: HostRuntime) {
    is_spelled(&rt, Op::Valc(0x1005), &[0x10, 0x05], None);
    is_spelled(&rt, Op::Namc(9), &[0x40, 0x09], None);
    is_spelled(
        &rt,
        Op::Lt48(549_755_813_887),
        &[0xbe],
        Some(549_755_813_887),
    );
    is_spelled(&rt, Op::Brun(at(0, 1)), &[0xa2, 0x20, 0x00], None);
    is_spelled(&rt, Op::Plain(Code::Exit), &[0xa3], None);
}
