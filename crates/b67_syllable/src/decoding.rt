//! The operator at a place of code.

ghost use Rattle.std.specs.Prelude.{◌≡◌, ◌+◌, ◌*◌, ◌/◌, ◌<◌, ◌≤◌, ◌^◌, ℕ, length, Some};
ghost use Rattle.b67_word.specs.Tagged.{contents};
ghost use Rattle.b67_model.specs.Operators.{syllable, form_of, operator_at, place_at, count_at};
ghost use Rattle.b67_syllable.specs.Kinds.{form, end_of, operator_of, target_at};
ghost use Rattle.b67_syllable.specs.Placed.{within_word};

use crate::kinds::{Kind, kind_of};
use b67_model::{Op, Undecodable};
use b67_word::{Place, Word};

/// Syllable `n` of code, counted from the first word's first.
#[inline(always)]
fn syllable_at(code: &[Word], n: usize) -> u8
    requires { n < 6 * length code.now }
    ensures { result ≡ syllable (contents code.now) n }
{
    let low = 8 * (5 - (n % 6) as u32);
    code[n / 6].part(low, 8) as u8
}

/// The syllable at a place of code.
#[inline(always)]
fn first_at(code: &[Word], at: Place) -> u8
    requires in_word { at.syllable < 6 }
    requires word { at.word < length code.now }
    ensures { result ≡ syllable (contents code.now) (count_at at) }
{
    let low = 8 * (5 - at.syllable as u32);
    code[at.word as usize].part(low, 8) as u8
}

/// The place after a syllable.
#[inline(always)]
fn place_behind(at: Place) -> Place
    requires in_word { at.syllable < 6 }
    requires word { at.word + 1 < 2 ^ 16 }
    ensures { result ≡ place_at (count_at at + 1) }
{
    if at.syllable < 5 {
        Place {
            word: at.word,
            syllable: at.syllable + 1,
        }
    } else {
        Place {
            word: at.word + 1,
            syllable: 0,
        }
    }
}

/// The syllable after an operator that begins at syllable `n`.
#[inline(always)]
fn end_at(n: usize, kind: Kind) -> usize
    requires { n < 2 ^ 32 }
    ensures { result ≡ end_of n (form kind) }
{
    match kind {
        Kind::Lone(_) => n + 1,
        Kind::ValueCall(_) | Kind::NameCall(_) | Kind::Literal8 | Kind::SetBit | Kind::ResetBit => {
            n + 2
        }
        Kind::Literal16
        | Kind::Isolate
        | Kind::Insert
        | Kind::BranchFalse
        | Kind::BranchTrue
        | Kind::Branch => n + 3,
        Kind::Literal48 | Kind::MakePcw => 6 * (n / 6 + 2),
    }
}

/// Two syllables, the first the higher.
#[inline(always)]
fn both(high: u8, low: u8) -> u16
    ensures { result ≡ high * 256 + low }
{
    u16::from(high) * 256 + u16::from(low)
}

/// The place that a branch's two syllables name.
#[inline(always)]
fn target(high: u8, low: u8) -> Place
    ensures { result ≡ target_at high low }
{
    Place {
        word: both(high % 32, low),
        syllable: high / 32,
    }
}

/// The operator of this kind that begins at syllable `n` of code and ends within it.
#[inline(always)]
fn operator_from(code: &[Word], n: usize, kind: Kind) -> Op
    requires within { end_of n (form kind) ≤ 6 * length code.now }
    requires small { n < 2 ^ 19 }
    ensures { result ≡ operator_of (contents code.now) n (form kind) }
{
    match kind {
        Kind::Lone(operator) => Op::Plain(operator),
        Kind::ValueCall(high) => Op::Valc(both(high, syllable_at(code, n + 1))),
        Kind::NameCall(high) => Op::Namc(both(high, syllable_at(code, n + 1))),
        Kind::Literal8 => Op::Lt8(syllable_at(code, n + 1)),
        Kind::SetBit => Op::Bset(syllable_at(code, n + 1)),
        Kind::ResetBit => Op::Brst(syllable_at(code, n + 1)),
        Kind::Literal16 => Op::Lt16(both(syllable_at(code, n + 1), syllable_at(code, n + 2))),
        Kind::Isolate => Op::Isol(syllable_at(code, n + 1), syllable_at(code, n + 2)),
        Kind::Insert => Op::Insr(syllable_at(code, n + 1), syllable_at(code, n + 2)),
        Kind::BranchFalse => Op::Brfl(target(syllable_at(code, n + 1), syllable_at(code, n + 2))),
        Kind::BranchTrue => Op::Brtr(target(syllable_at(code, n + 1), syllable_at(code, n + 2))),
        Kind::Branch => Op::Brun(target(syllable_at(code, n + 1), syllable_at(code, n + 2))),
        Kind::Literal48 => Op::Lt48(code[n / 6 + 1].bits()),
        Kind::MakePcw => Op::Mpcw(code[n / 6 + 1].bits()),
    }
}

/// A place as a number of syllables.
#[inline(always)]
fn count_of(at: Place) -> usize
    ensures value { result ≡ count_at at }
    ensures small { result < 2 ^ 19 }
{
    6 * usize::from(at.word) + usize::from(at.syllable)
}

#[inline(always)]
fn place_of(n: usize) -> Place
    requires { n < 6 * 2 ^ 16 }
    ensures { result ≡ place_at n }
{
    Place {
        word: (n / 6) as u16,
        syllable: (n % 6) as u8,
    }
}

/// How many syllables an operator of this kind has, 0 if its literal fills the next word.
#[inline(always)]
fn syllables_of(kind: Kind) -> u8
    ensures few { result ≤ 3 }
    ensures literal { (n : ℕ) → result ≡ 0 → end_of n (form kind) ≡ 6 * (n / 6 + 2) }
    ensures plain { (n : ℕ) → 0 < result → end_of n (form kind) ≡ n + result }
{
    match kind {
        Kind::Lone(_) => 1,
        Kind::ValueCall(_) | Kind::NameCall(_) | Kind::Literal8 | Kind::SetBit | Kind::ResetBit => {
            2
        }
        Kind::Literal16
        | Kind::Isolate
        | Kind::Insert
        | Kind::BranchFalse
        | Kind::BranchTrue
        | Kind::Branch => 3,
        Kind::Literal48 | Kind::MakePcw => 0,
    }
}

/// The place after an operator of this kind at a place.
#[inline(always)]
fn end_behind(at: Place, kind: Kind) -> Place
    requires in_word { at.syllable < 6 }
    requires word { at.word + 2 < 2 ^ 16 }
    ensures value { result ≡ place_at (end_of (count_at at) (form kind)) }
    ensures small { result.word < 2 ^ 16 }
{
    let more = syllables_of(kind);
    if more == 0 {
        return Place {
            word: at.word + 2,
            syllable: 0,
        };
    }
    let syllable = at.syllable + more;
    if syllable < 6 {
        Place {
            word: at.word,
            syllable,
        }
    } else {
        Place {
            word: at.word + 1,
            syllable: syllable - 6,
        }
    }
}

/// The operator of this kind at a place of code, which ends within it.
#[inline(always)]
fn operator_behind(code: &[Word], at: Place, kind: Kind) -> Op
    requires in_word { at.syllable < 6 }
    requires word { at.word + 2 < 2 ^ 16 }
    requires within { end_of (count_at at) (form kind) ≤ 6 * length code.now }
    ensures { result ≡ operator_of (contents code.now) (count_at at) (form kind) }
{
    let second = place_behind(at);
    let third = place_behind(second);
    match kind {
        Kind::Lone(operator) => Op::Plain(operator),
        Kind::ValueCall(high) => Op::Valc(both(high, first_at(code, second))),
        Kind::NameCall(high) => Op::Namc(both(high, first_at(code, second))),
        Kind::Literal8 => Op::Lt8(first_at(code, second)),
        Kind::SetBit => Op::Bset(first_at(code, second)),
        Kind::ResetBit => Op::Brst(first_at(code, second)),
        Kind::Literal16 => Op::Lt16(both(first_at(code, second), first_at(code, third))),
        Kind::Isolate => Op::Isol(first_at(code, second), first_at(code, third)),
        Kind::Insert => Op::Insr(first_at(code, second), first_at(code, third)),
        Kind::BranchFalse => Op::Brfl(target(first_at(code, second), first_at(code, third))),
        Kind::BranchTrue => Op::Brtr(target(first_at(code, second), first_at(code, third))),
        Kind::Branch => Op::Brun(target(first_at(code, second), first_at(code, third))),
        Kind::Literal48 => Op::Lt48(code[at.word as usize + 1].bits()),
        Kind::MakePcw => Op::Mpcw(code[at.word as usize + 1].bits()),
    }
}

/// As `operator_of_kind`, but by words and syllables: after each operator that may begin here there is a place.
#[inline(always)]
fn operator_near(code: &[Word], at: Place, kind: Kind) -> Result<(Op, Place), Undecodable>
    requires in_word { at.syllable < 6 }
    requires word { at.word < length code.now }
    requires small { at.word + 2 < 2 ^ 16 }
    requires begins { form_of (syllable (contents code.now) (count_at at)) ≡ Some (form kind) }
    ensures { result ≡ within_word (operator_at (contents code.now) at) }
{
    let end = end_behind(at, kind);
    if count_of(end) <= 6 * code.len() {
        Ok((operator_behind(code, at, kind), end))
    } else {
        Err(Undecodable::PastEnd)
    }
}

/// The operator at a place inside code where one of this kind begins.
#[inline(always)]
fn operator_of_kind(code: &[Word], at: Place, kind: Kind) -> Result<(Op, Place), Undecodable>
    requires in_word { at.syllable < 6 }
    requires word { at.word < length code.now }
    requires begins { form_of (syllable (contents code.now) (count_at at)) ≡ Some (form kind) }
    ensures { result ≡ within_word (operator_at (contents code.now) at) }
{
    let n = count_of(at);
    let end = end_at(n, kind);
    if end <= 6 * code.len() && end < 6 * 0x1_0000 {
        Ok((operator_from(code, n, kind), place_of(end)))
    } else {
        Err(Undecodable::PastEnd)
    }
}

/// The operator at a place of code, and the place after it. `BadPlace` exactly if `at` isn't inside the code, else
/// `NotAdmitted` exactly if no operator begins with its syllable, else `PastEnd` exactly if the operator needs more
/// than is there, or if no `Place` is after it, since its last word is word 65,535 or a later one.
#[inline(always)]
pub fn decode(code: &[Word], at: Place) -> Result<(Op, Place), Undecodable>
    ensures exact { result ≡ within_word (operator_at (contents code.now) at) }
    ensures segment { length code.now < 2 ^ 16 → result ≡ operator_at (contents code.now) at }
{
    if at.syllable >= 6 || at.word as usize >= code.len() {
        return Err(Undecodable::BadPlace);
    }
    let Some(kind) = kind_of(first_at(code, at)) else {
        return Err(Undecodable::NotAdmitted);
    };
    match kind {
        Kind::Lone(operator) if at.word < 0xffff => Ok((Op::Plain(operator), place_behind(at))),
        _ if at.word < 0xfffe => operator_near(code, at, kind),
        _ => operator_of_kind(code, at, kind),
    }
}

/// As `decode`, of the code of a segment, which has at most 8,191 words: there is a place after each of its operators.
#[inline(always)]
pub fn decode_in_segment(code: &[Word], at: Place) -> Result<(Op, Place), Undecodable>
    requires { length code.now < 2 ^ 13 }
    ensures { result ≡ operator_at (contents code.now) at }
{
    if at.word as usize >= code.len() || at.syllable >= 6 {
        return Err(Undecodable::BadPlace);
    }
    let Some(kind) = kind_of(first_at(code, at)) else {
        return Err(Undecodable::NotAdmitted);
    };
    match kind {
        Kind::Lone(operator) => Ok((Op::Plain(operator), place_behind(at))),
        _ => operator_near(code, at, kind),
    }
}
