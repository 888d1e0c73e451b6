//! Sums, differences and comparisons of numbers.

ghost use Rattle.std.specs.Prelude.{◌≡◌, ◌<◌, ◌^◌};
ghost use Rattle.b67_word.specs.Tagged.{word};
ghost use Rattle.b67_model.specs.Arithmetic as rows;
ghost use Rattle.b67_arith.specs.Numerics.{of_numbers};
ghost use Rattle.b67_arith.specs.OnWords.{on_words};

use crate::operands::{numbers, operand, truth_of};
use b67_word::{Fault, Word};

/// An operator on two numbers: a sum, a difference or a comparison.
#[derive(Clone, Copy, Debug, PartialEq, Eq)]
pub enum Numeric {
    Add,
    Subt,
    Less,
    Greq,
    Grtr,
    Lseq,
    Equl,
    Neql,
}

/// What an operator makes of two naturals below 2^39.
#[inline(always)]
fn combine_naturals(op: Numeric, x: u64, y: u64) -> Result<Word, Fault>
    requires first { x < 2 ^ 39 }
    requires second { y < 2 ^ 39 }
    ensures { result ≡ on_words (of_numbers op) (word 0 x) (word 0 y) }
{
    match op {
        Numeric::Add => {
            if x + y < 0x80_0000_0000 {
                Ok(Word::of(0, x + y))
            } else {
                Err(Fault::IntegerOverflow)
            }
        }
        Numeric::Subt => {
            if x >= y {
                Ok(Word::of(0, x - y))
            } else {
                Ok(Word::of(0, 0x4000_0000_0000 + (y - x)))
            }
        }
        Numeric::Less => Ok(truth_of(x < y)),
        Numeric::Greq => Ok(truth_of(x >= y)),
        Numeric::Grtr => Ok(truth_of(x > y)),
        Numeric::Lseq => Ok(truth_of(x <= y)),
        Numeric::Equl => Ok(truth_of(x == y)),
        Numeric::Neql => Ok(truth_of(x != y)),
    }
}

/// What an operator makes of the numbers of two operands. INVALID OPERAND, EXPONENT, INTEGER OVERFLOW, in this order. The
/// loop of a turn holds it, so it is one function that reads the numbers once, whatever the operator.
#[inline(always)]
pub fn combine(op: Numeric, a: Word, b: Word) -> Result<Word, Fault>
    ensures { result ≡ on_words (of_numbers op) a b }
{
    if a.is_natural() && b.is_natural() {
        return combine_naturals(op, a.bits(), b.bits());
    }
    let (x, y) = numbers(a, b)?;
    match op {
        Numeric::Add => operand(x + y),
        Numeric::Subt => operand(x - y),
        Numeric::Less => Ok(truth_of(x < y)),
        Numeric::Greq => Ok(truth_of(x >= y)),
        Numeric::Grtr => Ok(truth_of(x > y)),
        Numeric::Lseq => Ok(truth_of(x <= y)),
        Numeric::Equl => Ok(truth_of(x == y)),
        Numeric::Neql => Ok(truth_of(x != y)),
    }
}

/// a + b. INVALID OPERAND, EXPONENT, INTEGER OVERFLOW, in this order.
pub fn add(a: Word, b: Word) -> Result<Word, Fault>
    ensures { result ≡ on_words rows.add a b }
{
    combine(Numeric::Add, a, b)
}

/// a - b. INVALID OPERAND, EXPONENT, INTEGER OVERFLOW, in this order.
pub fn subt(a: Word, b: Word) -> Result<Word, Fault>
    ensures { result ≡ on_words rows.subt a b }
{
    combine(Numeric::Subt, a, b)
}

/// 1 if a < b, else 0. INVALID OPERAND, EXPONENT, in this order.
pub fn less(a: Word, b: Word) -> Result<Word, Fault>
    ensures { result ≡ on_words rows.less a b }
{
    combine(Numeric::Less, a, b)
}

/// 1 if a >= b, else 0. INVALID OPERAND, EXPONENT, in this order.
pub fn greq(a: Word, b: Word) -> Result<Word, Fault>
    ensures { result ≡ on_words rows.greq a b }
{
    combine(Numeric::Greq, a, b)
}

/// 1 if a > b, else 0. INVALID OPERAND, EXPONENT, in this order.
pub fn grtr(a: Word, b: Word) -> Result<Word, Fault>
    ensures { result ≡ on_words rows.grtr a b }
{
    combine(Numeric::Grtr, a, b)
}

/// 1 if a <= b, else 0. INVALID OPERAND, EXPONENT, in this order.
pub fn lseq(a: Word, b: Word) -> Result<Word, Fault>
    ensures { result ≡ on_words rows.lseq a b }
{
    combine(Numeric::Lseq, a, b)
}

/// 1 if a = b, where minus zero is 0, else 0. INVALID OPERAND, EXPONENT, in this order.
pub fn equl(a: Word, b: Word) -> Result<Word, Fault>
    ensures { result ≡ on_words rows.equl a b }
{
    combine(Numeric::Equl, a, b)
}

/// 1 if a and b differ, where minus zero is 0, else 0. INVALID OPERAND, EXPONENT, in this order.
pub fn neql(a: Word, b: Word) -> Result<Word, Fault>
    ensures { result ≡ on_words rows.neql a b }
{
    combine(Numeric::Neql, a, b)
}
