//! What operators take from words and make of what they compute.

ghost use Rattle.std.specs.Prelude.{◌≡◌, ◌+◌, ◌*◌, ◌^◌, ◌<◌, nat_abs, IfOk};
ghost use Rattle.b67_word.specs.Tagged.{word};
ghost use Rattle.b67_word.specs.Operands.{is_whole, value_of};
ghost use Rattle.b67_model.specs.Words.{truth};
ghost use Rattle.b67_arith.specs.OnWords.{operand_bits, numbers_of_two, operand_word};

use b67_word::{Fault, Word};

/// The bits of an operand.
#[inline(always)]
pub fn bits(w: Word) -> Result<u64, Fault>
    ensures value { result ≡ operand_bits w }
    ensures small { IfOk result (λ n. n < 2 ^ 48) }
{
    if w.tag() == 0 {
        Ok(w.bits())
    } else {
        Err(Fault::InvalidOperand)
    }
}

/// Whether an operand's bits are a whole number's: there is no exponent.
#[inline(always)]
fn is_whole(w: Word) -> bool
    ensures { result ≡ is_whole w.bits }
{
    w.part(47, 1) == 0 && w.part(39, 7) == 0
}

/// The number of a whole operand, minus zero as 0.
#[inline(always)]
fn number(w: Word) -> i64
    ensures value { result ≡ value_of w.bits }
    ensures small { nat_abs result < 2 ^ 39 }
{
    let magnitude = w.part(0, 39) as i64;
    if w.part(46, 1) == 0 {
        magnitude
    } else {
        -magnitude
    }
}

/// The numbers of two operands.
#[inline(always)]
pub fn numbers(a: Word, b: Word) -> Result<(i64, i64), Fault>
    ensures value { result ≡ numbers_of_two a b }
    ensures small { IfOk result (λ p. (nat_abs p.0 < 2 ^ 39) × (nat_abs p.1 < 2 ^ 39)) }
{
    if a.tag() != 0 || b.tag() != 0 {
        return Err(Fault::InvalidOperand);
    }
    if !is_whole(a) || !is_whole(b) {
        return Err(Fault::Exponent);
    }
    Ok((number(a), number(b)))
}

/// The operand of a number, or INTEGER OVERFLOW.
#[inline(always)]
pub fn operand(v: i64) -> Result<Word, Fault>
    ensures { result ≡ operand_word v }
{
    Word::operand(v).ok_or(Fault::IntegerOverflow)
}

/// The operand 1 or 0.
#[inline(always)]
pub fn truth_of(holds: bool) -> Word
    ensures { result ≡ word 0 (truth holds) }
{
    Word::of(0, u64::from(holds))
}
