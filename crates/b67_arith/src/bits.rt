//! Operations on the 48 bits of operands. Each may make any bits, an operand that isn't whole and minus zero too.

ghost use Rattle.std.specs.Prelude.{◌≡◌, ◌<◌, ◌≤◌, ◌+◌, ◌-◌, ◌*◌, ◌/◌, ◌%◌, ◌^◌};
ghost use Rattle.b67_model.specs.Arithmetic as rows;
ghost use Rattle.b67_arith.specs.OnWords.{on_word, on_words};

use crate::operands::{bits, truth_of};
use b67_word::{Fault, Word};

/// 48 ones.
const ONES: u64 = 0xffff_ffff_ffff;

/// The bits that are one in both. INVALID OPERAND.
pub fn land(a: Word, b: Word) -> Result<Word, Fault>
    ensures { result ≡ on_words rows.land a b }
{
    let x = bits(a)?;
    let y = bits(b)?;
    Ok(Word::of(0, x & y))
}

/// The bits that are one in either. INVALID OPERAND.
pub fn lor(a: Word, b: Word) -> Result<Word, Fault>
    ensures { result ≡ on_words rows.lor a b }
{
    let x = bits(a)?;
    let y = bits(b)?;
    Ok(Word::of(0, x | y))
}

/// The bits that are alike in both. INVALID OPERAND.
pub fn leqv(a: Word, b: Word) -> Result<Word, Fault>
    ensures { result ≡ on_words rows.leqv a b }
{
    let x = bits(a)?;
    let y = bits(b)?;
    Ok(Word::of(0, ONES - (x ^ y)))
}

/// 1 if all 48 bits are alike, else 0: minus zero isn't 0 here. INVALID OPERAND.
pub fn same(a: Word, b: Word) -> Result<Word, Fault>
    ensures { result ≡ on_words rows.same a b }
{
    let x = bits(a)?;
    let y = bits(b)?;
    Ok(truth_of(x == y))
}

/// The bits inverted. INVALID OPERAND.
pub fn lnot(a: Word) -> Result<Word, Fault>
    ensures { result ≡ on_word rows.lnot a }
{
    let x = bits(a)?;
    Ok(Word::of(0, ONES - x))
}

/// Sets bit `n`. INVALID OPERAND, also if `n` is past 47.
pub fn bset(a: Word, n: u8) -> Result<Word, Fault>
    ensures { result ≡ on_word (rows.bset n) a }
{
    let x = bits(a)?;
    if n > 47 {
        return Err(Fault::InvalidOperand);
    }
    let bit = 1u64 << n;
    Ok(Word::of(0, if (x >> n) % 2 == 0 { x + bit } else { x }))
}

/// Resets bit `n`. INVALID OPERAND, also if `n` is past 47.
pub fn brst(a: Word, n: u8) -> Result<Word, Fault>
    ensures { result ≡ on_word (rows.brst n) a }
{
    let x = bits(a)?;
    if n > 47 {
        return Err(Fault::InvalidOperand);
    }
    let bit = 1u64 << n;
    Ok(Word::of(0, if (x >> n) % 2 == 0 { x } else { x - bit }))
}

/// Bits `high` down to `high - width + 1` as a number. INVALID OPERAND, also if they aren't a field.
pub fn isol(a: Word, high: u8, width: u8) -> Result<Word, Fault>
    ensures { result ≡ on_word (rows.isol high width) a }
{
    bits(a)?;
    let field = a.field(high, width).ok_or(Fault::InvalidOperand)?;
    Ok(Word::of(0, field))
}

/// `x` with its bits `high` down to `high - width + 1` replaced by the low bits of `y`.
fn inserted(x: u64, y: u64, high: u8, width: u8) -> u64
    requires bits { x < 2 ^ 48 }
    requires high { high ≤ 47 }
    requires width { width ≤ high + 1 }
    ensures value { result ≡ x / 2 ^ (high + 1) * 2 ^ (high + 1) + y % 2 ^ width * 2 ^ (high + 1 - width) + x % 2 ^ (high + 1 - width) }
    ensures small { result < 2 ^ 48 }
{
    let above = high + 1;
    let low = above - width;
    (x >> above << above) + (y % (1 << width) << low) + x % (1 << low)
}

/// The field of `isol` in `a` replaced by the low bits of `b`. INVALID OPERAND, also if it isn't a field.
pub fn insr(a: Word, b: Word, high: u8, width: u8) -> Result<Word, Fault>
    ensures { result ≡ on_words (rows.insr high width) a b }
{
    let x = bits(a)?;
    let y = bits(b)?;
    if width == 0 || high > 47 || width > high + 1 {
        return Err(Fault::InvalidOperand);
    }
    Ok(Word::of(0, inserted(x, y, high, width)))
}
