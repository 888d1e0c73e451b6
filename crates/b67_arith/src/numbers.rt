//! Products, quotients and the change of sign.

ghost use Rattle.std.specs.Prelude.{◌≡◌, ◌<◌, ◌^◌, nat_abs, int_div, int_rem};
ghost use Rattle.b67_model.specs.Arithmetic as rows;
ghost use Rattle.b67_arith.specs.OnWords.{on_word, on_words};

use crate::operands::{numbers, operand};
use b67_word::{Fault, Word};

/// a × b. INVALID OPERAND, EXPONENT, INTEGER OVERFLOW, in this order.
pub fn mult(a: Word, b: Word) -> Result<Word, Fault>
    ensures { result ≡ on_words rows.mult a b }
{
    let (x, y) = numbers(a, b)?;
    match x.checked_mul(y) {
        Some(product) => operand(product),
        None => Err(Fault::IntegerOverflow),
    }
}

fn quotient(x: i64, y: i64) -> Result<i64, Fault>
    requires { nat_abs x < 2 ^ 39 }
    ensures { result ≡ rows.divided int_div x y }
{
    if y == 0 {
        return Err(Fault::DivideByZero);
    }
    Ok(x / y)
}

/// The quotient, toward zero. INVALID OPERAND, EXPONENT, DIVIDE BY ZERO, in this order.
pub fn idiv(a: Word, b: Word) -> Result<Word, Fault>
    ensures { result ≡ on_words rows.idiv a b }
{
    let (x, y) = numbers(a, b)?;
    operand(quotient(x, y)?)
}

fn remainder(x: i64, y: i64) -> Result<i64, Fault>
    requires { nat_abs x < 2 ^ 39 }
    ensures { result ≡ rows.divided int_rem x y }
{
    if y == 0 {
        return Err(Fault::DivideByZero);
    }
    Ok(x % y)
}

/// The remainder a - b × (a IDIV b). INVALID OPERAND, EXPONENT, DIVIDE BY ZERO, in this order.
pub fn rdiv(a: Word, b: Word) -> Result<Word, Fault>
    ensures { result ≡ on_words rows.rdiv a b }
{
    let (x, y) = numbers(a, b)?;
    operand(remainder(x, y)?)
}

/// -a, 0 for 0. INVALID OPERAND, EXPONENT, in this order.
pub fn chsn(a: Word) -> Result<Word, Fault>
    ensures { result ≡ on_word rows.chsn a }
{
    let (x, _) = numbers(a, a)?;
    operand(-x)
}
