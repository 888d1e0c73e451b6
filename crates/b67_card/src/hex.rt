//! Bytes as pairs of hexadecimal digits.

ghost use Rattle.std.specs.Prelude.{◌≡◌, ◌≤◌, ◌++◌, ◌==◌, ◌&&◌, ◌%◌, OnOk, IfSome, is_some, unwrap_or, length};
ghost use Rattle.std.specs.List.{list_all};
ghost use Rattle.b67_model_text.specs.Hex.{hex_digit, digit_value, is_hex, digit_bytes};

use b67_word::Bytes;
use std::alloc::AllocError;

fn hex_digit(b: u8) -> Option<u8>
    ensures exact { result ≡ hex_digit b }
    ensures small { IfSome result (λ d. d ≤ 15) }
{
    match b {
        b'0'..=b'9' => Some(b - b'0'),
        b'A'..=b'F' => Some(b - b'A' + 10),
        b'a'..=b'f' => Some(b - b'a' + 10),
        _ => None,
    }
}

/// The value of a hexadecimal digit, 0 of another character.
pub fn digit_value(b: u8) -> u8
    ensures exact { result ≡ digit_value b }
    ensures small { result ≤ 15 }
{
    match hex_digit(b) {
        Some(d) => d,
        None => 0,
    }
}

fn is_hex_digit(b: u8) -> bool
    ensures { result ≡ is_some (hex_digit b) }
{
    hex_digit(b).is_some()
}

/// Whether all characters of a text are hexadecimal digits.
pub fn are_hex_digits(text: &[u8]) -> bool
    ensures { result ≡ list_all (λ b. is_some (hex_digit b)) text.now }
{
    text.iter().all(|b| is_hex_digit(*b))
}

/// Whether a text is an even number of hexadecimal digits.
pub fn is_hex(text: &[u8]) -> bool
    ensures { result ≡ is_hex text.now }
{
    text.len() % 2 == 0 && are_hex_digits(text)
}

/// Appends the bytes whose digits these are.
#[tactic(auto, using(crate::proofs::Digits::two_digits, crate::proofs::Digits::no_two_digits))]
pub fn put_digits(text: &[u8], into: &mut Bytes) -> Result<(), AllocError>
    ensures { OnOk result (into.new ≡ into.old ++ digit_bytes text.now) }
{
    let mut rest = text;
    while let [high, low, more @ ..] = rest {
        into.push(16 * digit_value(*high) + digit_value(*low))?;
        rest = more;
    }
    Ok(())
}
