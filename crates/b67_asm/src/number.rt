ghost use Rattle.std.specs.Prelude.{◌≡◌, ◌+◌, ◌*◌, ◌^◌, ◌<◌, ◌≤◌, length, IfSome};
ghost use Rattle.b67_model_text.specs.Hex.{digit_value};
ghost use Rattle.b67_model_text.specs.Statements.{numeral_up_to, negative_bits, digit_bits, hex_bits, literal_bits};
ghost use Rattle.b67_asm.specs.Bounds.{IfInRange};

use b67_card::{are_hex_digits, digit_value, natural};
use b67_model::GREATEST;

// Numbers on assembly cards.

/// A numeral, and its number where that is within the range.
pub fn numeral_up_to(word: &[u8], high: u64) -> Option<Option<u64>>
    requires { high < 2 ^ 60 }
    ensures exact { result ≡ numeral_up_to high word.now }
    ensures within { IfInRange result (λ n. n ≤ high) }
{
    match natural(word) {
        Some(n) => { if n <= high { Some(Some(n)) } else { Some(None) } }
        None => None,
    }
}

fn negative_bits(magnitude: Option<u64>) -> Option<Option<u64>>
    requires { IfSome magnitude (λ n. n < 2 ^ 46) }
    ensures exact { result ≡ negative_bits magnitude }
    ensures within { IfInRange result (λ n. n < 2 ^ 48) }
{
    match magnitude {
        None => Some(None),
        Some(0) => None,
        Some(n) => Some(Some(0x4000_0000_0000 + n)),
    }
}

fn digit_bits(digits: &[u8]) -> u64
    requires { length digits.now ≤ 12 }
    ensures exact { result ≡ digit_bits digits.now }
    ensures within { result < 2 ^ 48 }
{
    let mut bits: u64 = 0;
    for digit in digits {
        bits = 16 * bits + u64::from(digit_value(*digit));
    }
    bits
}

fn hex_bits(digits: &[u8]) -> Option<Option<u64>>
    ensures exact { result ≡ hex_bits digits.now }
    ensures within { IfInRange result (λ n. n < 2 ^ 48) }
{
    if digits.len() == 12 && are_hex_digits(digits) {
        Some(Some(digit_bits(digits)))
    } else {
        None
    }
}

/// The bits of a whole number, or of # and twelve hexadecimal digits.
pub fn bits_in(word: &[u8]) -> Option<Option<u64>>
    ensures exact { result ≡ literal_bits word.now }
    ensures within { IfInRange result (λ n. n < 2 ^ 48) }
{
    match word {
        [] => None,
        [b'#', digits @ ..] => hex_bits(digits),
        [b'-', digits @ ..] => match numeral_up_to(digits, GREATEST) {
            Some(magnitude) => negative_bits(magnitude),
            None => None,
        },
        _ => numeral_up_to(word, GREATEST),
    }
}
