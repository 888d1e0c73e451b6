//! Words as numbers: tag × 2^48 + bits.

ghost use Rattle.std.specs.Prelude.{◌≡◌, ◌<◌, ◌^◌};
ghost use Rattle.b67_word.specs.Numbers.{number};
ghost use Rattle.b67_core.specs.Numbers.{word_of};

use b67_word::{TAG_WEIGHT, Word};

/// The number of a word.
pub fn to_number(w: Word) -> u64
    ensures { result ≡ number w }
{
    u64::from(w.tag()) * TAG_WEIGHT + w.bits()
}

/// The word of a number with the tag and the bits of a word.
pub fn from_number(n: u64) -> Word
    requires { n < 2 ^ 51 }
    ensures { result ≡ word_of n }
{
    Word::of((n / TAG_WEIGHT) as u8, n % TAG_WEIGHT)
}
