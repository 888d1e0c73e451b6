//! The machine's words.

ghost use Rattle.std.specs.Prelude.{◌≡◌, ◌↔◌, ◌+◌, ◌<◌, ◌≤◌, ◌^◌, IsSome, IfSome, true};
ghost use Rattle.b67_word.specs.Tagged.{word, bits_at, field_of, IsWord};
ghost use Rattle.b67_word.specs.Operands.{operand_of, number_of};

use std::marker::Model;

/// What a tag of 1 weighs in a word: one more than the greatest number that its 48 bits hold.
pub const TAG_WEIGHT: u64 = 0x1_0000_0000_0000;

/// A word: a tag of 0 to 7 and 48 bits.
#[derive(Clone, Copy, Debug, PartialEq, Eq)]
pub struct Word(u64);

impl Model for Word {
    ghost use Rattle.std.specs.Prelude.{◌+◌, ◌*◌, ◌/◌, ◌%◌, ◌^◌, ◌<◌};
    ghost use Rattle.b67_word.specs.Tagged.{Tagged};
    ghost use Rattle.b67_word.specs.Packed.{packed};

    ghost Value = { Tagged };

    ghost view = { λ w. record { tag = w.0 / 2 ^ 48; bits = w.0 % 2 ^ 48 } };

    ghost invariant = { λ w. w.0 < 2 ^ 51 };

    ghost inverse = { λ t. record { 0 = t.tag * 2 ^ 48 + t.bits } };

    ghost inverse_ok = { λ a h. packed a };
}

impl Word {
    /// The word of a tag and bits.
    pub fn new(tag: u8, bits: u64) -> Option<Word>
        ensures fits { IsSome result ↔ (IsWord (word tag bits)) }
        ensures value { IfSome result (λ w. w ≡ word tag bits) }
    {
        if tag < 8 && bits < TAG_WEIGHT {
            Some(Word(u64::from(tag) * TAG_WEIGHT + bits))
        } else {
            None
        }
    }

    /// The word of a tag and bits that fit.
    pub fn of(tag: u8, bits: u64) -> Word
        requires { IsWord (word tag bits) }
        ensures { result ≡ word tag bits }
    {
        Word(u64::from(tag) * TAG_WEIGHT + bits)
    }

    /// The tag, below 8.
    pub fn tag(self) -> u8
        ensures value { result ≡ self.tag }
        ensures small { result < 8 }
    {
        (self.0 / TAG_WEIGHT) as u8
    }

    /// The 48 bits of the word, as a number.
    pub fn bits(self) -> u64
        ensures value { result ≡ self.bits }
        ensures small { result < 2 ^ 48 }
    {
        self.0 % TAG_WEIGHT
    }

    /// Whether it is the operand of a natural number: the tag is 0, and of the bits only 38 to 0 are set.
    #[inline(always)]
    pub fn is_natural(self) -> bool
        ensures { result ≡ true → (self.tag ≡ 0) × (self.bits < 2 ^ 39) }
    {
        self.0 < 0x80_0000_0000
    }

    /// The number in `width` bits from bit `low` up.
    pub fn part(self, low: u32, width: u32) -> u64
        requires { low + width ≤ 48 }
        ensures value { result ≡ bits_at self low width }
        ensures small { result < 2 ^ width }
    {
        (self.bits() >> low) % (1u64 << width)
    }

    /// Bits `high` down to `high - width + 1` as a number. None if they aren't a field: `high` is past 47, `width`
    /// is 0, or the field would go on below bit 0.
    pub fn field(self, high: u8, width: u8) -> Option<u64>
        ensures { result ≡ field_of self high width }
    {
        if width > 0 && high <= 47 && width <= high + 1 {
            Some(self.part(u32::from(high + 1 - width), u32::from(width)))
        } else {
            None
        }
    }

    /// The operand of a number. None past 549,755,813,887 in magnitude, which the 39 bits of a mantissa don't hold.
    pub fn operand(v: i64) -> Option<Word>
        ensures { result ≡ operand_of v }
    {
        let magnitude = v.unsigned_abs();
        if magnitude >= 0x80_0000_0000 {
            None
        } else if v < 0 {
            Some(Word::of(0, 0x4000_0000_0000 + magnitude))
        } else {
            Some(Word::of(0, magnitude))
        }
    }

    /// The number of a whole operand, minus zero as 0. None if the word isn't an operand or has an exponent.
    pub fn value(self) -> Option<i64>
        ensures { result ≡ number_of self }
    {
        if self.tag() != 0 || self.part(47, 1) != 0 || self.part(39, 7) != 0 {
            return None;
        }
        let magnitude = self.part(0, 39) as i64;
        if self.part(46, 1) == 0 {
            Some(magnitude)
        } else {
            Some(-magnitude)
        }
    }
}
