//! Program control words.

ghost use Rattle.std.specs.Prelude.{◌≡◌, ◌↔◌, ◌+◌, ◌*◌, ◌^◌, ◌<◌, IsSome, IfSome, IsTrue};
ghost use Rattle.b67_ctl.specs.Layout.{pcw_word, IsPcw, intrinsic_word, IsIntrinsicPcw, IsPlace, place_bits};
ghost use Rattle.b67_ctl.specs.declared.programs.Pcw.{Pcw};
ghost use Rattle.b67_ctl.specs.declared.programs.IntrinsicPcw.{IntrinsicPcw};

use b67_word::{Place, Word};

/// A program control word: where a procedure's code begins, its level, and its segment's displacement in the
/// dictionary.
#[derive(Clone, Copy, Debug, PartialEq, Eq)]
pub struct Pcw {
    pub place: Place,
    pub level: u8,
    pub segment: u16,
}

/// The program control word of an intrinsic procedure, by its number.
#[derive(Clone, Copy, Debug, PartialEq, Eq)]
pub struct IntrinsicPcw {
    pub number: u16,
}

/// A place has three bits of syllable and thirteen of word.
pub fn place_fits(p: Place) -> bool
    ensures { IsTrue result ↔ IsPlace p }
{
    p.syllable < 8 && p.word < 0x2000
}

/// A place in bits 35 to 20 of a word.
pub fn place_part(p: Place) -> u64
    requires { IsPlace p }
    ensures value { result ≡ place_bits p }
    ensures small { result < 2 ^ 36 }
{
    u64::from(p.syllable) * 0x2_0000_0000 + u64::from(p.word) * 0x10_0000
}

impl Pcw {
    /// The word of a procedure that fits.
    pub fn word(self) -> Word
        requires { IsPcw self }
        ensures { result ≡ pcw_word self }
    {
        Word::of(
            7,
            place_part(self.place) + u64::from(self.level) * 0x4000 + u64::from(self.segment),
        )
    }

    /// The word of a procedure. None if a field has too many bits.
    pub fn to_word(self) -> Option<Word>
        ensures fits { IsSome result ↔ IsPcw self }
        ensures value { IfSome result (λ w. w ≡ pcw_word self) }
    {
        if place_fits(self.place) && self.level < 32 && self.segment < 0x4000 {
            Some(self.word())
        } else {
            None
        }
    }

    /// What the word of a procedure holds. The word is one: nothing is tested.
    #[inline(always)]
    pub fn read(w: Word) -> Pcw
        ensures { (p : Pcw) → IsPcw p → w ≡ pcw_word p → result ≡ p }
    {
        Pcw {
            place: Place {
                word: w.part(20, 13) as u16,
                syllable: w.part(33, 3) as u8,
            },
            level: w.part(14, 5) as u8,
            segment: w.part(0, 14) as u16,
        }
    }

    /// What a procedure holds. None if the word is off its layout.
    pub fn from_word(w: Word) -> Option<Pcw>
        ensures some { IfSome result (λ p. IsPcw p × (w ≡ pcw_word p)) }
        ensures known { (p : Pcw) → IsPcw p → w ≡ pcw_word p → result ≡ Some p }
    {
        if w.tag() == 7 && w.part(36, 12) == 0 && w.part(19, 1) == 0 {
            Some(Pcw {
                place: Place {
                    word: w.part(20, 13) as u16,
                    syllable: w.part(33, 3) as u8,
                },
                level: w.part(14, 5) as u8,
                segment: w.part(0, 14) as u16,
            })
        } else {
            None
        }
    }
}

impl IntrinsicPcw {
    /// The word of an intrinsic that fits.
    pub fn word(self) -> Word
        requires { IsIntrinsicPcw self }
        ensures { result ≡ intrinsic_word self }
    {
        Word::of(7, 0x8_0000 + u64::from(self.number))
    }

    /// The word of an intrinsic. None if a field has too many bits.
    pub fn to_word(self) -> Option<Word>
        ensures fits { IsSome result ↔ IsIntrinsicPcw self }
        ensures value { IfSome result (λ w. w ≡ intrinsic_word self) }
    {
        if self.number < 0x4000 {
            Some(self.word())
        } else {
            None
        }
    }

    /// What an intrinsic holds. None if the word is off its layout.
    pub fn from_word(w: Word) -> Option<IntrinsicPcw>
        ensures some { IfSome result (λ p. IsIntrinsicPcw p × (w ≡ intrinsic_word p)) }
        ensures known { (p : IntrinsicPcw) → IsIntrinsicPcw p → w ≡ intrinsic_word p → result ≡ Some p }
    {
        if w.tag() == 7 && w.part(14, 34) == 32 {
            Some(IntrinsicPcw {
                number: w.part(0, 14) as u16,
            })
        } else {
            None
        }
    }
}
