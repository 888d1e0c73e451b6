//! The words at the base of an activation and of a stack.

ghost use Rattle.std.specs.Prelude.{◌≡◌, ◌↔◌, ◌+◌, ◌*◌, ◌^◌, ◌<◌, IsSome, IfSome, IsTrue};
ghost use Rattle.b67_ctl.specs.Layout.{mscw_word, IsMscw, rcw_word, IsRcw, toscw_word, IsToscw};
ghost use Rattle.b67_ctl.specs.declared.marks.Mscw.{Mscw};
ghost use Rattle.b67_ctl.specs.declared.marks.Rcw.{Rcw};
ghost use Rattle.b67_ctl.specs.declared.marks.Toscw.{Toscw};

use crate::programs::{place_fits, place_part};
use b67_word::{Place, Word};

/// A mark stack control word, the first word of an activation. `far`: its environment lies in another stack.
/// `entered`: the activation is entered, and not only marked. `env_stack` and `env_disp`: where the environment's mark
/// lies, by its stack's number and the displacement from that stack's base. `value`: the activation's result is wanted
/// as a value. `back`: the distance to the mark before, 0 for the bottom one.
#[derive(Clone, Copy, Debug, PartialEq, Eq)]
pub struct Mscw {
    pub far: bool,
    pub entered: bool,
    pub env_stack: u16,
    pub env_disp: u16,
    pub value: bool,
    pub level: u8,
    pub back: u16,
}

/// A return control word: the place and level at which the caller goes on, and its segment's displacement in the
/// dictionary. All are zero in a task's bottom activation.
#[derive(Clone, Copy, Debug, PartialEq, Eq)]
pub struct Rcw {
    pub place: Place,
    pub level: u8,
    pub segment: u16,
}

/// A top of stack control word, at the base of a stack whose task isn't running: the displacements of its top word and
/// of its last mark, and its level.
#[derive(Clone, Copy, Debug, PartialEq, Eq)]
pub struct Toscw {
    pub s: u16,
    pub level: u8,
    pub f: u16,
}

impl Mscw {
    /// The word of a mark that fits.
    #[inline(always)]
    pub fn word(self) -> Word
        requires { IsMscw self }
        ensures { result ≡ mscw_word self }
    {
        let flags = u64::from(self.far) * 2 + u64::from(self.entered);
        let env = u64::from(self.env_stack) * 0x1_0000 + u64::from(self.env_disp);
        let low = (u64::from(self.value) * 32 + u64::from(self.level)) * 0x4000
            + u64::from(self.back);
        Word::of(3, (flags * 0x400_0000 + env) * 0x10_0000 + low)
    }

    /// The word of a mark. None if a field has too many bits, or if one that is only marked has more than the distance.
    pub fn to_word(self) -> Option<Word>
        ensures fits { IsSome result ↔ IsMscw self }
        ensures value { IfSome result (λ w. w ≡ mscw_word self) }
    {
        let fits = self.env_stack < 0x400 && self.level < 32 && self.back < 0x4000;
        let bare = !self.far
            && self.env_stack == 0
            && self.env_disp == 0
            && !self.value
            && self.level == 0;
        if fits && (self.entered || bare) {
            Some(self.word())
        } else {
            None
        }
    }

    /// What the word of a mark holds. The word is one: nothing is tested.
    #[inline(always)]
    pub fn read(w: Word) -> Mscw
        ensures { (m : Mscw) → IsMscw m → w ≡ mscw_word m → result ≡ m }
    {
        Mscw {
            far: w.part(47, 1) == 1,
            entered: w.part(46, 1) == 1,
            env_stack: w.part(36, 10) as u16,
            env_disp: w.part(20, 16) as u16,
            value: w.part(19, 1) == 1,
            level: w.part(14, 5) as u8,
            back: w.part(0, 14) as u16,
        }
    }

    /// What a mark holds. None if the word is off its layout.
    pub fn from_word(w: Word) -> Option<Mscw>
        ensures some { IfSome result (λ m. IsMscw m × (w ≡ mscw_word m)) }
        ensures known { (m : Mscw) → IsMscw m → w ≡ mscw_word m → result ≡ Some m }
    {
        let m = Mscw {
            far: w.part(47, 1) == 1,
            entered: w.part(46, 1) == 1,
            env_stack: w.part(36, 10) as u16,
            env_disp: w.part(20, 16) as u16,
            value: w.part(19, 1) == 1,
            level: w.part(14, 5) as u8,
            back: w.part(0, 14) as u16,
        };
        if w.tag() == 3 && (m.entered || w.bits() < 0x4000) {
            Some(m)
        } else {
            None
        }
    }

    /// Whether a mark is that of an entered activation, by its word.
    pub fn is_entered(w: Word) -> bool
        ensures { (m : Mscw) → IsMscw m → w ≡ mscw_word m → result ≡ m.entered }
    {
        w.part(46, 1) == 1
    }
}

impl Rcw {
    /// The word of a return that fits.
    #[inline(always)]
    pub fn word(self) -> Word
        requires { IsRcw self }
        ensures { result ≡ rcw_word self }
    {
        Word::of(
            3,
            place_part(self.place) + u64::from(self.level) * 0x4000 + u64::from(self.segment),
        )
    }

    /// The word of a return. None if a field has too many bits.
    pub fn to_word(self) -> Option<Word>
        ensures fits { IsSome result ↔ IsRcw self }
        ensures value { IfSome result (λ w. w ≡ rcw_word self) }
    {
        if place_fits(self.place) && self.level < 32 && self.segment < 0x4000 {
            Some(self.word())
        } else {
            None
        }
    }

    /// What the word of a return holds. The word is one: nothing is tested.
    #[inline(always)]
    pub fn read(w: Word) -> Rcw
        ensures { (r : Rcw) → IsRcw r → w ≡ rcw_word r → result ≡ r }
    {
        Rcw {
            place: Place {
                word: w.part(20, 13) as u16,
                syllable: w.part(33, 3) as u8,
            },
            level: w.part(14, 5) as u8,
            segment: w.part(0, 14) as u16,
        }
    }

    /// What a return holds. None if the word is off its layout.
    pub fn from_word(w: Word) -> Option<Rcw>
        ensures some { IfSome result (λ r. IsRcw r × (w ≡ rcw_word r)) }
        ensures known { (r : Rcw) → IsRcw r → w ≡ rcw_word r → result ≡ Some r }
    {
        if w.tag() == 3 && w.part(36, 12) == 0 && w.part(19, 1) == 0 {
            Some(Rcw {
                place: Place {
                    word: w.part(20, 13) as u16,
                    syllable: w.part(33, 3) as u8,
                },
                level: w.part(14, 5) as u8,
                segment: w.part(0, 14) as u16,
            })
        } else {
            None
        }
    }
}

impl Toscw {
    /// The word of a top of stack that fits.
    pub fn word(self) -> Word
        requires { IsToscw self }
        ensures { result ≡ toscw_word self }
    {
        Word::of(
            3,
            u64::from(self.s) * 0x10_0000 + u64::from(self.level) * 0x4000 + u64::from(self.f),
        )
    }

    /// The word of a top of stack. None if a field has too many bits.
    pub fn to_word(self) -> Option<Word>
        ensures fits { IsSome result ↔ IsToscw self }
        ensures value { IfSome result (λ w. w ≡ toscw_word self) }
    {
        if self.level < 32 && self.f < 0x4000 {
            Some(self.word())
        } else {
            None
        }
    }

    /// What the word of a top of stack holds. The word is one: nothing is tested.
    pub fn read(w: Word) -> Toscw
        ensures { (t : Toscw) → IsToscw t → w ≡ toscw_word t → result ≡ t }
    {
        Toscw {
            s: w.part(20, 16) as u16,
            level: w.part(14, 5) as u8,
            f: w.part(0, 14) as u16,
        }
    }

    /// What a top of stack holds. None if the word is off its layout.
    pub fn from_word(w: Word) -> Option<Toscw>
        ensures some { IfSome result (λ t. IsToscw t × (w ≡ toscw_word t)) }
        ensures known { (t : Toscw) → IsToscw t → w ≡ toscw_word t → result ≡ Some t }
    {
        if w.tag() == 3 && w.part(36, 12) == 0 && w.part(19, 1) == 0 {
            Some(Toscw {
                s: w.part(20, 16) as u16,
                level: w.part(14, 5) as u8,
                f: w.part(0, 14) as u16,
            })
        } else {
            None
        }
    }
}
