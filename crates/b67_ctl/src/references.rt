//! Reference words.

ghost use Rattle.std.specs.Prelude.{◌≡◌, ◌↔◌, ◌+◌, ◌*◌, ◌^◌, ◌<◌, IsSome, IfSome, IsTrue};
ghost use Rattle.b67_ctl.specs.Layout.{irw_word, IsIrw, sirw_word, IsSirw};
ghost use Rattle.b67_ctl.specs.declared.references.Irw.{Irw};
ghost use Rattle.b67_ctl.specs.declared.references.Sirw.{Sirw};

use b67_word::Word;

/// An indirect reference word: the 14 bits of a couple, as in the code.
#[derive(Clone, Copy, Debug, PartialEq, Eq)]
pub struct Irw {
    pub couple: u16,
}

/// A stuffed indirect reference word: a stack's number, the displacement of an activation's mark from that stack's
/// base, and the offset of a cell from the mark.
#[derive(Clone, Copy, Debug, PartialEq, Eq)]
pub struct Sirw {
    pub stack: u16,
    pub disp: u16,
    pub offset: u16,
}

impl Irw {
    /// The word of a couple that fits.
    pub fn word(self) -> Word
        requires { IsIrw self }
        ensures { result ≡ irw_word self }
    {
        Word::of(1, u64::from(self.couple))
    }

    /// The word of a couple. None if a field has too many bits.
    pub fn to_word(self) -> Option<Word>
        ensures fits { IsSome result ↔ IsIrw self }
        ensures value { IfSome result (λ w. w ≡ irw_word self) }
    {
        if self.couple < 0x4000 {
            Some(self.word())
        } else {
            None
        }
    }

    /// What a couple holds. None if the word is off its layout.
    pub fn from_word(w: Word) -> Option<Irw>
        ensures some { IfSome result (λ r. IsIrw r × (w ≡ irw_word r)) }
        ensures known { (r : Irw) → IsIrw r → w ≡ irw_word r → result ≡ Some r }
    {
        if w.tag() == 1 && w.bits() < 0x4000 {
            Some(Irw {
                couple: w.bits() as u16,
            })
        } else {
            None
        }
    }
}

impl Sirw {
    /// The word of a reference that fits.
    pub fn word(self) -> Word
        requires { IsSirw self }
        ensures { result ≡ sirw_word self }
    {
        Word::of(
            1,
            (0x400 + u64::from(self.stack)) * 0x10_0000_0000
                + u64::from(self.disp) * 0x10_0000
                + u64::from(self.offset),
        )
    }

    /// The word of a reference. None if a field has too many bits.
    pub fn to_word(self) -> Option<Word>
        ensures fits { IsSome result ↔ IsSirw self }
        ensures value { IfSome result (λ w. w ≡ sirw_word self) }
    {
        if self.stack < 0x400 && self.offset < 0x2000 {
            Some(self.word())
        } else {
            None
        }
    }

    /// What the word of a reference holds. The word is one: nothing is tested.
    pub fn read(w: Word) -> Sirw
        ensures { (r : Sirw) → IsSirw r → w ≡ sirw_word r → result ≡ r }
    {
        Sirw {
            stack: w.part(36, 10) as u16,
            disp: w.part(20, 16) as u16,
            offset: w.part(0, 13) as u16,
        }
    }

    /// What a reference holds. None if the word is off its layout.
    pub fn from_word(w: Word) -> Option<Sirw>
        ensures some { IfSome result (λ r. IsSirw r × (w ≡ sirw_word r)) }
        ensures known { (r : Sirw) → IsSirw r → w ≡ sirw_word r → result ≡ Some r }
    {
        if w.tag() == 1 && w.part(46, 2) == 1 && w.part(13, 7) == 0 {
            Some(Sirw {
                stack: w.part(36, 10) as u16,
                disp: w.part(20, 16) as u16,
                offset: w.part(0, 13) as u16,
            })
        } else {
            None
        }
    }
}
