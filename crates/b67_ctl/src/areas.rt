//! The words before and after an area of core.

ghost use Rattle.std.specs.Prelude.{◌≡◌, ◌↔◌, ◌+◌, ◌*◌, ◌^◌, ◌<◌, IsSome, IfSome, IsTrue};
ghost use Rattle.b67_ctl.specs.Areas.{area_head_word, IsAreaHead, area_tail_word, IsAreaTail};
ghost use Rattle.b67_ctl.specs.declared.areas.AreaHead.{AreaHead};
ghost use Rattle.b67_ctl.specs.declared.areas.AreaTail.{AreaTail};

use b67_word::Word;

/// The word before an area: its kind (0 an array, 1 a data row, 2 code), its words, and the core address of its
/// original or segment descriptor.
#[derive(Clone, Copy, Debug, PartialEq, Eq)]
pub struct AreaHead {
    pub kind: u8,
    pub words: u32,
    pub owner: u32,
}

/// The word after an area: its words, and the first sector that is kept for it, 0 for none.
#[derive(Clone, Copy, Debug, PartialEq, Eq)]
pub struct AreaTail {
    pub words: u32,
    pub kept: u32,
}

impl AreaHead {
    /// The word of a head that fits.
    pub fn word(self) -> Word
        requires { IsAreaHead self }
        ensures { result ≡ area_head_word self }
    {
        Word::of(
            3,
            u64::from(self.kind) * 0x4000_0000_0000
                + u64::from(self.words) * 0x10_0000
                + u64::from(self.owner),
        )
    }

    /// The word of a head. None if a field has too many bits, or if there is no such kind.
    pub fn to_word(self) -> Option<Word>
        ensures fits { IsSome result ↔ IsAreaHead self }
        ensures value { IfSome result (λ w. w ≡ area_head_word self) }
    {
        if self.kind < 3 && self.words < 0x10_0000 && self.owner < 0x10_0000 {
            Some(self.word())
        } else {
            None
        }
    }

    /// What the word of a head holds. The word is one: nothing is tested.
    #[inline(always)]
    pub fn read(w: Word) -> AreaHead
        ensures { (h : AreaHead) → IsAreaHead h → w ≡ area_head_word h → result ≡ h }
    {
        AreaHead {
            kind: w.part(46, 2) as u8,
            words: w.part(20, 20) as u32,
            owner: w.part(0, 20) as u32,
        }
    }

    /// What a head holds. None if the word is off its layout.
    pub fn from_word(w: Word) -> Option<AreaHead>
        ensures some { IfSome result (λ h. IsAreaHead h × (w ≡ area_head_word h)) }
        ensures known { (h : AreaHead) → IsAreaHead h → w ≡ area_head_word h → result ≡ Some h }
    {
        let kind = w.part(46, 2) as u8;
        if w.tag() == 3 && kind < 3 && w.part(40, 6) == 0 {
            Some(AreaHead {
                kind,
                words: w.part(20, 20) as u32,
                owner: w.part(0, 20) as u32,
            })
        } else {
            None
        }
    }
}

impl AreaTail {
    /// The word of a tail that fits.
    pub fn word(self) -> Word
        requires { IsAreaTail self }
        ensures { result ≡ area_tail_word self }
    {
        Word::of(3, u64::from(self.words) * 0x10_0000 + u64::from(self.kept))
    }

    /// The word of a tail. None if a field has too many bits.
    pub fn to_word(self) -> Option<Word>
        ensures fits { IsSome result ↔ IsAreaTail self }
        ensures value { IfSome result (λ w. w ≡ area_tail_word self) }
    {
        if self.words < 0x10_0000 && self.kept < 0x10_0000 {
            Some(self.word())
        } else {
            None
        }
    }

    /// What a tail holds. None if the word is off its layout.
    pub fn from_word(w: Word) -> Option<AreaTail>
        ensures some { IfSome result (λ t. IsAreaTail t × (w ≡ area_tail_word t)) }
        ensures known { (t : AreaTail) → IsAreaTail t → w ≡ area_tail_word t → result ≡ Some t }
    {
        if w.tag() == 3 && w.part(40, 8) == 0 {
            Some(AreaTail {
                words: w.part(20, 20) as u32,
                kept: w.part(0, 20) as u32,
            })
        } else {
            None
        }
    }
}
