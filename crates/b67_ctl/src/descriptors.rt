//! Descriptors of arrays and of segments.

ghost use Rattle.std.specs.Prelude.{◌≡◌, ◌≢◌, ◌↔◌, ◌+◌, ◌*◌, ◌^◌, ◌<◌, IsSome, IfSome, IsTrue, not, false};
ghost use Rattle.b67_ctl.specs.Descriptors.{data_word, IsDataDesc, seg_word, IsSegDesc};
ghost use Rattle.b67_ctl.specs.declared.descriptors.DataDesc.{DataDesc};
ghost use Rattle.b67_ctl.specs.declared.descriptors.SegDesc.{SegDesc};

use b67_word::Word;

/// A data descriptor. `length` is the index of an indexed one. `address`: the area of a present one; of an absent
/// original its first sector, of an absent copy its original's core address.
#[derive(Clone, Copy, Debug, PartialEq, Eq)]
pub struct DataDesc {
    pub present: bool,
    pub copy: bool,
    pub indexed: bool,
    pub read_only: bool,
    pub length: u32,
    pub address: u32,
}

/// A segment descriptor: the words of its code, and where they lie, in core or from a first sector on.
#[derive(Clone, Copy, Debug, PartialEq, Eq)]
pub struct SegDesc {
    pub present: bool,
    pub words: u32,
    pub address: u32,
}

impl DataDesc {
    /// The word of an original of `words` words. `address`: its area if it is present, else its first sector, 0 for none.
    pub fn original(present: bool, read_only: bool, words: u32, address: u32) -> Word
        requires words { words < 2 ^ 20 }
        requires address { address < 2 ^ 20 }
        ensures { result ≡ data_word (record { present = present; copy = false; indexed = false; read_only = read_only; length = words; address = address }) }
    {
        DataDesc {
            present,
            copy: false,
            indexed: false,
            read_only,
            length: words,
            address,
        }
        .word()
    }

    /// The word of a descriptor that fits.
    pub fn word(self) -> Word
        requires { IsDataDesc self }
        ensures { result ≡ data_word self }
    {
        let flags = u64::from(self.present) * 32
            + u64::from(self.copy) * 16
            + u64::from(self.indexed) * 8
            + u64::from(self.read_only) * 2;
        Word::of(
            5,
            flags * 0x400_0000_0000 + u64::from(self.length) * 0x10_0000 + u64::from(self.address),
        )
    }

    /// The word of a descriptor. None if a field has too many bits, or if an indexed one is no copy.
    pub fn to_word(self) -> Option<Word>
        ensures fits { IsSome result ↔ IsDataDesc self }
        ensures value { IfSome result (λ w. w ≡ data_word self) }
    {
        let fits = self.length < 0x10_0000 && self.address < 0x10_0000;
        if fits && (self.copy || !self.indexed) {
            Some(self.word())
        } else {
            None
        }
    }

    /// What the word of a descriptor holds. The word is one: nothing is tested.
    #[inline(always)]
    pub fn read(w: Word) -> DataDesc
        ensures { (d : DataDesc) → IsDataDesc d → w ≡ data_word d → result ≡ d }
    {
        DataDesc {
            present: w.part(47, 1) == 1,
            copy: w.part(46, 1) == 1,
            indexed: w.part(45, 1) == 1,
            read_only: w.part(43, 1) == 1,
            length: w.part(20, 20) as u32,
            address: w.part(0, 20) as u32,
        }
    }

    /// Whether a word is that of an original, which is never moved or copied.
    #[inline(always)]
    pub fn is_original(w: Word) -> bool
        ensures known { (d : DataDesc) → IsDataDesc d → w ≡ data_word d → result ≡ not d.copy }
        ensures other { w.tag ≢ 5 → result ≡ false }
    {
        w.tag() == 5 && w.part(46, 1) == 0
    }

    /// What a descriptor holds. None if the word is off its layout.
    pub fn from_word(w: Word) -> Option<DataDesc>
        ensures some { IfSome result (λ d. IsDataDesc d × (w ≡ data_word d)) }
        ensures known { (d : DataDesc) → IsDataDesc d → w ≡ data_word d → result ≡ Some d }
    {
        let d = DataDesc {
            present: w.part(47, 1) == 1,
            copy: w.part(46, 1) == 1,
            indexed: w.part(45, 1) == 1,
            read_only: w.part(43, 1) == 1,
            length: w.part(20, 20) as u32,
            address: w.part(0, 20) as u32,
        };
        if w.tag() == 5 && w.part(44, 1) == 0 && w.part(40, 3) == 0 && (d.copy || !d.indexed) {
            Some(d)
        } else {
            None
        }
    }
}

impl SegDesc {
    /// The word of a descriptor that fits.
    pub fn word(self) -> Word
        requires { IsSegDesc self }
        ensures { result ≡ seg_word self }
    {
        Word::of(
            3,
            u64::from(self.present) * 0x8000_0000_0000
                + u64::from(self.words) * 0x10_0000
                + u64::from(self.address),
        )
    }

    /// The word of a descriptor. None if a field has too many bits.
    pub fn to_word(self) -> Option<Word>
        ensures fits { IsSome result ↔ IsSegDesc self }
        ensures value { IfSome result (λ w. w ≡ seg_word self) }
    {
        if self.words < 0x10_0000 && self.address < 0x10_0000 {
            Some(self.word())
        } else {
            None
        }
    }

    /// What the word of a descriptor holds. The word is one: nothing is tested.
    #[inline(always)]
    pub fn read(w: Word) -> SegDesc
        ensures { (d : SegDesc) → IsSegDesc d → w ≡ seg_word d → result ≡ d }
    {
        SegDesc {
            present: w.part(47, 1) == 1,
            words: w.part(20, 20) as u32,
            address: w.part(0, 20) as u32,
        }
    }

    /// What a descriptor holds. None if the word is off its layout.
    pub fn from_word(w: Word) -> Option<SegDesc>
        ensures some { IfSome result (λ d. IsSegDesc d × (w ≡ seg_word d)) }
        ensures known { (d : SegDesc) → IsSegDesc d → w ≡ seg_word d → result ≡ Some d }
    {
        if w.tag() == 3 && w.part(40, 7) == 0 {
            Some(SegDesc {
                present: w.part(47, 1) == 1,
                words: w.part(20, 20) as u32,
                address: w.part(0, 20) as u32,
            })
        } else {
            None
        }
    }
}
