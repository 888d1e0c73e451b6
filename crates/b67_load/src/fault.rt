//! Why a program isn't admitted.

ghost use Rattle.std.specs.Prelude.{◌≡◌};
ghost use Rattle.b67_load.specs.declared.fault.LoadFault.TheVariants.{Memory};

use b67_word::Place;
use std::alloc::AllocError;
use thiserror::Error;

/// Why a program isn't admitted.
#[derive(Clone, Copy, Debug, PartialEq, Eq, Error)]
pub enum LoadFault {
    /// The first rule that is broken, by segment, then by place, then by rule. Segments are numbered from 1. Rules 9 and
    /// 10 stand at place 0:0, and rule 11 at the entry's; a program without segments breaks rule 10 at segment 0.
    ///
    /// 1. A place of the listing has no operator's first syllable.
    /// 2. An operator's syllables or its literal word run past the segment.
    /// 3. A branch goes to a place inside the segment at which no entry of the listing stands.
    /// 4. A branch goes to a word that isn't below the segment's length, or to syllable 6 or 7.
    /// 5. The last operator isn't BRUN, EXIT, RETN or NVLD.
    /// 6. A couple's level, split at the segment's level, is above the segment's level.
    /// 7. An MPCW literal has a bit outside syllable, word, level and segment, or names no segment.
    /// 8. An MPCW literal's level isn't the named segment's, or isn't one above that of the segment in which it stands, or
    ///    its place is neither 0:0 nor an entry of the named segment.
    /// 9. A segment's level is below 2 or above 31.
    /// 10. The first segment isn't of level 2, or there is none.
    /// 11. An entry of a segment isn't a place of its listing.
    #[error("segment {segment} breaks rule {reason} at {}:{}", .place.word, .place.syllable)]
    Refused {
        segment: u8,
        place: Place,
        reason: u8,
    },
    #[error("out of memory")]
    Memory,
}

impl From<AllocError> for LoadFault {
    ghost from_gives = { λ _ e. e ≡ Memory };

    fn from(_e: AllocError) -> LoadFault {
        LoadFault::Memory
    }
}
