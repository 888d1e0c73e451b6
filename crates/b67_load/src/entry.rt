//! The operators of a segment's code, each after the one before, up to the end or to a place at which none can be read.

ghost use Rattle.std.specs.Prelude.{◌≡◌, ◌+◌, ◌*◌, ◌<◌, ◌≤◌, map, length, IfOk};
ghost use Rattle.std.specs.List.{AllByRecursion};
ghost use Rattle.b67_word.specs.Tagged.{contents};
ghost use Rattle.b67_model.specs.Operators.{count_at};
ghost use Rattle.b67_model.specs.Loader.{listing, same_place};
ghost use Rattle.b67_load.specs.Listing.{seen, IsInside, Marks};
ghost use Rattle.b67_model.specs.declared.limits.TheConstants.{MOST_SEGMENT};

use b67_syllable::{Op, Undecodable, decode};
use b67_word::{Place, Word};
use std::alloc::{AllocError, Global};

/// The first place of a segment.
pub(crate) const ORIGIN: Place = Place {
    word: 0,
    syllable: 0,
};

/// An operator at its place, or why none can be read there.
#[derive(Clone, Copy, Debug)]
pub struct Entry {
    pub place: Place,
    pub read: Result<Op, Undecodable>,
}

pub(crate) fn same_place(a: Place, b: Place) -> bool
    ensures { result ≡ same_place a b }
{
    a.word == b.word && a.syllable == b.syllable
}

/// The number of syllables before a place.
pub(crate) fn count_at(place: Place) -> usize
    ensures { result ≡ count_at place }
{
    6 * usize::from(place.word) + usize::from(place.syllable)
}

/// The listing of a segment's code.
pub fn entries_of(alloc: Global, code: &[Word]) -> Result<Vec<Entry>, AllocError>
    requires { length code.now ≤ MOST_SEGMENT }
    ensures { IfOk result (λ entries. map seen entries.items ≡ listing (contents code.now)) }
{
    let mut entries = Vec::new(alloc);
    let mut at = ORIGIN;
    'entries: while usize::from(at.word) < code.len() {
        match decode(code, at) {
            Ok((op, next)) => {
                entries.push(Entry {
                    place: at,
                    read: Ok(op),
                })?;
                at = next;
            }
            Err(why) => {
                entries.push(Entry {
                    place: at,
                    read: Err(why),
                })?;
                return Ok(entries);
            }
        }
    }
    Ok(entries)
}

/// For each syllable of a segment of this many words whether an entry stands there.
pub(crate) fn starts_of(
    alloc: Global,
    words: usize,
    entries: &[Entry],
) -> Result<Vec<bool>, AllocError>
    requires few { words ≤ MOST_SEGMENT }
    requires inside { AllByRecursion (IsInside words) (map seen entries.now) }
    ensures { IfOk result (λ starts. Marks starts.items (map seen entries.now)) }
{
    let mut starts = vec![in alloc; false; 6 * words]?;
    'entries: for entry in entries {
        starts[count_at(entry.place)] = true;
    }
    Ok(starts)
}
