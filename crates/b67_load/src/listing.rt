//! The listing of a segment.

ghost use Rattle.std.specs.Prelude.{◌≡◌, ◌<◌, ◌≤◌, map, length, IfOk};
ghost use Rattle.std.specs.List.{AllByRecursion};
ghost use Rattle.b67_word.specs.Tagged.{contents};
ghost use Rattle.b67_model.specs.Loader.{listing, is_start, is_last};
ghost use Rattle.b67_load.specs.Listing.{seen, CouplesFit};
ghost use Rattle.b67_model.specs.declared.limits.TheConstants.{MOST_SEGMENT};

use crate::entry::{Entry, count_at, entries_of, same_place, starts_of};
use b67_word::{Place, Word};
use std::alloc::{AllocError, Global};
use std::marker::Model;

/// The listing of a segment, with a mark at each syllable at which one of its entries stands. Contracts see the listing.
#[derive(Drop)]
pub(crate) struct Listing {
    entries: Vec<Entry>,
    starts: Vec<bool>,
}

impl Model for Listing {
    ghost use Rattle.std.specs.Prelude.{List, map};
    ghost use Rattle.b67_model.specs.Loader as loader;
    ghost use Rattle.b67_load.specs.Listing.{seen, IsListing};

    ghost Value = { List loader.Entry };

    ghost view = { λ x. map seen x.entries.items };

    ghost invariant = { λ x. IsListing x.starts.items (map seen x.entries.items) };
}

impl Listing {
    /// The listing of a segment's code.
    pub fn new(alloc: Global, code: &[Word]) -> Result<Listing, AllocError>
        requires { length code.now ≤ MOST_SEGMENT }
        ensures { IfOk result (λ entries. entries ≡ listing (contents code.now)) }
    {
        let entries = entries_of(alloc, code)?;
        let starts = starts_of(alloc, code.len(), &entries)?;
        Ok(Listing { entries, starts })
    }

    /// The operators of the segment, in order, each with its place.
    pub fn entries(&self) -> &[Entry]
        ensures same { map seen result.now ≡ self.now }
        ensures couples { AllByRecursion CouplesFit self.now }
    {
        self.entries.as_slice()
    }

    /// Whether an entry stands at a place.
    pub fn has_start(&self, place: Place) -> bool
        requires { place.syllable < 6 }
        ensures { result ≡ is_start self.now place }
    {
        self.starts.get(count_at(place)).copied().unwrap_or(false)
    }

    /// Whether the last entry stands at a place.
    pub fn is_last(&self, place: Place) -> bool
        ensures { result ≡ is_last self.now place }
    {
        match self.entries.last() {
            Some(entry) => same_place(entry.place, place),
            None => false,
        }
    }
}
