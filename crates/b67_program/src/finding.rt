//! A search through the run of a deck, over memory.

ghost use Rattle.std.specs.Prelude.{◌≡◌};
ghost use Rattle.b67_program.specs.Found.{IsFoundInMemory, find_status};

use crate::in_memory::tape_of;
use b67_backing::HonestBacking;
use b67_job::{CodePlace, SearchFault, Sought, find_in_deck, search_status};
use b67_model::{LEAST_CORE, MOST_CORE, MOST_SECTORS};
use std::alloc::Global;

/// Why a search over memory answers nothing: the search's own reason; memory was refused for its text or its sectors; or there is no
/// core of so many words, or no device of so many sectors.
#[derive(Clone, Copy, Debug)]
pub enum FindFault {
    Search(SearchFault),
    Memory,
    OutOfBounds,
}

impl FindFault {
    /// The status that a page is told, as `run` has them: 2 a refused deck, 4 a core that is too small, 5 too few sectors, 6 a backing,
    /// 7 a source and 8 a printer that failed, 9 out of memory, 255 out of bounds.
    pub fn status(self) -> u8
        ensures { result ≡ find_status self }
    {
        match self {
            FindFault::Search(fault) => search_status(fault),
            FindFault::Memory => 9,
            FindFault::OutOfBounds => 255,
        }
    }
}

/// Finds the least count of operators from `from` on, below `most` and before the halt, at which what is sought holds of the next
/// operator of the text's deck, in a core of `core` words over so many sectors of zeros. None where it holds at no such count, and
/// that core has the words of all steps up to them.
pub fn find_in_memory(
    alloc: Global,
    text: &[u8],
    core: u32,
    sectors: u32,
    what: Sought,
    places: &[CodePlace],
    from: u64,
    most: u64,
) -> Result<Option<u64>, FindFault>
    ensures { IsFoundInMemory text.now core sectors what places.now from most result }
{
    if core < LEAST_CORE || core > MOST_CORE || sectors == 0 || sectors > MOST_SECTORS {
        return Err(FindFault::OutOfBounds);
    }
    let mut deck = match tape_of(alloc, text) {
        Ok(deck) => deck,
        Err(_) => return Err(FindFault::Memory),
    };
    let mut device = match HonestBacking::new(alloc, sectors) {
        Ok(device) => device,
        Err(_) => return Err(FindFault::Memory),
    };
    match find_in_deck(
        alloc,
        core,
        what,
        places,
        from,
        most,
        &mut deck,
        &mut device,
    ) {
        Ok(found) => Ok(found),
        Err(fault) => Err(FindFault::Search(fault)),
    }
}
