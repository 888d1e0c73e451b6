//! A search through the run of a deck.

ghost use Rattle.std.specs.Prelude.{◌≡◌, ◌≢◌, ◌≤◌, ◌<◌, ◌^◌, None, Err, IfOk};
ghost use Rattle.b67_layout.specs.Machine.{DeviceAfterCalls};
ghost use Rattle.b67_job.specs.Searches.{FindsInDeck, FailsInDeck};
ghost use Rattle.b67_job.specs.declared.searching.SearchFault.{SearchFault};
ghost use Rattle.b67_model.specs.declared.limits.TheConstants.{LEAST_CORE};

use crate::admission::admit;
use crate::admit_fault::AdmitFault;
use b67_backing::Backing;
use b67_io::Source;
use b67_session::{CodePlace, OpenFault, Sought, Stop, find, know_programs, open_machine};
use std::alloc::Global;

/// Why a search in a deck answers nothing: the deck isn't admitted, no session is opened, or the run stops before.
#[derive(Clone, Copy, Debug)]
pub enum SearchFault {
    Admit(AdmitFault),
    Open(OpenFault),
    Stop(Stop),
}

/// Opens the session of the deck that is read, and finds the least count from `from` on, among the first `most` and before the
/// halt, at which what is sought holds of the next operator. None where it holds at no such count, and core has the words of all
/// steps up to them.
pub fn find_in_deck<S: Source, B: Backing>(
    alloc: Global,
    core: u32,
    what: Sought,
    places: &[CodePlace],
    from: u64,
    most: u64,
    deck: &mut S,
    backing: &mut B,
) -> Result<Option<u64>, SearchFault>
    requires low { LEAST_CORE ≤ core }
    requires high { core < 2 ^ 20 }
    ensures least { B.holds backing.old ≢ None → IfOk result (FindsInDeck S.left deck.old deck.new core what places.now from most) }
    ensures fails { (fault : SearchFault) → result ≡ Err fault → FailsInDeck S.left S.faults deck.old deck.new B.holds B.size B.faults backing.old backing.new core what places.now from most fault }
    ensures device { DeviceAfterCalls B.holds B.size B.calls B.faults backing.old backing.new }
{
    let loaded = match admit(alloc, deck) {
        Ok(loaded) => loaded,
        Err(fault) => return Err(SearchFault::Admit(fault)),
    };
    let programs = loaded.programs.as_slice();
    know_programs(programs);
    let mut machine = match open_machine(alloc, &loaded.deck, programs, core, backing) {
        Ok(machine) => machine,
        Err(fault) => return Err(SearchFault::Open(fault)),
    };
    match find(&mut machine, what, places, from, most, backing) {
        Ok(found) => Ok(found),
        Err(stop) => Err(SearchFault::Stop(stop)),
    }
}
