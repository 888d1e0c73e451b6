//! One original's array.

ghost use Rattle.std.specs.Prelude.{◌≡◌, ◌⊎◌, ℕ, ◌≤◌, List, Option, length};
ghost use Rattle.b67_area.specs.Spans.{Span};
ghost use Rattle.b67_area.specs.Directory.{IsDirectory};
ghost use Rattle.b67_backing.specs.Shelf.{Shelf, IsShelf, chain_of};
ghost use Rattle.b67_lemmas.specs.Lists.{Has};
ghost use Rattle.b67_stack.specs.Shapes.{Location};
ghost use Rattle.b67_stack.specs.MachineView.{PagedObject, MachineView};
ghost use Rattle.b67_stack.specs.Represents.{Storage};
ghost use Rattle.b67_layout.specs.Machine.{MachineRepresentsView};
ghost use Rattle.b67_task.specs.Released.{storage_released, without_chain, of_objects, Drops, LocatesArray, SameBelow, Vacated};

use b67_area::Areas;
use b67_backing::Sectors;
use b67_core::Core;
use b67_ctl::DataDesc;
use b67_stack::Cpu;

/// Frees the area of an original's array where it is in one, and answers the first sector of its chain, 0 for none.
fn vacate(core: &mut Core, areas: &mut Areas, original: DataDesc) -> u32
    requires { (spans : List Span) × (h : Location) × IsDirectory core.old areas.old.low spans × LocatesArray areas.old.low spans h original }
    ensures len { length core.new ≡ length core.old }
    ensures areas { areas.new ≡ areas.old }
    ensures chain { (spans : List Span) (h : Location) → IsDirectory core.old areas.old.low spans → LocatesArray areas.old.low spans h original → result ≡ h.chain }
    ensures vacated { (spans : List Span) (h : Location) → IsDirectory core.old areas.old.low spans → LocatesArray areas.old.low spans h original
        → Vacated areas.old.low h.area spans core.old core.new }
{
    if !original.present {
        return original.address;
    }
    let info = areas.info(core, original.address);
    areas.free(core, original.address);
    info.kept
}

/// Makes the sectors of a chain free, if there is one.
fn give_chain(sectors: &mut Sectors, first: u32)
    requires { (st : Shelf) × IsShelf sectors.old st × ((first ≡ 0) ⊎ (1 ≤ length (chain_of first st.chains))) }
    ensures row { (st : Shelf) → IsShelf sectors.old st → (first ≡ 0) ⊎ (1 ≤ length (chain_of first st.chains)) → IsShelf sectors.new (without_chain first st) }
    ensures count { length sectors.new.links ≡ length sectors.old.links }
{
    if first != 0 {
        sectors.give(first);
    }
}

/// Gives back the area and the chain of an original's array. The original itself stays where it is.
pub fn release_original(cpu: &mut Cpu, areas: &mut Areas, sectors: &mut Sectors, original: DataDesc)
    requires { (x : Storage) × (told : Option (List (List ℕ))) × (p : MachineView) × (t : PagedObject) × MachineRepresentsView x cpu.old areas.old sectors.old told p
        × Has p.objects t × LocatesArray x.low x.spans (x.held t.home) original }
    ensures rest { cpu.new ≡ record cpu.old { core = cpu.new.core } }
    ensures len { length cpu.new.core ≡ length cpu.old.core }
    ensures areas { areas.new ≡ areas.old }
    ensures count { length sectors.new.links ≡ length sectors.old.links }
    ensures stands { (x : Storage) (told : Option (List (List ℕ))) (p : MachineView) (t : PagedObject) (objects : List PagedObject) → MachineRepresentsView x cpu.old areas.old sectors.old told p
        → LocatesArray x.low x.spans (x.held t.home) original → Drops p t objects
        → MachineRepresentsView (storage_released x t) cpu.new areas.new sectors.new told (of_objects p objects) }
    ensures below { (x : Storage) (told : Option (List (List ℕ))) (p : MachineView) (t : PagedObject) → MachineRepresentsView x cpu.old areas.old sectors.old told p
        → Has p.objects t → LocatesArray x.low x.spans (x.held t.home) original → SameBelow x.low cpu.old.core cpu.new.core }
{
    let chain = vacate(&mut cpu.core, areas, original);
    give_chain(sectors, chain);
}
