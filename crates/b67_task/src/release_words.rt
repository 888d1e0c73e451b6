//! The arrays whose originals lie above a stack's top.

ghost use Rattle.std.specs.Prelude.{◌≡◌, ℕ, ◌+◌, ◌<◌, ◌≤◌, List, Option, length};
ghost use Rattle.b67_stack.specs.MachineView.{PagedObject, MachineView};
ghost use Rattle.b67_stack.specs.Represents.{Storage};
ghost use Rattle.b67_layout.specs.Machine.{MachineRepresentsView};
ghost use Rattle.b67_layout.specs.Session.{with_objects};
ghost use Rattle.b67_task.specs.Released.{HasHome, Released, AreLeft, SomeRemain, SameBelow};

use crate::release_original::release_original;
use b67_area::Areas;
use b67_backing::Sectors;
use b67_ctl::DataDesc;
use b67_stack::Cpu;

/// Gives back the array whose original is the word at an address, if that word is an original.
#[inline(always)]
fn release_word(cpu: &mut Cpu, areas: &mut Areas, sectors: &mut Sectors, at: u32)
    requires left { (x : Storage) × (told : Option (List (List ℕ))) × (p : MachineView) × (left : List PagedObject) × (upto : ℕ)
        × MachineRepresentsView x cpu.old areas.old sectors.old told (with_objects left p) × AreLeft p cpu.old.core at upto left × (at < upto) }
    requires inside { at < length cpu.old.core }
    ensures rest { cpu.new ≡ record cpu.old { core = cpu.new.core } }
    ensures len { length cpu.new.core ≡ length cpu.old.core }
    ensures areas { areas.new ≡ areas.old }
    ensures count { length sectors.new.links ≡ length sectors.old.links }
    ensures stands { (x : Storage) (told : Option (List (List ℕ))) (p : MachineView) (left : List PagedObject) (upto : ℕ)
        → MachineRepresentsView x cpu.old areas.old sectors.old told (with_objects left p) → AreLeft p cpu.old.core at upto left → at < upto
        → (y : Storage) × (rest : List PagedObject) × MachineRepresentsView y cpu.new areas.new sectors.new told (with_objects rest p)
        × SomeRemain (λ home. (home ≡ at) × HasHome left home) x y p cpu.old.core cpu.new.core (at + 1) upto left rest }
{
    let word = cpu.core.get(at);
    if word.tag() != 5 {
        return;
    }
    match DataDesc::from_word(word) {
        Some(original) => {
            if !original.copy {
                release_original(cpu, areas, sectors, original);
            }
        }
        None => {}
    }
}

/// Gives back the arrays whose originals lie from an address up to another, not included.
#[inline(always)]
pub fn release_words(cpu: &mut Cpu, areas: &mut Areas, sectors: &mut Sectors, from: u32, upto: u32)
    requires left { (x : Storage) × (told : Option (List (List ℕ))) × (p : MachineView) × (left : List PagedObject)
        × MachineRepresentsView x cpu.old areas.old sectors.old told (with_objects left p) × AreLeft p cpu.old.core from upto left }
    requires order { from ≤ upto }
    ensures rest { cpu.new ≡ record cpu.old { core = cpu.new.core } }
    ensures len { length cpu.new.core ≡ length cpu.old.core }
    ensures areas { areas.new ≡ areas.old }
    ensures count { length sectors.new.links ≡ length sectors.old.links }
    ensures stands { (x : Storage) (told : Option (List (List ℕ))) (p : MachineView) (left : List PagedObject)
        → MachineRepresentsView x cpu.old areas.old sectors.old told (with_objects left p) → AreLeft p cpu.old.core from upto left
        → (y : Storage) × Released (HasHome left) x y × MachineRepresentsView y cpu.new areas.new sectors.new told p × SameBelow x.low cpu.old.core cpu.new.core }
{
    for at in from..upto {
        release_word(cpu, areas, sectors, at);
    }
}
