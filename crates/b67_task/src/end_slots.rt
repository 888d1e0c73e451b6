//! A slot is emptied.

ghost use Rattle.std.specs.Prelude.{◌≡◌, ℕ, ◌+◌, ◌<◌, ◌≤◌, List, Option, Some, length, slice_get};
ghost use Rattle.b67_word.specs.Tagged.{word};
ghost use Rattle.b67_stack.specs.MachineView.{PagedObject, MachineView};
ghost use Rattle.b67_stack.specs.Represents.{Storage};
ghost use Rattle.b67_layout.specs.Machine.{MachineRepresentsView};
ghost use Rattle.b67_task.specs.Released.{HasHome, Released};
ghost use Rattle.b67_model.specs.State.{SessionJob};
ghost use Rattle.b67_model.specs.Schedule.{Session};
ghost use Rattle.b67_layout.specs.Placement.{Placement};
ghost use Rattle.b67_layout.specs.Layout.{machine_view};
ghost use Rattle.b67_task.specs.TakenOut.{MayTakeOut, IsBuried, GaveBack, slots_gone};
ghost use Rattle.b67_task.specs.Vacated.{put_out, vacated, MayDie, died};
ghost use Rattle.b67_task.specs.DeathsInTurn.{Death, MayAllDie, all_died, slots_of, HasGone, SameButSlot, SameButSlots, ZeroVector, all_put_out};

use crate::release_words::release_words;
use b67_area::Areas;
use b67_backing::Sectors;
use b67_ctl::{FIRST_DICTIONARY, NO_SLOT, SLOTS, STACK_VECTOR};
use b67_overlay::stack_top;
use b67_stack::Cpu;
use b67_word::Word;

/// Makes a slot's base word and its word in the stack vector zeros. If the registers were those of its task, none are in use.
fn vacate(cpu: &mut Cpu, slot: u8, base: u32)
    requires slot { slot < SLOTS }
    requires base { base < length cpu.old.core }
    requires vector { FIRST_DICTIONARY ≤ length cpu.old.core }
    ensures { cpu.new ≡ vacated cpu.old slot base }
{
    cpu.core.set(base, Word::of(0, 0));
    cpu.core.set(STACK_VECTOR + u32::from(slot), Word::of(0, 0));
    if cpu.regs.slot == slot {
        cpu.regs.slot = NO_SLOT;
    }
}

/// Takes a task out of its slot, and gives back the areas and the chains of the arrays whose originals lie in its stack.
/// All other stacks and objects stay. Its registers may be in use or not, and so may another task's.
pub fn empty_slot(cpu: &mut Cpu, areas: &mut Areas, sectors: &mut Sectors, slot: u8)
    requires { (x : Storage) × (told : Option (List (List ℕ))) × (p : MachineView) × (gone : List PagedObject) × (rest : List PagedObject)
        × MachineRepresentsView x cpu.old areas.old sectors.old told p × MayDie p cpu.old.core slot gone rest }
    ensures rest { cpu.new ≡ record cpu.old { core = cpu.new.core; regs = put_out cpu.old.regs slot } }
    ensures len { length cpu.new.core ≡ length cpu.old.core }
    ensures areas { areas.new ≡ areas.old }
    ensures count { length sectors.new.links ≡ length sectors.old.links }
    ensures stands { (x : Storage) (told : Option (List (List ℕ))) (p : MachineView) (gone : List PagedObject) (rest : List PagedObject)
        → MachineRepresentsView x cpu.old areas.old sectors.old told p → MayDie p cpu.old.core slot gone rest
        → (y : Storage) × Released (HasHome gone) x y × MachineRepresentsView y cpu.new areas.new sectors.new told (died p slot rest)
        × SameButSlot x.low p slot cpu.old.core cpu.new.core × (slice_get cpu.new.core (STACK_VECTOR + slot) ≡ Some (word 0 0)) }
{
    let _size = cpu.core.size();
    let base = cpu.regs.stacks + u32::from(slot) * u32::from(cpu.regs.stack_size);
    let top = stack_top(&cpu.core, &cpu.regs, slot, base);
    vacate(cpu, slot, base);
    release_words(cpu, areas, sectors, base + 1, top + 1);
}

/// Takes several tasks out of their slots, in this order, with what is theirs.
pub fn empty_slots(cpu: &mut Cpu, areas: &mut Areas, sectors: &mut Sectors, slots: &[u8])
    requires { (x : Storage) × (told : Option (List (List ℕ))) × (p : MachineView) × (ds : List Death)
        × MachineRepresentsView x cpu.old areas.old sectors.old told p × MayAllDie p cpu.old.core ds × (slots_of ds ≡ slots.now) }
    ensures rest { cpu.new ≡ record cpu.old { core = cpu.new.core; regs = all_put_out cpu.old.regs slots.now } }
    ensures len { length cpu.new.core ≡ length cpu.old.core }
    ensures areas { areas.new ≡ areas.old }
    ensures count { length sectors.new.links ≡ length sectors.old.links }
    ensures stands { (x : Storage) (told : Option (List (List ℕ))) (p : MachineView) (ds : List Death)
        → MachineRepresentsView x cpu.old areas.old sectors.old told p → MayAllDie p cpu.old.core ds → slots_of ds ≡ slots.now
        → (y : Storage) × Released (HasGone ds) x y × MachineRepresentsView y cpu.new areas.new sectors.new told (all_died p ds)
        × SameButSlots x.low p (slots_of ds) cpu.old.core cpu.new.core × ZeroVector (slots_of ds) cpu.new.core }
{
    for slot in slots {
        empty_slot(cpu, areas, sectors, *slot);
    }
}

/// Takes tasks of one job out of their slots, with their arrays, each after those under it. The areas and the chains of
/// those arrays are given back, and all others stay.
pub fn take_out(cpu: &mut Cpu, areas: &mut Areas, sectors: &mut Sectors, slots: &[u8])
    requires { (x : Storage) × (told : Option (List (List ℕ))) × (plan : Placement) × (s : Session) × (m : SessionJob) × (numbers : List ℕ)
        × MachineRepresentsView x cpu.old areas.old sectors.old told (machine_view plan s.jobs) × MayTakeOut x cpu.old.core cpu.old.regs cpu.old.critical plan s m numbers
        × (slots_gone plan m numbers ≡ slots.now) }
    ensures rest { cpu.new ≡ record cpu.old { core = cpu.new.core; regs = all_put_out cpu.old.regs slots.now } }
    ensures len { length cpu.new.core ≡ length cpu.old.core }
    ensures areas { areas.new ≡ areas.old }
    ensures count { length sectors.new.links ≡ length sectors.old.links }
    ensures stands { (x : Storage) (told : Option (List (List ℕ))) (plan : Placement) (s : Session) (m : SessionJob) (numbers : List ℕ)
        → MachineRepresentsView x cpu.old areas.old sectors.old told (machine_view plan s.jobs) → MayTakeOut x cpu.old.core cpu.old.regs cpu.old.critical plan s m numbers
        → slots_gone plan m numbers ≡ slots.now
        → (y : Storage) × (p : MachineView) × MachineRepresentsView y cpu.new areas.new sectors.new told p × IsBuried y cpu.new.core cpu.new.regs plan s m numbers
        × GaveBack x y (machine_view plan s.jobs) cpu.old.core cpu.new.core slots.now }
{
    empty_slots(cpu, areas, sectors, slots);
}
