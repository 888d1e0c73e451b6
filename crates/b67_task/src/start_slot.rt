//! The slot of a new task, and the words of its stack.

ghost use Rattle.std.specs.Prelude.{◌≡◌, ◌≢◌, ◌⊎◌, ℕ, ◌+◌, ◌<◌, ◌≤◌, length, slice_get, List};
ghost use Rattle.b67_stack.specs.Represents.{Storage, Represents};
ghost use Rattle.b67_stack.specs.MachineView.{MachineView};
ghost use Rattle.b67_task.specs.Slots.{grown, raised, HasRoom, HasStackAt};
ghost use Rattle.b67_layout.specs.Orders.{IsInOrderButCounts};
ghost use Rattle.b67_model.specs.Schedule.{Session};
ghost use Rattle.b67_layout.specs.Placement.{Placement};
ghost use Rattle.b67_layout.specs.Session.{SessionHolds, RepresentsSession};
ghost use Rattle.b67_task.specs.Opening.{IsLowestFree, slot_end, HoldsOne, HasSome, HasSlot, HasSomeSlot, SlotOpened};

use b67_area::Areas;
use b67_core::Core;
use b67_ctl::{DIRECTORY, Regs, STACK_VECTOR};
use b67_stack::Cpu;
use b67_word::Word;

/// Adds a slot behind those used so far. No task is in it yet, and no area had a word there; the areas begin behind it.
pub fn add_slot(cpu: &mut Cpu, areas: &mut Areas)
    requires room { (x : Storage) × (p : MachineView) × Represents x cpu.old.core cpu.old.regs p × HasRoom x cpu.old.core cpu.old.regs p × (areas.old.low ≡ x.low) }
    ensures stands { (x : Storage) (p : MachineView) → Represents x cpu.old.core cpu.old.regs p → HasRoom x cpu.old.core cpu.old.regs p → areas.old.low ≡ x.low
        → Represents (raised x areas.new.low) cpu.new.core cpu.new.regs (grown p) }
    ensures rest { cpu.new ≡ record cpu.old { core = cpu.new.core; regs = record cpu.old.regs { peak = cpu.old.regs.peak + 1 } } }
    ensures areas { areas.new ≡ record areas.old { low = areas.old.low + cpu.old.regs.stack_size } }
    ensures below { (x : Storage) (p : MachineView) → Represents x cpu.old.core cpu.old.regs p → HasRoom x cpu.old.core cpu.old.regs p → areas.old.low ≡ x.low
        → (i : ℕ) → i < areas.old.low → i ≢ DIRECTORY → slice_get cpu.new.core i ≡ slice_get cpu.old.core i }
    ensures len { length cpu.new.core ≡ length cpu.old.core }
{
    let _size = cpu.core.size();
    let base = areas.low;
    let low = base + u32::from(cpu.regs.stack_size);
    areas.raise(&mut cpu.core, low);
    cpu.core.set(base, Word::of(0, 0));
    cpu.regs.peak += 1;
}

/// Writes a stack of one entered activation record from its slot's base word up: the top of stack word, the mark, a return
/// to nowhere, and as cells copies of `count` words.
pub(crate) fn build_stack(core: &mut Core, base: u32, top: Word, mark: Word, from: u32, count: u32)
    requires inside { base + (3 + count) ≤ length core.old }
    requires apart { (from + count ≤ base) ⊎ (base + (3 + count) ≤ from) }
    requires source { from + count ≤ length core.old }
    ensures stack { HasStackAt core.old core.new base top mark from count }
    ensures outside { (i : ℕ) → (i < base) ⊎ (base + (3 + count) ≤ i) → slice_get core.new i ≡ slice_get core.old i }
    ensures len { length core.new ≡ length core.old }
{
    let _size = core.size();
    core.set(base, top);
    core.set(base + 1, mark);
    core.set(base + 2, Word::of(3, 0));
    for i in 0..count {
        let w = core.get(from + i);
        core.set(base + 3 + i, w);
    }
}

/// The lowest slot in which no task lives: its word in the stack vector is zero. It may be the one after those used so far.
fn lowest_free(core: &Core, regs: &Regs) -> u8
    requires { HoldsOne core.now regs.now }
    ensures { (x : Storage) (marks : List ℕ) (plan : Placement) (s : Session) → SessionHolds x core.now regs.now marks plan s
        → IsLowestFree plan result × (result ≤ plan.peak) }
{
    for slot in 0..regs.peak {
        if core.get(STACK_VECTOR + u32::from(slot)).tag() == 0 {
            return slot;
        }
    }
    regs.peak
}

/// The core address after the slot that a new task gets.
pub fn next_slot_end(cpu: &Cpu) -> u32
    requires { HasSome cpu.now }
    ensures { (x : Storage) (plan : Placement) (s : Session) → RepresentsSession x cpu.now plan s → (k : ℕ) × IsLowestFree plan k × (result ≡ slot_end plan k) }
{
    let slot = lowest_free(&cpu.core, &cpu.regs);
    cpu.regs.stacks + (u32::from(slot) + 1) * u32::from(cpu.regs.stack_size)
}

/// Opens the slot of a new task: the lowest in which no task lives. The session's peak counts that task from now on.
pub(crate) fn open_slot(cpu: &mut Cpu, areas: &mut Areas) -> u8
    requires { HasSomeSlot cpu.old areas.old }
    ensures slot { (x : Storage) (plan : Placement) (s : Session) (k : ℕ) → RepresentsSession x cpu.old plan s → IsLowestFree plan k → result ≡ k }
    ensures stands { (x : Storage) (plan : Placement) (s : Session) (k : ℕ) → IsInOrderButCounts s → RepresentsSession x cpu.old plan s → areas.old.low ≡ x.low
        → HasSlot x plan s (length cpu.old.core) k → SlotOpened x plan s cpu.new areas.new }
    ensures rest { cpu.new ≡ record cpu.old { core = cpu.new.core; regs = record cpu.old.regs { peak = cpu.new.regs.peak } } }
    ensures areas { areas.new ≡ record areas.old { low = areas.new.low } }
    ensures len { length cpu.new.core ≡ length cpu.old.core }
{
    let slot = lowest_free(&cpu.core, &cpu.regs);
    if slot == cpu.regs.peak {
        add_slot(cpu, areas);
    }
    slot
}
