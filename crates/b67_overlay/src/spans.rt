//! The part of a task's stack in which the copies of an array can be.

ghost use Rattle.std.specs.Prelude.{◌≡◌, ℕ, ◌+◌, ◌^◌, ◌<◌, ◌≤◌, List, Some, length, slice_get};
ghost use Rattle.std.specs.List.{list_any};
ghost use Rattle.b67_word.specs.Tagged.{Tagged, word};
ghost use Rattle.b67_stack.specs.MachineView.{MachineView};
ghost use Rattle.b67_overlay.specs.Turns.{Lies};
ghost use Rattle.b67_overlay.specs.Spans.{Resident, Families, ShowsFamilies, parent_field, kin_word, job_at, holds, span_of_kin, span_of};

use crate::search::stack_top;
use b67_core::Core;
use b67_ctl::{FIRST_DICTIONARY, FIRST_TASK, Regs, SLOTS, STACK_VECTOR, VectorWord};
use b67_stack::Cpu;

/// Words of core, from an address up to another one, which isn't included.
#[derive(Clone, Copy, Debug, PartialEq, Eq)]
pub struct Span {
    pub from: u32,
    pub upto: u32,
}

/// How many entries the dictionary has that begins at an address.
fn entries_at(core: &Core, at: u32) -> u32
    requires inside { at + 1 < length core.now }
    requires small { length core.now < 2 ^ 20 }
    ensures small { result < 2 ^ 20 }
    ensures value { (n : ℕ) → n < 2 ^ 20 → slice_get core.now (at + 1) ≡ Some (word 0 n) → result ≡ n }
{
    core.get(at + 1).part(0, 20) as u32
}

/// The number of the job in whose dictionary an address lies.
fn job_of(core: &Core, address: u32) -> u32
    requires inside { (p : MachineView) × (f : Families) × ShowsFamilies core.now p f × (p.stacks ≤ length core.now) × (address < p.stacks) }
    requires small { length core.now < 2 ^ 20 }
    ensures { (p : MachineView) (f : Families) → ShowsFamilies core.now p f → p.stacks ≤ length core.now → address < p.stacks
        → result ≡ job_at FIRST_DICTIONARY f.entries 0 address }
{
    let mut at = FIRST_DICTIONARY;
    let mut job = 0;
    'dictionaries: while at <= address {
        at += 2 + entries_at(core, at);
        job += 1;
    }
    job
}

/// Whether an address is one of a slot's words.
fn is_in_slot(regs: &Regs, slot: u32, address: u32) -> bool
    requires { (core : List Tagged) × (low : ℕ) × (p : MachineView) × Lies core regs.now low p × (slot < p.peak) }
    ensures { (core : List Tagged) (low : ℕ) (p : MachineView) → Lies core regs.now low p → slot < p.peak → result ≡ holds p address slot }
{
    let size = u32::from(regs.stack_size);
    let base = regs.stacks + slot * size;
    if address < base {
        return false;
    }
    address < base + size
}

/// The slot of a parent in the stack vector, [`FIRST_TASK`] for none.
fn parent_of(core: &Core, slot: u32) -> u32
    requires inside { STACK_VECTOR + slot < length core.now }
    requires small { length core.now < 2 ^ 20 }
    ensures small { result < 2 ^ 10 }
    ensures value { (a : Resident) → a.job < 2 ^ 4 → parent_field a.parents < 2 ^ 10 → slice_get core.now (STACK_VECTOR + slot) ≡ Some (kin_word (Some a)) → result ≡ parent_field a.parents }
{
    u32::from(VectorWord::read(core.get(STACK_VECTOR + slot)).parent)
}

/// Whether an address is in the slot of a parent of the task of a slot, at any remove.
fn is_in_parent(core: &Core, regs: &Regs, slot: u8, address: u32) -> bool
    requires { (low : ℕ) × (p : MachineView) × (f : Families) × (a : Resident) × Lies core.now regs.now low p × ShowsFamilies core.now p f × (f.kin slot ≡ Some a) }
    ensures { (low : ℕ) (p : MachineView) (f : Families) (a : Resident) → Lies core.now regs.now low p → ShowsFamilies core.now p f → f.kin slot ≡ Some a
        → result ≡ list_any (holds p address) a.parents }
{
    let mut child = u32::from(slot);
    for n in 0..u32::from(SLOTS) {
        let parent = parent_of(core, child);
        if parent == u32::from(FIRST_TASK) {
            return false;
        }
        if is_in_slot(regs, parent, address) {
            return true;
        }
        child = parent;
    }
    false
}

/// The part of a live task's stack in which the copies of the array of an original can be.
fn span_of_task(core: &Core, regs: &Regs, original: u32, slot: u8) -> Option<Span>
    requires { (low : ℕ) × (p : MachineView) × (f : Families) × (a : Resident) × Lies core.now regs.now low p × ShowsFamilies core.now p f × (original < low) × (f.kin slot ≡ Some a) }
    ensures { (low : ℕ) (p : MachineView) (f : Families) (a : Resident) → Lies core.now regs.now low p → ShowsFamilies core.now p f → f.kin slot ≡ Some a
        → result ≡ span_of_kin f p original slot (Some a) }
{
    let base = regs.stacks + u32::from(slot) * u32::from(regs.stack_size);
    let upto = stack_top(core, regs, slot, base) + 1;
    let whole = Some(Span {
        from: base + 1,
        upto,
    });
    if original < regs.stacks {
        let vector = VectorWord::read(core.get(STACK_VECTOR + u32::from(slot)));
        let job = u32::from(vector.job);
        if job_of(core, original) == job {
            return whole;
        }
        return None;
    }
    if is_in_slot(regs, u32::from(slot), original) {
        return Some(Span {
            from: original + 1,
            upto,
        });
    }
    if is_in_parent(core, regs, slot, original) {
        return whole;
    }
    None
}

/// The same as [`search_span`], over core and registers.
pub(crate) fn span_in(core: &Core, regs: &Regs, original: u32, slot: u8) -> Option<Span>
    requires { (low : ℕ) × (p : MachineView) × (f : Families) × Lies core.now regs.now low p × ShowsFamilies core.now p f × (original < low) × (slot < SLOTS) }
    ensures { (low : ℕ) (p : MachineView) (f : Families) → Lies core.now regs.now low p → ShowsFamilies core.now p f
        → result ≡ span_of f p original slot }
{
    if core.get(STACK_VECTOR + u32::from(slot)).tag() == 0 {
        return None;
    }
    span_of_task(core, regs, original, slot)
}

/// The part of the stack of slot `slot` in which the copies of the array can be whose original is at an address. Of a
/// dictionary's array that is the whole stack of a task of that job, from its first mark past its top. Of a stack's array it is
/// what lies over the original, and the whole stack of each task that has that one among its parents, at any remove. None for
/// any other slot.
pub fn search_span(cpu: &Cpu, original: u32, slot: u8) -> Option<Span>
    requires { (low : ℕ) × (p : MachineView) × (f : Families) × Lies cpu.now.core cpu.now.regs low p × ShowsFamilies cpu.now.core p f × (original < low) × (slot < SLOTS) }
    ensures { (low : ℕ) (p : MachineView) (f : Families) → Lies cpu.now.core cpu.now.regs low p → ShowsFamilies cpu.now.core p f
        → result ≡ span_of f p original slot }
{
    span_in(&cpu.core, &cpu.regs, original, slot)
}
