//! Operators that store through references.
//!
//! If a reference ends at a procedure, the answer is [`PROCEDURE`], with nothing changed: the caller then enters it.

ghost use Rattle.std.specs.Prelude.{◌≡◌, ℕ, ◌+◌, ◌-◌, ◌<◌, ◌≤◌, length, true, false};
ghost use Rattle.b67_model.specs.Steps.{cells_of};
ghost use Rattle.b67_model.specs.Rows as rows;
ghost use Rattle.b67_stack.specs.declared.Step.TheVariants.{Done};
ghost use Rattle.b67_layout.specs.Meets.{here, RunsSome, ForEach};
ghost use Rattle.b67_exec_cells.specs.Elements.{HasElement, HoldsElement};
ghost use Rattle.b67_exec_cells.specs.Tops.{StaysInSegment};
ghost use Rattle.b67_fetch.specs.Fetches.{enters_at, EntersOrMeets};
ghost use Rattle.b67_fetch.specs.Stores.{store_end, ElementAt, stored, StoresOne, StoresFrom, store_step, CameTo};

use b67_exec_cells::{array_descriptor, two_cells};
use b67_refer::{End, chase, chase_from};
use b67_stack::{Cpu, PROCEDURE, Step, What};
use b67_word::{Fault, Place, Word};

/// The step that a store is, where a procedure is still to be entered.
#[inline(always)]
fn step_of(stored: Result<Step, u32>) -> Step
    ensures { result ≡ store_step stored }
{
    match stored {
        Ok(step) => step,
        Err(_) => Step::Call(PROCEDURE),
    }
}

/// The core address of an element that is to be stored into. Else what the operator answers: MEMORY PROTECT if the
/// array is read-only, then that it is absent.
#[inline(always)]
pub(crate) fn element_address(cpu: &Cpu, original: u32, index: u32) -> Result<u32, Step>
    requires { HoldsElement cpu.now original index }
    ensures { ForEach cpu.now (λ x plan s m t. (n : ℕ) → original ≡ plan.home m.constants.number n → HasElement m.progress.job n index → ElementAt x plan m n original index result) }
{
    let desc = array_descriptor(cpu, original);
    if desc.read_only {
        return Err(Step::Fault(Fault::MemoryProtect));
    }
    if !desc.present {
        return Err(Step::Absent(What::Array(original)));
    }
    Ok(desc.address + index)
}

/// Stores a word, takes the two top cells off, keeps the word in their place or not, and goes on at `next`.
#[inline(always)]
pub(crate) fn put(cpu: &mut Cpu, at: u32, w: Word, keeps: bool, next: Place)
    requires at { at < length cpu.old.core }
    requires top { cpu.old.regs.s < length cpu.old.core }
    requires cells { 2 ≤ cpu.old.regs.s }
    ensures { cpu.new ≡ stored cpu.old at w keeps next }
{
    cpu.core.set(at, w);
    if keeps {
        cpu.regs.s -= 1;
        cpu.core.set(cpu.regs.s, w);
    } else {
        cpu.regs.s -= 2;
    }
    cpu.regs.place = next;
}

/// As `store`, where the operand of the two top cells is this value, and this was found where the other one leads.
#[inline(always)]
fn store_to(
    cpu: &mut Cpu,
    keeps: bool,
    value: Word,
    found: Result<End, Fault>,
    next: Place,
) -> Result<Step, u32>
    requires runs { RunsSome cpu.old }
    requires one { StoresOne cpu.old value found }
    ensures row { ForEach cpu.old (λ x plan s m t. let h = here m t next in EntersOrMeets x plan s m (store_step result) cpu.old cpu.new (enters_at (store_end h (cells_of h))) (rows.store keeps h (cells_of h))) }
    ensures stays { store_step result ≡ Done → StaysInSegment cpu.old cpu.new next }
    ensures comes { CameTo cpu.new result }
{
    let end = match found {
        Ok(end) => end,
        Err(fault) => return Ok(Step::Fault(fault)),
    };
    let at = match end {
        End::Cell(at) => at,
        End::Element { original, index } => match element_address(cpu, original, index) {
            Ok(at) => at,
            Err(step) => return Ok(step),
        },
        End::Array(_) | End::Intrinsic(_) => {
            return Ok(Step::Fault(Fault::MemoryProtect));
        }
        End::Proc(cell) => return Err(cell),
    };
    put(cpu, at, value, keeps, next);
    Ok(Step::Done)
}

/// As `store`, where the top cell holds a couple over an operand, and the couple names the cell at an address.
#[inline(always)]
pub fn store_from(cpu: &mut Cpu, keeps: bool, near: u32, next: Place) -> Result<Step, u32>
    requires runs { RunsSome cpu.old }
    requires from { StoresFrom cpu.old near }
    ensures row { ForEach cpu.old (λ x plan s m t. let h = here m t next in EntersOrMeets x plan s m (store_step result) cpu.old cpu.new (enters_at (store_end h (cells_of h))) (rows.store keeps h (cells_of h))) }
    ensures stays { store_step result ≡ Done → StaysInSegment cpu.old cpu.new next }
    ensures comes { CameTo cpu.new result }
{
    let value = cpu.core.get(cpu.regs.s - 1);
    let found = chase_from(&cpu.core, &cpu.regs, &cpu.display, near);
    store_to(cpu, keeps, value, found, next)
}

/// Stores the operand of the two top cells where the other one leads, and takes both off, or only the reference if
/// the operand is kept. `Ok` is the step. `Err` is the cell of the procedure at which the reference ends, with nothing changed:
/// the caller then enters it.
#[inline(always)]
pub fn store(cpu: &mut Cpu, keeps: bool, next: Place) -> Result<Step, u32>
    requires { RunsSome cpu.old }
    ensures row { ForEach cpu.old (λ x plan s m t. let h = here m t next in EntersOrMeets x plan s m (store_step result) cpu.old cpu.new (enters_at (store_end h (cells_of h))) (rows.store keeps h (cells_of h))) }
    ensures stays { store_step result ≡ Done → StaysInSegment cpu.old cpu.new next }
    ensures comes { CameTo cpu.new result }
{
    let (lower, upper) = match two_cells(cpu) {
        Ok(two) => two,
        Err(fault) => return Ok(Step::Fault(fault)),
    };
    let (reference, value) = if upper.tag() == 0 {
        (lower, upper)
    } else {
        (upper, lower)
    };
    if value.tag() != 0 {
        return Ok(Step::Fault(Fault::InvalidOperand));
    }
    let found = chase(&cpu.core, &cpu.regs, &cpu.display, reference);
    store_to(cpu, keeps, value, found, next)
}

/// Stores the operand of the two top cells where the other one leads, takes both off, and goes on at `next`. STACK
/// UNDERFLOW, INVALID OPERAND if none of the two is an operand, the faults of references, MEMORY PROTECT if it ends
/// at a read-only element, an array or an intrinsic. If an element's array is absent, nothing is changed.
#[inline(always)]
pub fn stod(cpu: &mut Cpu, next: Place) -> Step
    requires { RunsSome cpu.old }
    ensures row { ForEach cpu.old (λ x plan s m t. let h = here m t next in EntersOrMeets x plan s m result cpu.old cpu.new (enters_at (store_end h (cells_of h))) (rows.store false h (cells_of h))) }
    ensures stays { result ≡ Done → StaysInSegment cpu.old cpu.new next }
{
    let stored = store(cpu, false, next);
    step_of(stored)
}

/// Stores as STOD does, but the operand stays on the stack.
#[inline(always)]
pub fn ston(cpu: &mut Cpu, next: Place) -> Step
    requires { RunsSome cpu.old }
    ensures row { ForEach cpu.old (λ x plan s m t. let h = here m t next in EntersOrMeets x plan s m result cpu.old cpu.new (enters_at (store_end h (cells_of h))) (rows.store true h (cells_of h))) }
    ensures stays { result ≡ Done → StaysInSegment cpu.old cpu.new next }
{
    let stored = store(cpu, true, next);
    step_of(stored)
}
