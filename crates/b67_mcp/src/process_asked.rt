//! The task that a call of PROCESS asks for.

ghost use Rattle.b67_model.specs.Words as words;
ghost use Rattle.std.specs.Prelude.{◌≡◌, ℕ, ◌+◌, ◌<◌, ◌≤◌, ◌^◌, List, ◌∷◌, ◌++◌, length, take};
ghost use Rattle.std.specs.List.{list_any};
ghost use Rattle.b67_word.specs.declared.couples.Place.{Place};
ghost use Rattle.b67_model.specs.Intrinsics.{is_original as original};
ghost use Rattle.b67_layout.specs.Meets.{ForEach, here};
ghost use Rattle.b67_refer.specs.RunningContext.{RunningContext};
ghost use Rattle.b67_entry.specs.Procedures.{ReachesProc};
ghost use Rattle.b67_layout.specs.Tops.{cells};
ghost use Rattle.b67_fetch.specs.Fetches.{IsFollowed, MayFollow};
ghost use Rattle.b67_mcp.specs.Calls.{CallSome, IsCall};
ghost use Rattle.b67_mcp.specs.Asked.{HasCells, admits, AdmitMeets, AskMeets};

use b67_ctl::DataDesc;
use b67_entry::is_critical;
use b67_exec_cells::count_cells;
use b67_refer::{End, chase, enclosure_of};
use b67_stack::Cpu;
use b67_task::procedure_at;
use b67_word::{Fault, Word};

/// A task that is to be started: the address of its procedure's cell, and how many words it gets.
#[derive(Clone, Copy, Debug, PartialEq, Eq)]
pub struct Asked {
    pub cell: u32,
    pub count: u32,
}

/// The word of the cell of the top activation record that has so many cells above it.
fn cell_under(cpu: &Cpu, above: u32) -> Word
    requires { HasCells cpu.now (above + 1) }
    ensures { ForEach cpu.now (λ x plan s m t. (over rest : List words.Word) (v : words.Word) → cells t ≡ over ++ v ∷ rest → length over ≡ above
        → IsFollowed x plan m t result v) }
{
    cpu.core.get(cpu.regs.s - above)
}

/// Whether a word of the running task is an original.
fn is_original(cpu: &Cpu, w: Word) -> bool
    requires { MayFollow cpu.now w }
    ensures { ForEach cpu.now (λ x plan s m t. (v : words.Word) → IsFollowed x plan m t w v → result ≡ original v) }
{
    if w.tag() != 5 {
        return false;
    }
    !DataDesc::read(w).copy
}

/// Whether an original is among the `count` top cells.
fn any_original(cpu: &Cpu, count: u32) -> bool
    requires { HasCells cpu.now count }
    ensures { ForEach cpu.now (λ x plan s m t. count ≤ length (cells t) → result ≡ list_any original (take count (cells t))) }
{
    for above in 0..count {
        let w = cell_under(cpu, above);
        if is_original(cpu, w) {
            return true;
        }
    }
    false
}

/// The task in the procedure of a cell, with so many words, if it may be started and the call be cut off; or the fault.
fn admit(cpu: &Cpu, cell: u32, count: u32) -> Result<Asked, Fault>
    requires procedure { (a : RunningContext cpu.now.core cpu.now.regs) × (q : Place) × (f : ℕ) × (segment : ℕ) × (level : ℕ) × (place : Place) × ReachesProc cpu.now a q cell f segment level place }
    requires count { count < 2 ^ 20 }
    ensures row { (a : RunningContext cpu.now.core cpu.now.regs) (q : Place) (f segment level : ℕ) (place : Place) → ReachesProc cpu.now a q cell f segment level place
        → AdmitMeets cell count (admits (here a.member a.task q) f level count) result }
{
    let env = enclosure_of(&cpu.core, &cpu.regs, cell).record;
    let procedure = procedure_at(&cpu.core, cell);
    if env.level + 1 != procedure.level {
        return Err(Fault::InvalidOperand);
    }
    if 3 + count > u32::from(cpu.regs.stack_size) {
        return Err(Fault::StackOverflow);
    }
    if is_critical(cpu) {
        return Err(Fault::CriticalBlock);
    }
    Ok(Asked { cell, count })
}

/// The task that a call of PROCESS on the running stack asks for, or the call's fault. Nothing is changed.
pub fn task_asked(cpu: &Cpu) -> Result<Asked, Fault>
    requires { CallSome cpu.now }
    ensures { ForEach cpu.now (λ x plan s m t. (reference : words.Word) (arguments : List words.Word) → IsCall t reference arguments → AskMeets plan m t arguments result) }
{
    let all = count_cells(cpu);
    if all < 2 {
        return Err(Fault::InvalidOperand);
    }
    let count = all - 2;
    if any_original(cpu, count) {
        return Err(Fault::InvalidOperand);
    }
    let first = cell_under(cpu, count);
    if first.tag() != 1 {
        return Err(Fault::InvalidOperand);
    }
    match chase(&cpu.core, &cpu.regs, &cpu.display, first) {
        Ok(End::Proc(cell)) => admit(cpu, cell, count),
        Ok(End::Cell(_)) => Err(Fault::InvalidOperand),
        Ok(End::Element { .. }) => Err(Fault::InvalidOperand),
        Ok(End::Array(_)) => Err(Fault::InvalidOperand),
        Ok(End::Intrinsic(_)) => Err(Fault::InvalidOperand),
        Err(fault) => Err(fault),
    }
}
