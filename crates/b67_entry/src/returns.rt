//! RETN.

ghost use Rattle.std.specs.Prelude.{◌≡◌, ◌≢◌, ℕ, true, ◌<◌, ◌≤◌, ◌+◌, List, length, slice_get};
ghost use Rattle.b67_word.specs.declared.couples.Place.{Place};
ghost use Rattle.b67_model.specs.Words as Words;
ghost use Rattle.b67_model.specs.Entry as rows;
ghost use Rattle.b67_stack.specs.declared.Step.TheVariants.{Done};
ghost use Rattle.b67_layout.specs.Meets.{RunsSome, ForEach, Meets, here};
ghost use Rattle.b67_refer.specs.RunningContext.{RunningContext, IsShown};
ghost use Rattle.b67_refer.specs.Displays.{HoldsEnvironment};
ghost use Rattle.b67_entry.specs.Left.{Returns, caller_regs, caller_stack, here_left};
ghost use Rattle.b67_entry.specs.Returned.{ReturnsWord, with_word};

use crate::enter::accident_on;
use crate::leave::{caller, go_on, is_critical};
use crate::refusals::refusal;
use b67_ctl::Regs;
use b67_exec_cells::element;
use b67_refer::{End, chase, rebuild_known, stuffed_operand};
use b67_stack::{Cpu, Step, What};
use b67_word::{Fault, Word};

/// Goes on at the stack and the place of these registers, with this display, and a word more on the stack.
#[inline(always)]
fn put(cpu: &mut Cpu, regs: Regs, display: [u32; 32], word: Word)
    requires { regs.s + 1 < length cpu.old.core }
    ensures { cpu.new ≡ with_word cpu.old regs display word }
{
    go_on(cpu, regs);
    cpu.display = display;
    cpu.put(word);
}

/// Goes on at the stack and the place of these registers, whose environment the display then shows, and a word more on the stack.
#[inline(always)]
fn settle(cpu: &mut Cpu, regs: Regs, value: Word)
    requires run { RunningContext cpu.old.core regs }
    requires known { HoldsEnvironment cpu.old.core regs cpu.old.display cpu.old.regs.level }
    requires room { regs.s + 1 < length cpu.old.core }
    ensures shown { (a : RunningContext cpu.old.core regs) → IsShown a cpu.new.display }
    ensures rest { cpu.new ≡ with_word cpu.old regs cpu.new.display value }
{
    let known = cpu.regs.level;
    rebuild_known(&cpu.core, &regs, &mut cpu.display, known);
    go_on(cpu, regs);
    cpu.put(value);
}

/// Evaluates the word that is returned to a caller who wants a value, in the state without the top activation record.
#[inline(always)]
fn evaluate(cpu: &mut Cpu, regs: Regs, display: [u32; 32], word: Word) -> Step
    requires run { (r : RunsSome cpu.old) × (a : Returns r.member r.task) × (v : Words.Word) × ReturnsWord r.storage r.plan r.member r.task cpu.old a v word
        × (regs ≡ caller_regs cpu.old.regs (caller_stack r.plan r.member r.task a) a.back) }
    requires shown { (b : RunningContext cpu.old.core regs) → IsShown b display }
    requires tag { word.tag ≢ 0 }
    ensures row { ForEach cpu.old (λ x plan s m t. (a : Returns m t) (v : Words.Word) → ReturnsWord x plan m t cpu.old a v word
        → regs ≡ caller_regs cpu.old.regs (caller_stack plan m t a) a.back
        → Meets x plan s m result cpu.old cpu.new (rows.returned (here_left m t a) v true)) }
    ensures above { (i : ℕ) → cpu.new.regs.s < i → slice_get cpu.new.core i ≡ slice_get cpu.old.core i }
    ensures top { result ≡ Done → (regs.s < cpu.new.regs.s) × (cpu.new.regs.s ≤ regs.s + 2) }
{
    match chase(&cpu.core, &regs, &display, word) {
        Ok(End::Cell(at)) => {
            let value = cpu.core.get(at);
            put(cpu, regs, display, value);
            Step::Done
        }
        Ok(End::Element { original, index }) => match element(cpu, original, index) {
            Some(value) => {
                put(cpu, regs, display, value);
                Step::Done
            }
            None => Step::Absent(What::Array(original)),
        },
        Ok(End::Proc(cell)) => accident_on(cpu, regs, cpu.regs.level - 1, cell, true, regs.place),
        Ok(End::Array(_)) => Step::Fault(Fault::InvalidOperand),
        Ok(End::Intrinsic(_)) => Step::Fault(Fault::InvalidOperand),
        Err(fault) => Step::Fault(fault),
    }
}

/// As `evaluate`, behind a call, with the caller's registers and display made first.
#[inline(never)]
fn evaluate_apart(cpu: &mut Cpu, word: Word) -> Step
    requires run { (r : RunsSome cpu.old) × (a : Returns r.member r.task) × (v : Words.Word) × ReturnsWord r.storage r.plan r.member r.task cpu.old a v word }
    requires tag { word.tag ≢ 0 }
    ensures row { ForEach cpu.old (λ x plan s m t. (a : Returns m t) (v : Words.Word) → ReturnsWord x plan m t cpu.old a v word
        → Meets x plan s m result cpu.old cpu.new (rows.returned (here_left m t a) v true)) }
    ensures above { (i : ℕ) → cpu.new.regs.s < i → slice_get cpu.new.core i ≡ slice_get cpu.old.core i }
    ensures top { result ≡ Done → (cpu.old.regs.f ≤ cpu.new.regs.s) × (cpu.new.regs.s ≤ cpu.old.regs.f + 1) }
{
    let mark = cpu.top_mark();
    let regs = caller(cpu, mark);
    let mut display = cpu.display;
    rebuild_known(&cpu.core, &regs, &mut display, cpu.regs.level);
    evaluate(cpu, regs, display, word)
}

/// As `evaluate`. A stuffed reference to an operand in the last records, as most words are, needs no display first.
#[inline(always)]
fn value_of(cpu: &mut Cpu, regs: Regs, word: Word) -> Step
    requires run { (r : RunsSome cpu.old) × (a : Returns r.member r.task) × (v : Words.Word) × ReturnsWord r.storage r.plan r.member r.task cpu.old a v word
        × (regs ≡ caller_regs cpu.old.regs (caller_stack r.plan r.member r.task a) a.back) }
    requires left { RunningContext cpu.old.core regs }
    requires known { HoldsEnvironment cpu.old.core regs cpu.old.display cpu.old.regs.level }
    requires tag { word.tag ≢ 0 }
    ensures row { ForEach cpu.old (λ x plan s m t. (a : Returns m t) (v : Words.Word) → ReturnsWord x plan m t cpu.old a v word
        → regs ≡ caller_regs cpu.old.regs (caller_stack plan m t a) a.back
        → Meets x plan s m result cpu.old cpu.new (rows.returned (here_left m t a) v true)) }
    ensures above { (i : ℕ) → cpu.new.regs.s < i → slice_get cpu.new.core i ≡ slice_get cpu.old.core i }
    ensures top { result ≡ Done → (regs.s < cpu.new.regs.s) × (cpu.new.regs.s ≤ regs.s + 2) }
{
    let at = stuffed_operand(&cpu.core, &regs, word);
    if at == 0 {
        return evaluate_apart(cpu, word);
    }
    let value = cpu.core.get(at);
    settle(cpu, regs, value);
    Step::Done
}

/// RETN: leaves the running activation record with the word at the top of the stack, which goes on the caller's record,
/// and which is evaluated first where the caller wants a value. One word is then on the caller's record, or the two of a
/// procedure that was entered, and no word above these changes. The record's arrays are gone, and are left to release.
/// Faults if the top record is only marked, has no word, or may not be left with that word, and if the
/// evaluation does. `Ended`, with nothing changed, if it is the task's outermost. `Absent`, with nothing changed,
/// if the value is an element of an absent array.
#[inline(always)]
pub fn retn(cpu: &mut Cpu) -> Step
    requires { RunsSome cpu.old }
    ensures row { ForEach cpu.old (λ x plan s m t. (next : Place) → Meets x plan s m result cpu.old cpu.new (rows.retn (here m t next))) }
    ensures above { (i : ℕ) → cpu.new.regs.s < i → slice_get cpu.new.core i ≡ slice_get cpu.old.core i }
    ensures top { result ≡ Done → (cpu.old.regs.f ≤ cpu.new.regs.s) × (cpu.new.regs.s ≤ cpu.old.regs.f + 1) }
{
    let mark = cpu.top_mark();
    if !mark.entered {
        return Step::Fault(Fault::MarkPending);
    }
    if cpu.regs.s == cpu.regs.f + 1 {
        return Step::Fault(Fault::StackUnderflow);
    }
    let word = cpu.core.get(cpu.regs.s);
    match refusal(cpu, word) {
        Some(fault) => return Step::Fault(fault),
        None => {}
    }
    if is_critical(cpu) {
        return Step::Fault(Fault::CriticalBlock);
    }
    if mark.back == 0 {
        return Step::Ended;
    }
    let regs = caller(cpu, mark);
    if mark.value && word.tag() != 0 {
        return value_of(cpu, regs, word);
    }
    settle(cpu, regs, word);
    Step::Done
}
