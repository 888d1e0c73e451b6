//! MKST, ENTR, and the accidental entry of a procedure.

ghost use Rattle.std.specs.Prelude.{◌≡◌, ◌≢◌, ℕ, not, ◌==◌, ◌+◌, ◌*◌, ◌<◌, true, List, Some, None, slice_get};
ghost use Rattle.b67_ctl.specs.Layout.{IsPlace, IsPcw, pcw_word};
ghost use Rattle.b67_ctl.specs.declared.programs.Pcw.{Pcw};
ghost use Rattle.b67_ctl.specs.declared.registers.Regs.{Regs};
ghost use Rattle.b67_word.specs.declared.couples.Place.{Place};
ghost use Rattle.b67_model.specs.Steps.{cells_of, top_of};
ghost use Rattle.b67_model.specs.Called.{called_on};
ghost use Rattle.b67_model.specs.Chase.{AtProc};
ghost use Rattle.b67_model.specs.Entry as rows;
ghost use Rattle.b67_model.specs.Entry.{back_to};
ghost use Rattle.b67_model.specs.Rows as operators;
ghost use Rattle.b67_stack.specs.declared.Step as ways;
ghost use Rattle.b67_stack.specs.declared.Step.TheVariants.{Done};
ghost use Rattle.b67_layout.specs.Meets.{RunsSome, ForEach, Meets, here};
ghost use Rattle.b67_exec_cells.specs.Tops.{StaysInSegment};
ghost use Rattle.b67_refer.specs.RunningContext.{RunningContext, IsShown};
ghost use Rattle.b67_refer.specs.Displays.{HoldsEnvironment, EntersOver};
ghost use Rattle.b67_refer.specs.Cells.{view};
ghost use Rattle.b67_model.specs.Environment.{level_of_frame};
ghost use Rattle.b67_model.specs.State.{frame};
ghost use Rattle.b67_entry.specs.Procedures.{ReachesProc, CanEnter, EntersOrFaults, HoldsUnder, CallsWith, CallsOrMeets};
ghost use Rattle.b67_model.specs.Words as Words;

use b67_core::Core;
use b67_ctl::{IntrinsicPcw, Mscw, Pcw, Rcw, Regs};
use b67_refer::{
    Activation, Enclosure, End, chase, couple_at, enclosure_at, enclosure_of, near_place,
    rebuild_entered,
};
use b67_stack::{Cpu, Step};
use b67_word::{Fault, Place};

/// MKST: puts a mark on the stack, or faults if the stack is as high as its slot. The task goes on at `next`.
#[inline]
pub fn mkst(cpu: &mut Cpu, next: Place) -> Step
    requires { RunsSome cpu.old }
    ensures row { ForEach cpu.old (λ x plan s m t. Meets x plan s m result cpu.old cpu.new (rows.mkst (here m t next))) }
    ensures stays { result ≡ Done → StaysInSegment cpu.old cpu.new next }
{
    match cpu.mark() {
        Ok(()) => {
            cpu.regs.place = next;
            Step::Done
        }
        Err(_) => Step::Fault(Fault::StackOverflow),
    }
}

/// The program control word at an address.
#[inline(always)]
fn procedure_at(core: &Core, at: u32) -> Pcw
    requires { (p : Pcw) × IsPcw p × (slice_get core.now at ≡ Some (pcw_word p)) }
    ensures { (p : Pcw) → IsPcw p → slice_get core.now at ≡ Some (pcw_word p) → result ≡ p }
{
    Pcw::read(core.get(at))
}

/// The mark of an activation record that is entered at a level in an environment.
#[inline(always)]
fn entered_mark(regs: &Regs, env: Activation, level: u8, value: bool, back: u16) -> Mscw
    ensures { result ≡ record { far = not (env.stack == regs.now.slot); entered = true; env_stack = env.stack; env_disp = env.disp; value = value; level = level; back = back } }
{
    Mscw {
        far: env.stack != u16::from(regs.slot),
        entered: true,
        env_stack: env.stack,
        env_disp: env.disp,
        value,
        level,
        back,
    }
}

/// The task goes on at a procedure's first operator, in the environment of its top activation record, which was entered in
/// that of the mark at `under`. The display holds an environment up to level `known`.
#[inline(always)]
fn begin(cpu: &mut Cpu, procedure: Pcw, under: u32, known: u8)
    requires run { RunningContext cpu.old.core (record cpu.old.regs { level = procedure.level; segment = procedure.segment; place = procedure.place }) }
    requires known { HoldsEnvironment cpu.old.core cpu.old.regs cpu.old.display known }
    requires top { EntersOver cpu.old.core (record cpu.old.regs { level = procedure.level; segment = procedure.segment; place = procedure.place }) under }
    ensures display { (a : RunningContext cpu.old.core (record cpu.old.regs { level = procedure.level; segment = procedure.segment; place = procedure.place })) → IsShown a cpu.new.display }
    ensures rest { cpu.new ≡ record cpu.old { regs = record cpu.old.regs { level = procedure.level; segment = procedure.segment; place = procedure.place }; display = cpu.new.display } }
{
    cpu.regs.level = procedure.level;
    cpu.regs.segment = procedure.segment;
    cpu.regs.place = procedure.place;
    rebuild_entered(&cpu.core, &cpu.regs, &mut cpu.display, known, under);
}

/// The top activation record, which is marked, enters the procedure of a cell that its first cell refers to and that lies in the
/// activation record `home`: the first cell becomes the return to `next`.
///
/// INVALID OPERAND, with nothing changed, if the procedure's level isn't the next one above that of its cell's
/// activation record.
#[inline(always)]
fn enter(cpu: &mut Cpu, cell: u32, home: Enclosure, next: Place) -> Step
    requires procedure { (a : RunningContext cpu.old.core cpu.old.regs) × (f : ℕ) × (segment : ℕ) × (level : ℕ) × (place : Place) × (reference : Words.Word) × (arguments : List Words.Word)
        × ReachesProc cpu.old a next cell f segment level place × CallsWith a.task reference arguments }
    requires home { (a : RunningContext cpu.old.core cpu.old.regs) (f segment level : ℕ) (place : Place) → ReachesProc cpu.old a next cell f segment level place
        → home.record ≡ record { stack = (view a f).stack; disp = (view a f).disp; level = level_of_frame (frame (here a.member a.task next) f) } }
    requires mark { cpu.old.regs.stacks + home.record.stack * cpu.old.regs.stack_size + home.record.disp ≡ home.mark }
    requires next { IsPlace next }
    ensures row { (a : RunningContext cpu.old.core cpu.old.regs) (f segment level : ℕ) (place : Place) (reference : Words.Word) (arguments : List Words.Word)
        → ReachesProc cpu.old a next cell f segment level place → CallsWith a.task reference arguments
        → Meets a.storage a.plan a.session a.member result cpu.old cpu.new (rows.enters (here a.member a.task next) arguments (AtProc f segment level place)) }
{
    let env = home.record;
    let procedure = procedure_at(&cpu.core, cell);
    if env.level + 1 != procedure.level {
        return Step::Fault(Fault::InvalidOperand);
    }
    let top = cpu.top_mark();
    let mark = entered_mark(&cpu.regs, env, procedure.level, false, top.back);
    let caller = Rcw {
        place: next,
        level: cpu.regs.level,
        segment: cpu.regs.segment,
    };
    cpu.core.set(cpu.regs.f, mark.word());
    cpu.core.set(cpu.regs.f + 1, caller.word());
    begin(cpu, procedure, home.mark, cpu.regs.level);
    Step::Done
}

/// ENTR, as `entr` makes it, where the reference is a couple that names the near cell of a procedure or of an intrinsic. None, with
/// nothing changed, if it may lead elsewhere.
#[inline(always)]
pub fn entr_near(cpu: &mut Cpu, next: Place) -> Option<Step>
    requires runs { RunsSome cpu.old }
    requires next { IsPlace next }
    ensures row { (step : ways.Step) → result ≡ Some step → ForEach cpu.old (λ x plan s m t. CallsOrMeets x plan s m step cpu.old cpu.new (called_on (here m t next) (top_of (here m t next)).standing) (operators.entr (here m t next) (top_of (here m t next)).standing)) }
    ensures kept { result ≡ None → cpu.new ≡ cpu.old }
{
    if cpu.top_mark().entered {
        return None;
    }
    if cpu.regs.s == cpu.regs.f {
        return None;
    }
    let first = cpu.core.get(cpu.regs.f + 1);
    let at = near_place(&cpu.core, &cpu.regs, &cpu.display, first);
    if at == 0 {
        return None;
    }
    let word = cpu.core.get(at);
    if word.tag() != 7 {
        return None;
    }
    match IntrinsicPcw::from_word(word) {
        Some(p) => Some(Step::Call(p.number as u8)),
        None => {
            let offset = couple_at(first.bits() as u16, cpu.regs.level).disp;
            let home = enclosure_at(&cpu.core, &cpu.regs, at - u32::from(offset));
            let step = enter(cpu, at, home, next);
            Some(step)
        }
    }
}

/// ENTR: enters the procedure that the first cell of the marked activation record on top refers to. Its caller goes on
/// at `next`. If the reference ends at an intrinsic, the answer is its number, with nothing changed.
#[inline(always)]
pub fn entr(cpu: &mut Cpu, next: Place) -> Step
    requires runs { RunsSome cpu.old }
    requires next { IsPlace next }
    ensures row { ForEach cpu.old (λ x plan s m t. CallsOrMeets x plan s m result cpu.old cpu.new (called_on (here m t next) (top_of (here m t next)).standing) (operators.entr (here m t next) (top_of (here m t next)).standing)) }
{
    if cpu.top_mark().entered {
        return Step::Fault(Fault::InvalidOperand);
    }
    if cpu.regs.s == cpu.regs.f {
        return Step::Fault(Fault::StackUnderflow);
    }
    let first = cpu.core.get(cpu.regs.f + 1);
    if first.tag() != 1 {
        return Step::Fault(Fault::InvalidOperand);
    }
    match chase(&cpu.core, &cpu.regs, &cpu.display, first) {
        Ok(End::Proc(cell)) => {
            let home = enclosure_of(&cpu.core, &cpu.regs, cell);
            enter(cpu, cell, home, next)
        }
        Ok(End::Intrinsic(n)) => Step::Call(n),
        Ok(End::Cell(_)) => Step::Fault(Fault::InvalidOperand),
        Ok(End::Element { .. }) => Step::Fault(Fault::InvalidOperand),
        Ok(End::Array(_)) => Step::Fault(Fault::InvalidOperand),
        Err(fault) => Step::Fault(fault),
    }
}

/// As `accident`, with these registers in place of the machine's. The two words over their top are the new ones, and
/// nothing above these changes. Whatever these two are, the display holds an environment up to level `known`.
#[inline(always)]
pub fn accident_on(
    cpu: &mut Cpu,
    regs: Regs,
    known: u8,
    cell: u32,
    value: bool,
    back: Place,
) -> Step
    requires procedure { (a : RunningContext cpu.old.core regs) × (q : Place) × (f : ℕ) × (segment : ℕ) × (level : ℕ) × (place : Place) × CanEnter cpu.old regs a q cell f segment level place }
    requires back { IsPlace back }
    requires known { HoldsUnder cpu.old regs known }
    ensures row { (a : RunningContext cpu.old.core regs) (q : Place) (f segment level : ℕ) (place : Place) → CanEnter cpu.old regs a q cell f segment level place
        → EntersOrFaults a result cpu.old cpu.new (rows.accident (here a.member a.task q) (cells_of (here a.member a.task q)) (back_to (here a.member a.task q) value back) (AtProc f segment level place)) }
    ensures above { (i : ℕ) → cpu.new.regs.s < i → slice_get cpu.new.core i ≡ slice_get cpu.old.core i }
    ensures top { result ≡ Done → cpu.new.regs.s ≡ regs.s + 2 }
{
    let home = enclosure_of(&cpu.core, &regs, cell);
    let env = home.record;
    let procedure = procedure_at(&cpu.core, cell);
    if env.level + 1 != procedure.level {
        return Step::Fault(Fault::InvalidOperand);
    }
    if regs.losr - regs.s < 2 {
        return Step::Fault(Fault::StackOverflow);
    }
    let distance = (regs.s + 1 - regs.f) as u16;
    let mark = entered_mark(&regs, env, procedure.level, value, distance);
    let caller = Rcw {
        place: back,
        level: regs.level,
        segment: regs.segment,
    };
    cpu.core.set(regs.s + 1, mark.word());
    cpu.core.set(regs.s + 2, caller.word());
    cpu.regs.s = regs.s + 2;
    cpu.regs.f = regs.s + 1;
    begin(cpu, procedure, home.mark, known);
    Step::Done
}

/// Enters the procedure of a cell that a reference of the running task ends at, by a new activation record without
/// cells. It returns to `back` in the running segment, and is marked to return a value where `value` says so.
///
/// INVALID OPERAND if the procedure's level isn't the next one above that of its cell's activation record, then
/// STACK OVERFLOW if two words don't fit; nothing is changed then.
#[inline(always)]
pub fn accident(cpu: &mut Cpu, cell: u32, value: bool, back: Place) -> Step
    requires procedure { (a : RunningContext cpu.old.core cpu.old.regs) × (q : Place) × (f : ℕ) × (segment : ℕ) × (level : ℕ) × (place : Place) × ReachesProc cpu.old a q cell f segment level place }
    requires back { IsPlace back }
    ensures row { (a : RunningContext cpu.old.core cpu.old.regs) (q : Place) (f segment level : ℕ) (place : Place) → ReachesProc cpu.old a q cell f segment level place
        → Meets a.storage a.plan a.session a.member result cpu.old cpu.new (rows.accident (here a.member a.task q) (cells_of (here a.member a.task q)) (back_to (here a.member a.task q) value back) (AtProc f segment level place)) }
{
    let regs = cpu.regs;
    accident_on(cpu, regs, regs.level, cell, value, back)
}
