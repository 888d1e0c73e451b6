//! Leaving activation records.

ghost use Rattle.std.specs.Prelude.{◌≡◌, ℕ, ◌+◌, List, ◌∷◌};
ghost use Rattle.b67_ctl.specs.declared.marks.Mscw.{Mscw};
ghost use Rattle.b67_word.specs.declared.couples.Place.{Place};
ghost use Rattle.b67_model.specs.State.{top};
ghost use Rattle.b67_model.specs.Entry as rows;
ghost use Rattle.b67_model.specs.Steps.{is_critical as depended_on};
ghost use Rattle.b67_stack.specs.Stacks.{top_mark as top_mark_of};
ghost use Rattle.b67_stack.specs.declared.Step.TheVariants.{Done};
ghost use Rattle.b67_layout.specs.Meets.{RunsSome, ForEach, Meets, here};
ghost use Rattle.b67_entry.specs.Left.{MayReturn, caller_regs, going_on};

use b67_ctl::{Mscw, Rcw, Regs};
use b67_refer::rebuild_known;
use b67_stack::{Cpu, Step};
use b67_word::Fault;

/// Whether a live task depends on the top activation record.
#[inline(always)]
pub fn is_critical(cpu: &Cpu) -> bool
    requires { RunsSome cpu.now }
    ensures { ForEach cpu.now (λ x plan s m t. result ≡ depended_on m.progress.job (top t.frames).identity) }
{
    u32::from(cpu.critical[usize::from(cpu.regs.slot)]) == cpu.regs.f - cpu.regs.bosr
}

/// The registers without the top activation record, where the caller goes on.
#[inline(always)]
pub fn caller(cpu: &Cpu, mark: Mscw) -> Regs
    requires { (a : MayReturn cpu.now) × (mark ≡ top_mark_of cpu.now.regs.slot (a.top ∷ a.below)) }
    ensures { (a : MayReturn cpu.now) → mark ≡ top_mark_of cpu.now.regs.slot (a.top ∷ a.below)
        → result ≡ caller_regs cpu.now.regs a.below a.back }
{
    let word = Rcw::read(cpu.core.get(cpu.regs.f + 1));
    Regs {
        s: cpu.regs.f - 1,
        f: cpu.regs.f - u32::from(mark.back),
        level: word.level,
        segment: word.segment,
        place: word.place,
        ..cpu.regs
    }
}

/// The task goes on at the stack and the place of these registers, which are of the same slot: the others stay.
#[inline(always)]
pub(crate) fn go_on(cpu: &mut Cpu, regs: Regs)
    ensures { cpu.new ≡ record cpu.old { regs = going_on cpu.old.regs regs } }
{
    cpu.regs.s = regs.s;
    cpu.regs.f = regs.f;
    cpu.regs.level = regs.level;
    cpu.regs.segment = regs.segment;
    cpu.regs.place = regs.place;
}

/// EXIT: leaves the running activation record: the stack's top is below its mark, and no word changes. Its arrays are gone,
/// and are left to release. Faults if the top one is only marked, or if a live task depends on it. `Ended`, with
/// nothing changed, if it is the task's outermost.
#[inline(always)]
pub fn exit(cpu: &mut Cpu) -> Step
    requires { RunsSome cpu.old }
    ensures row { ForEach cpu.old (λ x plan s m t. (next : Place) → Meets x plan s m result cpu.old cpu.new (rows.exit (here m t next))) }
    ensures core { cpu.new.core ≡ cpu.old.core }
    ensures top { result ≡ Done → cpu.new.regs.s + 1 ≡ cpu.old.regs.f }
{
    let mark = cpu.top_mark();
    if !mark.entered {
        return Step::Fault(Fault::MarkPending);
    }
    if is_critical(cpu) {
        return Step::Fault(Fault::CriticalBlock);
    }
    if mark.back == 0 {
        return Step::Ended;
    }
    let known = cpu.regs.level;
    let regs = caller(cpu, mark);
    rebuild_known(&cpu.core, &regs, &mut cpu.display, known);
    go_on(cpu, regs);
    Step::Done
}
