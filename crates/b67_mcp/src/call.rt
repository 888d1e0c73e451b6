//! A call of an intrinsic on the running stack: its one argument, the call cut off, its answer pushed.

ghost use Rattle.b67_model.specs.Words as words;
ghost use Rattle.std.specs.Prelude.{◌≡◌, ℕ, ℤ, ◌<◌, List, ◌⊎◌, slice_get};
ghost use Rattle.b67_word.specs.Tagged.{word};
ghost use Rattle.b67_ctl.specs.Layout.{IsPlace};
ghost use Rattle.b67_layout.specs.Session.{RepresentsSession};
ghost use Rattle.b67_layout.specs.Meets.{ForEach, with_job, IsInStack, RunsSome};
ghost use Rattle.b67_mcp.specs.Calls.{CutSome, MayCut, job_cut, OnlyCell};
ghost use Rattle.b67_mcp.specs.Answered.{job_answered};
ghost use Rattle.b67_layout.specs.Tops.{cells};

use b67_exec_cells::{count_cells, top_cell};
use b67_stack::Cpu;
use b67_word::{Fault, Place, Word};

/// Cuts the call of an intrinsic off the running stack, and puts the operand that it answers on the activation record
/// below. The task goes on at a place of its segment. There is room, since the call's mark stood where the
/// operand does. Core doesn't hold the numbers for READ.
pub fn answer_call(cpu: &mut Cpu, w: Word, next: Place)
    requires call { CutSome cpu.old }
    requires place { IsPlace next }
    ensures stands { ForEach cpu.old (λ x plan s m t. (bits : ℕ) (numbers : List ℤ) → MayCut m t → w ≡ word 0 bits
        → RepresentsSession x cpu.new plan (with_job s m (job_answered m t (words.Operand bits) next numbers))) }
    ensures changed { ForEach cpu.old (λ x plan s m t. MayCut m t → (i : ℕ)
        → (slice_get cpu.new.core i ≡ slice_get cpu.old.core i) ⊎ IsInStack cpu.old.regs i) }
{
    cut_call(cpu, next);
    cpu.put(w);
}

/// Cuts the call of an intrinsic that answers nothing off the running stack. The task goes on at a place of its segment.
/// The call was only marked, not entered, so the display shows the environment that runs on.
#[inline(always)]
pub fn cut_call(cpu: &mut Cpu, next: Place)
    requires call { CutSome cpu.old }
    requires place { IsPlace next }
    ensures stands { ForEach cpu.old (λ x plan s m t. MayCut m t → RepresentsSession x cpu.new plan (with_job s m (job_cut m t next))) }
    ensures core { cpu.new.core ≡ cpu.old.core }
{
    cpu.cut();
    cpu.regs.place = next;
}

/// The word of a call's one argument, which is on top of its reference. INVALID OPERAND if the call has another number of
/// arguments. Nothing is changed.
pub fn only_argument(cpu: &Cpu) -> Result<Word, Fault>
    requires { RunsSome cpu.now }
    ensures { ForEach cpu.now (λ x plan s m t. OnlyCell x plan m t cpu.now (cells t) result) }
{
    if count_cells(cpu) != 2 {
        return Err(Fault::InvalidOperand);
    }
    top_cell(cpu)
}
