//! AWAIT and STATUS.

ghost use Rattle.b67_model.specs.Words as words;
ghost use Rattle.b67_model.specs.Intrinsics as rows;
ghost use Rattle.std.specs.Prelude.{◌≡◌, ◌<◌, ℕ, List, Some, pos};
ghost use Rattle.b67_ctl.specs.Layout.{IsPlace};
ghost use Rattle.b67_layout.specs.Meets.{ForEach};
ghost use Rattle.b67_task.specs.Runs.{RunsTask, ForEachRun, Keeps};
ghost use Rattle.b67_task.specs.declared.tables.TaskState.TheVariants.{Awaits};
ghost use Rattle.b67_mcp.specs.Calls.{StandsAtCall, ForCall, CallSome, IsCall};
ghost use Rattle.b67_mcp.specs.Arguments.{number_given};
ghost use Rattle.b67_mcp.specs.Events.{WaitMeets, DoneMeets};

use crate::call::{answer_call, cut_call, only_argument};
use crate::number::whole;
use b67_entry::is_critical;
use b67_stack::Cpu;
use b67_task::{Machine, TaskState, lives, status};
use b67_word::{Fault, Place, Word};

/// The number of the running task's job.
pub(crate) fn running_job(machine: &Machine) -> u8
    requires { RunsTask machine.now }
    ensures { ForEachRun machine.now (λ x told plan s m t. result ≡ m.constants.number) }
{
    machine.tasks.rows[machine.tasks.running as usize].job
}

/// The number that is a call's one argument. INVALID OPERAND if the call has another number of arguments, or that is no
/// operand; EXPONENT if it isn't whole.
fn number_in(cpu: &Cpu) -> Result<i64, Fault>
    requires { CallSome cpu.now }
    ensures { ForEach cpu.now (λ x plan s m t. (reference : words.Word) (arguments : List words.Word) → IsCall t reference arguments → result ≡ number_given arguments) }
{
    match only_argument(cpu) {
        Ok(w) => whole(w),
        Err(fault) => Err(fault),
    }
}

/// The state of one who waits for the end of the task of a number, which was started before the next one.
fn awaiting(number: i64, next: u32) -> TaskState
    requires { (n : ℕ) × (number ≡ pos n) × (n < next) }
    ensures { (n : ℕ) → number ≡ pos n → result ≡ Awaits n }
{
    TaskState::Awaits(number as u32)
}

/// AWAIT: where the job's task of the number lives, the running task is to wait for its end, with nothing changed; else the
/// call is cut. Its fault changes nothing.
pub fn await_task(machine: &mut Machine, next: Place) -> Result<Option<TaskState>, Fault>
    requires call { StandsAtCall machine.old }
    requires place { IsPlace next }
    ensures row { ForCall machine.old (λ x told plan s m t arguments. WaitMeets rows.await x told plan s m t next arguments result machine.old machine.new) }
    ensures kept { Keeps machine.old machine.new }
    ensures sectors { machine.new.sectors ≡ machine.old.sectors }
{
    let number = number_in(&machine.cpu)?;
    let job = running_job(machine);
    if lives(&machine.tasks, job, number) {
        return Ok(Some(awaiting(number, machine.tasks.next_number(job))));
    }
    if is_critical(&machine.cpu) {
        return Err(Fault::CriticalBlock);
    }
    cut_call(&mut machine.cpu, next);
    Ok(None)
}

/// STATUS: the call is cut and answers how it stands with the job's task of the number: 0 it was never started, 1 it is ready,
/// 2 it waits, 3 it has ended. Its fault changes nothing.
#[inline(always)]
pub fn status_of(machine: &mut Machine, next: Place) -> Result<(), Fault>
    requires call { StandsAtCall machine.old }
    requires place { IsPlace next }
    ensures row { ForCall machine.old (λ x told plan s m t arguments. DoneMeets rows.status x told plan s m t next arguments result machine.old machine.new) }
    ensures kept { Keeps machine.old machine.new }
    ensures sectors { machine.new.sectors ≡ machine.old.sectors }
{
    let number = number_in(&machine.cpu)?;
    if is_critical(&machine.cpu) {
        return Err(Fault::CriticalBlock);
    }
    let job = running_job(machine);
    let told = status(&machine.tasks, job, number);
    answer_call(&mut machine.cpu, Word::of(0, u64::from(told)), next);
    Ok(())
}
