//! The task that PROCESS starts, and the call's answer.

ghost use Rattle.b67_model.specs.Words as words;
ghost use Rattle.std.specs.Prelude.{◌≡◌, ℕ, ◌+◌, ◌<◌, ◌≤◌, List, Option, length};
ghost use Rattle.b67_word.specs.declared.couples.Place.{Place};
ghost use Rattle.b67_model.specs.declared.limits.TheConstants.{MOST_TASKS, MOST_STACKS};
ghost use Rattle.b67_ctl.specs.Layout.{IsPlace};
ghost use Rattle.b67_model.specs.State.{Task, SessionJob};
ghost use Rattle.b67_model.specs.Schedule.{Session};
ghost use Rattle.b67_layout.specs.Orders.{IsInOrderButCounts};
ghost use Rattle.b67_stack.specs.Represents.{Storage};
ghost use Rattle.b67_layout.specs.Placement.{Placement};
ghost use Rattle.b67_layout.specs.Session.{IsRunning};
ghost use Rattle.b67_layout.specs.Meets.{with_job};
ghost use Rattle.b67_mcp.specs.Calls.{MayCut};
ghost use Rattle.b67_mcp.specs.Answered.{job_answered};
ghost use Rattle.b67_task.specs.Starts.{MayStart, child};
ghost use Rattle.b67_task.specs.Runs.{ForEachRun, Keeps, RunsTask};
ghost use Rattle.b67_task.specs.Tables.{MachineRepresents};
ghost use Rattle.b67_mcp.specs.Asked.{Asks, job_started};
ghost use Rattle.b67_mcp.specs.Begins.{counts_for, rows_of_job, AnswersSome, BeginsSome, AsksSome, StandsMoved};
ghost use Rattle.b67_mcp.specs.Process.{CanNumber, ProcessRow, ProcessFits, ProcessServed};

use crate::call::answer_call;
use crate::process_asked::Asked;
use b67_backing::{Backing, SpaceFault};
use b67_overlay::claim;
use b67_task::{Machine, TaskRow, need, next_slot_end, start};
use b67_word::{Fault, Place, Word};

/// 1 for the row of a task of a job, 0 for another.
fn counted(row: TaskRow, job: u8) -> u8
    ensures { result ≡ counts_for row job }
{
    if row.job == job {
        return 1;
    }
    0
}

/// How many rows are of tasks of a job.
fn rows_of(rows: &[TaskRow], job: u8) -> u8
    requires { length rows.now ≤ MOST_STACKS }
    ensures { result ≡ rows_of_job rows.now job }
{
    let mut live = 0u8;
    for at in 0..rows.len() as u8 {
        live += counted(rows[at as usize], job);
    }
    live
}

/// How many tasks of the running task's job live.
pub(crate) fn tasks_of_job(machine: &Machine) -> u8
    requires { RunsTask machine.now }
    ensures { ForEachRun machine.now (λ x told plan s m t. result ≡ length m.progress.job.tasks) }
{
    let job = machine.tasks.rows[machine.tasks.running as usize].job;
    rows_of(machine.tasks.rows.as_slice(), job)
}

/// Cuts the call at which the running task stands, and answers a number.
pub(crate) fn answer(machine: &mut Machine, number: u32, next: Place)
    requires call { AnswersSome machine.old }
    requires place { IsPlace next }
    ensures stands { ForEachRun machine.old (λ x told plan s m t. MayCut m t
        → MachineRepresents x told machine.new plan (with_job s m (job_answered m t (words.Operand number) next m.progress.job.numbers))) }
    ensures kept { Keeps machine.old machine.new }
    ensures printed { machine.new.tasks.printed ≡ machine.old.tasks.printed }
{
    answer_call(&mut machine.cpu, Word::of(0, u64::from(number)), next);
}

/// Starts the task that a call asks for, cuts the call, and answers the task's number. No area has a word under the slot
/// that the task gets.
fn begin(machine: &mut Machine, asked: Asked, next: Place)
    requires call { BeginsSome machine.old asked.cell asked.count }
    requires place { IsPlace next }
    ensures stands { (x : Storage) (told : Option (List (List ℕ))) (plan : Placement) (s : Session) (m : SessionJob) (t : Task) (f segment level : ℕ) (place : Place) (slot : ℕ) → IsInOrderButCounts s
        → MachineRepresents x told machine.old plan s → IsRunning plan s.jobs m t → MayStart x plan m t (length machine.old.cpu.core) asked.cell asked.count f segment level place slot → MayCut m t
        → StandsMoved told s m (job_started m t (child m t asked.count f segment level place) next) 1 machine.new }
    ensures kept { Keeps machine.old machine.new }
    ensures printed { machine.new.tasks.printed ≡ machine.old.tasks.printed }
{
    let number = start(machine, asked.cell, asked.count);
    answer(machine, number, next);
}

/// Starts the task that a call asks for where there is space for it, cuts the call, and answers the task's number. Nothing
/// of the call's words is read before areas were evicted.
pub(crate) fn start_asked<B: Backing>(
    machine: &mut Machine,
    asked: Asked,
    next: Place,
    backing: &mut B,
) -> Result<Result<(), Fault>, SpaceFault>
    requires call { AsksSome machine.old asked.cell asked.count next }
    requires number { CanNumber machine.old.tasks.jobs }
    requires same { B.size backing.old + 1 ≡ length machine.old.sectors.links }
    ensures row { ForEachRun machine.old (λ x told plan s m t. (arguments : List words.Word) → Asks plan m t arguments asked.cell asked.count
        → length m.progress.job.tasks < MOST_TASKS → ProcessRow B.holds told plan s m t next arguments result machine.old machine.new backing.old backing.new) }
    ensures fits { ForEachRun machine.old (λ x told plan s m t. (arguments : List words.Word) → ProcessFits (length machine.old.cpu.core) s m t next arguments result) }
    ensures kept { Keeps machine.old machine.new }
    ensures printed { machine.new.tasks.printed ≡ machine.old.tasks.printed }
    ensures device { ProcessServed B.holds B.size B.calls B.faults backing.old backing.new result }
{
    let words = need(machine, 1, 0);
    let core = machine.cpu.core.size();
    if words > core {
        return Err(SpaceFault::NoCore { need: words, core });
    }
    let upto = next_slot_end(&machine.cpu);
    match claim(
        &mut machine.cpu,
        &mut machine.areas,
        &mut machine.sectors,
        backing,
        upto,
    ) {
        Ok(()) => {
            begin(machine, asked, next);
            Ok(Ok(()))
        }
        Err(fault) => Err(fault),
    }
}
