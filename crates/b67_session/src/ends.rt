//! The last part of a step.

ghost use Rattle.std.specs.Prelude.{◌≡◌, ℕ, List, Option, Some};
ghost use Rattle.b67_io.specs.Causes.{HasCause};
ghost use Rattle.b67_model.specs.Run.{StepResult};
ghost use Rattle.b67_model.specs.Schedule.{Session};
ghost use Rattle.b67_session_lines.specs.Moments.{last_part};
ghost use Rattle.b67_stack.specs.Represents.{Storage};
ghost use Rattle.b67_layout.specs.Placement.{Placement};
ghost use Rattle.b67_task.specs.Runs.{Keeps};
ghost use Rattle.b67_task.specs.Tables.{MachineRepresents};
ghost use Rattle.b67_law.specs.Orders.{IsInOrderButLimit};
ghost use Rattle.b67_session.specs.Ends.{StandsBetween, HasLimited, LimitEnds, Finishes};

use crate::deaths::{all_ended, end_job};
use crate::ending_lines::put_endings;
use crate::limits::is_at_limit;
use b67_io::Sink;
use b67_task::{Machine, live_of};
use b67_word::{Ending, Failed};

/// The job that made the last operator stands at its limit with live tasks: what isn't printed yet of the lines of LIMIT is
/// printed, deepest first, and all its tasks end: the areas of the job's arrays are free then, and all others stay where they
/// are. If the printer fails, nothing changes but how much of them is printed.
#[inline(always)]
pub fn end_by_limit<K: Sink>(machine: &mut Machine, paper: &mut K) -> Result<(), Failed>
    requires { HasLimited machine.old }
    ensures ends { (x : Storage) (told : Option (List (List ℕ))) (plan : Placement) (h : Session) (part : StepResult) → IsInOrderButLimit h → last_part h ≡ Some part
        → MachineRepresents x told machine.old plan h → LimitEnds K.taken x told plan h part result machine.old machine.new paper.old paper.new }
    ensures cause { HasCause K.faults paper.old paper.new result }
    ensures tasks { machine.new.tasks ≡ record machine.old.tasks { rows = machine.new.tasks.rows; running = machine.new.tasks.running; printed = machine.new.tasks.printed } }
    ensures keeps { Keeps machine.old machine.new }
{
    let job = machine.tasks.last_job;
    let live = live_of(&machine.tasks, job);
    let ended = all_ended(live.as_slice(), Ending::Limit);
    put_endings(paper, job, ended.as_slice(), &mut machine.tasks.printed)?;
    end_job(machine, job);
    machine.tasks.printed = 0;
    Ok(())
}

/// The last part of a step whose operator is counted: if its job stands at its limit with live tasks, these end by LIMIT.
#[inline(always)]
pub fn finish<K: Sink>(machine: &mut Machine, paper: &mut K) -> Result<(), Failed>
    requires { StandsBetween machine.old }
    ensures finishes { (x : Storage) (told : Option (List (List ℕ))) (plan : Placement) (h : Session) → IsInOrderButLimit h → MachineRepresents x told machine.old plan h
        → Finishes K.taken x told plan h (last_part h) result machine.old machine.new paper.old paper.new }
    ensures cause { HasCause K.faults paper.old paper.new result }
    ensures tasks { machine.new.tasks ≡ record machine.old.tasks { rows = machine.new.tasks.rows; running = machine.new.tasks.running; printed = machine.new.tasks.printed } }
    ensures keeps { Keeps machine.old machine.new }
{
    if !is_at_limit(&machine.tasks) {
        return Ok(());
    }
    end_by_limit(machine, paper)
}
