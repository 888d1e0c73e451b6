//! The chosen task waits.

ghost use Rattle.std.specs.Prelude.{ℕ, List, Option};
ghost use Rattle.b67_io.specs.Causes.{HasCause};
ghost use Rattle.b67_model.specs.Schedule.{Session};
ghost use Rattle.b67_model.specs.State.{Condition, Task, SessionJob};
ghost use Rattle.b67_stack.specs.Represents.{Storage};
ghost use Rattle.b67_layout.specs.Placement.{Placement};
ghost use Rattle.b67_law.specs.Turns.{part_of};
ghost use Rattle.b67_task.specs.Counted.{choice_of, CountsHaveRoom};
ghost use Rattle.b67_task.specs.Runs.{Keeps};
ghost use Rattle.b67_session.specs.Closing.{StandsChosen, Closes};
ghost use Rattle.b67_session.specs.Holds.{waiting_step, HoldsSo, HoldsSome};

use crate::closes::end_stuck;
use crate::counts::count_one;
use crate::ending_lines::put_endings;
use crate::left::goes_on;
use crate::task_states::{set_state, stuck};
use b67_io::Sink;
use b67_task::{Chosen, Machine, TaskState};
use b67_word::Failed;

/// The step of the chosen task makes it wait, and its row shows the state: if no task of its job is ready then, what isn't
/// printed yet of the lines of DEADLOCK is printed, and all of them end; then the step is counted. If the printer fails,
/// nothing changes but how much of the lines is printed.
pub fn make_wait<K: Sink>(
    machine: &mut Machine,
    chosen: Chosen,
    state: TaskState,
    paper: &mut K,
) -> Result<(), Failed>
    requires row { HoldsSome machine.old chosen state }
    requires room { CountsHaveRoom machine.old.tasks chosen }
    ensures holds { (x : Storage) (told : Option (List (List ℕ))) (plan : Placement) (s : Session) (m : SessionJob) (t : Task) (condition : Condition) → StandsChosen x told machine.old plan s m t chosen
        → HoldsSo plan m t state condition → Closes K.taken x told plan s (part_of s (choice_of chosen) m t (waiting_step m.progress.job t condition)) result machine.old machine.new paper.old paper.new }
    ensures cause { HasCause K.faults paper.old paper.new result }
    ensures keeps { Keeps machine.old machine.new }
{
    let before = set_state(&mut machine.tasks, chosen.row, state);
    let goes = goes_on(&machine.tasks, chosen.job, &[]);
    let ended = stuck(&machine.tasks, chosen.job, goes);
    match put_endings(
        paper,
        chosen.job,
        ended.as_slice(),
        &mut machine.tasks.printed,
    ) {
        Ok(()) => {}
        Err(failed) => {
            let _held = set_state(&mut machine.tasks, chosen.row, before);
            return Err(failed);
        }
    }
    end_stuck(machine, chosen.job, goes);
    count_one(&mut machine.tasks, chosen);
    Ok(())
}
