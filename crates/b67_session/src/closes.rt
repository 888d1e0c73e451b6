//! A task ends by itself, and if no other task of its job is ready then, all of them end by DEADLOCK.

ghost use Rattle.std.specs.Prelude.{◌≡◌, ℕ, List, [], Option, length};
ghost use Rattle.std.specs.List.{list_any};
ghost use Rattle.b67_io.specs.Causes.{HasCause};
ghost use Rattle.b67_lemmas.specs.Lists.{Has};
ghost use Rattle.b67_model.specs.Endings.{deadlocked, ends_with, unsettled};
ghost use Rattle.b67_model.specs.Schedule.{Session};
ghost use Rattle.b67_model.specs.State.{Task, SessionJob};
ghost use Rattle.b67_stack.specs.Represents.{Storage};
ghost use Rattle.b67_layout.specs.Meets.{with_job};
ghost use Rattle.b67_layout.specs.Orders.{IsInOrderButCounts};
ghost use Rattle.b67_layout.specs.Placement.{Placement};
ghost use Rattle.b67_law.specs.Turns.{part_of};
ghost use Rattle.b67_task.specs.Tables.{MachineRepresents};
ghost use Rattle.b67_task.specs.Counted.{choice_of, CountsHaveRoom};
ghost use Rattle.b67_task.specs.Runs.{Keeps};
ghost use Rattle.b67_session.specs.Closing.{HasJobOf, StandsChosen, ChoseSome, Closes, left_ready};
ghost use Rattle.b67_session.specs.Ends.{StandsInPlace};

use crate::counts::count_one;
use crate::deaths::end_job;
use crate::ending_lines::put_endings;
use crate::left::{goes_on, with_stuck};
use crate::limits::has_row;
use b67_io::Sink;
use b67_task::{Chosen, Machine, end_family, endings};
use b67_word::{Ending, Failed};

/// If no task of a job goes on, as was seen, all of them end. What is left lies where it lay.
pub fn end_stuck(machine: &mut Machine, job: u8, goes: bool)
    requires job { HasJobOf machine.old job }
    requires seen { goes ≡ list_any (left_ready job []) machine.old.tasks.rows.items }
    ensures stands { (x : Storage) (told : Option (List (List ℕ))) (plan : Placement) (s : Session) (m : SessionJob) → IsInOrderButCounts s → MachineRepresents x told machine.old plan s
        → Has s.jobs m → m.constants.number ≡ job → StandsInPlace x told machine.new plan s (with_job s m (deadlocked (unsettled m.progress.job)).job) }
    ensures tasks { machine.new.tasks ≡ record machine.old.tasks { rows = machine.new.tasks.rows; running = machine.new.tasks.running } }
    ensures len { length machine.new.cpu.core ≡ length machine.old.cpu.core }
    ensures count { length machine.new.sectors.links ≡ length machine.old.sectors.links }
{
    if goes {
        return;
    }
    if !has_row(machine.tasks.rows.as_slice(), job) {
        return;
    }
    end_job(machine, job);
}

/// The chosen task ends so by itself: what isn't printed yet of the lines of the endings is printed, but LIMIT's; then the
/// tasks end, and the step is counted. The areas of their arrays are free then, and all others stay where they are. If the
/// printer fails, nothing changes but how much of them is printed.
pub fn close<K: Sink>(
    machine: &mut Machine,
    chosen: Chosen,
    ending: Ending,
    paper: &mut K,
) -> Result<(), Failed>
    requires row { ChoseSome machine.old chosen }
    requires room { CountsHaveRoom machine.old.tasks chosen }
    ensures closes { (x : Storage) (told : Option (List (List ℕ))) (plan : Placement) (s : Session) (m : SessionJob) (t : Task) → StandsChosen x told machine.old plan s m t chosen
        → Closes K.taken x told plan s (part_of s (choice_of chosen) m t (ends_with m.progress.job t.number ending)) result machine.old machine.new paper.old paper.new }
    ensures cause { HasCause K.faults paper.old paper.new result }
    ensures keeps { Keeps machine.old machine.new }
{
    let dead = endings(&machine.tasks, chosen.row, ending);
    let gone = dead.as_slice();
    let goes = goes_on(&machine.tasks, chosen.job, gone);
    let all = with_stuck(&machine.tasks, chosen.job, gone, goes);
    put_endings(
        paper,
        chosen.job,
        all.as_slice(),
        &mut machine.tasks.printed,
    )?;
    end_family(machine, chosen.row, chosen.job, gone);
    end_stuck(machine, chosen.job, goes);
    count_one(&mut machine.tasks, chosen);
    Ok(())
}
