//! Tasks end.

ghost use Rattle.b67_word.specs.declared.faults.Ending.TheVariants as variants;
ghost use Rattle.std.specs.Prelude.{◌≡◌, ◌≢◌, ◌≤◌, ℕ, true, List, [], Option, length};
ghost use Rattle.b67_model.specs.declared.limits.TheConstants.{MOST_TASKS, MOST_STACKS};
ghost use Rattle.b67_lemmas.specs.Lists.{Has};
ghost use Rattle.b67_model.specs.Endings.{all_with, ends_each_if, unsettled};
ghost use Rattle.b67_model.specs.Schedule.{Session};
ghost use Rattle.b67_model.specs.State.{SessionJob};
ghost use Rattle.b67_stack.specs.Represents.{Storage};
ghost use Rattle.b67_layout.specs.Meets.{with_job};
ghost use Rattle.b67_layout.specs.Orders.{IsInOrderButCounts};
ghost use Rattle.b67_layout.specs.Placement.{Placement};
ghost use Rattle.b67_task.specs.Tables.{MachineRepresents};
ghost use Rattle.b67_session.specs.Ends.{StandsInPlace, IsFirstRow, JobLives};

use arrayvec::ArrayVec;
use b67_task::{MOST_LISTED, Machine, TaskRow, end_family, endings};
use b67_word::Ending;

/// Tasks that end in one way.
pub fn all_ended(numbers: &[u32], ending: Ending) -> ArrayVec<(u32, Ending), MOST_LISTED>
    requires { length numbers.now ≤ MOST_TASKS }
    ensures { result.items ≡ all_with ending numbers.now }
{
    let mut list = ArrayVec::new();
    for at in 0..numbers.len() as u8 {
        list.push((numbers[at as usize], ending));
    }
    list
}

/// The row of a job's first task, which lives.
fn first_row(rows: &[TaskRow], job: u8) -> u8
    requires lives { (at : ℕ) × IsFirstRow rows.now job at }
    requires few { length rows.now ≤ MOST_STACKS }
    ensures { IsFirstRow rows.now job result }
{
    for at in 0..rows.len() as u8 {
        let row = rows[at as usize];
        if row.job == job && row.number == 1 {
            return at;
        }
    }
    0
}

/// All tasks of a job end: its first one, with those under it.
pub(crate) fn end_job(machine: &mut Machine, job: u8)
    requires { JobLives machine.old job }
    ensures stands { (x : Storage) (told : Option (List (List ℕ))) (plan : Placement) (s : Session) (m : SessionJob) → IsInOrderButCounts s → MachineRepresents x told machine.old plan s
        → Has s.jobs m → m.constants.number ≡ job → m.progress.job.tasks ≢ []
        → StandsInPlace x told machine.new plan s (with_job s m (ends_each_if true variants.Limit (unsettled m.progress.job)).job) }
    ensures tasks { machine.new.tasks ≡ record machine.old.tasks { rows = machine.new.tasks.rows; running = machine.new.tasks.running } }
    ensures len { length machine.new.cpu.core ≡ length machine.old.cpu.core }
    ensures count { length machine.new.sectors.links ≡ length machine.old.sectors.links }
{
    let row = first_row(machine.tasks.rows.as_slice(), job);
    let list = endings(&machine.tasks, row, Ending::Limit);
    end_family(machine, row, job, list.as_slice());
}
