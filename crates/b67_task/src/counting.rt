//! The counts of operators.

ghost use Rattle.std.specs.Prelude.{◌≡◌, ℕ, ◌+◌, ◌-◌, ◌^◌, ◌≤◌, ◌<◌, length, Some, map, slice_get, slice_set};
ghost use Rattle.b67_model.specs.Alone.{JobMoment};
ghost use Rattle.b67_model.specs.InOrder.{NumberedFrom, SwitchesRise};
ghost use Rattle.b67_model.specs.Keyed.{keyed};
ghost use Rattle.b67_model.specs.Run.{number_of, with_moment};
ghost use Rattle.b67_model.specs.Schedule.{Session, Switch};
ghost use Rattle.b67_model.specs.State.{SessionJob};
ghost use Rattle.b67_layout.specs.Meets.{with_job};
ghost use Rattle.b67_layout.specs.Placement.{Placement};
ghost use Rattle.b67_task.specs.declared.tables.JobRow.{JobRow};
ghost use Rattle.b67_task.specs.Tables.{switch_of, TasksShow};
ghost use Rattle.b67_task.specs.Counted.{choice_of, counted, counted_row, row_more, counted_by, CountsHaveRoom, TurnHasRoom, Past, IsStillDue};

use crate::tables::{JobRow, Tasks};
use b67_model_text::Switch;

/// The task that makes the next operator: its row; its job and number, from 1 on; and how many operators of its turn it
/// has made.
#[derive(Clone, Copy, Debug, PartialEq, Eq)]
pub struct Chosen {
    pub row: u8,
    pub job: u8,
    pub number: u32,
    pub turn: u32,
}

/// Counts one operator more of a job.
#[inline(always)]
fn count_of_job(rows: &mut [JobRow], at: usize)
    requires { (r : JobRow) × (slice_get rows.old at ≡ Some r) × (r.made + 1 < 2 ^ 64) }
    ensures { (r : JobRow) → slice_get rows.old at ≡ Some r → rows.new ≡ slice_set rows.old at (counted_row r) }
{
    let row = &mut rows[at];
    row.made += 1;
}

/// The first switch that is left, where that was `from` before one operator more was made.
#[inline(always)]
fn first_left(switches: &[Switch], from: u32, made: u64) -> u32
    requires { from ≤ length switches.now }
    ensures within { result ≤ length switches.now }
    ensures past { Past from made (map switch_of switches.now) → Past result made (map switch_of switches.now) }
    ensures left { (before : ℕ) → length switches.now < 2 ^ 32 → SwitchesRise (map switch_of switches.now) → made ≤ before + 1
        → IsStillDue from before (map switch_of switches.now) → IsStillDue result made (map switch_of switches.now) }
{
    if (from as usize) < switches.len() && switches[from as usize].count < made {
        return from.saturating_add(1);
    }
    from
}

/// Counts one operator of the chosen task, in the session, in its job and in its turn; that task is then the last one.
/// All else of the tables stays.
#[inline(always)]
pub fn count(tasks: &mut Tasks, chosen: Chosen)
    requires { CountsHaveRoom tasks.old chosen }
    ensures counted { (plan : Placement) (s : Session) → NumberedFrom 1 s.jobs → TasksShow plan s tasks.old → TasksShow plan (counted s (choice_of chosen)) tasks.new }
    // Of the tables once the operator has changed its job, it makes those of the session's step.
    ensures moment { (plan : Placement) (s : Session) (m : SessionJob) (made : JobMoment) → NumberedFrom 1 s.jobs
        → keyed number_of chosen.job s.jobs ≡ Some m → made.progress.made ≡ m.progress.made + 1
        → TasksShow plan (with_job s m made.progress.job) tasks.old → TasksShow plan (with_moment s (choice_of chosen) m made) tasks.new }
    // Where the first switch that is left was known, it is known again.
    ensures left { length tasks.old.switches < 2 ^ 32 → SwitchesRise (map switch_of tasks.old.switches)
        → IsStillDue tasks.old.next_switch tasks.old.made (map switch_of tasks.old.switches)
        → IsStillDue tasks.new.next_switch tasks.new.made (map switch_of tasks.new.switches) }
    ensures jobs { (r : JobRow) → slice_get tasks.old.jobs (chosen.job - 1) ≡ Some r → tasks.new.jobs ≡ slice_set tasks.old.jobs (chosen.job - 1) (counted_row r) }
    ensures rest { tasks.new ≡ record tasks.old {
      jobs = tasks.new.jobs;
      made = tasks.old.made + 1;
      last_job = chosen.job;
      last_number = chosen.number;
      turn = chosen.turn + 1;
      next_switch = tasks.new.next_switch;
    } }
{
    tasks.made += 1;
    tasks.turn = chosen.turn + 1;
    tasks.last_job = chosen.job;
    tasks.last_number = chosen.number;
    count_of_job(tasks.jobs.as_mut_slice(), chosen.job as usize - 1);
    tasks.next_switch = first_left(tasks.switches.as_slice(), tasks.next_switch, tasks.made);
}

/// A job has made so many operators more.
#[inline(always)]
fn add_to_job(rows: &mut [JobRow], at: usize, more: u64)
    requires { (r : JobRow) × (slice_get rows.old at ≡ Some r) × (r.made + more < 2 ^ 64) }
    ensures { (r : JobRow) → slice_get rows.old at ≡ Some r → rows.new ≡ slice_set rows.old at (row_more more r) }
{
    let row = &mut rows[at];
    row.made += more;
}

/// Counts so many operators more of the last task, in the session, in its job and in its turn. All else of the tables stays.
#[inline(always)]
pub fn count_turn(tasks: &mut Tasks, more: u64)
    requires { TurnHasRoom tasks.old more }
    ensures shows { (plan : Placement) (s : Session) → NumberedFrom 1 s.jobs → TasksShow plan s tasks.old → TasksShow plan (counted_by more s) tasks.new }
    ensures jobs { (r : JobRow) → slice_get tasks.old.jobs (tasks.old.last_job - 1) ≡ Some r → tasks.new.jobs ≡ slice_set tasks.old.jobs (tasks.old.last_job - 1) (row_more more r) }
    ensures rest { tasks.new ≡ record tasks.old { jobs = tasks.new.jobs; made = tasks.old.made + more; turn = tasks.old.turn + more } }
{
    tasks.made += more;
    tasks.turn += more as u32;
    add_to_job(tasks.jobs.as_mut_slice(), tasks.last_job as usize - 1, more);
}
