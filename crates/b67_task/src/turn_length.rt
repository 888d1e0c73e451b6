//! How long a turn lasts.

ghost use Rattle.std.specs.Prelude.{◌≡◌, ◌+◌, ◌-◌, ◌≤◌, ◌<◌, true, Some, slice_get};
ghost use Rattle.b67_model.specs.InOrder.{IsInOrderButPlaces};
ghost use Rattle.b67_model.specs.Schedule.{Session};
ghost use Rattle.b67_layout.specs.Placement.{Placement};
ghost use Rattle.b67_task.specs.declared.tables.JobRow.{JobRow};
ghost use Rattle.b67_task.specs.Tables.{TasksShow};
ghost use Rattle.b67_task.specs.Chosen.{who_is, IsReadyAt};
ghost use Rattle.b67_task.specs.Lasting.{RulesLeave, TurnLasts, BeforeHalt};

use crate::ready::{Who, is_row_of};
use crate::tables::{JobRow, TaskRow, Tasks};

/// Whether a row is there, and is that of a task which is ready.
#[inline(always)]
fn runs_on(rows: &[TaskRow], at: u8, who: Who) -> bool
    ensures { result ≡ true → IsReadyAt rows.now at (who_is who) }
{
    (at as usize) < rows.len() && is_row_of(rows[at as usize], who)
}

/// How many operators may be made before the halt, up to `most`.
#[inline(always)]
fn before_halt(halt: Option<u64>, made: u64, most: u64) -> u64
    ensures few { result ≤ most }
    ensures halt { BeforeHalt halt made result }
{
    match halt {
        Some(count) => most.min(count.saturating_sub(made)),
        None => most,
    }
}

/// How many operators a job may make but for the one by which it reaches its limit.
#[inline(always)]
fn before_limit(jobs: &[JobRow], job: u8) -> u64
    ensures { (r : JobRow) → 1 ≤ job → slice_get jobs.now (job - 1) ≡ Some r → 1 ≤ result → r.made + result < r.limit }
{
    if job == 0 {
        return 0;
    }
    let at = job as usize - 1;
    if at >= jobs.len() {
        return 0;
    }
    jobs[at]
        .limit
        .saturating_sub(jobs[at].made)
        .saturating_sub(1)
}

/// How many operators the rules leave to the last task: while a switch is left, those before its count; else the rest of the
/// quantum.
#[inline(always)]
fn before_choice(tasks: &Tasks) -> u64
    ensures { (plan : Placement) (s : Session) → IsInOrderButPlaces s → TasksShow plan s tasks.now → 1 ≤ result → RulesLeave s result }
{
    let switches = tasks.switches.as_slice();
    let next = tasks.next_switch as usize;
    if next < switches.len() {
        return switches[next].count.saturating_sub(tasks.made);
    }
    u64::from(tasks.quantum.saturating_sub(tasks.turn))
}

/// At most how many operators the last task may make in a row, up to `most`: before each of them it is the one that is chosen
/// and the halt isn't reached, and after them its job is below its limit. 0 if it isn't ready or its registers aren't in use.
pub fn turn_room(tasks: &Tasks, most: u64) -> u64
    ensures few { result ≤ most }
    ensures halt { BeforeHalt tasks.now.halt tasks.now.made result }
    ensures lasts { (plan : Placement) (s : Session) → IsInOrderButPlaces s → TasksShow plan s tasks.now → 1 ≤ result → TurnLasts plan s result }
{
    let rules = before_choice(tasks);
    if rules == 0 {
        return 0;
    }
    let last = Who {
        job: tasks.last_job,
        task: tasks.last_number,
    };
    if !runs_on(tasks.rows.as_slice(), tasks.running, last) {
        return 0;
    }
    let halt = before_halt(tasks.halt, tasks.made, most);
    let limit = before_limit(tasks.jobs.as_slice(), tasks.last_job);
    halt.min(limit).min(rules)
}
