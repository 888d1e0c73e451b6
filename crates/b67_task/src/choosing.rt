//! Which task makes the next operator.

ghost use Rattle.b67_model.specs.Schedule as schedule;
ghost use Rattle.std.specs.Prelude.{◌≡◌, ◌<◌, ◌↔◌, [], length, None, option_map, IfSome};
ghost use Rattle.b67_model.specs.InOrder.{IsInOrderButPlaces};
ghost use Rattle.b67_model.specs.Schedule.{Session, ready, switched, next_after, choice};
ghost use Rattle.b67_layout.specs.Placement.{Placement};
ghost use Rattle.b67_task.specs.Tables.{TasksShow};
ghost use Rattle.b67_task.specs.Counted.{choice_of, CountsHaveRoom};
ghost use Rattle.b67_task.specs.Chosen.{who_is, turn_lasts, IsReadyAt, RowOf, GoesOnAt, Chooses};

use crate::counting::Chosen;
use crate::ready::{Who, next_row_near, ready_row, ready_row_near};
use crate::switches::{due_switch, is_left};
use crate::tables::Tasks;

#[inline(always)]
fn last_of(tasks: &Tasks) -> Who
    ensures { who_is result ≡ record { job = tasks.now.last_job; task = tasks.now.last_number } }
{
    Who {
        job: tasks.last_job,
        task: tasks.last_number,
    }
}

/// The row of the ready task that a switch of this count names.
#[inline(always)]
fn switched_row(tasks: &Tasks) -> Option<u8>
    ensures row { (plan : Placement) (s : Session) → IsInOrderButPlaces s → TasksShow plan s tasks.now → RowOf tasks.now.rows.items result (switched s) }
    ensures inside { IfSome result (λ row. row < length tasks.now.rows.items) }
{
    match due_switch(tasks.switches.as_slice(), tasks.next_switch, tasks.made) {
        Some(who) => ready_row(tasks.rows.as_slice(), who),
        None => None,
    }
}

/// Whether the last task's turn goes on, if it is ready.
#[inline(always)]
fn lasts(tasks: &Tasks) -> bool
    ensures { (plan : Placement) (s : Session) → IsInOrderButPlaces s → TasksShow plan s tasks.now → result ≡ turn_lasts s }
{
    is_left(tasks.switches.as_slice(), tasks.made) || tasks.turn < tasks.quantum
}

/// The row of the last task, where it goes on.
#[inline(always)]
fn last_row(tasks: &Tasks) -> Option<u8>
    ensures row { (plan : Placement) (s : Session) → IsInOrderButPlaces s → TasksShow plan s tasks.now → GoesOnAt tasks.now.rows.items result s }
    ensures inside { IfSome result (λ row. row < length tasks.now.rows.items) }
{
    if lasts(tasks) {
        ready_row_near(tasks.rows.as_slice(), tasks.running, last_of(tasks))
    } else {
        None
    }
}

/// The row of the next ready task in the cyclic order.
#[inline(always)]
fn row_after(tasks: &Tasks) -> Option<u8>
    ensures row { (plan : Placement) (s : Session) → IsInOrderButPlaces s → TasksShow plan s tasks.now → RowOf tasks.now.rows.items result (next_after s) }
    ensures inside { IfSome result (λ row. row < length tasks.now.rows.items) }
{
    let jobs = tasks.jobs.as_slice();
    next_row_near(
        tasks.rows.as_slice(),
        jobs.len(),
        tasks.running,
        last_of(tasks),
    )
}

/// The task of a row, with how many operators of its turn it has made.
#[inline(always)]
fn chosen_at(tasks: &Tasks, row: u8, turn: u32) -> Chosen
    requires { row < length tasks.now.rows.items }
    ensures who { (who : schedule.Who) → IsReadyAt tasks.now.rows.items row who → choice_of result ≡ record { who = who; turn = turn } }
    ensures row { result.row ≡ row }
{
    let shown = tasks.rows[row as usize];
    Chosen {
        row,
        job: shown.job,
        number: shown.number,
        turn,
    }
}

/// The task that the rules choose.
#[inline(always)]
fn by_rules(tasks: &Tasks) -> Option<Chosen>
    ensures { (plan : Placement) (s : Session) → IsInOrderButPlaces s → TasksShow plan s tasks.now → Chooses tasks.now.rows.items result (choice s) }
{
    match switched_row(tasks) {
        Some(row) => Some(chosen_at(tasks, row, 0)),
        None => match last_row(tasks) {
            Some(row) => Some(chosen_at(tasks, row, tasks.turn)),
            None => match row_after(tasks) {
                Some(row) => Some(chosen_at(tasks, row, 0)),
                None => None,
            },
        },
    }
}

/// The task that makes the next operator; None exactly where no task is ready.
#[inline(always)]
pub fn choose(tasks: &Tasks) -> Option<Chosen>
    ensures choice { (plan : Placement) (s : Session) → IsInOrderButPlaces s → TasksShow plan s tasks.now → Chooses tasks.now.rows.items result (choice s) }
    ensures none { (plan : Placement) (s : Session) → IsInOrderButPlaces s → TasksShow plan s tasks.now → (result ≡ None) ↔ (ready s ≡ []) }
    // One operator more of that task then fits the counts.
    ensures room { (plan : Placement) (s : Session) → IsInOrderButPlaces s → TasksShow plan s tasks.now → IfSome result (CountsHaveRoom tasks.now) }
{
    by_rules(tasks)
}

/// The row of the task that makes the next operator; None exactly where no task is ready.
#[inline(always)]
pub fn schedule(tasks: &Tasks) -> Option<u8>
    ensures row { (plan : Placement) (s : Session) → IsInOrderButPlaces s → TasksShow plan s tasks.now → RowOf tasks.now.rows.items result (option_map (λ c. c.who) (choice s)) }
    ensures none { (plan : Placement) (s : Session) → IsInOrderButPlaces s → TasksShow plan s tasks.now → (result ≡ None) ↔ (ready s ≡ []) }
{
    Some(choose(tasks)?.row)
}
