//! Whether a task lives, and what STATUS tells of it.

ghost use Rattle.b67_task.specs.Tables as Tables;
ghost use Rattle.std.specs.Prelude.{◌≡◌, ◌≤◌, ◌↔◌, true, Some, length, pos};
ghost use Rattle.b67_model.specs.Intrinsics.{is_live, status_of};
ghost use Rattle.b67_model.specs.State.{SessionJob};
ghost use Rattle.b67_model.specs.Schedule.{Session};
ghost use Rattle.b67_layout.specs.Placement.{Placement};
ghost use Rattle.b67_task.specs.Lives.{FoundState, StateIs, HasJob, HasSomeJob, status_shown, was_before};

use crate::tables::{TaskRow, TaskState, Tasks};

/// Whether a row is that of a job's task of a number.
fn is_of(row: TaskRow, job: u8, number: i64) -> bool
    ensures { (result ≡ true) ↔ ((row.job ≡ job) × (pos row.number ≡ number)) }
{
    row.job == job && i64::from(row.number) == number
}

/// The state in the first row of a job's task of a number; None if there is no such row.
fn state_in(rows: &[TaskRow], job: u8, number: i64) -> Option<TaskState>
    requires { length rows.now ≤ 255 }
    ensures { FoundState rows.now job number result }
{
    for at in 0..rows.len() as u8 {
        let row = rows[at as usize];
        if is_of(row, job, number) {
            return Some(row.state);
        }
    }
    None
}

/// The state of a job's task of a number; None exactly if it doesn't live.
fn state_of(tasks: &Tasks, job: u8, number: i64) -> Option<TaskState>
    ensures { (plan : Placement) (s : Session) (m : SessionJob) → HasJob plan s m tasks.now job → StateIs plan m number result }
{
    state_in(tasks.rows.as_slice(), job, number)
}

/// Whether a job's task of a number lives.
pub fn lives(tasks: &Tasks, job: u8, number: i64) -> bool
    ensures { (plan : Placement) (s : Session) (m : SessionJob) → HasJob plan s m tasks.now job → result ≡ is_live m.progress.job number }
{
    match state_of(tasks, job, number) {
        Some(_) => true,
        None => false,
    }
}

/// What STATUS tells of a live task.
fn told_of(state: TaskState) -> u8
    ensures { result ≡ status_shown (Tables.state_of state) }
{
    match state {
        TaskState::Ready => 1,
        TaskState::Awaits(_) => 2,
        TaskState::WaitsAt { .. } => 2,
    }
}

/// Whether a number is at least 1 and below another.
fn is_before(number: i64, next: u32) -> bool
    ensures { result ≡ was_before number next }
{
    0 < number && number < i64::from(next)
}

/// What STATUS tells of a job's task of a number: 0 it was never started, 1 it is ready, 2 it waits, 3 it has ended.
pub fn status(tasks: &Tasks, job: u8, number: i64) -> u8
    requires { HasSomeJob tasks.now job }
    ensures { (plan : Placement) (s : Session) (m : SessionJob) → HasJob plan s m tasks.now job → result ≡ status_of m.progress.job number }
{
    match state_of(tasks, job, number) {
        Some(state) => told_of(state),
        None => {
            if is_before(number, tasks.next_number(job)) {
                3
            } else {
                0
            }
        }
    }
}
