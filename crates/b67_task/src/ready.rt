//! The rows of ready tasks.

ghost use Rattle.b67_model.specs.Schedule as who;
ghost use Rattle.b67_task.specs.Chosen as rows;
ghost use Rattle.std.specs.Prelude.{◌≡◌, ◌≤◌, ◌+◌, length, IfSome};
ghost use Rattle.b67_task.specs.Chosen.{who_is, IsReadyAt, ReadyRow, NextRow, FitsTypes, IsDistance};

use crate::tables::{NO_ROW, TaskRow, TaskState};

/// A task of a job, by their numbers.
#[derive(Clone, Copy, Debug, PartialEq, Eq)]
pub(crate) struct Who {
    pub job: u8,
    pub task: u32,
}

#[inline(always)]
fn is_ready(state: TaskState) -> bool
    ensures { result ≡ rows.is_ready_state state }
{
    match state {
        TaskState::Ready => true,
        _ => false,
    }
}

#[inline(always)]
fn who_of(row: TaskRow) -> Who
    ensures { who_is result ≡ rows.who_of row }
{
    Who {
        job: row.job,
        task: row.number,
    }
}

/// Whether a row is that of a task which is ready.
#[inline(always)]
pub(crate) fn is_row_of(row: TaskRow, who: Who) -> bool
    ensures { result ≡ rows.is_ready_row_of (who_is who) row }
{
    is_ready(row.state) && row.job == who.job && row.number == who.task
}

/// The row of a task, where it is ready.
#[inline(always)]
pub(crate) fn ready_row(rows: &[TaskRow], who: Who) -> Option<u8>
    requires { length rows.now ≤ 255 }
    ensures { ReadyRow rows.now (who_is who) result }
{
    for at in 0..rows.len() as u8 {
        let row = rows[at as usize];
        if is_row_of(row, who) {
            return Some(at);
        }
    }
    None
}

/// The row of a ready task, looked for at one place first.
#[inline(always)]
pub(crate) fn ready_row_near(rows: &[TaskRow], near: u8, who: Who) -> Option<u8>
    requires { length rows.now ≤ 255 }
    ensures { ReadyRow rows.now (who_is who) result }
{
    if (near as usize) < rows.len() && is_row_of(rows[near as usize], who) {
        return Some(near);
    }
    ready_row(rows, who)
}

/// A task's place in the order of jobs and numbers.
#[inline(always)]
fn place_of(who: Who) -> u64
    ensures is { result ≡ rows.place_of (who_is who) }
    ensures fits { FitsTypes (who_is who) }
{
    u64::from(who.job) * 0x1_0000_0000 + u64::from(who.task)
}

/// How far a task stands behind another, in the circle of all tasks in order: this one itself stands farthest.
#[inline(always)]
fn distance(last: Who, who: Who) -> u64
    ensures { IsDistance (who_is last) (who_is who) result }
{
    place_of(who).wrapping_sub(place_of(last) + 1)
}

/// The row of the first ready task in the circle that begins behind another.
#[inline(always)]
fn next_row(rows: &[TaskRow], last: Who) -> Option<u8>
    requires { length rows.now ≤ 255 }
    ensures { NextRow (length rows.now) rows.now (who_is last) result }
{
    let mut nearest = u64::MAX;
    let mut best = NO_ROW;
    for at in 0..rows.len() as u8 {
        let row = rows[at as usize];
        if is_ready(row.state) {
            let far = distance(last, who_of(row));
            if far <= nearest {
                nearest = far;
                best = at;
            }
        }
    }
    if best == NO_ROW { None } else { Some(best) }
}

/// The only row, where it is that of a ready task.
#[inline(always)]
fn only_row(rows: &[TaskRow]) -> Option<u8>
    requires { length rows.now ≡ 1 }
    ensures { (last : who.Who) → NextRow 1 rows.now last result }
{
    if is_ready(rows[0].state) {
        return Some(0);
    }
    None
}

/// The row of the ready task of a job that has the number after the last one's, looked for behind one place: a job's later tasks
/// stand behind its earlier ones. None without a look where the jobs are as many as the rows, since few have a second task then.
#[inline(always)]
fn follower_row(rows: &[TaskRow], jobs: usize, near: u8, last: Who) -> Option<u8>
    requires { length rows.now ≤ 255 }
    ensures { IfSome result (λ row. IsReadyAt rows.now row (record { job = last.job; task = last.task + 1 })) }
{
    if rows.len() <= jobs {
        return None;
    }
    let who = Who {
        job: last.job,
        task: last.task.checked_add(1)?,
    };
    for at in near.saturating_add(1)..rows.len() as u8 {
        if is_row_of(rows[at as usize], who) {
            return Some(at);
        }
    }
    None
}

/// The row of the first ready task in the circle that begins behind another, of so many jobs. The task of the next number in its
/// job comes first: that one is looked for behind one place before all rows are looked at.
#[inline(always)]
pub(crate) fn next_row_near(rows: &[TaskRow], jobs: usize, near: u8, last: Who) -> Option<u8>
    requires { length rows.now ≤ 255 }
    ensures { NextRow (length rows.now) rows.now (who_is last) result }
{
    if rows.len() == 1 {
        return only_row(rows);
    }
    match follower_row(rows, jobs, near, last) {
        Some(row) => Some(row),
        None => next_row(rows, last),
    }
}
