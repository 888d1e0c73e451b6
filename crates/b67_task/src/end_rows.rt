//! The rows of those who stay when tasks end, and the slots of those who go.

ghost use Rattle.b67_word.specs.declared.faults.Ending as ending_type;
ghost use Rattle.b67_task.specs.LeftRows as left;
ghost use Rattle.std.specs.Prelude.{◌≡◌, ◌≤◌, ℕ, length, map, take};
ghost use Rattle.b67_task.specs.Deaths.{ending_numbers};
ghost use Rattle.b67_task.specs.LeftRows.{slot_shown};
ghost use Rattle.b67_model.specs.declared.limits.TheConstants.{MOST_TASKS};

use crate::families::is_among;
use crate::tables::{MOST_LISTED, MOST_ROWS, TaskRow, TaskState};
use arrayvec::ArrayVec;
use b67_ctl::NO_SLOT;
use b67_word::Ending;

/// Whether a row isn't that of one of a job's tasks that ended.
fn stays(row: TaskRow, job: u8, list: &[(u32, Ending)]) -> bool
    ensures { result ≡ left.row_is_kept job (ending_numbers list.now) row }
{
    if row.job == job {
        return !is_among(list, row.number);
    }
    true
}

/// The row once these tasks of a job have ended: who awaited one of them is ready.
fn freed(row: TaskRow, job: u8, list: &[(u32, Ending)]) -> TaskRow
    ensures { result ≡ left.freed job (ending_numbers list.now) row }
{
    if row.job != job {
        return row;
    }
    match row.state {
        TaskState::Awaits(number) => {
            if is_among(list, number) {
                let mut ready = row;
                ready.state = TaskState::Ready;
                return ready;
            }
            row
        }
        TaskState::Ready => row,
        TaskState::WaitsAt { .. } => row,
    }
}

/// The rows that stay once these tasks of a job have ended come to lie at the front, each as it is then, and are counted.
fn move_up(rows: &mut [TaskRow], job: u8, list: &[(u32, Ending)]) -> usize
    ensures { take result rows.new ≡ left.rows_left job (ending_numbers list.now) rows.old }
{
    let mut kept = 0usize;
    for at in 0..rows.len() {
        let row = rows[at];
        if !stays(row, job, list) {
            continue;
        }
        rows[kept] = freed(row, job, list);
        kept += 1;
    }
    kept
}

/// Leaves the rows that stay once these tasks of a job have ended, each as it is then.
pub fn leave_rows(rows: &mut ArrayVec<TaskRow, MOST_ROWS>, job: u8, list: &[(u32, Ending)])
    ensures { rows.new.items ≡ left.rows_left job (ending_numbers list.now) rows.old.items }
{
    let kept = move_up(rows.as_mut_slice(), job, list);
    rows.truncate(kept);
}

/// Whether a row is that of a job's task of a number.
fn is_of(row: TaskRow, job: u8, number: u32) -> bool
    ensures { result ≡ left.is_of job number row }
{
    row.job == job && row.number == number
}

/// The slot of a job's task of a number, [`NO_SLOT`] for none.
fn slot_in(rows: &[TaskRow], job: u8, number: u32) -> u8
    requires { length rows.now ≤ 255 }
    ensures { result ≡ slot_shown job number rows.now }
{
    for at in 0..rows.len() as u8 {
        if is_of(rows[at as usize], job, number) {
            return rows[at as usize].slot;
        }
    }
    NO_SLOT
}

/// The slots of these tasks of a job, in their order.
pub fn slots_of(rows: &[TaskRow], job: u8, list: &[(u32, Ending)]) -> ArrayVec<u8, MOST_LISTED>
    requires rows { length rows.now ≤ 255 }
    requires list { length list.now ≤ MOST_TASKS }
    ensures { result.items ≡ map (λ (e : ℕ × ending_type.Ending). slot_shown job e.0 rows.now) list.now }
{
    let mut slots = ArrayVec::new();
    for at in 0..list.len() as u8 {
        slots.push(slot_in(rows, job, list[at as usize].0));
    }
    slots
}
