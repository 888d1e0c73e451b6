//! The rows of tasks once a cell is caused.

ghost use Rattle.b67_mcp.specs.Woken as woken;
ghost use Rattle.std.specs.Prelude.{◌≡◌, map};

use arrayvec::ArrayVec;
use b67_task::{MOST_ROWS, TaskRow, TaskState};

/// The state once a cell is caused: who waited at it is ready.
fn woken_state(state: TaskState, mark: u32, offset: u16) -> TaskState
    ensures { result ≡ woken.woken_state mark offset state }
{
    match state {
        TaskState::Ready => TaskState::Ready,
        TaskState::Awaits(number) => TaskState::Awaits(number),
        TaskState::WaitsAt {
            mark: at,
            offset: other,
        } => {
            if at == mark && other == offset {
                return TaskState::Ready;
            }
            state
        }
    }
}

/// The row once a cell of a job is caused.
fn woken_row(row: TaskRow, job: u8, mark: u32, offset: u16) -> TaskRow
    ensures { result ≡ woken.woken_row job mark offset row }
{
    if row.job != job {
        return row;
    }
    let mut after = row;
    after.state = woken_state(row.state, mark, offset);
    after
}

/// Makes each row what it is once a cell of a job is caused.
fn wake_each(rows: &mut [TaskRow], job: u8, mark: u32, offset: u16)
    ensures { rows.new ≡ map (woken.woken_row job mark offset) rows.old }
{
    for at in 0..rows.len() {
        rows[at] = woken_row(rows[at], job, mark, offset);
    }
}

/// Makes the rows what they are once a cell of a job is caused, by the address of its activation record's mark and its offset.
pub(crate) fn wake_rows(rows: &mut ArrayVec<TaskRow, MOST_ROWS>, job: u8, mark: u32, offset: u16)
    ensures { rows.new.items ≡ map (woken.woken_row job mark offset) rows.old.items }
{
    wake_each(rows.as_mut_slice(), job, mark, offset);
}
