//! The limit of a job's operators.

ghost use Rattle.std.specs.Prelude.{◌≡◌, ◌==◌, is_some};
ghost use Rattle.std.specs.List.{list_any};
ghost use Rattle.b67_model.specs.InOrder.{NumberedFrom};
ghost use Rattle.b67_model.specs.Schedule.{Session};
ghost use Rattle.b67_session_lines.specs.Moments.{last_part};
ghost use Rattle.b67_layout.specs.Placement.{Placement};
ghost use Rattle.b67_task.specs.Tables.{TasksShow};
ghost use Rattle.b67_session.specs.Limits.{AtLimit};

use b67_task::{TaskRow, Tasks};

/// Whether the job that made the last operator has made as many as it may.
#[inline(always)]
fn has_made_all(tasks: &Tasks) -> bool
    ensures { AtLimit tasks.now result }
{
    if tasks.last_job == 0 {
        return false;
    }
    let rows = tasks.jobs.as_slice();
    let at = tasks.last_job as usize - 1;
    at < rows.len() && rows[at].made == rows[at].limit
}

/// Whether a task of a job lives.
#[inline(always)]
pub(crate) fn has_row(rows: &[TaskRow], job: u8) -> bool
    ensures { result ≡ list_any (λ r. r.job == job) rows.now }
{
    rows.iter().any(|row| row.job == job)
}

/// Whether the job that made the last operator stands at its limit with a live task: whether all its tasks are to end by
/// LIMIT.
#[inline(always)]
pub fn is_at_limit(tasks: &Tasks) -> bool
    ensures { (plan : Placement) (s : Session) → NumberedFrom 1 s.jobs → TasksShow plan s tasks.now → result ≡ is_some (last_part s) }
{
    if !has_made_all(tasks) {
        return false;
    }
    has_row(tasks.rows.as_slice(), tasks.last_job)
}
