//! The state of a task in its row, and who is stuck.

ghost use Rattle.b67_task.specs.declared.tables.TaskRow as table;
ghost use Rattle.std.specs.Prelude.{◌≡◌, ◌<◌, [], Some, length, slice_get};
ghost use Rattle.std.specs.List.{list_any};
ghost use Rattle.b67_lemmas.specs.Lists.{Has};
ghost use Rattle.b67_model.specs.Endings.{deadlocked, unsettled};
ghost use Rattle.b67_model.specs.Schedule.{Session};
ghost use Rattle.b67_model.specs.State.{SessionJob};
ghost use Rattle.b67_layout.specs.Placement.{Placement};
ghost use Rattle.b67_task.specs.declared.tables.TheConstants.{NO_PARENT};
ghost use Rattle.b67_task.specs.Family.{TablesHold, HasSomeHead};
ghost use Rattle.b67_session.specs.Closing.{left_ready};
ghost use Rattle.b67_session.specs.Holds.{with_state};

use crate::deaths::all_ended;
use arrayvec::ArrayVec;
use b67_task::{MOST_LISTED, TaskState, Tasks, live_of};
use b67_word::Ending;

/// Sets the state in a row, and gives the one that stood there.
pub(crate) fn set_state(tasks: &mut Tasks, at: u8, state: TaskState) -> TaskState
    requires { at < length tasks.old.rows.items }
    ensures set { (r : table.TaskRow) → slice_get tasks.old.rows.items at ≡ Some r → tasks.new ≡ with_state tasks.old at r state }
    ensures was { (r : table.TaskRow) → slice_get tasks.old.rows.items at ≡ Some r → result ≡ r.state }
{
    let mut row = tasks.rows[at as usize];
    let before = row.state;
    row.state = state;
    tasks.rows[at as usize] = row;
    before
}

/// The tasks of a job that end by DEADLOCK, deepest first: all that live, if none of them goes on, as was seen.
pub(crate) fn stuck(tasks: &Tasks, job: u8, goes: bool) -> ArrayVec<(u32, Ending), MOST_LISTED>
    requires head { HasSomeHead tasks.now job NO_PARENT }
    requires seen { goes ≡ list_any (left_ready job []) tasks.now.rows.items }
    ensures { (plan : Placement) (s : Session) (m : SessionJob) → TablesHold plan s tasks.now → Has s.jobs m → m.constants.number ≡ job
        → result.items ≡ (deadlocked (unsettled m.progress.job)).endings }
{
    if goes {
        return ArrayVec::new();
    }
    all_ended(live_of(tasks, job).as_slice(), Ending::Deadlock)
}
