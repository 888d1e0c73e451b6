//! Who is left once tasks have ended, and whether one of them is ready then.

ghost use Rattle.b67_word.specs.declared.faults.Ending.TheVariants as endings;
ghost use Rattle.b67_word.specs.declared.faults.Ending as ending_type;
ghost use Rattle.std.specs.Prelude.{◌≡◌, ◌≤◌, ◌<◌, ◌+◌, ℕ, [], ◌∷◌, ◌++◌, length};
ghost use Rattle.std.specs.List.{list_any};
ghost use Rattle.b67_model.specs.declared.limits.TheConstants.{MOST_TASKS};
ghost use Rattle.b67_lemmas.specs.Lists.{Has};
ghost use Rattle.b67_model.specs.Endings.{all_with, deadlocked, ends_task};
ghost use Rattle.b67_model.specs.Schedule.{Session};
ghost use Rattle.b67_model.specs.State.{SessionJob};
ghost use Rattle.b67_layout.specs.Placement.{Placement};
ghost use Rattle.b67_task.specs.declared.tables.TheConstants.{NO_PARENT};
ghost use Rattle.b67_task.specs.Family.{TablesHold, HasSomeHead};
ghost use Rattle.b67_session.specs.Closing.{left_ready, others_of};

use arrayvec::ArrayVec;
use b67_task::{MOST_ENDED, TaskRow, TaskState, Tasks, is_among, live_of};
use b67_word::Ending;

/// Whether a row's task is of a job, and is left and ready once these have ended.
fn is_left_ready(row: TaskRow, job: u8, dead: &[(u32, Ending)]) -> bool
    ensures { result ≡ left_ready job dead.now row }
{
    if row.job != job {
        return false;
    }
    if is_among(dead, row.number) {
        return false;
    }
    match row.state {
        TaskState::Ready => true,
        TaskState::Awaits(number) => is_among(dead, number),
        TaskState::WaitsAt { mark: _, offset: _ } => false,
    }
}

/// Whether a task of a job is ready once these have ended.
pub fn goes_on(tasks: &Tasks, job: u8, dead: &[(u32, Ending)]) -> bool
    ensures { result ≡ list_any (left_ready job dead.now) tasks.now.rows.items }
{
    for at in 0..tasks.rows.len() as u8 {
        if is_left_ready(tasks.rows[at as usize], job, dead) {
            return true;
        }
    }
    false
}

/// The same tasks in a longer list.
fn copied(list: &[(u32, Ending)]) -> ArrayVec<(u32, Ending), MOST_ENDED>
    requires { length list.now ≤ MOST_TASKS }
    ensures { result.items ≡ list.now }
{
    let mut copy = ArrayVec::new();
    for at in 0..list.len() as u8 {
        copy.push(list[at as usize]);
    }
    copy
}

/// Adds DEADLOCK for a task that isn't among those that ended.
fn add_one(list: &mut ArrayVec<(u32, Ending), MOST_ENDED>, dead: &[(u32, Ending)], number: u32)
    requires { length list.old.items < 30 }
    ensures all { list.new.items ≡ list.old.items ++ all_with endings.Deadlock (others_of dead.now (number ∷ [])) }
    ensures few { length list.new.items ≤ length list.old.items + 1 }
{
    if is_among(dead, number) {
        return;
    }
    list.push((number, Ending::Deadlock));
}

/// DEADLOCK of all tasks that live but those that ended.
fn add_stuck(list: &mut ArrayVec<(u32, Ending), MOST_ENDED>, dead: &[(u32, Ending)], live: &[u32])
    requires before { length list.old.items ≤ MOST_TASKS }
    requires few { length live.now ≤ MOST_TASKS }
    ensures { list.new.items ≡ list.old.items ++ all_with endings.Deadlock (others_of dead.now live.now) }
{
    for at in 0..live.len() as u8 {
        add_one(list, dead, live[at as usize]);
    }
}

/// All that end if these end by themselves or with their parent: if no task of the job goes on then, as was seen, those that are
/// left end by DEADLOCK.
pub(crate) fn with_stuck(
    tasks: &Tasks,
    job: u8,
    dead: &[(u32, Ending)],
    goes: bool,
) -> ArrayVec<(u32, Ending), MOST_ENDED>
    requires head { HasSomeHead tasks.now job NO_PARENT }
    requires few { length dead.now ≤ MOST_TASKS }
    requires seen { goes ≡ list_any (left_ready job dead.now) tasks.now.rows.items }
    ensures { (plan : Placement) (s : Session) (m : SessionJob) (number : ℕ) (ending : ending_type.Ending) → TablesHold plan s tasks.now → Has s.jobs m → m.constants.number ≡ job
        → dead.now ≡ (ends_task m.progress.job number ending).endings → result.items ≡ (deadlocked (ends_task m.progress.job number ending)).endings }
{
    let mut list = copied(dead);
    if goes {
        return list;
    }
    let live = live_of(tasks, job);
    add_stuck(&mut list, dead, live.as_slice());
    list
}
