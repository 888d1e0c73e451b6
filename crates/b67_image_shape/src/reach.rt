//! Whether what live tasks name is in their reach.

ghost use Rattle.std.specs.Prelude.{◌≡◌, ◌+◌, ◌-◌, ◌<◌, ◌≤◌, ◌^◌, map, option_map, slice_get};
ghost use Rattle.std.specs.List.{list_all};
ghost use Rattle.b67_layout_shown.specs.Machines.{sight_of};
ghost use Rattle.b67_layout.specs.Rows as rows;
ghost use Rattle.b67_task.specs.Tables.{state_of, task_row, job_row};
ghost use Rattle.b67_image_shape.specs.TableFacts.{row_in_slot};
ghost use Rattle.b67_image_shape.specs.Reaching.{has_mark, marked_at, entered_at, kept_at, outside_at, is_dictionary, reached_at, is_kept, waits_within, row_reaches, reaches, ReachesAreDecided};

use crate::fixed_words::base_of;
use crate::table::find_row;
use b67_core::Core;
use b67_layout_shown::laws::reach_is_seen;
use b67_layout_shown::seeing::{top_of, word_seen_at};
use b67_model::MOST_TASKS;
use b67_task::{JobRow, Machine, TaskRow, TaskState};

/// Whether one of at most so many marks from the one at f down stands at an address.
fn has_mark(core: &Core, turns: u32, mark: u64, at: u64) -> bool
    ensures { result ≡ has_mark core.now turns mark at }
{
    let mut left = turns;
    let mut f = mark;
    'down: while 0 < left {
        left -= 1;
        if f == at {
            return true;
        }
        let back = word_seen_at(core, f).part(0, 14);
        if back == 0 {
            return false;
        }
        f = f.saturating_sub(back);
    }
    false
}

/// Whether a mark of a task's stack stands at an address.
fn marked_at(machine: &Machine, row: TaskRow, at: u64) -> bool
    ensures { result ≡ marked_at (sight_of machine.now) (task_row row) at }
{
    let size = u32::from(machine.cpu.regs.stack_size);
    has_mark(&machine.cpu.core, size, top_of(machine, row).f, at)
}

/// Whether an entered mark of a task's stack stands at an address.
fn entered_at(machine: &Machine, row: TaskRow, at: u64) -> bool
    ensures { result ≡ entered_at (sight_of machine.now) (task_row row) at }
{
    word_seen_at(&machine.cpu.core, at).part(46, 1) == 1 && marked_at(machine, row, at)
}

/// Whether one of the entered marks from a displacement down stands at an address.
fn kept_at(machine: &Machine, disp: u16, row: TaskRow, at: u64) -> bool
    ensures { result ≡ kept_at (sight_of machine.now) disp (task_row row) at }
{
    let high = base_of(machine.cpu.regs, row.slot) + u64::from(disp);
    at <= high && (marked_at(machine, row, high) && entered_at(machine, row, at))
}

/// Whether an entered mark stands at an address in the stacks of at most so many parents, each from the critical mark down.
fn outside_at(machine: &Machine, turns: u32, critical: u16, parent: u8, at: u64) -> bool
    ensures { result ≡ outside_at (sight_of machine.now) turns critical (row_in_slot (map task_row machine.now.tasks.rows.items) parent) at }
{
    let mut left = turns;
    let mut disp = critical;
    let mut slot = parent;
    'up: while 0 < left {
        left -= 1;
        match find_row(machine.tasks.rows.as_slice(), slot) {
            None => return false,
            Some(p) => {
                if kept_at(machine, disp, p, at) {
                    return true;
                }
                disp = p.critical;
                slot = p.parent;
            }
        }
    }
    false
}

/// Whether the dictionary of a job stands at an address.
fn is_dictionary(jobs: &[JobRow], job: u8, at: u64) -> bool
    ensures { result ≡ is_dictionary (slice_get (map job_row jobs.now) (job - 1)) at }
{
    let i = (job as usize).saturating_sub(1);
    if i >= jobs.len() {
        return false;
    }
    at == u64::from(jobs[i].dict)
}

/// Whether an entered mark in a task's reach stands at an address.
fn reached_at(machine: &Machine, row: TaskRow, at: u64) -> bool
    ensures { result ≡ reached_at (sight_of machine.now) (task_row row) at }
{
    at == 0
        || (is_dictionary(machine.tasks.jobs.as_slice(), row.job, at)
            || (entered_at(machine, row, at)
                || outside_at(machine, MOST_TASKS as u32, row.critical, row.parent, at)))
}

/// Whether a task's critical mark stands in its parent's stack.
fn is_kept(machine: &Machine, row: TaskRow) -> bool
    ensures { result ≡ is_kept (sight_of machine.now) (task_row row) (row_in_slot (map task_row machine.now.tasks.rows.items) row.parent) }
{
    match find_row(machine.tasks.rows.as_slice(), row.parent) {
        None => true,
        Some(p) => {
            let at = base_of(machine.cpu.regs, p.slot) + u64::from(row.critical);
            marked_at(machine, p, at)
        }
    }
}

/// Whether a task that waits at a cell does so in its reach.
fn waits_within(machine: &Machine, row: TaskRow) -> bool
    ensures { result ≡ waits_within (sight_of machine.now) (task_row row) (state_of row.state) }
{
    match row.state {
        TaskState::Ready => true,
        TaskState::Awaits(_) => true,
        TaskState::WaitsAt { mark, offset } => {
            offset < 0x1000 && reached_at(machine, row, u64::from(mark))
        }
    }
}

/// Whether what a task names is in its reach.
fn row_reaches(machine: &Machine, row: TaskRow) -> bool
    ensures { result ≡ row_reaches (sight_of machine.now) (task_row row) }
{
    is_kept(machine, row) && waits_within(machine, row)
}

/// Whether what live tasks name is in their reach.
pub fn reaches(machine: &Machine) -> bool
    ensures { result ≡ reaches (sight_of machine.now) }
{
    let mut left = machine.tasks.rows.as_slice();
    'each: while let [row, more @ ..] = left {
        if !row_reaches(machine, *row) {
            return false;
        }
        left = more;
    }
    true
}

/// Over stacks that stand, the test decides whether what live tasks name is in their reach.
pub fn reaches_are_decided()
    ensures { ReachesAreDecided }
{
    reach_is_seen();
}
