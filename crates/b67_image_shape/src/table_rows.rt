//! Whether the rows of tasks and of jobs keep what tables keep among themselves.

ghost use Rattle.std.specs.Prelude.{◌≡◌, ◌-◌, ◌+◌, ◌<◌, ◌≤◌, ◌==◌, ◌&&◌, ◌||◌, not, nat_lt, nat_le, length, map, drop, slice_get};
ghost use Rattle.std.specs.List.{list_all, list_any};
ghost use Rattle.b67_model.specs.declared.limits.TheConstants.{MOST_JOBS};
ghost use Rattle.b67_ctl.specs.declared.map.TheConstants.{SLOTS};
ghost use Rattle.b67_layout_shown.specs.Machines.{sight_of};
ghost use Rattle.b67_task.specs.Tables.{state_of, task_row, job_row};
ghost use Rattle.b67_image_shape.specs.TableFacts.{row_in_slot, rows_in};
ghost use Rattle.b67_image_shape.specs.TableTests.{are_apart, rows_apart, state_ready, row_ready, may_go_on, is_read, job_test, jobs_pass, born_test, of_job_test, row_test, tables_test};

use crate::table::find_row;
use crate::table_counts::counts_pass;
use b67_ctl::{Regs, SLOTS};
use b67_model::{MOST_JOBS, MOST_LIMIT, MOST_TASKS};
use b67_task::{JobRow, Machine, NO_PARENT, TaskRow, TaskState};

/// Whether two rows are of different slots and of different tasks.
fn are_apart(a: TaskRow, b: TaskRow) -> bool
    ensures { result ≡ are_apart (task_row a) (task_row b) }
{
    a.slot != b.slot && !(a.job == b.job && a.number == b.number)
}

/// Whether a row is apart from all of these.
fn is_apart(a: TaskRow, more: &[TaskRow]) -> bool
    ensures { result ≡ list_all (are_apart (task_row a)) (map task_row more.now) }
{
    let mut left = more;
    'each: while let [b, next @ ..] = left {
        if !are_apart(a, *b) {
            return false;
        }
        left = next;
    }
    true
}

/// Whether all rows are apart.
fn rows_apart(rows: &[TaskRow]) -> bool
    ensures { result ≡ rows_apart (map task_row rows.now) }
{
    let mut left = rows;
    'each: while let [row, more @ ..] = left {
        if !is_apart(*row, more) {
            return false;
        }
        left = more;
    }
    true
}

/// Whether a task may go on by its state.
fn state_ready(state: TaskState) -> bool
    ensures { result ≡ state_ready (state_of state) }
{
    match state {
        TaskState::Ready => true,
        _ => false,
    }
}

/// How many tasks of a job live.
fn live_of(rows: &[TaskRow], job: u8) -> u8
    requires { length rows.now ≤ SLOTS }
    ensures { result ≡ length (rows_in (map task_row rows.now) job) }
{
    let mut live = 0u8;
    let mut left = rows;
    'each: while let [row, more @ ..] = left {
        if row.job == job {
            live += 1;
        }
        left = more;
    }
    live
}

/// Whether a task of a job is ready.
fn any_ready(rows: &[TaskRow], job: u8) -> bool
    ensures { result ≡ list_any row_ready (rows_in (map task_row rows.now) job) }
{
    let mut left = rows;
    'each: while let [row, more @ ..] = left {
        if row.job == job && state_ready(row.state) {
            return true;
        }
        left = more;
    }
    false
}

/// Whether a job goes on, if tasks of it live.
fn may_go_on(row: &JobRow, rows: &[TaskRow], job: u8) -> bool
    requires { length rows.now ≤ SLOTS }
    ensures { result ≡ may_go_on (job_row row.now) (rows_in (map task_row rows.now) job) }
{
    if live_of(rows, job) == 0 {
        return true;
    }
    row.made < row.limit && any_ready(rows, job)
}

/// Whether all numbers may be read.
fn all_read(numbers: &[i64]) -> bool
    ensures { result ≡ list_all is_read numbers.now }
{
    numbers.iter().all(|n| n.unsigned_abs() < 0x80_0000_0000)
}

/// Whether all numbers that are left may be read.
fn left_read(numbers: &[i64], next: u32) -> bool
    ensures { result ≡ list_all is_read (drop next numbers.now) }
{
    if next as usize >= numbers.len() {
        return true;
    }
    all_read(&numbers[next as usize..])
}

/// Whether a next task's number is at most two more than what is made.
fn next_fits(next: u32, made: u64) -> bool
    ensures { result ≡ nat_le next (made + 2) }
{
    if made >= 0x1_0000_0000 {
        return true;
    }
    u64::from(next) <= made + 2
}

/// Whether a job's counts are as they should be.
fn job_passes(rows: &[TaskRow], job: u8, row: &JobRow) -> bool
    requires { length rows.now ≤ SLOTS }
    ensures { result ≡ job_test (map task_row rows.now) job (job_row row.now) }
{
    live_of(rows, job) <= MOST_TASKS
        && (left_read(row.numbers.as_slice(), row.next_number)
            && (row.limit <= MOST_LIMIT
                && (next_fits(row.next_task, row.made)
                    && (row.made <= row.limit && may_go_on(row, rows, job)))))
}

/// Whether all jobs' counts are as they should be.
fn jobs_pass(rows: &[TaskRow], jobs: &[JobRow]) -> bool
    requires rows { length rows.now ≤ SLOTS }
    requires jobs { length jobs.now ≤ MOST_JOBS }
    ensures { result ≡ jobs_pass (job_test (map task_row rows.now)) 1 (map job_row jobs.now) }
{
    let mut job = 1u8;
    let mut left = jobs;
    'each: while let [row, more @ ..] = left {
        if !job_passes(rows, job, row) {
            return false;
        }
        left = more;
        job += 1;
    }
    true
}

/// Whether a task is a first one, or is younger than its parent.
fn is_born(rows: &[TaskRow], r: TaskRow) -> bool
    ensures { result ≡ born_test (task_row r) (row_in_slot (map task_row rows.now) r.parent) }
{
    match find_row(rows, r.parent) {
        None => r.number == 1 && (r.parent == NO_PARENT && r.critical == 0),
        Some(p) => p.job == r.job && p.number < r.number,
    }
}

/// Whether a task's number is one of a job, whose dictionary the registers have if it runs.
fn is_in(regs: &Regs, r: TaskRow, row: &JobRow) -> bool
    ensures { result ≡ (nat_lt r.number row.now.next_task && (not (r.slot == regs.now.slot) || ((regs.now.dict == row.now.dict) && (regs.now.entries == row.now.segments + row.now.rows)))) }
{
    r.number < row.next_task
        && (r.slot != regs.slot
            || (regs.dict == row.dict
                && u32::from(regs.entries) == u32::from(row.segments) + u32::from(row.rows)))
}

/// Whether a task's number is one of its job, whose dictionary the registers have if it runs.
fn is_of_job(machine: &Machine, r: TaskRow) -> bool
    requires { 0 < r.job }
    ensures { result ≡ of_job_test (sight_of machine.now) (task_row r) (slice_get (map job_row machine.now.tasks.jobs) (r.job - 1)) }
{
    let jobs = machine.tasks.jobs.as_slice();
    let at = r.job as usize - 1;
    if at >= jobs.len() {
        return false;
    }
    is_in(&machine.cpu.regs, r, &jobs[at])
}

/// Whether a task's row is as it should be.
fn row_passes(machine: &Machine, r: TaskRow) -> bool
    ensures { result ≡ row_test (sight_of machine.now) (task_row r) }
{
    0 < r.job
        && (is_of_job(machine, r)
            && (r.slot < machine.cpu.regs.peak && is_born(machine.tasks.rows.as_slice(), r)))
}

/// Whether all tasks' rows are as they should be.
fn rows_pass(machine: &Machine) -> bool
    ensures { result ≡ list_all (row_test (sight_of machine.now)) (map task_row machine.now.tasks.rows.items) }
{
    let mut left = machine.tasks.rows.as_slice();
    'each: while let [row, more @ ..] = left {
        if !row_passes(machine, *row) {
            return false;
        }
        left = more;
    }
    true
}

/// Whether the tables of a machine are as they should be.
pub fn tables_pass(machine: &Machine) -> bool
    ensures { result ≡ tables_test (sight_of machine.now) }
{
    let rows = machine.tasks.rows.as_slice();
    let jobs = machine.tasks.jobs.as_slice();
    jobs.len() <= MOST_JOBS as usize
        && (rows_apart(rows)
            && (machine.cpu.regs.peak <= SLOTS
                && (rows_pass(machine) && (jobs_pass(rows, jobs) && counts_pass(machine)))))
}
