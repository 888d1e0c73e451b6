//! Whether the counts of the tables are as they should be.

ghost use Rattle.std.specs.Prelude.{◌≡◌, ◌<◌, ◌≤◌, ◌==◌, nat_lt, length, map, take, slice_get};
ghost use Rattle.std.specs.List.{list_all};
ghost use Rattle.b67_lemmas.specs.Lists.{total};
ghost use Rattle.b67_model.specs.Schedule as schedule;
ghost use Rattle.b67_layout.specs.Rows as rows;
ghost use Rattle.b67_layout_shown.specs.Machines.{sight_of};
ghost use Rattle.b67_task.specs.Tables.{task_row, job_row, switch_of};
ghost use Rattle.b67_image_shape.specs.TableTests.{rise_from, rise_test, running_test, counts_test};

use b67_model_text::Switch;
use b67_task::{JobRow, Machine, NO_ROW, TaskRow};

/// Whether a switch comes before the next one.
fn rises(a: Switch, more: &[Switch]) -> bool
    ensures { result ≡ rise_from (switch_of a) (map switch_of more.now) }
{
    match more {
        [] => true,
        [b, ..] => a.count < b.count,
    }
}

/// Whether switches rise.
fn rise(switches: &[Switch]) -> bool
    ensures { result ≡ rise_test (map switch_of switches.now) }
{
    let mut left = switches;
    'each: while let [a, more @ ..] = left {
        if !rises(*a, more) {
            return false;
        }
        left = more;
    }
    true
}

/// Whether switches lie below a count.
fn all_below(switches: &[Switch], made: u64) -> bool
    ensures { result ≡ list_all (λ (w : schedule.Switch). nat_lt w.count made) (map switch_of switches.now) }
{
    let mut left = switches;
    'each: while let [w, more @ ..] = left {
        if made <= w.count {
            return false;
        }
        left = more;
    }
    true
}

/// Whether the switches that are past lie below a count.
fn all_past(switches: &[Switch], next: u32, made: u64) -> bool
    requires { next ≤ length switches.now }
    ensures { result ≡ list_all (λ (w : schedule.Switch). nat_lt w.count made) (take next (map switch_of switches.now)) }
{
    all_below(&switches[..next as usize], made)
}

/// Whether the jobs have made so many operators.
fn have_made(jobs: &[JobRow], made: u64) -> bool
    ensures { result ≡ (made == total (λ (r : rows.JobRow). r.made) (map job_row jobs.now)) }
{
    let mut rest = made;
    let mut left = jobs;
    'each: while let [row, more @ ..] = left {
        if rest < row.made {
            return false;
        }
        rest -= row.made;
        left = more;
    }
    rest == 0
}

/// Whether the registers are those of the running row.
fn is_running(rows: &[TaskRow], slot: u8, running: u8) -> bool
    ensures { result ≡ running_test slot (slice_get (map task_row rows.now) running) running }
{
    if running as usize >= rows.len() {
        return running == NO_ROW && slot == 255;
    }
    running != NO_ROW && rows[running as usize].slot == slot
}

/// Whether the counts of a machine are as they should be.
pub fn counts_pass(machine: &Machine) -> bool
    ensures { result ≡ counts_test (sight_of machine.now) }
{
    let tasks = &machine.tasks;
    let switches = tasks.switches.as_slice();
    let next = tasks.next_switch;
    rise(switches)
        && (next as usize <= switches.len()
            && (all_past(switches, next, tasks.made)
                && (have_made(tasks.jobs.as_slice(), tasks.made)
                    && (u64::from(tasks.turn) <= tasks.made
                        && is_running(
                            tasks.rows.as_slice(),
                            machine.cpu.regs.slot,
                            tasks.running,
                        )))))
}
