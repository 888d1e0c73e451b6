//! Whether cells and static links are in order.

ghost use Rattle.std.specs.Prelude.{◌≡◌, ◌&&◌, nat_lt, nat_le, ◌+◌, ◌-◌, ◌*◌, ◌<◌, ◌≤◌, ◌^◌, map, option_map, slice_get, slice_index, IfOk};
ghost use Rattle.b67_layout_shown.specs.Reading.{word_seen_at, home_by};
ghost use Rattle.b67_layout_shown.specs.Machines.{sight_of};
ghost use Rattle.b67_task.specs.Tables.{task_row, job_row};
ghost use Rattle.b67_image_shape.specs.Deciding.{Decides};
ghost use Rattle.b67_image_shape.specs.TableFacts.{row_in_slot, TableFacts};
ghost use Rattle.b67_image_shape.specs.FixedWords.{FixedFacts};
ghost use Rattle.b67_image_shape.specs.NearStacks.{NearStacks};
ghost use Rattle.b67_image_shape.specs.TableMarks.{IsTable};
ghost use Rattle.b67_image_shape.specs.Items.{EachTask, CellFacts};
ghost use Rattle.b67_image_shape.specs.CellWalk.{place, is_outermost, enters_below, has_record_at, enters_from, enters_outside, is_in_sight, reference_stands, procedure_stands, is_data_row, array_in_sight, copy_stands, cell_stands, cells_stand, level_at, link_stands, record_stands, records_stand, row_stands_by, rows_stand, is_in_slot, row_holding, CellsAreDecided};

use crate::fixed_words::base_of;
use crate::records::records_of;
use crate::small_words::words_are_small;
use crate::table::find_row;
use crate::walk::{desc_in, mscw_in};
use b67_ctl::{DICTIONARY_STACKS, DataDesc, MCP_STACK, Mscw, Regs};
use b67_layout_shown::laws::reach_is_seen;
use b67_layout_shown::seeing::{top_of, word_seen_at};
use b67_model::MOST_TASKS;
use b67_task::{JobRow, Machine, TaskRow};
use b67_word::Word;
use std::alloc::{AllocError, Global};

/// The record that an address is in.
fn recorded(records: &[u16], at: u64) -> u16
    ensures { result ≡ slice_index records.now at }
{
    if at < records.len() as u64 {
        return records[at as usize];
    }
    0
}

/// The object that stands at an address.
fn marked(kinds: &[u8], at: u64) -> u8
    ensures { result ≡ slice_index kinds.now at }
{
    if at < kinds.len() as u64 {
        return kinds[at as usize];
    }
    0
}

/// Whether a place is the mark of a job's dictionary, or that of the MCP.
fn is_outermost(job: u8, stack: u16, disp: u16) -> bool
    ensures { result ≡ is_outermost job (place stack disp) }
{
    disp == 0
        && (u32::from(stack) == DICTIONARY_STACKS as u32 + u32::from(job) || stack == MCP_STACK)
}

/// Whether an entered mark stands at a place of a task's stack, up to a displacement.
fn enters_below(
    machine: &Machine,
    records: &[u16],
    stack: u16,
    disp: u16,
    high: u64,
    row: TaskRow,
) -> bool
    ensures { result ≡ enters_below (sight_of machine.now) records.now (place stack disp) high (task_row row) }
{
    stack == u16::from(row.slot)
        && (u64::from(disp) <= high
            && u32::from(recorded(
                records,
                base_of(machine.cpu.regs, row.slot) + u64::from(disp),
            )) == u32::from(disp) * 2 + 1)
}

/// Whether a mark stands at a displacement of a task's stack.
fn has_record_at(machine: &Machine, records: &[u16], disp: u16, row: TaskRow) -> bool
    ensures { result ≡ has_record_at (sight_of machine.now) records.now disp (task_row row) }
{
    0 < disp
        && (disp < machine.cpu.regs.stack_size
            && recorded(
                records,
                base_of(machine.cpu.regs, row.slot) + u64::from(disp),
            ) / 2
                == disp)
}

/// Whether an entered mark stands at a place, from a mark at a displacement of a task's stack down.
fn enters_from(
    machine: &Machine,
    records: &[u16],
    stack: u16,
    disp: u16,
    mark: u16,
    row: TaskRow,
) -> bool
    ensures { result ≡ enters_from (sight_of machine.now) records.now (place stack disp) mark (task_row row) }
{
    has_record_at(machine, records, mark, row)
        && enters_below(machine, records, stack, disp, u64::from(mark), row)
}

/// Whether an entered mark stands at a place in the stacks of at most so many parents, each from the critical mark down.
fn enters_outside(
    machine: &Machine,
    records: &[u16],
    stack: u16,
    disp: u16,
    turns: u32,
    critical: u16,
    parent: u8,
) -> bool
    ensures { result ≡ enters_outside (sight_of machine.now) records.now (place stack disp) turns critical (row_in_slot (map task_row machine.now.tasks.rows.items) parent) }
{
    let mut left = turns;
    let mut mark = critical;
    let mut slot = parent;
    'up: while 0 < left {
        left -= 1;
        match find_row(machine.tasks.rows.as_slice(), slot) {
            None => return false,
            Some(p) => {
                if enters_from(machine, records, stack, disp, mark, p) {
                    return true;
                }
                mark = p.critical;
                slot = p.parent;
            }
        }
    }
    false
}

/// Whether an entered mark at a place is seen by a task from a displacement of its stack down.
#[tactic(auto, unfolding(crate::specs::CellWalk::is_in_sight))]
fn is_in_sight(
    machine: &Machine,
    records: &[u16],
    row: TaskRow,
    high: u64,
    stack: u16,
    disp: u16,
) -> bool
    ensures { result ≡ is_in_sight (sight_of machine.now) records.now (task_row row) high (place stack disp) }
{
    is_outermost(row.job, stack, disp)
        || (enters_below(machine, records, stack, disp, high, row)
            || enters_outside(
                machine,
                records,
                stack,
                disp,
                MOST_TASKS as u32,
                row.critical,
                row.parent,
            ))
}

/// Whether a word is a reference to an entered mark in sight.
#[tactic(auto, unfolding(crate::specs::CellWalk::reference_stands))]
fn reference_stands(machine: &Machine, records: &[u16], row: TaskRow, high: u64, w: Word) -> bool
    ensures { result ≡ reference_stands (sight_of machine.now) records.now (task_row row) high w }
{
    w.part(46, 2) == 1
        && (w.part(12, 8) == 0
            && is_in_sight(
                machine,
                records,
                row,
                high,
                w.part(36, 10) as u16,
                w.part(20, 16) as u16,
            ))
}

/// Whether a word is a program word of one of `segments` segments.
#[tactic(auto, unfolding(crate::specs::CellWalk::procedure_stands))]
fn procedure_stands(segments: u16, w: Word) -> bool
    ensures { result ≡ procedure_stands segments w }
{
    let entry = w.part(0, 14);
    w.part(19, 1) == 0
        && (w.part(36, 12) == 0 && (1 < entry && entry.saturating_sub(1) <= u64::from(segments)))
}

/// Whether one of `rows` data rows, after `segments` segments, stands at an address.
fn is_row_of(dict: u32, segments: u16, rows: u16, home: u64) -> bool
    ensures { result ≡ (nat_lt (dict + 1 + segments) home && nat_le home (dict + 1 + (segments + rows))) }
{
    let first = u64::from(dict) + 1;
    first + u64::from(segments) < home && home <= first + (u64::from(segments) + u64::from(rows))
}

/// Whether a job's data row stands at an address.
fn is_data_row(job: &JobRow, home: u64) -> bool
    ensures { result ≡ is_data_row (job_row job.now) home }
{
    is_row_of(job.dict, job.segments, job.rows, home)
}

/// Whether the array whose original stands at an address of a task's stack is that of an entered record in sight.
fn array_in_sight(
    machine: &Machine,
    records: &[u16],
    row: TaskRow,
    high: u64,
    home: u64,
    owner: Option<TaskRow>,
) -> bool
    ensures { result ≡ array_in_sight (sight_of machine.now) records.now (task_row row) high home (option_map task_row owner) }
{
    match owner {
        None => false,
        Some(q) => {
            q.job == row.job
                && is_in_sight(
                    machine,
                    records,
                    row,
                    high,
                    u16::from(q.slot),
                    recorded(records, home) / 2,
                )
        }
    }
}

/// Whether an address is in the slot of this base.
fn is_from(regs: Regs, base: u64, at: u64) -> bool
    requires { base < 2 ^ 49 }
    ensures { result ≡ (nat_le base at && nat_lt at (base + regs.stack_size)) }
{
    base <= at && at < base + u64::from(regs.stack_size)
}

/// Whether an address is in the slot of a task.
fn is_in_slot(machine: &Machine, at: u64, row: TaskRow) -> bool
    ensures { result ≡ is_in_slot (sight_of machine.now) at (task_row row) }
{
    let regs = machine.cpu.regs;
    is_from(regs, base_of(regs, row.slot), at)
}

/// The row of the task in whose slot an address is.
fn row_holding(machine: &Machine, at: u64, rows: &[TaskRow]) -> Option<TaskRow>
    ensures { option_map task_row result ≡ row_holding (sight_of machine.now) at (map task_row rows.now) }
{
    'each: for i in 0..rows.len() {
        if is_in_slot(machine, at, rows[i]) {
            return Some(rows[i]);
        }
    }
    None
}

/// The original that a copy names.
fn home_by(machine: &Machine, d: DataDesc) -> u64
    ensures { result ≡ home_by machine.now.cpu.core d.address d.present }
{
    if d.present {
        return word_seen_at(&machine.cpu.core, u64::from(d.address.saturating_sub(1))).part(0, 20);
    }
    u64::from(d.address)
}

/// What a task's cells are judged by: the machine, in which record each address is, which object stands there, the task's job,
/// and its row.
#[derive(Clone, Copy)]
pub struct TaskCells<'a> {
    machine: &'a Machine,
    records: &'a [u16],
    kinds: &'a [u8],
    job: &'a JobRow,
    row: TaskRow,
}

/// Whether a copy at an address below s names a data row, or an array in sight whose original doesn't stand above it up to s.
#[tactic(auto, unfolding(crate::specs::CellWalk::copy_stands))]
fn copy_stands(task: &TaskCells<'_>, high: u64, s: u64, at: u64, d: DataDesc) -> bool
    ensures { result ≡ copy_stands (sight_of task.now.machine.now) task.now.records.now task.now.kinds.now (job_row task.now.job.now) (task_row task.now.row) high s at d }
{
    let home = home_by(task.machine, d);
    let owner = row_holding(task.machine, home, task.machine.tasks.rows.as_slice());
    (d.read_only && is_data_row(task.job, home))
        || (!d.read_only
            && (marked(task.kinds, home) == 1
                && ((home <= at || s < home)
                    && array_in_sight(task.machine, task.records, task.row, high, home, owner))))
}

/// Whether a cell is in order, in a record that reaches up to s and whose mark has this displacement.
#[tactic(auto, unfolding(crate::specs::CellWalk::cell_stands))]
fn cell_stands(task: &TaskCells<'_>, high: u64, s: u64, at: u64) -> bool
    ensures { result ≡ cell_stands (sight_of task.now.machine.now) task.now.records.now task.now.kinds.now (job_row task.now.job.now) (task_row task.now.row) high s at (word_seen_at task.now.machine.now.cpu.core at) }
{
    let w = word_seen_at(&task.machine.cpu.core, at);
    w.tag() == 0
        || ((w.tag() == 1
            && (w.bits() < 0x4000
                || reference_stands(task.machine, task.records, task.row, high, w)))
            || ((w.tag() == 7 && procedure_stands(task.job.segments, w))
                || (w.tag() == 5
                    && (w.part(46, 1) != 1 || copy_stands(task, high, s, at, desc_in(w))))))
}

/// Whether so many cells from an address up are in order.
fn cells_stand(task: &TaskCells<'_>, high: u64, s: u64, from: u64, many: u64) -> bool
    requires { from + many < 2 ^ 63 }
    ensures { result ≡ cells_stand (sight_of task.now.machine.now) task.now.records.now task.now.kinds.now (job_row task.now.job.now) (task_row task.now.row) high s from many }
{
    let mut left = many;
    'down: while 0 < left {
        left -= 1;
        if !cell_stands(task, high, s, from + left) {
            return false;
        }
    }
    true
}

/// The address of a displacement in a slot.
fn address_in(regs: Regs, stack: u16, disp: u16) -> u64
    ensures { result ≡ regs.stacks + stack * regs.stack_size + disp }
{
    u64::from(regs.stacks) + u64::from(stack) * u64::from(regs.stack_size) + u64::from(disp)
}

/// The level of a mark at a place that is in sight.
fn level_at(machine: &Machine, job: u8, stack: u16, disp: u16) -> u64
    ensures value { result ≡ level_at (sight_of machine.now) job (place stack disp) (is_outermost job (place stack disp)) }
    ensures small { result < 32 }
{
    if is_outermost(job, stack, disp) {
        if stack == MCP_STACK {
            return 0;
        }
        return 1;
    }
    let at = address_in(machine.cpu.regs, stack, disp);
    word_seen_at(&machine.cpu.core, at).part(14, 5)
}

/// Whether an entered mark of a displacement has its environment in sight below it, of the level below.
#[tactic(auto, unfolding(crate::specs::CellWalk::link_stands))]
fn link_stands(machine: &Machine, records: &[u16], row: TaskRow, high: u64, m: Mscw) -> bool
    ensures { result ≡ link_stands (sight_of machine.now) records.now (task_row row) high m }
{
    2 <= m.level
        && (is_in_sight(
            machine,
            records,
            row,
            high.saturating_sub(1),
            m.env_stack,
            m.env_disp,
        ) && level_at(machine, row.job, m.env_stack, m.env_disp) + 1 == u64::from(m.level))
}

/// Whether the record of the mark at f, which reaches up to s, is in order.
#[tactic(auto, unfolding(crate::specs::CellWalk::record_stands))]
fn record_stands(task: &TaskCells<'_>, base: u64, f: u64, s: u64) -> bool
    requires small { f < 2 ^ 60 }
    requires top { s < 2 ^ 60 }
    ensures { result ≡ record_stands (sight_of task.now.machine.now) task.now.records.now task.now.kinds.now (job_row task.now.job.now) (task_row task.now.row) base f s }
{
    let m = mscw_in(word_seen_at(&task.machine.cpu.core, f));
    let high = f.saturating_sub(base);
    if !m.entered {
        return cells_stand(task, high, s, f + 1, s.saturating_sub(f));
    }
    link_stands(task.machine, task.records, task.row, high, m)
        && cells_stand(task, high, s, f + 2, s.saturating_sub(f + 1))
}

/// Whether the records from the mark at f down are in order, of which the first reaches up to s.
fn records_stand(task: &TaskCells<'_>, base: u64, turns: u32, mark: u64, high: u64) -> bool
    requires mark { mark < 2 ^ 60 }
    requires high { high < 2 ^ 60 }
    ensures { result ≡ records_stand (sight_of task.now.machine.now) task.now.records.now task.now.kinds.now (job_row task.now.job.now) (task_row task.now.row) base turns mark high }
{
    let mut f = mark;
    let mut s = high;
    'down: for _turn in 0..turns {
        if !record_stands(task, base, f, s) {
            return false;
        }
        let back = word_seen_at(&task.machine.cpu.core, f).part(0, 14);
        if back == 0 {
            return true;
        }
        s = f.saturating_sub(1);
        f = f.saturating_sub(back);
    }
    true
}

/// Whether the cells and static links of a task are in order, by the rows of jobs.
fn row_stands(
    machine: &Machine,
    records: &[u16],
    kinds: &[u8],
    jobs: &[JobRow],
    row: TaskRow,
) -> bool
    ensures { result ≡ row_stands_by (sight_of machine.now) records.now kinds.now (task_row row) (slice_get (map job_row jobs.now) (row.job - 1)) }
{
    let i = (row.job as usize).saturating_sub(1);
    if i >= jobs.len() {
        return false;
    }
    let regs = machine.cpu.regs;
    let top = top_of(machine, row);
    let task = TaskCells {
        machine,
        records,
        kinds,
        job: &jobs[i],
        row,
    };
    records_stand(
        &task,
        base_of(regs, row.slot),
        u32::from(regs.stack_size),
        top.f,
        top.s,
    )
}

/// Whether the cells and static links of all live tasks are in order.
fn rows_stand(machine: &Machine, records: &[u16], kinds: &[u8]) -> bool
    ensures { result ≡ rows_stand (sight_of machine.now) records.now kinds.now }
{
    let mut left = machine.tasks.rows.as_slice();
    'each: while let [row, more @ ..] = left {
        if !row_stands(machine, records, kinds, machine.tasks.jobs.as_slice(), *row) {
            return false;
        }
        left = more;
    }
    true
}

/// Over stacks that stand and the tables, the test decides whether cells and static links are in order.
fn cells_are_decided()
    ensures { CellsAreDecided }
{
    reach_is_seen();
}

/// Whether the cells and static links of all live tasks are in order, and make the stacks that were read.
pub fn are_cells_in_order(
    alloc: Global,
    machine: &Machine,
    kinds: &[u8],
) -> Result<bool, AllocError>
    requires tables { TableFacts (sight_of machine.now) }
    requires fixed { FixedFacts (sight_of machine.now) machine.now.areas.low machine.now.areas.size }
    requires stacks { NearStacks (sight_of machine.now) }
    requires kinds { IsTable (sight_of machine.now) kinds.now }
    ensures { IfOk result (λ passes. Decides passes (EachTask (sight_of machine.now) (CellFacts (sight_of machine.now)))) }
{
    let records = records_of(alloc, machine)?;
    words_are_small(&machine.cpu.core);
    cells_are_decided();
    Ok(rows_stand(machine, records.as_slice(), kinds))
}
