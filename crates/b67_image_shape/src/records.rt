//! The table of records: in which activation record of a stack each address is.

ghost use Rattle.std.specs.Prelude.{◌≡◌, ◌+◌, ◌<◌, ◌^◌, length, map, slice_set, IfOk};
ghost use Rattle.b67_layout_shown.specs.Machines.{sight_of};
ghost use Rattle.b67_task.specs.Tables.{task_row};
ghost use Rattle.b67_image_shape.specs.TableFacts.{TableFacts};
ghost use Rattle.b67_image_shape.specs.FixedWords.{FixedFacts};
ghost use Rattle.b67_image_shape.specs.NearStacks.{NearStacks};
ghost use Rattle.b67_image_shape.specs.RecordTable.{IsRecordTable, filled_range, code_by, records_down, records_of_row, records_of_rows};

use crate::fixed_words::base_of;
use b67_core::Core;
use b67_layout_shown::seeing::{top_of, word_seen_at};
use b67_task::{Machine, TaskRow};
use b67_word::Word;
use std::alloc::{AllocError, Global};

/// Puts a value at a place, if there is one.
fn put_at(records: &mut [u16], at: u64, value: u16)
    ensures { records.new ≡ slice_set records.old at value }
{
    if at < records.len() as u64 {
        records[at as usize] = value;
    }
}

/// Puts a value at so many places from one on.
fn fill_range(records: &mut [u16], from: u64, many: u64, value: u16)
    requires { from + many < 2 ^ 63 }
    ensures { records.new ≡ filled_range value from many records.old }
{
    let mut left = many;
    'down: while left > 0 {
        left -= 1;
        put_at(records, from + left, value);
    }
}

/// What represents the record of the mark at f, by its word.
fn code_by(base: u64, f: u64, w: Word) -> u16
    ensures { result ≡ code_by base f w }
{
    (f.saturating_sub(base) % 0x4000) as u16 * 2 + w.part(46, 1) as u16
}

/// Fills in the records from the mark at f down, of which the first reaches up to s.
fn fill_down(core: &Core, base: u64, turns: u32, mark: u64, high: u64, records: &mut [u16])
    requires mark { mark < 2 ^ 60 }
    requires high { high < 2 ^ 60 }
    ensures { records.new ≡ records_down core.now base turns mark high records.old }
{
    let mut f = mark;
    let mut s = high;
    'down: for _turn in 0..turns {
        let w = word_seen_at(core, f);
        fill_range(records, f, (s + 1).saturating_sub(f), code_by(base, f, w));
        let back = w.part(0, 14);
        if back == 0 {
            return;
        }
        s = f.saturating_sub(1);
        f = f.saturating_sub(back);
    }
}

/// Fills in the records of a task's stack.
fn fill_row(machine: &Machine, row: TaskRow, records: &mut [u16])
    ensures { records.new ≡ records_of_row (sight_of machine.now) (task_row row) records.old }
{
    let regs = machine.cpu.regs;
    let base = base_of(regs, row.slot);
    let top = top_of(machine, row);
    fill_down(
        &machine.cpu.core,
        base,
        u32::from(regs.stack_size),
        top.f,
        top.s,
        records,
    );
}

/// Fills in the records of the stacks of these tasks.
fn fill_rows(machine: &Machine, rows: &[TaskRow], records: &mut [u16])
    ensures { records.new ≡ records_of_rows (sight_of machine.now) (map task_row rows.now) records.old }
{
    let mut left = rows;
    'each: while let [row, more @ ..] = left {
        fill_row(machine, *row, records);
        left = more;
    }
}

/// In which record of a live task's stack each address of core is.
pub fn records_of(alloc: Global, machine: &Machine) -> Result<Vec<u16>, AllocError>
    requires tables { TableFacts (sight_of machine.now) }
    requires fixed { FixedFacts (sight_of machine.now) machine.now.areas.low machine.now.areas.size }
    requires stacks { NearStacks (sight_of machine.now) }
    ensures { IfOk result (λ records. IsRecordTable (sight_of machine.now) records.items) }
{
    let mut records = vec![in alloc; 0u16; machine.cpu.core.size() as usize]?;
    fill_rows(
        machine,
        machine.tasks.rows.as_slice(),
        records.as_mut_slice(),
    );
    Ok(records)
}
