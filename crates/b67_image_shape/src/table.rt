//! The table of marks: which object stands at each address of core.

ghost use Rattle.std.specs.Prelude.{◌≡◌, ℕ, ◌+◌, ◌*◌, ◌<◌, ◌≤◌, ◌^◌, length, map, option_map, IfOk, slice_index};
ghost use Rattle.b67_layout_shown.specs.Machines.{sight_of};
ghost use Rattle.b67_task.specs.Tables.{task_row, job_row};
ghost use Rattle.b67_image_shape.specs.TableFacts.{row_in_slot};
ghost use Rattle.b67_image_shape.specs.ObjectTable.{mark_in_dictionary, mark_at, is_original_word, has_entry_at};
ghost use Rattle.b67_image_shape.specs.TableMarks.{end_by, AreEnds, HaveSlots, IsTable};

use b67_core::Core;
use b67_ctl::SLOTS;
use b67_layout_shown::seeing::{row_in_slot, top_of};
use b67_task::{JobRow, Machine, TaskRow};
use b67_word::Word;
use std::alloc::{AllocError, Global};

/// The row of the task in a slot.
pub fn find_row(rows: &[TaskRow], slot: u8) -> Option<TaskRow>
    ensures { option_map task_row result ≡ row_in_slot (map task_row rows.now) slot }
{
    row_in_slot(rows, u64::from(slot))
}

/// Behind the topmost word of the task in a slot, 0 for none.
fn end_of(machine: &Machine, slot: u8) -> u64
    ensures { result ≡ end_by (sight_of machine.now) (row_in_slot (map task_row machine.now.tasks.rows.items) slot) }
{
    match find_row(machine.tasks.rows.as_slice(), slot) {
        Some(row) => top_of(machine, row).s + 1,
        None => 0,
    }
}

/// Behind the topmost word of each slot.
fn ends_of(alloc: Global, machine: &Machine) -> Result<Vec<u64>, AllocError>
    ensures { IfOk result (λ ends. AreEnds (sight_of machine.now) ends.items) }
{
    let mut ends = vec![in alloc; 0u64; SLOTS as usize]?;
    'each: for slot in 0..SLOTS {
        ends[slot as usize] = end_of(machine, slot);
    }
    Ok(ends)
}

/// Whether the entry of a dictionary stands at an address.
fn has_entry_at(row: &JobRow, at: u32) -> bool
    ensures { result ≡ has_entry_at (job_row row.now) at }
{
    let first = u64::from(row.dict) + 1;
    if u64::from(at) <= first {
        return false;
    }
    u64::from(at) <= first + (u64::from(row.segments) + u64::from(row.rows))
}

/// What stands at an address below the slots: 2 a data row's original, 3 a segment descriptor, 0 none.
fn mark_in_dictionary(jobs: &[JobRow], at: u32) -> u8
    ensures { result ≡ mark_in_dictionary (map job_row jobs.now) at }
{
    'each: for i in 0..jobs.len() {
        let row = &jobs[i];
        if has_entry_at(row, at) {
            if u64::from(at) - (u64::from(row.dict) + 1) <= u64::from(row.segments) {
                return 3;
            }
            return 2;
        }
    }
    0
}

/// Whether a word may be an original.
fn is_original_word(w: Word) -> bool
    ensures { result ≡ is_original_word w }
{
    if w.tag() != 5 {
        return false;
    }
    w.part(46, 1) != 1
}

/// What stands at an address: 1 an array's original, 2 a data row's, 3 a segment descriptor, 0 none.
fn mark_of(machine: &Machine, ends: &[u64], at: u32) -> u8
    requires slots { HaveSlots (sight_of machine.now) }
    requires ends { AreEnds (sight_of machine.now) ends.now }
    requires inside { at < length machine.now.cpu.core }
    ensures { result ≡ mark_at (sight_of machine.now) at }
{
    let regs = machine.cpu.regs;
    if at < regs.stacks {
        return mark_in_dictionary(machine.tasks.jobs.as_slice(), at);
    }
    let size = u32::from(regs.stack_size);
    if size == 0 {
        return 0;
    }
    let slot = (at - regs.stacks) / size;
    if slot >= SLOTS as u32 {
        return 0;
    }
    if u64::from(at) <= u64::from(regs.stacks) + u64::from(slot) * u64::from(regs.stack_size) {
        return 0;
    }
    if u64::from(at) >= ends[slot as usize] {
        return 0;
    }
    if !is_original_word(machine.cpu.core.get(at)) {
        return 0;
    }
    1
}

/// What stands at each address of core.
pub fn table_of(alloc: Global, machine: &Machine) -> Result<Vec<u8>, AllocError>
    requires slots { HaveSlots (sight_of machine.now) }
    ensures { IfOk result (λ kinds. IsTable (sight_of machine.now) kinds.items) }
{
    let ends = ends_of(alloc, machine)?;
    let mut kinds = vec![in alloc; 0u8; machine.cpu.core.size() as usize]?;
    'each: for at in 0..machine.cpu.core.size() {
        kinds[at as usize] = mark_of(machine, ends.as_slice(), at);
    }
    Ok(kinds)
}
