//! Whether the words of core stand that the tables and registers tell.

ghost use Rattle.std.specs.Prelude.{◌≡◌, ◌+◌, ◌*◌, ◌<◌, ◌≤◌, ◌^◌, length, map};
ghost use Rattle.b67_word.specs.Tagged.{word};
ghost use Rattle.b67_ctl.specs.declared.map.TheConstants.{FIRST_DICTIONARY, SLOTS};
ghost use Rattle.b67_layout_shown.specs.Machines.{sight_of};
ghost use Rattle.b67_task.specs.Tables.{task_row, job_row};
ghost use Rattle.b67_image_shape.specs.TableFacts.{row_in_slot};
ghost use Rattle.b67_image_shape.specs.FixedWords.{link_to, vector_of};
ghost use Rattle.b67_image_shape.specs.FixedTests.{word_is, all_below, is_intrinsic, mcp_test, dictionary_test, dictionaries_test, slot_test, base_test, room_test, fixed_test};

use crate::areas::is_word;
use crate::table::find_row;
use b67_core::Core;
use b67_ctl::{FIRST_DICTIONARY, FIRST_TASK, MCP_STACK, Regs, SLOTS, STACK_VECTOR};
use b67_layout_shown::seeing::slot_start;
use b67_model::{LEAST_STACK, MOST_PARTS, MOST_STACK};
use b67_task::{JobRow, Machine, TaskRow};

/// The mark of a dictionary: entered, over the MCP, at level 1.
const DICTIONARY_MARK: u64 = 0xC000_0000_4000 + MCP_STACK as u64 * 0x10_0000_0000;

/// Whether the word at an address has this tag and these bits.
pub fn word_is(core: &Core, at: u64, tag: u8, bits: u64) -> bool
    ensures { result ≡ word_is core.now at (word tag bits) }
{
    if at >= u64::from(core.size()) {
        return false;
    }
    let w = core.get(at as u32);
    w.tag() == tag && w.bits() == bits
}

/// Whether the words of the first intrinsics stand.
fn are_intrinsics(core: &Core, many: u32) -> bool
    requires { many ≤ 11 }
    ensures { result ≡ all_below (is_intrinsic core.now) many }
{
    let mut n = many;
    'each: while 0 < n {
        n -= 1;
        if !word_is(core, 8 + u64::from(n), 7, 0x8_0000 + (8 + u64::from(n))) {
            return false;
        }
    }
    true
}

/// Whether the words of the MCP stand.
fn has_mcp(core: &Core) -> bool
    ensures { result ≡ mcp_test core.now }
{
    word_is(core, 0, 3, 0x4000_0000_0000) && are_intrinsics(core, 11)
}

/// Whether the first two words of a job's dictionary stand.
fn dictionary_stands(core: &Core, at: u64, row: &JobRow) -> bool
    requires { at < 2 ^ 33 }
    ensures { result ≡ dictionary_test core.now at (job_row row.now) }
{
    let entries = u64::from(row.segments) + u64::from(row.rows);
    u64::from(row.dict) == at
        && (entries <= MOST_PARTS as u64
            && (word_is(core, at, 3, DICTIONARY_MARK) && word_is(core, at + 1, 0, entries)))
}

/// Whether the dictionaries stand from the first address for one up to the slots.
fn dictionaries_stand(core: &Core, stacks: u32, jobs: &[JobRow]) -> bool
    ensures { result ≡ dictionaries_test core.now stacks FIRST_DICTIONARY (map job_row jobs.now) }
{
    let mut at = u64::from(FIRST_DICTIONARY);
    let mut left = jobs;
    'each: while let [row, more @ ..] = left {
        if !dictionary_stands(core, at, row) {
            return false;
        }
        at = u64::from(row.dict) + (2 + (u64::from(row.segments) + u64::from(row.rows)));
        left = more;
    }
    at == u64::from(stacks)
}

/// The slot of a task's parent in the vector of stacks.
fn link_to(rows: &[TaskRow], parent: u8) -> u64
    ensures value { result ≡ link_to (row_in_slot (map task_row rows.now) parent) }
    ensures small { result ≤ 1023 }
{
    match find_row(rows, parent) {
        None => u64::from(FIRST_TASK),
        Some(p) => u64::from(p.slot),
    }
}

/// Whether the word of a slot in the vector of stacks stands.
fn slot_stands(core: &Core, rows: &[TaskRow], n: u8) -> bool
    requires { n < SLOTS }
    ensures { result ≡ slot_test core.now (map task_row rows.now) n }
{
    let at = STACK_VECTOR as u64 + u64::from(n);
    match find_row(rows, n) {
        None => word_is(core, at, 0, 0),
        Some(r) => word_is(
            core,
            at,
            3,
            0x4000_0000_0000
                + link_to(rows, r.parent) * 0x10_0000_0000
                + u64::from(r.job) * 0x1_0000,
        ),
    }
}

/// Whether the words of the first slots in the vector of stacks stand.
fn slots_stand(core: &Core, rows: &[TaskRow], many: u8) -> bool
    requires { many ≤ SLOTS }
    ensures { result ≡ all_below (slot_test core.now (map task_row rows.now)) many }
{
    let mut n = many;
    'each: while 0 < n {
        n -= 1;
        if !slot_stands(core, rows, n) {
            return false;
        }
    }
    true
}

/// The address of the first word of a slot.
pub fn base_of(regs: Regs, n: u8) -> u64
    ensures value { result ≡ regs.stacks + n * regs.stack_size }
    ensures small { result < 2 ^ 49 }
{
    slot_start(regs, u64::from(n))
}

/// Whether the base word of a slot is zero, if no task lives there.
fn base_stands(machine: &Machine, n: u8) -> bool
    ensures { result ≡ base_test (sight_of machine.now) n }
{
    let base = base_of(machine.cpu.regs, n);
    match find_row(machine.tasks.rows.as_slice(), n) {
        None => word_is(&machine.cpu.core, base, 0, 0),
        Some(_) => true,
    }
}

/// Whether the base words of the first slots are zero where no task lives.
fn bases_stand(machine: &Machine, many: u8) -> bool
    ensures { result ≡ all_below (base_test (sight_of machine.now)) many }
{
    let mut n = many;
    'each: while 0 < n {
        n -= 1;
        if !base_stands(machine, n) {
            return false;
        }
    }
    true
}

/// Whether slots have 64 words or more, where there are jobs.
fn have_room(size: u16, jobs: &[JobRow]) -> bool
    ensures { result ≡ room_test size (map job_row jobs.now) }
{
    match jobs {
        [] => true,
        [_, ..] => LEAST_STACK <= size,
    }
}

/// Whether the words of core stand that the tables and registers tell.
pub fn fixed_passes(machine: &Machine) -> bool
    ensures { result ≡ fixed_test (sight_of machine.now) machine.now.areas.low machine.now.areas.size }
{
    let core = &machine.cpu.core;
    let regs = machine.cpu.regs;
    let rows = machine.tasks.rows.as_slice();
    let jobs = machine.tasks.jobs.as_slice();
    let low = machine.areas.low;
    let end = base_of(regs, regs.peak);
    have_room(regs.stack_size, jobs)
        && (regs.stack_size < MOST_STACK + 1
            && (u64::from(low) == end
                && (low <= core.size()
                    && (machine.areas.size == core.size()
                        && (has_mcp(core)
                            && (dictionaries_stand(core, regs.stacks, jobs)
                                && (slots_stand(core, rows, SLOTS)
                                    && bases_stand(machine, regs.peak))))))))
}
