//! The marks of a stack, walked down.

ghost use Rattle.std.specs.Prelude.{◌≡◌, ℕ, ◌+◌, ◌/◌, ◌%◌, ◌≤◌, ◌<◌, ◌^◌, [], ◌∷◌, length, map, slice_get, Some};
ghost use Rattle.b67_layout_shown.specs.Reading.{word_seen_at};
ghost use Rattle.b67_task.specs.Tables.{task_row};
ghost use Rattle.b67_layout_shown.specs.Shown.{number_seen};
ghost use Rattle.b67_layout_shown.specs.Machines.{sight_of};
ghost use Rattle.b67_dump.specs.Landmarks.{AreStops, IsBelow};
ghost use Rattle.b67_dump.specs.Records.{top_above};
ghost use Rattle.b67_dump.specs.Walk.{marks_in, marks_under, offset_from, top_mark_in};

use arrayvec::ArrayVec;
use b67_core::Core;
use b67_layout_shown::seeing::{row_in_slot, top_of, word_seen_at};
use b67_task::{Machine, TaskRow};

/// How many marks stand from one down, at most `turns`.
pub fn count_marks(core: &Core, turns: u32, mark: u64) -> u32
    ensures { result ≡ length (marks_in core.now turns mark) }
{
    let mut at = mark;
    'down: for turn in 0..turns {
        let back = word_seen_at(core, at).part(0, 14);
        if back == 0 {
            return turn + 1;
        }
        at = at.saturating_sub(back);
    }
    turns
}

/// The record that an address lies in: its number from the bottom of its stack, and the offset of the address in it.
/// Both are 0 for an address that lies in none.
#[derive(Clone, Copy)]
pub struct Owner {
    pub number: u32,
    pub offset: u64,
}

/// The offset of an address in the record of a mark.
pub fn offset_over(core: &Core, mark: u64, home: u32) -> u64
    ensures { result ≡ offset_from core.now home (mark ∷ []) }
{
    let gap = u64::from(home).saturating_sub(mark);
    if word_seen_at(core, mark).part(46, 1) == 1 {
        gap
    } else {
        gap + 1
    }
}

/// The record that an address lies in, of those from a mark down, at most `turns`.
pub fn owner_of(core: &Core, turns: u32, mark: u64, home: u32) -> Owner
    ensures number { result.number ≡ length (marks_under home (marks_in core.now turns mark)) }
    ensures offset { result.offset ≡ offset_from core.now home (marks_under home (marks_in core.now turns mark)) }
{
    let mut at = mark;
    'down: for turn in 0..turns {
        if at <= u64::from(home) {
            return Owner {
                number: count_marks(core, turns - turn, at),
                offset: offset_over(core, at, home),
            };
        }
        let back = word_seen_at(core, at).part(0, 14);
        if back == 0 {
            break;
        }
        at = at.saturating_sub(back);
    }
    Owner {
        number: 0,
        offset: 0,
    }
}

/// The number of the task in a slot, 0 if there is none.
pub fn number_in_slot(rows: &[TaskRow], slot: u64) -> u32
    ensures { result ≡ number_seen (map task_row rows.now) slot }
{
    match row_in_slot(rows, slot) {
        Some(row) => row.number,
        None => 0,
    }
}

/// The slot of an address that lies so far above the first slot.
pub fn slot_over(machine: &Machine, above: u32) -> u32
    ensures { result ≡ above / machine.now.cpu.regs.stack_size }
{
    let size = u32::from(machine.cpu.regs.stack_size);
    if size == 0 { 0 } else { above / size }
}

/// The displacement in its slot of an address that lies so far above the first slot.
pub fn disp_over(machine: &Machine, above: u32) -> u32
    ensures { result ≡ above % machine.now.cpu.regs.stack_size }
{
    let size = u32::from(machine.cpu.regs.stack_size);
    if size == 0 { above } else { above % size }
}

/// The topmost mark of the task in a slot, 0 if there is none.
pub fn top_mark_in(machine: &Machine, slot: u64) -> u64
    ensures { result ≡ top_mark_in (sight_of machine.now) slot }
{
    match row_in_slot(machine.tasks.rows.as_slice(), slot) {
        Some(row) => top_of(machine, row).f,
        None => 0,
    }
}

/// The length of the list of every 64th mark of a stack, by which each mark is found in a few steps. A slot has at most 16,383
/// words, so no session has more marks; those beyond the list are found from the top down.
pub const STOPS: usize = 256;

/// The mark that stands so many marks below one.
fn mark_below(core: &Core, mark: u64, steps: u32) -> u64
    ensures { IsBelow core.now mark steps result }
{
    let mut at = mark;
    'down: for _step in 0..steps {
        at = at.saturating_sub(word_seen_at(core, at).part(0, 14));
    }
    at
}

/// Every 64th of `count` marks, from one down.
pub fn stops_of(core: &Core, count: u32, mark: u64) -> ArrayVec<u64, STOPS>
    ensures { AreStops core.now mark result.items }
{
    let mut stops = ArrayVec::new();
    let mut at = mark;
    'each: for stop in 0..STOPS as u32 {
        if 64 * stop >= count {
            break;
        }
        stops.push(at);
        at = mark_below(core, at, 64);
    }
    stops
}

/// A stop of a list.
fn stop_at(stops: &[u64], at: usize) -> u64
    requires { at < length stops.now }
    ensures { slice_get stops.now at ≡ Some result }
{
    stops[at]
}

/// The mark that stands so many marks below one, by the stops from that one down.
pub fn mark_at(core: &Core, stops: &[u64], mark: u64, below: u32) -> u64
    requires { AreStops core.now mark stops.now }
    ensures { IsBelow core.now mark below result }
{
    let stop = (below / 64) as usize;
    if stop < stops.len() {
        mark_below(core, stop_at(stops, stop), below % 64)
    } else {
        mark_below(core, mark, below)
    }
}

/// What a record reaches up to of whose marks so many stand above its own: the word under the next mark, or the top word.
pub fn top_at(core: &Core, stops: &[u64], mark: u64, above: u32, top: u64) -> u64
    requires { AreStops core.now mark stops.now }
    ensures { (turns : ℕ) → above ≤ length (marks_in core.now turns mark) → result ≡ top_above top (marks_in core.now turns mark) above }
{
    if above == 0 {
        top
    } else {
        mark_at(core, stops, mark, above - 1).saturating_sub(1)
    }
}
