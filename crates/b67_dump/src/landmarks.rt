//! Landmarks: marks whose numbers are known, so that the record of an address is found in a few steps.

ghost use Rattle.std.specs.Prelude.{◌≡◌, ℕ, List, ◌+◌, ◌-◌, ◌<◌, ◌≤◌, ◌^◌, length, slice_get, Some};
ghost use Rattle.b67_layout_shown.specs.Machines.{sight_of};
ghost use Rattle.b67_dump.specs.declared.landmarks.TheConstants.{LANDMARKS};
ghost use Rattle.b67_dump.specs.Walk.{marks_in, marks_under, offset_from};
ghost use Rattle.b67_dump.specs.Landmarks.{IsKnown, IsLandmark, AreLandmarks, block_end, marks_of_slot};

use crate::walking::{Owner, count_marks, offset_over, owner_of, top_mark_in};
use arrayvec::ArrayVec;
use b67_core::Core;
use b67_ctl::SLOTS;
use b67_layout_shown::seeing::{slot_start, word_seen_at};
use b67_task::Machine;

/// How many landmarks a slot has: one for every 128 words.
pub const SLOT_LANDMARKS: usize = 128;

/// The landmarks of all slots. They take 120 kilobytes of the stack of the program.
pub const LANDMARKS: usize = SLOTS as usize * SLOT_LANDMARKS;

/// A mark and its number from the bottom of its stack; one of number 0 tells nothing.
#[derive(Clone, Copy, Default)]
pub struct Landmark {
    pub mark: u32,
    pub number: u32,
}

/// The nearest mark at or under an address, from a landmark down.
fn down_to(core: &Core, from: Landmark, home: u64) -> Landmark
    ensures { (marks : List ℕ) (upper : ℕ) → home ≤ upper → IsKnown core.now upper marks from → IsKnown core.now home marks result }
{
    let mut mark = from.mark;
    let mut left = from.number;
    'down: while left > 0 {
        if u64::from(mark) <= home {
            return Landmark { mark, number: left };
        }
        let back = word_seen_at(core, u64::from(mark)).part(0, 14);
        mark = mark.saturating_sub(back as u32);
        left -= 1;
    }
    Landmark { mark, number: 0 }
}

/// The topmost mark of the task in a slot, if fewer marks than words are met from it down.
fn top_landmark(machine: &Machine, slot: u64) -> Landmark
    ensures { (upper : ℕ) → result.mark ≤ upper → IsKnown machine.now.cpu.core upper (marks_of_slot (sight_of machine.now) slot) result }
{
    let mark = top_mark_in(machine, slot);
    if mark == 0 || mark >= 1 << 32 {
        return Landmark { mark: 0, number: 0 };
    }
    let size = u32::from(machine.cpu.regs.stack_size);
    let number = count_marks(&machine.cpu.core, size, mark);
    if number < size {
        Landmark {
            mark: mark as u32,
            number,
        }
    } else {
        Landmark { mark: 0, number: 0 }
    }
}

/// The last address for which the landmark at a place of the table is told.
fn block_end(machine: &Machine, at: usize) -> u64
    requires { at < LANDMARKS }
    ensures { result ≡ block_end (sight_of machine.now) at }
{
    let words = 128 * (128 - at as u64 % 128) - 1;
    slot_start(machine.cpu.regs, at as u64 / 128) + words
}

/// A landmark of a list.
fn landmark_at(landmarks: &[Landmark], at: usize) -> Landmark
    requires { at < length landmarks.now }
    ensures { slice_get landmarks.now at ≡ Some result }
{
    landmarks[at]
}

/// The landmark that stands behind some in the table.
fn next_landmark(machine: &Machine, before: &[Landmark]) -> Landmark
    requires known { AreLandmarks (sight_of machine.now) before.now }
    requires few { length before.now < LANDMARKS }
    ensures { IsLandmark (sight_of machine.now) (length before.now) result }
{
    let at = before.len();
    let last = block_end(machine, at);
    if at % 128 == 0 {
        let top = top_landmark(machine, at as u64 / 128);
        return down_to(&machine.cpu.core, top, last);
    }
    down_to(&machine.cpu.core, landmark_at(before, at - 1), last)
}

/// The landmarks of all slots.
pub fn landmarks_of(machine: &Machine) -> ArrayVec<Landmark, LANDMARKS>
    ensures { AreLandmarks (sight_of machine.now) result.items }
{
    let mut landmarks = ArrayVec::new();
    'each: for _at in 0..LANDMARKS {
        let next = next_landmark(machine, landmarks.as_slice());
        landmarks.push(next);
    }
    landmarks
}

/// The nearest mark at or under an address in a slot, by its landmark.
fn known_under(machine: &Machine, landmarks: &[Landmark], slot: u64, home: u64) -> Landmark
    requires known { AreLandmarks (sight_of machine.now) landmarks.now }
    requires near { slot < 2 ^ 32 }
    ensures { IsKnown machine.now.cpu.core home (marks_of_slot (sight_of machine.now) slot) result }
{
    let block = home.saturating_sub(slot_start(machine.cpu.regs, slot)) / 128;
    if block >= 128 {
        return Landmark { mark: 0, number: 0 };
    }
    let at = slot * 128 + (127 - block);
    if at >= landmarks.len() as u64 {
        return Landmark { mark: 0, number: 0 };
    }
    down_to(&machine.cpu.core, landmark_at(landmarks, at as usize), home)
}

/// The number of the record whose mark has an address in a slot.
pub fn number_at(machine: &Machine, landmarks: &[Landmark], slot: u64, mark: u64) -> u32
    requires known { AreLandmarks (sight_of machine.now) landmarks.now }
    requires near { slot < 2 ^ 32 }
    ensures { result ≡ length (marks_in machine.now.cpu.core machine.now.cpu.regs.stack_size mark) }
{
    let near = known_under(machine, landmarks, slot, mark);
    if near.number > 0 {
        if u64::from(near.mark) == mark {
            return near.number;
        }
    }
    count_marks(
        &machine.cpu.core,
        u32::from(machine.cpu.regs.stack_size),
        mark,
    )
}

/// The record that an address lies in, of those of the task in a slot.
pub fn owner_in(machine: &Machine, landmarks: &[Landmark], slot: u64, home: u32) -> Owner
    requires known { AreLandmarks (sight_of machine.now) landmarks.now }
    requires near { slot < 2 ^ 32 }
    ensures number { result.number ≡ length (marks_under home (marks_of_slot (sight_of machine.now) slot)) }
    ensures offset { result.offset ≡ offset_from machine.now.cpu.core home (marks_under home (marks_of_slot (sight_of machine.now) slot)) }
{
    let near = known_under(machine, landmarks, slot, u64::from(home));
    if near.number > 0 {
        return Owner {
            number: near.number,
            offset: offset_over(&machine.cpu.core, u64::from(near.mark), home),
        };
    }
    owner_of(
        &machine.cpu.core,
        u32::from(machine.cpu.regs.stack_size),
        top_mark_in(machine, slot),
        home,
    )
}
