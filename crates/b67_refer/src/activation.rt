//! The activation record of an address: a stack's last one, and the one in which a procedure lies.

ghost use Rattle.std.specs.Prelude.{◌≡◌, ℕ, ◌+◌, ◌*◌, List};
ghost use Rattle.b67_word.specs.declared.couples.Place.{Place};
ghost use Rattle.b67_model.specs.Environment.{level_of_frame};
ghost use Rattle.b67_model.specs.State.{frame};
ghost use Rattle.b67_layout.specs.Meets.{here};
ghost use Rattle.b67_refer.specs.RunningContext.{RunningContext, LiveContext};
ghost use Rattle.b67_refer.specs.LiveCells as live;
ghost use Rattle.b67_refer.specs.Cells.{view, frame_at_core};
ghost use Rattle.b67_refer.specs.Ends.{IsProcAt};

use crate::environment::mark_at;
use crate::spots::{is_elsewhere, spot_of};
use b67_core::Core;
use b67_ctl::{Regs, Toscw};

/// How many of the running stack's marks, from the last one down, are looked at before words are.
const LAST_MARKS: u32 = 2;

/// The last activation record of a stack: where its mark stands, and the address behind its last word.
#[derive(Clone, Copy, Debug, PartialEq, Eq)]
pub(crate) struct LastRecord {
    pub mark: u32,
    pub past: u32,
}

/// The last activation record of the stack in which an address of a slot is. Of the running stack registers tell it, of any
/// other its base word.
#[inline(always)]
pub(crate) fn last_record(core: &Core, regs: &Regs, at: u32) -> LastRecord
    requires { (a : LiveContext core.now regs.now) × (top : ℕ) × live.IsUnder a at top }
    ensures mark { (a : LiveContext core.now regs.now) (top : ℕ) → (under : live.IsUnder a at top) → result.mark ≡ under.is.mark }
    ensures past { (a : LiveContext core.now regs.now) (top : ℕ) → live.IsUnder a at top → result.past ≡ top + 1 }
{
    let slot = spot_of(regs, at).slot;
    if slot == u32::from(regs.slot) {
        return LastRecord {
            mark: regs.f,
            past: regs.s + 1,
        };
    }
    let first = regs.stacks + slot * u32::from(regs.stack_size);
    let top = Toscw::read(core.get(first));
    LastRecord {
        mark: first + u32::from(top.f),
        past: first + u32::from(top.s) + 1,
    }
}

/// An activation record in a slot: the slot's number, the displacement of its mark, and its level.
#[derive(Clone, Copy, Debug, PartialEq, Eq)]
pub struct Activation {
    pub stack: u16,
    pub disp: u16,
    pub level: u8,
}

/// The address of the mark under a cell of an entered activation record. The word over the mark has tag 3, the cells'
/// have other tags. Words are looked at from the cell down, and the marks of the stack from its last one down, in turns: so it
/// takes the fewer of both, after the running stack's last marks.
#[inline(always)]
fn mark_under(core: &Core, regs: &Regs, cell: u32) -> u32
    requires { (a : RunningContext core.now regs.now) × (q : Place) × (f : ℕ) × (segment : ℕ) × (level : ℕ) × (place : Place) × IsProcAt a q cell f segment level place }
    ensures { (a : RunningContext core.now regs.now) (q : Place) (f segment level : ℕ) (place : Place) → IsProcAt a q cell f segment level place
        → result ≡ frame_at_core a f }
{
    let mut last = regs.f;
    let mut end = regs.s + 1;
    for _turn in 0..LAST_MARKS {
        if last < cell && cell < end && core.get(last + 1).tag() == 3 {
            return last;
        }
        end = last;
        last -= u32::from(mark_at(core, last).back);
    }
    let mut at = cell;
    let mut mark = last;
    let mut past = end;
    if is_elsewhere(regs, cell) {
        let other = last_record(core, regs, cell);
        mark = other.mark;
        past = other.past;
    }
    'down: loop {
        if mark < cell && cell < past && core.get(mark + 1).tag() == 3 {
            return mark;
        }
        if core.get(at).tag() == 3 {
            return at - 1;
        }
        at -= 1;
        past = mark;
        mark -= u32::from(mark_at(core, mark).back);
    }
}

/// The activation record in which the cell of a procedure lies, and the core address of its mark.
#[derive(Clone, Copy, Debug, PartialEq, Eq)]
pub struct Enclosure {
    pub record: Activation,
    pub mark: u32,
}

/// The activation record whose mark stands at an address, in which the cell of a procedure lies.
#[inline(always)]
pub fn enclosure_at(core: &Core, regs: &Regs, mark: u32) -> Enclosure
    requires { (a : RunningContext core.now regs.now) × (q : Place) × (cell : ℕ) × (f : ℕ) × (segment : ℕ) × (level : ℕ) × (place : Place) × IsProcAt a q cell f segment level place
        × (mark ≡ frame_at_core a f) }
    ensures home { (a : RunningContext core.now regs.now) (q : Place) (cell f segment level : ℕ) (place : Place) → IsProcAt a q cell f segment level place → mark ≡ frame_at_core a f
        → result.record ≡ record { stack = (view a f).stack; disp = (view a f).disp; level = level_of_frame (frame (here a.member a.task q) f) } }
    ensures mark { regs.now.stacks + result.record.stack * regs.now.stack_size + result.record.disp ≡ result.mark }
{
    let spot = spot_of(regs, mark);
    Enclosure {
        record: Activation {
            stack: spot.slot as u16,
            disp: spot.disp as u16,
            level: mark_at(core, mark).level,
        },
        mark,
    }
}

/// The activation record in which the cell of a procedure lies, and where its mark stands.
#[inline(always)]
pub fn enclosure_of(core: &Core, regs: &Regs, cell: u32) -> Enclosure
    requires { (a : RunningContext core.now regs.now) × (q : Place) × (f : ℕ) × (segment : ℕ) × (level : ℕ) × (place : Place) × IsProcAt a q cell f segment level place }
    ensures home { (a : RunningContext core.now regs.now) (q : Place) (f segment level : ℕ) (place : Place) → IsProcAt a q cell f segment level place
        → result.record ≡ record { stack = (view a f).stack; disp = (view a f).disp; level = level_of_frame (frame (here a.member a.task q) f) } }
    ensures mark { regs.now.stacks + result.record.stack * regs.now.stack_size + result.record.disp ≡ result.mark }
{
    let mark = mark_under(core, regs, cell);
    enclosure_at(core, regs, mark)
}
