//! The cell at an offset of an activation record. `near_cell` is what needs no call; `record_cell` finds each cell.

ghost use Rattle.std.specs.Prelude.{◌≡◌, ◌≢◌, ℕ, ◌+◌, ◌^◌, ◌<◌, ◌≤◌, Bool, List, Result, Ok, length};
ghost use Rattle.b67_word.specs.Tagged.{Tagged};
ghost use Rattle.b67_word.specs.declared.couples.Place.{Place};
ghost use Rattle.b67_model.specs.InOrder.{NamesEntered};
ghost use Rattle.b67_model.specs.Cells.{cell};
ghost use Rattle.b67_layout.specs.Meets.{here};
ghost use Rattle.b67_refer.specs.RunningContext.{LiveContext};
ghost use Rattle.b67_refer.specs.LiveCells as live;

use crate::activation::last_record;
use crate::environment::mark_at;
use b67_core::Core;
use b67_ctl::{FIRST_INTRINSIC, LAST_INTRINSIC, Regs};
use b67_word::Fault;

/// Near activation records: so many of a stack, from the one under a mark down.
const NEAR_RECORDS: u32 = 2;

/// Few cells: those below this offset of an activation record. They are looked at one by one, from the first one up.
const FEW_CELLS: u16 = 16;

/// Whether no word from an address up to another, with both, is a mark or a return word.
#[inline(always)]
fn is_plain(core: &Core, from: u32, to: u32) -> bool
    requires inside { to < length core.now }
    requires small { length core.now < 2 ^ 20 }
    ensures { live.IsPlain core.now from to result }
{
    for k in from..to + 1 {
        if core.get(k).tag() == 3 {
            return false;
        }
    }
    true
}

/// The cell at an offset of the running stack's top activation record, which ends with the top word. Else 0: it may be anywhere.
#[inline(always)]
pub(crate) fn top_cell(regs: &Regs, base: u32, offset: u16) -> u32
    requires { (core : List Tagged) × (a : LiveContext core regs.now) × (f : ℕ) × NamesEntered (live.reach a) f × (base ≡ live.frame_at_core a f) }
    ensures { result ≢ 0 → (core : List Tagged) (a : LiveContext core regs.now) (q : Place) (f : ℕ) → NamesEntered (live.reach a) f → base ≡ live.frame_at_core a f → 2 ≤ offset
        → live.CellMeets a q f offset (Ok result) (cell (here a.member a.task q) f offset) }
{
    if base != regs.f {
        return 0;
    }
    let at = base + u32::from(offset);
    if at > regs.s {
        return 0;
    }
    at
}

/// The cell at an offset of an activation record that is one of the near ones under the mark at `over`, each of which ends where the
/// next one's mark stands; or, if it is one of the few first ones, of any record of the running stack. Else 0: it may be anywhere.
#[inline(always)]
pub(crate) fn under_cell(core: &Core, regs: &Regs, base: u32, over: u32, offset: u16) -> u32
    requires { (a : LiveContext core.now regs.now) × (f : ℕ) × NamesEntered (live.reach a) f × (base ≡ live.frame_at_core a f) × (2 ≤ offset) × live.IsMark a over }
    ensures { result ≢ 0 → (a : LiveContext core.now regs.now) (q : Place) (f : ℕ) → NamesEntered (live.reach a) f → base ≡ live.frame_at_core a f → 2 ≤ offset → live.IsMark a over
        → live.CellMeets a q f offset (Ok result) (cell (here a.member a.task q) f offset) }
{
    let at = base + u32::from(offset);
    let mut past = over;
    for _turn in 0..NEAR_RECORDS {
        let mark = past - u32::from(mark_at(core, past).back);
        if mark == base {
            if at >= past {
                return 0;
            }
            return at;
        }
        past = mark;
    }
    if offset >= FEW_CELLS || base < regs.bosr || at > regs.s {
        return 0;
    }
    if !is_plain(core, base + 2, at) {
        return 0;
    }
    at
}

/// The cell at an offset of an activation record, if it is near: in the running stack's top record, or found under its last mark. Else
/// 0: it may be anywhere. Nothing is called.
#[inline(always)]
pub(crate) fn near_cell(core: &Core, regs: &Regs, base: u32, offset: u16) -> u32
    requires { (a : LiveContext core.now regs.now) × (f : ℕ) × NamesEntered (live.reach a) f × (base ≡ live.frame_at_core a f) × (2 ≤ offset) }
    ensures { result ≢ 0 → (a : LiveContext core.now regs.now) (q : Place) (f : ℕ) → NamesEntered (live.reach a) f → base ≡ live.frame_at_core a f → 2 ≤ offset
        → live.CellMeets a q f offset (Ok result) (cell (here a.member a.task q) f offset) }
{
    let top = top_cell(regs, base, offset);
    if top != 0 {
        return top;
    }
    under_cell(core, regs, base, regs.f, offset)
}

/// Whether an activation record of any stack has a cell at an offset: no mark lies between. Cells are looked at from the record's
/// first one up, and marks from the stack's last one down, in turns: so it takes the fewer of both. If there are few, the cells
/// alone. It stands behind a call, so what finds its cell near keeps nothing for it.
#[inline(never)]
fn has_far_cell(core: &Core, regs: &Regs, base: u32, offset: u16) -> bool
    requires { (a : LiveContext core.now regs.now) × (f : ℕ) × NamesEntered (live.reach a) f × (1 < f) × (base ≡ live.frame_at_core a f) × (2 ≤ offset) }
    ensures { (a : LiveContext core.now regs.now) (q : Place) (f : ℕ) → NamesEntered (live.reach a) f → 1 < f → base ≡ live.frame_at_core a f → 2 ≤ offset
        → live.CellMeets a q f offset (live.cell_or_none result (base + offset)) (cell (here a.member a.task q) f offset) }
{
    let at = base + u32::from(offset);
    let last = last_record(core, regs, base);
    if at >= last.past {
        return false;
    }
    if offset < FEW_CELLS {
        return is_plain(core, base + 2, at);
    }
    let mut mark = last.mark;
    let mut past = last.past;
    for k in base + 2..at + 1 {
        if mark == base {
            return at < past;
        }
        if core.get(k).tag() == 3 {
            return false;
        }
        past = mark;
        mark -= u32::from(mark_at(core, mark).back);
    }
    true
}

/// The cell at an offset of the activation record whose mark is at an address: a task's record, in a slot, if `of_slot` says so; else
/// the dictionary, or the MCP, whose mark is at address 0. INVALID ADDRESS exactly if there is no such cell.
#[inline(always)]
pub(crate) fn record_cell(
    core: &Core,
    regs: &Regs,
    base: u32,
    offset: u16,
    of_slot: bool,
) -> Result<u32, Fault>
    requires { (a : LiveContext core.now regs.now) × (f : ℕ) × NamesEntered (live.reach a) f × (base ≡ live.frame_at_core a f) × live.IsOfSlot of_slot f }
    ensures { (a : LiveContext core.now regs.now) (q : Place) (f : ℕ) → NamesEntered (live.reach a) f → base ≡ live.frame_at_core a f → live.IsOfSlot of_slot f
        → live.CellMeets a q f offset result (cell (here a.member a.task q) f offset) }
{
    if of_slot {
        if offset < 2 {
            return Err(Fault::InvalidAddress);
        }
        let near = near_cell(core, regs, base, offset);
        if near != 0 {
            return Ok(near);
        }
        if !has_far_cell(core, regs, base, offset) {
            return Err(Fault::InvalidAddress);
        }
        return Ok(base + u32::from(offset));
    }
    if base == 0 {
        if offset < FIRST_INTRINSIC || offset > LAST_INTRINSIC {
            return Err(Fault::InvalidAddress);
        }
        return Ok(u32::from(offset));
    }
    if offset < 2 || u32::from(offset) > 1 + u32::from(regs.entries) {
        return Err(Fault::InvalidAddress);
    }
    Ok(base + u32::from(offset))
}
