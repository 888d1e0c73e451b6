//! The cell that a couple names, which the running level splits.

ghost use Rattle.std.specs.Prelude.{◌≡◌, ◌≢◌, ◌≤◌, ◌<◌, ◌^◌, List, length};
ghost use Rattle.b67_word.specs.Tagged.{Tagged};
ghost use Rattle.b67_word.specs.Couples.{couple};
ghost use Rattle.b67_word.specs.declared.couples.Place.{Place};
ghost use Rattle.b67_ctl.specs.declared.references.Irw.{Irw};
ghost use Rattle.b67_ctl.specs.Layout.{irw_word, IsIrw};
ghost use Rattle.b67_model.specs.Cells.{named};
ghost use Rattle.b67_layout.specs.Meets.{here};
ghost use Rattle.b67_refer.specs.RunningContext.{RunningContext, IsShown, live_of};
ghost use Rattle.b67_refer.specs.LiveCells as live;
ghost use Rattle.b67_refer.specs.Cells.{FindsCell};
ghost use Rattle.b67_refer.specs.Own.{NamesCell};

use crate::cells::{record_cell, top_cell, under_cell};
use b67_core::Core;
use b67_ctl::{Irw, Regs};
use b67_word::{Couple, Fault, Word};

/// The five bits of a number, the lowest first.
const REVERSED: [u8; 32] = [
    0, 16, 8, 24, 4, 20, 12, 28, 2, 18, 10, 26, 6, 22, 14, 30, 1, 17, 9, 25, 5, 21, 13, 29, 3, 19,
    11, 27, 7, 23, 15, 31,
];

/// At each running level, the mask of a couple's level.
const LEVELS: [u8; 32] = [
    1, 1, 3, 3, 7, 7, 7, 7, 15, 15, 15, 15, 15, 15, 15, 15, 31, 31, 31, 31, 31, 31, 31, 31, 31, 31,
    31, 31, 31, 31, 31, 31,
];

/// At each running level, the mask of a couple's displacement.
const DISPS: [u16; 32] = [
    8191, 8191, 4095, 4095, 2047, 2047, 2047, 2047, 1023, 1023, 1023, 1023, 1023, 1023, 1023, 1023,
    511, 511, 511, 511, 511, 511, 511, 511, 511, 511, 511, 511, 511, 511, 511, 511,
];

/// As `couple_of`, by tables.
#[inline(always)]
pub fn couple_at(bits: u16, level: u8) -> Couple
    requires bits { bits < 2 ^ 14 }
    requires level { level ≤ 31 }
    ensures { result ≡ couple bits level }
{
    Couple {
        level: REVERSED[(bits >> 9) as usize] & LEVELS[level as usize],
        disp: bits & DISPS[level as usize],
    }
}

/// A mark under which the activation record of a level of the running environment most likely lies: that of the next level's, or, at
/// the running level, the running stack's last one.
#[inline(always)]
fn mark_over(regs: &Regs, display: &[u32; 32], level: u8) -> u32
    requires { regs.now.level ≤ 31 }
    ensures { (core : List Tagged) (a : RunningContext core regs.now) → IsShown a display.now → 2 ≤ level → live.IsMark (live_of a) result }
{
    if level < regs.level {
        display[level as usize + 1]
    } else {
        regs.f
    }
}

/// The core address of the cell that a couple's word names, if it is near: in the dictionary or the MCP, in the top record, or under a
/// mark near by. Else 0: the word may name another cell, or none. Nothing is called.
#[inline(always)]
pub fn near_place(core: &Core, regs: &Regs, display: &[u32; 32], w: Word) -> u32
    requires { (a : RunningContext core.now regs.now) × IsShown a display.now }
    ensures names { result ≢ 0 → NamesCell core.now regs.now display.now w result }
    ensures inside { result ≢ 0 → result < length core.now }
    ensures couple { result ≢ 0 → w.tag ≡ 1 }
    ensures word { result ≢ 0 → (name : Irw) × IsIrw name × (w ≡ irw_word name) }
{
    let name = match Irw::from_word(w) {
        Some(name) => name,
        None => return 0,
    };
    let c = couple_at(name.couple, regs.level);
    if c.level > regs.level || c.disp < 2 {
        return 0;
    }
    let base = display[c.level as usize];
    let top = top_cell(regs, base, c.disp);
    if top != 0 {
        return top;
    }
    if c.level < 2 {
        return match record_cell(core, regs, base, c.disp, false) {
            Ok(at) => at,
            Err(_) => 0,
        };
    }
    under_cell(core, regs, base, mark_over(regs, display, c.level), c.disp)
}

/// The core address of the cell that a couple names in the running environment. INVALID ADDRESS exactly if the level
/// is above the running one, or the activation record at that level has no such cell: displacements 2 and up, and 8 to
/// 18 of the MCP.
#[inline(always)]
pub fn cell_of(core: &Core, regs: &Regs, display: &[u32; 32], c: Couple) -> Result<u32, Fault>
    requires { (a : RunningContext core.now regs.now) × IsShown a display.now }
    ensures { (a : RunningContext core.now regs.now) (q : Place) → IsShown a display.now
        → FindsCell a q result (named (here a.member a.task q) c) }
{
    if c.level > regs.level {
        return Err(Fault::InvalidAddress);
    }
    record_cell(core, regs, display[c.level as usize], c.disp, c.level > 1)
}
