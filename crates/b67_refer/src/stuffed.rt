//! The cell that a stuffed reference names.

ghost use Rattle.std.specs.Prelude.{◌≡◌, ◌≢◌, ℕ};
ghost use Rattle.b67_word.specs.declared.couples.Place.{Place};
ghost use Rattle.b67_model.specs.Words as Words;
ghost use Rattle.b67_model.specs.InOrder.{NamesEntered};
ghost use Rattle.b67_model.specs.Cells.{cell};
ghost use Rattle.b67_layout.specs.Meets.{here};
ghost use Rattle.b67_refer.specs.RunningContext.{RunningContext, LiveContext};
ghost use Rattle.b67_refer.specs.LiveCells as live;
ghost use Rattle.b67_refer.specs.Cells.{StandsFor};
ghost use Rattle.b67_refer.specs.Own.{EndsAt};
ghost use Rattle.b67_refer.specs.declared.ends.End.TheVariants as end;

use crate::cells::{near_cell, record_cell};
use crate::environment::address_of;
use b67_core::Core;
use b67_ctl::{Irw, Regs, SLOTS, Sirw};
use b67_word::{Fault, Word};

/// The core address of the cell that a stuffed reference names. It needs the reference's activation record alive, in the reach
/// of any live task of the running task's job, and, where it is a dictionary, that of this job. INVALID ADDRESS exactly if
/// there is no such cell.
#[inline(always)]
pub fn cell_at(core: &Core, regs: &Regs, r: Sirw) -> Result<u32, Fault>
    requires { (a : LiveContext core.now regs.now) × (f : ℕ) × NamesEntered (live.reach a) f × (live.view a f ≡ record { stack = r.stack; disp = r.disp }) }
    ensures { (a : LiveContext core.now regs.now) (q : Place) (f : ℕ) → NamesEntered (live.reach a) f → live.view a f ≡ record { stack = r.stack; disp = r.disp }
        → live.CellMeets a q f r.offset result (cell (here a.member a.task q) f r.offset) }
{
    let base = address_of(core, regs, r.stack, r.disp);
    record_cell(core, regs, base, r.offset, r.stack < u16::from(SLOTS))
}

/// The core address of the operand's cell that a stuffed reference names, if it is near. Else 0: the word may be another one, or
/// lead anywhere. The display needn't be there.
#[inline(always)]
pub fn stuffed_operand(core: &Core, regs: &Regs, w: Word) -> u32
    requires { (a : RunningContext core.now regs.now) × (at : ℕ) × (owner : ℕ) × (v : Words.Word) × StandsFor a at owner w v }
    ensures { result ≢ 0 → EndsAt core.now regs.now w (end.Cell result) }
{
    if w.tag() != 1 {
        return 0;
    }
    match Irw::from_word(w) {
        Some(_) => return 0,
        None => {}
    }
    let r = Sirw::read(w);
    if r.stack >= u16::from(SLOTS) || r.offset < 2 {
        return 0;
    }
    let base = address_of(core, regs, r.stack, r.disp);
    let at = near_cell(core, regs, base, r.offset);
    if at == 0 {
        return 0;
    }
    if core.get(at).tag() != 0 {
        return 0;
    }
    at
}
