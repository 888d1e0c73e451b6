//! Operators made apart from the loop, each behind a call of its own that answers by a bit or two; where one wasn't made, its caller
//! has the reason.

ghost use Rattle.std.specs.Prelude.{◌≡◌, ◌^◌, ◌<◌, ℕ, true};
ghost use Rattle.b67_ctl.specs.Layout.{IsPlace, irw_word};
ghost use Rattle.b67_model.specs.declared.operators.Op.TheVariants.{Plain, Valc};
ghost use Rattle.b67_model.specs.declared.operators.Code.TheVariants as codes;
ghost use Rattle.b67_layout.specs.Meets.{RunsSome};
ghost use Rattle.b67_refer.specs.Own.{NamesCell};
ghost use Rattle.b67_fetch.specs.Stores.{StoresFrom};
ghost use Rattle.b67_exec.specs.Operators.{is_on_top, store_code};
ghost use Rattle.b67_exec.specs.Near.{SaysDone};
ghost use Rattle.b67_exec.specs.Far.{MadeOn, MadeAway, MadeWent, MadeLeaving, SaysOn, SaysAway, SaysMade, ShortlyOn, ShortlyAway, OnShortly, WentShortly, LeavesShortly};

use crate::entering::enter_in_place;
use crate::entering_under::enter;
use crate::operators::on_top;
use crate::short_ways::{indexes_own, takes_own};
use b67_ctl::Irw;
use b67_entry::{accident, entr, entr_near, exit, retn};
use b67_exec_cells::top_cell;
use b67_fetch::{indx, nxlv, stff, stff_named, store, store_from, value};
use b67_model::Code;
use b67_refer::{End, chase, chase_from, near_place};
use b67_stack::{Cpu, Step};
use b67_word::Place;

/// What became of an operator: it was made, and its task goes on behind it in the segment, or elsewhere; or it wasn't made.
#[derive(Clone, Copy, Debug, PartialEq, Eq)]
pub enum Went {
    On,
    Away,
    Not,
}

/// Whether a step was made. If not, `why` is what it answered.
#[inline(always)]
pub(crate) fn is_done(step: Step, why: &mut Step) -> bool
    ensures { SaysDone step result why.new }
{
    match step {
        Step::Done => true,
        other => {
            *why = other;
            false
        }
    }
}

/// Whether a short way was one: if it wasn't, the operator goes the long way, which has the reason.
#[inline(always)]
pub(crate) fn is_made(step: Step) -> bool
    ensures { SaysMade step result }
{
    match step {
        Step::Done => true,
        _ => false,
    }
}

/// The same, where the task goes on behind the operator.
#[inline(always)]
pub(crate) fn has_stayed(step: Step) -> Went
    ensures { ShortlyOn step result }
{
    match step {
        Step::Done => Went::On,
        _ => Went::Not,
    }
}

/// The same, where a procedure was entered.
#[inline(always)]
fn has_entered(step: Step) -> Went
    ensures { ShortlyAway step result }
{
    match step {
        Step::Done => Went::Away,
        _ => Went::Not,
    }
}

/// Whether a step was made after which the task goes on behind the operator. If not, `why` is what it answered.
#[inline(always)]
fn stayed(step: Step, why: &mut Step) -> Went
    ensures { SaysOn step result why.new }
{
    match step {
        Step::Done => Went::On,
        other => {
            *why = other;
            Went::Not
        }
    }
}

/// Whether a step was made that entered a procedure. If not, `why` is what it answered.
#[inline(always)]
fn entered(step: Step, why: &mut Step) -> Went
    ensures { SaysAway step result why.new }
{
    match step {
        Step::Done => Went::Away,
        other => {
            *why = other;
            Went::Not
        }
    }
}

/// An operator without parameters on the top cells.
#[inline(never)]
pub(crate) fn makes_plain(cpu: &mut Cpu, code: Code, next: Place, why: &mut Step) -> bool
    requires runs { RunsSome cpu.old }
    requires top { is_on_top code ≡ true }
    ensures { MadeOn (Plain code) next cpu.old result cpu.new why.new }
{
    let step = on_top(cpu, code, next);
    is_done(step, why)
}

/// INDX of any array.
#[inline(never)]
fn makes_far_indx(cpu: &mut Cpu, next: Place, why: &mut Step) -> bool
    requires { RunsSome cpu.old }
    ensures { MadeOn (Plain codes.Indx) next cpu.old result cpu.new why.new }
{
    let step = indx(cpu, next);
    is_done(step, why)
}

/// INDX, first as of an array whose original is near: so no register need be kept for the general case.
#[inline(never)]
pub(crate) fn makes_indx(cpu: &mut Cpu, next: Place, why: &mut Step) -> bool
    requires { RunsSome cpu.old }
    ensures { MadeOn (Plain codes.Indx) next cpu.old result cpu.new why.new }
{
    if indexes_own(cpu, next) {
        return true;
    }
    makes_far_indx(cpu, next, why)
}

/// NXLV of any array.
#[inline(never)]
fn makes_far_nxlv(cpu: &mut Cpu, next: Place, why: &mut Step) -> bool
    requires { RunsSome cpu.old }
    ensures { MadeOn (Plain codes.Nxlv) next cpu.old result cpu.new why.new }
{
    let step = nxlv(cpu, next);
    is_done(step, why)
}

/// NXLV, first as of an array whose original is near: so no register need be kept for the general case.
#[inline(never)]
pub(crate) fn makes_nxlv(cpu: &mut Cpu, next: Place, why: &mut Step) -> bool
    requires { RunsSome cpu.old }
    ensures { MadeOn (Plain codes.Nxlv) next cpu.old result cpu.new why.new }
{
    if takes_own(cpu, next) {
        return true;
    }
    makes_far_nxlv(cpu, next, why)
}

/// STFF of any couple.
#[inline(never)]
pub(crate) fn makes_far_stff(cpu: &mut Cpu, next: Place, why: &mut Step) -> bool
    requires { RunsSome cpu.old }
    ensures { MadeOn (Plain codes.Stff) next cpu.old result cpu.new why.new }
{
    let step = stff(cpu, next);
    is_done(step, why)
}

/// STFF of a cell that is found without a call, and whether it was made: so no register need be kept for the general case.
#[inline(never)]
pub(crate) fn makes_stff(cpu: &mut Cpu, next: Place) -> bool
    requires { RunsSome cpu.old }
    ensures { OnShortly (Plain codes.Stff) next cpu.old result cpu.new }
{
    let w = match top_cell(cpu) {
        Ok(word) => word,
        Err(_) => return false,
    };
    if near_place(&cpu.core, &cpu.regs, &cpu.display, w) == 0 {
        return false;
    }
    let step = stff_named(cpu, w, next);
    is_made(step)
}

/// VALC of any couple.
#[inline(never)]
pub(crate) fn makes_far_valc(cpu: &mut Cpu, couple: u16, next: Place, why: &mut Step) -> Went
    requires runs { RunsSome cpu.old }
    requires couple { couple < 2 ^ 14 }
    requires next { IsPlace next }
    ensures { MadeWent (Valc couple) next cpu.old result cpu.new why.new }
{
    let end = match chase(&cpu.core, &cpu.regs, &cpu.display, Irw { couple }.word()) {
        Ok(end) => end,
        Err(fault) => return stayed(Step::Fault(fault), why),
    };
    match end {
        End::Proc(cell) => entered(accident(cpu, cell, true, next), why),
        _ => stayed(value(cpu, 0, end, next), why),
    }
}

/// VALC of the couple that names the cell at an address, and what became of it.
#[inline(never)]
pub(crate) fn makes_valc_from(cpu: &mut Cpu, at: u32, next: Place) -> Went
    requires runs { RunsSome cpu.old }
    requires named { (couple : ℕ) × (couple < 2 ^ 14) × NamesCell cpu.old.core cpu.old.regs cpu.old.display (irw_word (record { couple = couple })) at }
    requires next { IsPlace next }
    ensures { (couple : ℕ) → couple < 2 ^ 14 → NamesCell cpu.old.core cpu.old.regs cpu.old.display (irw_word (record { couple = couple })) at → WentShortly (Valc couple) next cpu.old result cpu.new }
{
    let end = match chase_from(&cpu.core, &cpu.regs, &cpu.display, at) {
        Ok(end) => end,
        Err(_) => return Went::Not,
    };
    match end {
        End::Proc(cell) => has_entered(accident(cpu, cell, true, next)),
        _ => has_stayed(value(cpu, 0, end, next)),
    }
}

/// LOAD.
#[inline(never)]
pub(crate) fn makes_load(cpu: &mut Cpu, next: Place, why: &mut Step) -> Went
    requires { RunsSome cpu.old }
    ensures { MadeWent (Plain codes.Load) next cpu.old result cpu.new why.new }
{
    match b67_fetch::load(cpu, next) {
        Step::Call(_) => entered(enter_in_place(cpu), why),
        step => stayed(step, why),
    }
}

/// STOD, or STON, which keeps the operand.
#[inline(never)]
pub(crate) fn makes_store(cpu: &mut Cpu, keeps: bool, next: Place, why: &mut Step) -> Went
    requires { RunsSome cpu.old }
    ensures { MadeWent (Plain (store_code keeps)) next cpu.old result cpu.new why.new }
{
    match store(cpu, keeps, next) {
        Ok(step) => stayed(step, why),
        Err(cell) => entered(enter(cpu, cell), why),
    }
}

/// The same, through the couple on top that names the cell at an address.
#[inline(never)]
pub(crate) fn makes_store_from(
    cpu: &mut Cpu,
    keeps: bool,
    near: u32,
    next: Place,
    why: &mut Step,
) -> Went
    requires runs { RunsSome cpu.old }
    requires from { StoresFrom cpu.old near }
    ensures { MadeWent (Plain (store_code keeps)) next cpu.old result cpu.new why.new }
{
    match store_from(cpu, keeps, near, next) {
        Ok(step) => stayed(step, why),
        Err(cell) => entered(enter(cpu, cell), why),
    }
}

/// ENTR, wherever its reference leads.
#[inline(never)]
fn makes_far_entr(cpu: &mut Cpu, next: Place, why: &mut Step) -> bool
    requires runs { RunsSome cpu.old }
    requires next { IsPlace next }
    ensures { MadeAway (Plain codes.Entr) next cpu.old result cpu.new why.new }
{
    let step = entr(cpu, next);
    is_done(step, why)
}

/// ENTR, first by the way that follows no chain, as most are made: so no register need be kept for the general case.
#[inline(never)]
pub(crate) fn makes_entr(cpu: &mut Cpu, next: Place, why: &mut Step) -> bool
    requires runs { RunsSome cpu.old }
    requires next { IsPlace next }
    ensures { MadeAway (Plain codes.Entr) next cpu.old result cpu.new why.new }
{
    match entr_near(cpu, next) {
        Some(step) => is_done(step, why),
        None => makes_far_entr(cpu, next, why),
    }
}

/// EXIT, and whether it was made.
#[inline(never)]
pub(crate) fn makes_exit(cpu: &mut Cpu) -> bool
    requires { RunsSome cpu.old }
    ensures { LeavesShortly (Plain codes.Exit) cpu.old result cpu.new }
{
    let step = exit(cpu);
    is_made(step)
}

/// RETN, and whether it was made.
#[inline(never)]
pub(crate) fn makes_retn(cpu: &mut Cpu) -> bool
    requires { RunsSome cpu.old }
    ensures { LeavesShortly (Plain codes.Retn) cpu.old result cpu.new }
{
    let step = retn(cpu);
    is_made(step)
}

/// EXIT that ends its task or faults.
#[inline(never)]
pub(crate) fn makes_last_exit(cpu: &mut Cpu, why: &mut Step) -> bool
    requires { RunsSome cpu.old }
    ensures { MadeLeaving (Plain codes.Exit) cpu.old result cpu.new why.new }
{
    let step = exit(cpu);
    is_done(step, why)
}

/// RETN that ends its task or faults.
#[inline(never)]
pub(crate) fn makes_last_retn(cpu: &mut Cpu, why: &mut Step) -> bool
    requires { RunsSome cpu.old }
    ensures { MadeLeaving (Plain codes.Retn) cpu.old result cpu.new why.new }
{
    let step = retn(cpu);
    is_done(step, why)
}
