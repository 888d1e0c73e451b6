//! Short ways of operators whose reference needs no call: one to a near cell, or an element copy.

ghost use Rattle.std.specs.Prelude.{◌≡◌, ◌^◌, ◌<◌, true};
ghost use Rattle.b67_model.specs.declared.operators.Op.TheVariants.{Plain, Valc};
ghost use Rattle.b67_model.specs.declared.operators.Code.TheVariants as codes;
ghost use Rattle.b67_ctl.specs.Layout.{IsPlace};
ghost use Rattle.b67_layout.specs.Meets.{RunsSome};
ghost use Rattle.b67_exec.specs.Far.{OnShortly, WentShortly};

use crate::apart::{Went, has_stayed, is_made, makes_valc_from};
use b67_ctl::Irw;
use b67_exec_cells::top_cell;
use b67_fetch::{indx_at, nxlv_at, own_item, value};
use b67_refer::{End, near_place};
use b67_stack::Cpu;
use b67_word::Place;

/// VALC of a near cell, and what became of it.
#[inline(always)]
pub(crate) fn evaluates_own(cpu: &mut Cpu, couple: u16, next: Place) -> Went
    requires runs { RunsSome cpu.old }
    requires couple { couple < 2 ^ 14 }
    requires next { IsPlace next }
    ensures { WentShortly (Valc couple) next cpu.old result cpu.new }
{
    let at = near_place(&cpu.core, &cpu.regs, &cpu.display, Irw { couple }.word());
    if at == 0 {
        return Went::Not;
    }
    if cpu.core.get(at).tag() != 0 {
        return makes_valc_from(cpu, at, next);
    }
    has_stayed(value(cpu, 0, End::Cell(at), next))
}

/// LOAD of a near operand, and whether it was made.
#[inline(always)]
pub(crate) fn loads_own(cpu: &mut Cpu, next: Place) -> bool
    requires { RunsSome cpu.old }
    ensures { OnShortly (Plain codes.Load) next cpu.old result cpu.new }
{
    let w = match top_cell(cpu) {
        Ok(word) => word,
        Err(_) => return false,
    };
    let at = near_place(&cpu.core, &cpu.regs, &cpu.display, w);
    if at == 0 || cpu.core.get(at).tag() != 0 {
        return false;
    }
    is_made(value(cpu, 1, End::Cell(at), next))
}

/// INDX of an element of an array whose original is near, and whether it was made.
#[inline(always)]
pub(crate) fn indexes_own(cpu: &mut Cpu, next: Place) -> bool
    requires { RunsSome cpu.old }
    ensures { OnShortly (Plain codes.Indx) next cpu.old result cpu.new }
{
    match own_item(cpu) {
        Some((original, index)) => is_made(indx_at(cpu, original, index, next)),
        None => false,
    }
}

/// NXLV of an element of an array whose original is near, and whether it was made.
#[inline(always)]
pub(crate) fn takes_own(cpu: &mut Cpu, next: Place) -> bool
    requires { RunsSome cpu.old }
    ensures { OnShortly (Plain codes.Nxlv) next cpu.old result cpu.new }
{
    match own_item(cpu) {
        Some((original, index)) => is_made(nxlv_at(cpu, original, index, next)),
        None => false,
    }
}
