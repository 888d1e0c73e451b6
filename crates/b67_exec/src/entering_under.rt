//! A procedure to which one of the two top cells leads is entered, and the other cell stays.

ghost use Rattle.std.specs.Prelude.{◌≡◌, ℕ, Bool, true};
ghost use Rattle.b67_word.specs.declared.couples.Place.{Place};
ghost use Rattle.b67_model.specs.Rows as rows;
ghost use Rattle.b67_layout.specs.Meets.{here, Meets, RunsSome, ForEach};
ghost use Rattle.b67_layout.specs.Tops.{cells};
ghost use Rattle.b67_fetch.specs.Fetches.{enters_at};
ghost use Rattle.b67_fetch.specs.Stores.{store_end, StoresInto};
ghost use Rattle.b67_refer.specs.Ends.{IsProcAt};
ghost use Rattle.b67_exec.specs.Procedures.{IsCellFrom};
ghost use Rattle.b67_exec.specs.Stores.{ValueOver, StoresInProc};

use crate::entering::enter_over;
use b67_ctl::Regs;
use b67_entry::accident_on;
use b67_exec_cells::two_cells;
use b67_stack::{Cpu, Step};
use b67_word::Word;

/// Enters the procedure of a cell, to which the second cell from the top leads, where the value on top takes that cell's place.
#[inline(always)]
fn enter_under(cpu: &mut Cpu, lower: Word, upper: Word, cell: u32) -> Step
    requires over { (a : RunsSome cpu.old) × (q : Place) × ValueOver cpu.old a.storage a.plan a.member a.task q lower upper }
    requires cell { IsCellFrom cpu.old lower cell }
    ensures row { ForEach cpu.old (λ x plan s m t. (q : Place) (keeps : Bool) → ValueOver cpu.old x plan m t q lower upper → Meets x plan s m result cpu.old cpu.new (rows.store keeps (here m t q) (cells t))) }
{
    cpu.core.set(cpu.regs.s - 1, upper);
    let without = Regs {
        s: cpu.regs.s - 1,
        ..cpu.regs
    };
    match accident_on(cpu, without, cpu.regs.level, cell, false, cpu.regs.place) {
        Step::Fault(fault) => {
            cpu.core.set(cpu.regs.s - 1, lower);
            Step::Fault(fault)
        }
        step => step,
    }
}

/// Enters the procedure of a cell, to which one of the two top cells leads; the other one, a value, stays.
#[inline(always)]
pub(crate) fn enter(cpu: &mut Cpu, cell: u32) -> Step
    requires due { StoresInProc cpu.old }
    requires cell { StoresInto cpu.old cell }
    ensures row { ForEach cpu.old (λ x plan s m t. (q : Place) (keeps : Bool) → enters_at (store_end (here m t q) (cells t)) ≡ true → Meets x plan s m result cpu.old cpu.new (rows.store keeps (here m t q) (cells t))) }
{
    let (lower, upper) = match two_cells(cpu) {
        Ok(two) => two,
        Err(_) => unreachable!(),
    };
    if upper.tag() == 0 {
        enter_under(cpu, lower, upper, cell)
    } else {
        enter_over(cpu, cell)
    }
}
