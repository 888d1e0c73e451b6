//! A procedure to which the top cell leads is entered.

ghost use Rattle.std.specs.Prelude.{◌≡◌, ℕ, true, Some, slice_get};
ghost use Rattle.b67_word.specs.Tagged.{Tagged};
ghost use Rattle.b67_word.specs.declared.couples.Place.{Place};
ghost use Rattle.b67_model.specs.Rows as rows;
ghost use Rattle.b67_layout.specs.Meets.{here, Meets, RunsSome, ForEach};
ghost use Rattle.b67_refer.specs.RunningContext.{RunningContext};
ghost use Rattle.b67_refer.specs.Ends.{IsProcAt};
ghost use Rattle.b67_layout.specs.Tops.{cells};
ghost use Rattle.b67_fetch.specs.Fetches.{enters_at, top_end};
ghost use Rattle.b67_exec.specs.Procedures.{LeadsToProcedure, EntersTop, IsCellFrom};

use b67_ctl::Regs;
use b67_entry::accident_on;
use b67_refer::{End, chase};
use b67_stack::{Cpu, Step};
use b67_word::Word;

/// The core address of the cell of the procedure to which a word leads.
#[inline(always)]
pub fn procedure_cell(cpu: &Cpu, w: Word) -> u32
    requires { (a : RunningContext cpu.now.core cpu.now.regs) × (q : Place) × (f : ℕ) × (segment : ℕ) × (level : ℕ) × (place : Place) × LeadsToProcedure cpu.now a q w f segment level place }
    ensures { (a : RunningContext cpu.now.core cpu.now.regs) (q : Place) (f segment level : ℕ) (place : Place) → LeadsToProcedure cpu.now a q w f segment level place → IsProcAt a q result f segment level place }
{
    match chase(&cpu.core, &cpu.regs, &cpu.display, w) {
        Ok(end) => match end {
            End::Proc(cell) => cell,
            _ => unreachable!(),
        },
        Err(_) => unreachable!(),
    }
}

/// Enters the procedure of a cell, to which the top cell leads, in the top cell's place. It returns to the running operator.
#[inline(always)]
pub(crate) fn enter_over(cpu: &mut Cpu, cell: u32) -> Step
    requires top { EntersTop cpu.old }
    requires cell { (w : Tagged) × (slice_get cpu.old.core cpu.old.regs.s ≡ Some w) × IsCellFrom cpu.old w cell }
    ensures row { ForEach cpu.old (λ x plan s m t. (q : Place) → enters_at (top_end (here m t q) (cells t)) ≡ true → Meets x plan s m result cpu.old cpu.new (rows.load (here m t q) (cells t))) }
{
    let without = Regs {
        s: cpu.regs.s - 1,
        ..cpu.regs
    };
    accident_on(cpu, without, cpu.regs.level, cell, false, cpu.regs.place)
}

/// Enters the procedure to which the top cell leads, in that cell's place. It returns to the running operator. INVALID
/// OPERAND if its level doesn't fit, STACK OVERFLOW.
#[inline(always)]
pub fn enter_in_place(cpu: &mut Cpu) -> Step
    requires { EntersTop cpu.old }
    ensures row { ForEach cpu.old (λ x plan s m t. (q : Place) → enters_at (top_end (here m t q) (cells t)) ≡ true → Meets x plan s m result cpu.old cpu.new (rows.load (here m t q) (cells t))) }
{
    let cell = procedure_cell(cpu, cpu.core.get(cpu.regs.s));
    enter_over(cpu, cell)
}
