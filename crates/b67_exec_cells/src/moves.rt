//! Operators that delete, exchange and duplicate cells.

ghost use Rattle.std.specs.Prelude.{◌≡◌, ℕ};
ghost use Rattle.b67_model.specs.Words as words;
ghost use Rattle.b67_model.specs.State.{Task, SessionJob};
ghost use Rattle.b67_model.specs.Intrinsics.{is_original as is_original_word};
ghost use Rattle.b67_model.specs.Rows as rows;
ghost use Rattle.b67_stack.specs.Represents.{Storage};
ghost use Rattle.b67_layout.specs.Placement.{Placement};
ghost use Rattle.b67_layout.specs.Meets.{here, Meets, RunsSome, ForEach};
ghost use Rattle.b67_layout.specs.Tops.{IsWordOf};

use crate::cells::{drop_cells, go_on_at, replace_cells, top_cell, two_cells};
use b67_ctl::DataDesc;
use b67_stack::{Cpu, Step};
use b67_word::{Fault, Place, Word};

/// Whether a word is the original of an array, which is never moved or copied.
#[inline(always)]
fn is_original(w: Word) -> bool
    ensures { (x : Storage) (plan : Placement) (m : SessionJob) (t : Task) (v : words.Word) (at : ℕ) → IsWordOf x plan m t v at w → result ≡ is_original_word v }
{
    DataDesc::is_original(w)
}

/// Takes the top cell off, and goes on at `next`. STACK UNDERFLOW, INVALID OPERAND at an original.
#[inline(always)]
pub fn dlet(cpu: &mut Cpu, next: Place) -> Step
    requires { RunsSome cpu.old }
    ensures row { ForEach cpu.old (λ x plan s m t. Meets x plan s m result cpu.old cpu.new (rows.on_cells rows.dlet (here m t next))) }
{
    let a = match top_cell(cpu) {
        Ok(word) => word,
        Err(fault) => return Step::Fault(fault),
    };
    if is_original(a) {
        return Step::Fault(Fault::InvalidOperand);
    }
    drop_cells(cpu, 1, next);
    Step::Done
}

/// Exchanges the two top cells, and goes on at `next`. STACK UNDERFLOW, INVALID OPERAND at an original.
#[inline(always)]
pub fn exch(cpu: &mut Cpu, next: Place) -> Step
    requires { RunsSome cpu.old }
    ensures row { ForEach cpu.old (λ x plan s m t. Meets x plan s m result cpu.old cpu.new (rows.on_cells rows.exch (here m t next))) }
{
    let (a, b) = match two_cells(cpu) {
        Ok(words) => words,
        Err(fault) => return Step::Fault(fault),
    };
    if is_original(a) || is_original(b) {
        return Step::Fault(Fault::InvalidOperand);
    }
    cpu.core.set(cpu.regs.s - 1, b);
    cpu.core.set(cpu.regs.s, a);
    go_on_at(cpu, next);
    Step::Done
}

/// Pushes the top cell again, and goes on at `next`. STACK UNDERFLOW, INVALID OPERAND at an original, STACK OVERFLOW.
#[inline(always)]
pub fn dupl(cpu: &mut Cpu, next: Place) -> Step
    requires { RunsSome cpu.old }
    ensures row { ForEach cpu.old (λ x plan s m t. Meets x plan s m result cpu.old cpu.new (rows.on_cells rows.dupl (here m t next))) }
{
    let a = match top_cell(cpu) {
        Ok(word) => word,
        Err(fault) => return Step::Fault(fault),
    };
    if is_original(a) {
        return Step::Fault(Fault::InvalidOperand);
    }
    replace_cells(cpu, 0, a, next)
}
