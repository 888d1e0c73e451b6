//! Operators that push a word.

ghost use Rattle.std.specs.Prelude.{◌^◌, ◌<◌, None};
ghost use Rattle.b67_model.specs.Words.{Operand, Name};
ghost use Rattle.b67_model.specs.Steps.{pushes};
ghost use Rattle.b67_layout.specs.Meets.{here, Meets, RunsSome, ForEach};

use crate::cells::replace_cells;
use b67_ctl::Irw;
use b67_stack::{Cpu, Step};
use b67_word::{Place, Word};

/// Pushes the operand of these 48 bits, and goes on at `next`. STACK OVERFLOW.
#[inline]
pub fn literal(cpu: &mut Cpu, bits: u64, next: Place) -> Step
    requires runs { RunsSome cpu.old }
    requires bits { bits < 2 ^ 48 }
    ensures row { ForEach cpu.old (λ x plan s m t. Meets x plan s m result cpu.old cpu.new (pushes (here m t next) (Operand bits) None)) }
{
    replace_cells(cpu, 0, Word::of(0, bits), next)
}

/// Pushes the reference of a couple of 14 bits, and goes on at `next`. STACK OVERFLOW.
#[inline]
pub fn namc(cpu: &mut Cpu, couple: u16, next: Place) -> Step
    requires runs { RunsSome cpu.old }
    requires couple { couple < 2 ^ 14 }
    ensures row { ForEach cpu.old (λ x plan s m t. Meets x plan s m result cpu.old cpu.new (pushes (here m t next) (Name couple) None)) }
{
    replace_cells(cpu, 0, Irw { couple }.word(), next)
}
