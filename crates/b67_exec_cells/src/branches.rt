//! Going on, at the next operator or elsewhere.

ghost use Rattle.std.specs.Prelude.{◌≡◌, None};
ghost use Rattle.b67_model.specs.Steps.{cells_of, leaves_cells};
ghost use Rattle.b67_model.specs.Rows as rows;
ghost use Rattle.b67_stack.specs.declared.Step.TheVariants.{Done};
ghost use Rattle.b67_layout.specs.Meets.{here, Meets, RunsSome, ForEach};
ghost use Rattle.b67_exec_cells.specs.Tops.{StaysInSegment};

use crate::cells::{drop_cells, top_cell};
use b67_stack::{Cpu, Step};
use b67_word::{Fault, Place};

/// Goes on at `next`, and changes nothing else.
#[inline]
pub fn branch_to(cpu: &mut Cpu, next: Place) -> Step
    requires { RunsSome cpu.old }
    ensures row { ForEach cpu.old (λ x plan s m t. let h = here m t next in Meets x plan s m result cpu.old cpu.new (leaves_cells h (cells_of h) None)) }
    ensures stays { result ≡ Done → StaysInSegment cpu.old cpu.new next }
{
    drop_cells(cpu, 0, next);
    Step::Done
}

/// Takes the top cell off, and goes on at `target` where its bit 0 is as wanted, else at `next`. STACK UNDERFLOW,
/// INVALID OPERAND.
#[inline(always)]
pub fn branch_if(cpu: &mut Cpu, wanted: bool, target: Place, next: Place) -> Step
    requires { RunsSome cpu.old }
    ensures row { ForEach cpu.old (λ x plan s m t. let h = here m t next in Meets x plan s m result cpu.old cpu.new (rows.branch_if wanted h (cells_of h) target)) }
{
    let a = match top_cell(cpu) {
        Ok(word) => word,
        Err(fault) => return Step::Fault(fault),
    };
    if a.tag() != 0 {
        return Step::Fault(Fault::InvalidOperand);
    }
    if (a.bits() % 2 == 1) == wanted {
        drop_cells(cpu, 1, target);
    } else {
        drop_cells(cpu, 1, next);
    }
    Step::Done
}
