//! The cell at which the reference of a call ends.

ghost use Rattle.b67_model.specs.Words as words;
ghost use Rattle.std.specs.Prelude.{◌≡◌, ℕ, List};
ghost use Rattle.b67_word.specs.declared.couples.Place.{Place};
ghost use Rattle.b67_model.specs.Words.{Operand};
ghost use Rattle.b67_model.specs.Chase.{follow_reference};
ghost use Rattle.b67_layout.specs.Meets.{here, ForEach};
ghost use Rattle.b67_refer.specs.RunningContext.{RunningContext, IsShown};
ghost use Rattle.b67_refer.specs.Cells.{StandsFor, IsCellAt, frame_at_core};
ghost use Rattle.b67_mcp.specs.Calls.{CallSome, IsCall};
ghost use Rattle.b67_mcp.specs.Arguments.{end_given, CellAtEnd, FindsOperand};

use crate::call::only_argument;
use b67_core::Core;
use b67_ctl::Regs;
use b67_refer::{End, chase};
use b67_stack::Cpu;
use b67_word::{Fault, Word};

/// The cell of an operand, by its core address, that of the mark of its activation record, and its offset there.
#[derive(Clone, Copy, Debug, PartialEq, Eq)]
pub struct CellFound {
    pub at: u32,
    pub mark: u32,
    pub offset: u16,
}

/// The core address of the operand's cell at which a reference ends. INVALID OPERAND for a word that is none, and at every
/// other end; the faults of `chase`.
fn operand_cell(core: &Core, regs: &Regs, display: &[u32; 32], w: Word) -> Result<u32, Fault>
    requires { (a : RunningContext core.now regs.now) × IsShown a display.now × (at : ℕ) × (owner : ℕ) × (v : words.Word) × StandsFor a at owner w v }
    ensures { (a : RunningContext core.now regs.now) (q : Place) → IsShown a display.now → (at owner : ℕ) (v : words.Word) → StandsFor a at owner w v
        → CellAtEnd a q result (follow_reference (here a.member a.task q) v) }
{
    if w.tag() != 1 {
        return Err(Fault::InvalidOperand);
    }
    match chase(core, regs, display, w) {
        Ok(end) => match end {
            End::Cell(at) => Ok(at),
            End::Element { .. } | End::Array(_) | End::Proc(_) | End::Intrinsic(_) => {
                Err(Fault::InvalidOperand)
            }
        },
        Err(fault) => Err(fault),
    }
}

/// The address of the mark under the cell of an operand. The word over the mark has tag 3, the cells' have other tags.
fn mark_under(core: &Core, regs: &Regs, cell: u32) -> u32
    requires { (a : RunningContext core.now regs.now) × (q : Place) × (f : ℕ) × (offset : ℕ) × (bits : ℕ) × IsCellAt a q cell f offset (Operand bits) }
    ensures { (a : RunningContext core.now regs.now) (q : Place) (f offset bits : ℕ) → IsCellAt a q cell f offset (Operand bits) → result ≡ frame_at_core a f }
{
    let mut at = cell;
    'down: loop {
        if core.get(at).tag() == 3 {
            return at - 1;
        }
        at -= 1;
    }
}

/// The operand's cell at which the one argument of a call ends, a reference. INVALID OPERAND if the call has another number of
/// arguments, the faults of `operand_cell`.
pub(crate) fn cell_given(cpu: &Cpu) -> Result<CellFound, Fault>
    requires { CallSome cpu.now }
    ensures { ForEach cpu.now (λ x plan s m t. (reference : words.Word) (arguments : List words.Word) → IsCall t reference arguments
        → (q : Place) → FindsOperand plan m t cpu.now.core q result (end_given (here m t q) arguments)) }
{
    let w = only_argument(cpu)?;
    let at = operand_cell(&cpu.core, &cpu.regs, &cpu.display, w)?;
    let mark = mark_under(&cpu.core, &cpu.regs, at);
    Ok(CellFound {
        at,
        mark,
        offset: (at - mark) as u16,
    })
}
