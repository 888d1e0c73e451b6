//! The operator that stuffs a reference: a couple becomes the name of its cell's activation record.

ghost use Rattle.std.specs.Prelude.{◌≡◌, ℕ, ◌+◌, ◌^◌, ◌<◌, ◌≤◌, Ok};
ghost use Rattle.b67_ctl.specs.Layout.{IsSirw};
ghost use Rattle.b67_model.specs.InOrder.{NamesEntered};
ghost use Rattle.b67_model.specs.Rows as rows;
ghost use Rattle.b67_stack.specs.declared.Step.TheVariants.{Done};
ghost use Rattle.b67_layout.specs.Meets.{here, Meets, RunsSome, ForEach};
ghost use Rattle.b67_layout.specs.Tops.{cells, GivesTop};
ghost use Rattle.b67_refer.specs.Own.{NamesCell};
ghost use Rattle.b67_exec_cells.specs.Tops.{StaysInSegment};
ghost use Rattle.b67_refer.specs.RunningContext.{RunningContext};
ghost use Rattle.b67_refer.specs.Cells.{reach, view, frame_at_core};

use b67_core::Core;
use b67_ctl::{DICTIONARY_STACKS, Irw, MCP_STACK, Regs, STACK_VECTOR, Sirw, VectorWord};
use b67_exec_cells::{branch_to, put_over, top_cell};
use b67_refer::{cell_of, couple_at, spot_of};
use b67_stack::{Cpu, Step};
use b67_word::{Fault, Place, Word};

/// The stuffed reference to an offset of the activation record whose mark is at an address: in a slot, the dictionary's
/// or the MCP's.
#[inline(always)]
fn stuffed(core: &Core, regs: &Regs, base: u32, offset: u16) -> Sirw
    requires frame { (a : RunningContext core.now regs.now) × (f : ℕ) × NamesEntered (reach a) f × (base ≡ frame_at_core a f) }
    requires offset { offset < 2 ^ 13 }
    ensures fits { IsSirw result }
    ensures spot { (a : RunningContext core.now regs.now) (f : ℕ) → NamesEntered (reach a) f → base ≡ frame_at_core a f
        → result ≡ record { stack = (view a f).stack; disp = (view a f).disp; offset = offset } }
{
    if base == 0 {
        return Sirw {
            stack: MCP_STACK,
            disp: 0,
            offset,
        };
    }
    if base == regs.dict {
        let running = VectorWord::read(core.get(STACK_VECTOR + u32::from(regs.slot)));
        return Sirw {
            stack: DICTIONARY_STACKS + u16::from(running.job),
            disp: 0,
            offset,
        };
    }
    let spot = spot_of(regs, base);
    Sirw {
        stack: spot.slot as u16,
        disp: spot.disp as u16,
        offset,
    }
}

/// Puts the stuffed reference of the cell that the couple on top names in its place, and goes on at `next`. A stuffed
/// one stays. STACK UNDERFLOW, INVALID OPERAND if it is no reference, INVALID ADDRESS.
#[inline(always)]
pub fn stff(cpu: &mut Cpu, next: Place) -> Step
    requires { RunsSome cpu.old }
    ensures row { ForEach cpu.old (λ x plan s m t. let h = here m t next in Meets x plan s m result cpu.old cpu.new (rows.on_cells (rows.stff h) h)) }
    ensures stays { result ≡ Done → StaysInSegment cpu.old cpu.new next }
{
    let w = match top_cell(cpu) {
        Ok(word) => word,
        Err(fault) => return Step::Fault(fault),
    };
    if w.tag() != 1 {
        return Step::Fault(Fault::InvalidOperand);
    }
    let couple = match Irw::from_word(w) {
        Some(name) => couple_at(name.couple, cpu.regs.level),
        None => return branch_to(cpu, next),
    };
    match cell_of(&cpu.core, &cpu.regs, &cpu.display, couple) {
        Ok(_) => {
            let base = cpu.display[usize::from(couple.level)];
            let reference = stuffed(&cpu.core, &cpu.regs, base, couple.disp);
            put_over(cpu, 1, reference.word(), next)
        }
        Err(fault) => Step::Fault(fault),
    }
}

/// STFF of the word on top, a reference to a cell that is there: nothing is searched.
#[inline(always)]
pub fn stff_named(cpu: &mut Cpu, w: Word, next: Place) -> Step
    requires runs { RunsSome cpu.old }
    requires top { ForEach cpu.old (λ x plan s m t. GivesTop x plan m t cpu.old (cells t) (Ok w)) }
    requires above { cpu.old.regs.f + 1 ≤ cpu.old.regs.s }
    requires reference { w.tag ≡ 1 }
    requires named { (cell : ℕ) × NamesCell cpu.old.core cpu.old.regs cpu.old.display w cell }
    ensures row { ForEach cpu.old (λ x plan s m t. let h = here m t next in Meets x plan s m result cpu.old cpu.new (rows.on_cells (rows.stff h) h)) }
    ensures stays { result ≡ Done → StaysInSegment cpu.old cpu.new next }
{
    let couple = match Irw::from_word(w) {
        Some(name) => couple_at(name.couple, cpu.regs.level),
        None => return branch_to(cpu, next),
    };
    let base = cpu.display[usize::from(couple.level)];
    let reference = stuffed(&cpu.core, &cpu.regs, base, couple.disp);
    put_over(cpu, 1, reference.word(), next)
}
