//! Operators that read through references.
//!
//! If a reference ends at a procedure, the answer is [`PROCEDURE`], with nothing changed: the caller then enters it.

ghost use Rattle.std.specs.Prelude.{◌≡◌, ℕ, ◌+◌, ◌^◌, ◌<◌, ◌≤◌, List, ◌++◌, ◌∷◌, length, Some};
ghost use Rattle.b67_word.specs.declared.couples.Place.{Place};
ghost use Rattle.b67_model.specs.Words as words;
ghost use Rattle.b67_model.specs.Words.{Operand, Name};
ghost use Rattle.b67_model.specs.Arrays.{element as element_of};
ghost use Rattle.b67_model.specs.Chase.{End as ModelEnd, chase as chase_of, follow};
ghost use Rattle.b67_model.specs.Steps.{leaves_cells, cells_of};
ghost use Rattle.b67_model.specs.Rows as rows;
ghost use Rattle.b67_stack.specs.declared.Step.TheVariants.{Done};
ghost use Rattle.b67_layout.specs.Meets.{here, Meets, RunsSome, ForEach};
ghost use Rattle.b67_layout.specs.Tops.{cells};
ghost use Rattle.b67_exec_cells.specs.Tops.{NoOriginals, StaysInSegment};
ghost use Rattle.b67_exec_cells.specs.Elements.{HasElement, HoldsElement};
ghost use Rattle.b67_fetch.specs.Fetches.{IsFollowed, MayFollow, IsEnd, FindsEnd, SomeEnd, value_at_end, is_procedure_end, enters_at, EntersOrMeets, top_end};

use b67_ctl::Irw;
use b67_exec_cells::{element, replace_cells, row_copy, top_cell};
use b67_refer::{End, chase};
use b67_stack::{Cpu, PROCEDURE, Step, What};
use b67_word::{Fault, Place, Word};

/// Where a word leads that the running task may follow.
#[inline(always)]
fn end_of(cpu: &Cpu, w: Word) -> Result<End, Fault>
    requires { MayFollow cpu.now w }
    ensures { ForEach cpu.now (λ x plan s m t. (q : Place) (v : words.Word) → IsFollowed x plan m t w v → FindsEnd plan m cpu.now.core result (follow (here m t q) v)) }
{
    chase(&cpu.core, &cpu.regs, &cpu.display, w)
}

/// Puts an element in the place of the `count` top cells, and goes on at `next`. STACK OVERFLOW. If the array is absent,
/// nothing is changed.
fn put_element(cpu: &mut Cpu, count: u32, original: u32, index: u32, next: Place) -> Step
    requires holds { HoldsElement cpu.old original index }
    requires cells { cpu.old.regs.f + count ≤ cpu.old.regs.s }
    ensures row { ForEach cpu.old (λ x plan s m t. (gone rest : List words.Word) (n : ℕ) → cells t ≡ gone ++ rest → length gone ≡ count → NoOriginals gone
        → original ≡ plan.home m.constants.number n → HasElement m.progress.job n index
        → Meets x plan s m result cpu.old cpu.new (leaves_cells (here m t next) (Operand (element_of m.progress.job n index) ∷ rest) (Some n))) }
    ensures stays { result ≡ Done → StaysInSegment cpu.old cpu.new next }
{
    if cpu.regs.s - count >= cpu.regs.losr {
        return Step::Fault(Fault::StackOverflow);
    }
    match element(cpu, original, index) {
        Some(w) => replace_cells(cpu, count, w, next),
        None => Step::Absent(What::Array(original)),
    }
}

/// Puts the value at an end in the place of the `count` top cells, and goes on at `next`. INVALID OPERAND at an array and
/// at an intrinsic, else STACK OVERFLOW. If an array is absent, nothing is changed.
#[inline(always)]
pub fn value(cpu: &mut Cpu, count: u32, end: End, next: Place) -> Step
    requires end { SomeEnd cpu.old end }
    requires cells { cpu.old.regs.f + count ≤ cpu.old.regs.s }
    ensures row { ForEach cpu.old (λ x plan s m t. (gone rest : List words.Word) (e : ModelEnd) → cells t ≡ gone ++ rest → length gone ≡ count → NoOriginals gone
        → IsEnd plan m cpu.old.core end e → EntersOrMeets x plan s m result cpu.old cpu.new (is_procedure_end e) (value_at_end (here m t next) rest e)) }
    ensures stays { result ≡ Done → StaysInSegment cpu.old cpu.new next }
{
    match end {
        End::Cell(at) => {
            let w = cpu.core.get(at);
            replace_cells(cpu, count, w, next)
        }
        End::Element { original, index } => put_element(cpu, count, original, index, next),
        End::Array(_) | End::Intrinsic(_) => Step::Fault(Fault::InvalidOperand),
        End::Proc(_) => Step::Call(PROCEDURE),
    }
}

/// Pushes the value to which a couple of 14 bits leads, and goes on at `next`. The faults of references, INVALID OPERAND
/// if it ends at an array or an intrinsic, STACK OVERFLOW. If an array is absent, nothing is changed.
#[inline(always)]
pub fn valc(cpu: &mut Cpu, couple: u16, next: Place) -> Step
    requires runs { RunsSome cpu.old }
    requires couple { couple < 2 ^ 14 }
    ensures row { ForEach cpu.old (λ x plan s m t. let h = here m t next in EntersOrMeets x plan s m result cpu.old cpu.new (enters_at (chase_of h (Name couple))) (rows.valc h couple)) }
    ensures stays { result ≡ Done → StaysInSegment cpu.old cpu.new next }
{
    match end_of(cpu, Irw { couple }.word()) {
        Ok(end) => value(cpu, 0, end, next),
        Err(fault) => Step::Fault(fault),
    }
}

/// Puts the value or the row copy to which the top cell leads in its place, and goes on at `next`. STACK UNDERFLOW, the
/// faults of references, INVALID OPERAND if it ends at an intrinsic. If an element's array is absent, nothing is
/// changed.
#[inline(always)]
pub fn load(cpu: &mut Cpu, next: Place) -> Step
    requires { RunsSome cpu.old }
    ensures row { ForEach cpu.old (λ x plan s m t. let h = here m t next in EntersOrMeets x plan s m result cpu.old cpu.new (enters_at (top_end h (cells_of h))) (rows.load h (cells_of h))) }
    ensures stays { result ≡ Done → StaysInSegment cpu.old cpu.new next }
{
    let w = match top_cell(cpu) {
        Ok(word) => word,
        Err(fault) => return Step::Fault(fault),
    };
    let end = match end_of(cpu, w) {
        Ok(end) => end,
        Err(fault) => return Step::Fault(fault),
    };
    match end {
        End::Array(original) => {
            let copy = row_copy(cpu, original);
            replace_cells(cpu, 1, copy, next)
        }
        _ => value(cpu, 1, end, next),
    }
}
