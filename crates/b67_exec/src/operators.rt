//! Operators that are read whole, and the operator at the running place by itself.

ghost use Rattle.std.specs.Prelude.{◌≡◌, true};
ghost use Rattle.b67_model.specs.declared.operators.Op.TheVariants.{Plain};
ghost use Rattle.b67_model.specs.Rows.{reading_of, row, plain as plain_row};
ghost use Rattle.b67_model.specs.Called.{called};
ghost use Rattle.b67_stack.specs.declared.Step.TheVariants.{Done};
ghost use Rattle.b67_layout.specs.Meets.{here, RunsSome, ForEach};
ghost use Rattle.b67_exec_cells.specs.Tops.{StaysInSegment};
ghost use Rattle.b67_entry.specs.Procedures.{CallsOrMeets};
ghost use Rattle.b67_exec.specs.Operators.{ParametersHaveBits, is_on_top, is_read_whole, ReadsWhole, OperatorMeets};
ghost use Rattle.b67_exec.specs.Near.{MadeOrNot};

use crate::apart::is_done;
use crate::arms::{Made, operate};
use crate::reader::reader_here;
use b67_exec_cells::{
    Binary, Unary, branch_if, branch_to, on_one, on_two, present_segment, read_in,
};
use b67_model::{Code, Op};
use b67_stack::{Cpu, Step, What};
use b67_word::{Fault, Place};

/// An operator without parameters on the top cells, NOOP or NVLD, which stands behind a call, after which the task goes on at `next`.
#[inline(always)]
pub(crate) fn on_top(cpu: &mut Cpu, code: Code, next: Place) -> Step
    requires runs { RunsSome cpu.old }
    requires top { is_on_top code ≡ true }
    ensures row { ForEach cpu.old (λ x plan s m t. CallsOrMeets x plan s m result cpu.old cpu.new (called (Plain code) (here m t next)) (plain_row code (here m t next))) }
    ensures stays { result ≡ Done → StaysInSegment cpu.old cpu.new next }
{
    match code {
        Code::Mult => on_two(cpu, Binary::Mult, next),
        Code::Idiv => on_two(cpu, Binary::Idiv, next),
        Code::Rdiv => on_two(cpu, Binary::Rdiv, next),
        Code::Chsn => on_one(cpu, Unary::Chsn, next),
        Code::Land => on_two(cpu, Binary::Land, next),
        Code::Lor => on_two(cpu, Binary::Lor, next),
        Code::Leqv => on_two(cpu, Binary::Leqv, next),
        Code::Lnot => on_one(cpu, Unary::Lnot, next),
        Code::Same => on_two(cpu, Binary::Same, next),
        Code::Noop => branch_to(cpu, next),
        Code::Nvld => Step::Fault(Fault::InvalidOperator),
        _ => unreachable!(),
    }
}

/// An operator that is read whole, after which the task goes on at `next`.
#[inline(always)]
fn whole(cpu: &mut Cpu, op: Op, next: Place) -> Step
    requires runs { RunsSome cpu.old }
    requires whole { is_read_whole op ≡ true }
    requires parameters { ParametersHaveBits op }
    ensures row { ForEach cpu.old (λ x plan s m t. CallsOrMeets x plan s m result cpu.old cpu.new (called op (here m t next)) (row op (here m t next))) }
{
    match op {
        Op::Brun(target) => branch_to(cpu, target),
        Op::Brtr(target) => branch_if(cpu, true, target, next),
        Op::Brfl(target) => branch_if(cpu, false, target, next),
        Op::Bset(n) => on_one(cpu, Unary::Bset(n), next),
        Op::Brst(n) => on_one(cpu, Unary::Brst(n), next),
        Op::Isol(high, width) => on_one(cpu, Unary::Isol(high, width), next),
        Op::Insr(high, width) => on_two(cpu, Binary::Insr(high, width), next),
        _ => unreachable!(),
    }
}

/// BSET, BRST, ISOL, INSR or a branch at the running place, and whether it was made. If not, also if none is read
/// there, `why` is the reason.
#[inline(never)]
pub(crate) fn makes_whole(cpu: &mut Cpu, why: &mut Step) -> bool
    requires runs { RunsSome cpu.old }
    requires whole { ForEach cpu.old (λ x plan s m t. ReadsWhole (reading_of m.constants t)) }
    ensures { MadeOrNot cpu.old result cpu.new why.new }
{
    let code = match present_segment(cpu) {
        Some(code) => code,
        None => {
            *why = Step::Absent(What::Code(cpu.regs.segment));
            return false;
        }
    };
    match read_in(cpu, code) {
        Ok((op, next)) => {
            let step = whole(cpu, op, next);
            is_done(step, why)
        }
        Err(_) => {
            *why = Step::Fault(Fault::InvalidOperator);
            false
        }
    }
}

/// Executes the operator at the running place.
///
/// `Absent(Code(..))`, with nothing changed, exactly if the running segment is absent, and `Call(n)`, with nothing
/// changed, exactly if the operator calls intrinsic n. INVALID OPERATOR if no operator is read. Else `Done`,
/// `Absent(Array(..))`, `Fault` and `Ended` are by the operator's row. Unless the answer is `Done`, nothing changes.
#[inline(always)]
pub fn operator(cpu: &mut Cpu) -> Step
    requires { RunsSome cpu.old }
    ensures row { ForEach cpu.old (λ x plan s m t. OperatorMeets x plan s m t result cpu.old cpu.new) }
{
    let mut why = Step::Done;
    let mut reader = match reader_here(cpu, &mut why) {
        Some(reader) => reader,
        None => return why,
    };
    match operate(cpu, &mut reader, &mut why) {
        Made::Not => why,
        _ => Step::Done,
    }
}
