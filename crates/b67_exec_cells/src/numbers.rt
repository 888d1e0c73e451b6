//! Operators on numbers and bits.

ghost use Rattle.std.specs.Prelude.{◌≡◌};
ghost use Rattle.b67_model.specs.Rows as rows;
ghost use Rattle.b67_arith.specs.Numerics.{of_numbers};
ghost use Rattle.b67_arith.specs.OnWords.{on_word, on_words};
ghost use Rattle.b67_stack.specs.declared.Step.TheVariants.{Done};
ghost use Rattle.b67_layout.specs.Meets.{here, Meets, RunsSome, ForEach};
ghost use Rattle.b67_exec_cells.specs.Meanings.{of_one, of_two};
ghost use Rattle.b67_exec_cells.specs.Tops.{StaysInSegment};

use crate::cells::{put_over, top_cell, two_cells};
use b67_arith::{
    Numeric, brst, bset, chsn, combine, idiv, insr, isol, land, leqv, lnot, lor, mult, rdiv, same,
};
use b67_stack::{Cpu, Step};
use b67_word::{Fault, Place, Word};

/// An operator of two operands that isn't `Numeric`: a product, a quotient, a remainder, or one on bits. Of INSR the highest
/// bit and the width of its field.
#[derive(Clone, Copy, Debug, PartialEq, Eq)]
pub enum Binary {
    Mult,
    Idiv,
    Rdiv,
    Land,
    Lor,
    Leqv,
    Same,
    Insr(u8, u8),
}

/// An operator of one operand. Of BSET and BRST the bit, of ISOL the highest bit and the width of its field.
#[derive(Clone, Copy, Debug, PartialEq, Eq)]
pub enum Unary {
    Chsn,
    Lnot,
    Bset(u8),
    Brst(u8),
    Isol(u8, u8),
}

#[inline(always)]
fn compute(op: Binary, a: Word, b: Word) -> Result<Word, Fault>
    ensures { result ≡ on_words (of_two op) a b }
{
    match op {
        Binary::Mult => mult(a, b),
        Binary::Idiv => idiv(a, b),
        Binary::Rdiv => rdiv(a, b),
        Binary::Land => land(a, b),
        Binary::Lor => lor(a, b),
        Binary::Leqv => leqv(a, b),
        Binary::Same => same(a, b),
        Binary::Insr(high, width) => insr(a, b, high, width),
    }
}

#[inline(always)]
fn change(op: Unary, a: Word) -> Result<Word, Fault>
    ensures { result ≡ on_word (of_one op) a }
{
    match op {
        Unary::Chsn => chsn(a),
        Unary::Lnot => lnot(a),
        Unary::Bset(n) => bset(a, n),
        Unary::Brst(n) => brst(a, n),
        Unary::Isol(high, width) => isol(a, high, width),
    }
}

/// Puts what an operator makes of the numbers of the two top cells in their place, and goes on at `next`. STACK UNDERFLOW if
/// there are fewer, then the operator's faults.
#[inline(always)]
pub fn on_numbers(cpu: &mut Cpu, op: Numeric, next: Place) -> Step
    requires { RunsSome cpu.old }
    ensures row { ForEach cpu.old (λ x plan s m t. Meets x plan s m result cpu.old cpu.new (rows.on_cells (rows.on_two (of_numbers op)) (here m t next))) }
{
    let (a, b) = match two_cells(cpu) {
        Ok(words) => words,
        Err(fault) => return Step::Fault(fault),
    };
    match combine(op, a, b) {
        Ok(number) => put_over(cpu, 2, number, next),
        Err(fault) => Step::Fault(fault),
    }
}

/// Puts what another operator makes of the two top cells in their place, and goes on at `next`. STACK UNDERFLOW if there
/// are fewer, then the operator's faults.
#[inline(never)]
pub fn on_two(cpu: &mut Cpu, op: Binary, next: Place) -> Step
    requires { RunsSome cpu.old }
    ensures row { ForEach cpu.old (λ x plan s m t. Meets x plan s m result cpu.old cpu.new (rows.on_cells (rows.on_two (of_two op)) (here m t next))) }
    ensures stays { result ≡ Done → StaysInSegment cpu.old cpu.new next }
{
    let (a, b) = match two_cells(cpu) {
        Ok(words) => words,
        Err(fault) => return Step::Fault(fault),
    };
    match compute(op, a, b) {
        Ok(w) => put_over(cpu, 2, w, next),
        Err(fault) => Step::Fault(fault),
    }
}

/// Puts what an operator makes of the top cell in its place, and goes on at `next`. STACK UNDERFLOW if there is
/// none, then the operator's faults.
#[inline(never)]
pub fn on_one(cpu: &mut Cpu, op: Unary, next: Place) -> Step
    requires { RunsSome cpu.old }
    ensures row { ForEach cpu.old (λ x plan s m t. Meets x plan s m result cpu.old cpu.new (rows.on_cells (rows.on_one (of_one op)) (here m t next))) }
    ensures stays { result ≡ Done → StaysInSegment cpu.old cpu.new next }
{
    let a = match top_cell(cpu) {
        Ok(word) => word,
        Err(fault) => return Step::Fault(fault),
    };
    match change(op, a) {
        Ok(w) => put_over(cpu, 1, w, next),
        Err(fault) => Step::Fault(fault),
    }
}
