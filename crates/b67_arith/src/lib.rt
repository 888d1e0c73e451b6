//! Arithmetic, comparisons and operations on bits, each on words of the stack. A word that isn't an operand is INVALID OPERAND,
//! for all words before EXPONENT for an operand that isn't whole.
//!
//! For `b67_exec_cells`: each call is its row for all words or pairs of words.
//!
//! Begin with `combine`: each call is its row for all pairs of words.
#![tactic(auto)]

mod bits;
mod numbers;
mod numerics;
mod operands;

pub use bits::{brst, bset, insr, isol, land, leqv, lnot, lor, same};
pub use numbers::{chsn, idiv, mult, rdiv};
pub use numerics::{Numeric, add, combine, equl, greq, grtr, less, lseq, neql, subt};
