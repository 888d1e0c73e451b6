//! Activation records: marked, entered through a reference or in place, and left by EXIT and RETN, with the words that may not
//! be returned. Each call promises its row.
//!
//! For `b67_exec`: `mkst`, `entr`, `entr_near`, `accident`, `accident_on`, `exit`, `retn` (`row`). For intrinsics: `refusal`,
//! `is_critical`.
//!
//! Begin with `exit` and `retn`, each with the clause `row`.
#![tactic(auto)]

mod enter;
mod leave;
mod refusals;
mod returns;

pub use enter::{accident, accident_on, entr, entr_near, mkst};
pub use leave::{caller, exit, is_critical};
pub use refusals::refusal;
pub use returns::retn;
