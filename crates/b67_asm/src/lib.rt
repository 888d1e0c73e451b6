//! The assembler: cards are read, each into its statement with numbers and names, and statements are laid out. It promises the
//! codefile that cards denote, or the first refused card with its reason.
//!
//! For `b67_job`: `assemble`. How an assembler reads, card by card in one pass, is told by definitions of its own; the law of
//! both is `content_is` in `proofs`. Statements are those of the definition (`lines_of`).
//!
//! Begin with `assemble`, and with `assembled` of the model, which it answers.
#![tactic(auto)]

mod assembly;
mod block;
mod cards;
mod fault;
mod lay;
mod names;
mod number;
mod operator;
mod row;
mod segment;
mod statement;

pub use assembly::assemble;
pub use fault::AsmFault;
