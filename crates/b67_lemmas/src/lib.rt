//! Lists, sums and look-ups: definitions and lemmas that name no part of the machine.
//!
//! For proofs of all crates.
//!
//! Begin with `specs/Lists`.
#![tactic(auto)]
