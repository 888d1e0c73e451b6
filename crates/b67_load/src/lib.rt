//! Admitting programs, by the eleven rules of the loader, and installing them: their dictionaries in core, their code and data
//! rows in sectors. It promises that a program is admitted exactly if the model admits it, and else the least rule that it
//! breaks; that core and sectors then hold the program, which sectors are left, and what a refusal means.
//!
//! For `b67_job` and `b67_bind`: `verify` (`exact`, `least`, `kept`). For `b67_session`: `install` (`installed`, `spares`,
//! `refusal`, `device`).
//!
//! Begin with `verify`: `exact`, `least`; then `install`: `installed`, `refusal`.
#![tactic(auto)]

mod admission;
mod admitted;
mod entry;
mod fault;
mod installing;
mod listing;
mod rules;

pub use admission::verify;
pub use admitted::Admitted;
pub use entry::{Entry, entries_of};
pub use fault::LoadFault;
pub use installing::install;
pub use rules::{couple_bits, may_begin_at, proc_bits};
