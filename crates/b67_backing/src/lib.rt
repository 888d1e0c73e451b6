//! Sectors in chains, and the devices that hold them: in memory, a file, and one that gives a number at every place
//! (`CrookedBacking`). It promises that a chain gives back the numbers that it was given, over a device that keeps its word,
//! and that no sector is in two chains.
//!
//! For paging: the clauses of the trait `Backing`; `Sectors::take`, `Sectors::give` (`row`, `chains`), `Sectors::save`,
//! `Sectors::store` (`stores`), `Sectors::restore` (`gives`, `words`), `Sectors::extend`.
//!
//! Begin with the trait `Backing` and its clauses, then `Sectors::take` with `row` and `chains`.
#![tactic(auto)]

mod access;
mod chaining;
mod copies;
mod crooked;
mod device;
mod file;
mod honest;
mod memory;
mod refusals;
mod sectors;
mod windows;

pub use access::RandomAccess;
pub use chaining::sectors_tell_chains;
pub use crooked::CrookedBacking;
pub use device::Backing;
pub use file::FileBacking;
pub use honest::HonestBacking;
pub use memory::MemoryBacking;
pub use refusals::SpaceFault;
pub use sectors::{Sectors, sectors_needed};
