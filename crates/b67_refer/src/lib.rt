//! The running environment, and where references lead: the display rebuilt, the cells that couples and references name, chains
//! followed to their ends.
//!
//! For all operators that follow a word: `cell_of`, `cell_at`, `chase`, `chase_from`, `element_of`, `owner`, `enclosure_of`,
//! `enclosure_at`; short ways, which call nothing: `near_place` (`names`), `near_end` (`leads`), `stuffed_operand`. For entries:
//! `rebuild`, `rebuild_known`, `rebuild_entered`.
//!
//! Begin with `chase`, which follows a reference to its end.
#![tactic(auto)]

mod activation;
mod cells;
mod couples;
mod ends;
mod environment;
mod spots;
mod stuffed;

pub use activation::{Activation, Enclosure, enclosure_at, enclosure_of};
pub use couples::{cell_of, couple_at, near_place};
pub use ends::{End, chase, chase_from, element_of, near_end, owner};
pub use environment::{rebuild, rebuild_entered, rebuild_known};
pub use spots::{Spot, spot_of};
pub use stuffed::{cell_at, stuffed_operand};
