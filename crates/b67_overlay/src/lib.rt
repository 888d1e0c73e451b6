//! Paging out: what an area holds goes to sectors, its original and its copies become absent, and the area is given back. It
//! promises that the session stays; copies are searched only in the parts of the stacks where they can be.
//!
//! For `b67_presence`: `overlay`, `discard` (`stands`). For `b67_mcp`: `claim`. For the end of arrays: `search_copies`
//! (`searched`), `search_span`. What paging asks of a machine is the definition `MachineCanPage`.
//!
//! Begin with `overlay`, whose clause `row` says what an evicted area leaves, and `search_span`.
#![tactic(auto)]

mod claims;
mod overlays;
mod search;
mod spans;
mod writing;

pub use claims::claim;
pub use overlays::{discard, overlay};
pub use search::{search_copies, stack_top};
pub use spans::{Span, search_span};
