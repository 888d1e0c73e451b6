//! Where the copies of arrays lie in a machine that represents a session: in the parts of the stacks in which `b67_overlay`
//! searches them.
//!
//! For paging: the law `spans_hold_copies`; lemmas `copies_of`, `can_page`.
//!
//! Begin with the law `spans_hold_copies`.
#![tactic(auto)]

mod holding;

pub use holding::spans_hold_copies;
