//! The dump of a machine: the activation records of its live tasks, as text for people. It promises the text of the session
//! that the machine shows, so paging doesn't change it.
//!
//! For `b67_job`: `analyse` (`whole`, `part`, `cause`). Laws: `dumps_are_shown`, `dumps_are_one`, `walks_are_dumps`.
//!
//! Begin with `analyse`: `whole`, `part`, `cause`.
#![tactic(auto)]

mod landmarks;
pub mod laws;
mod lines;
mod order;
mod printing;
pub mod rows;
mod walking;

pub use printing::analyse;
