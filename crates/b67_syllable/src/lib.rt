//! Operators as the syllables of code. It promises the operator that the model reads at a place, and that what is encoded is
//! read again.
//!
//! For `b67_exec_cells` and the loader: `decode` (`exact`, `segment`), `decode_in_segment`. For the assembler: `encode`
//! (`syllables`, `literal`, `again`).
//!
//! Begin with `decode` (`exact`) and `encode` (`again`).
#![tactic(auto)]

mod decoding;
mod encoding;
mod kinds;

pub use b67_model::{Code, Op, Undecodable};
pub use decoding::{decode, decode_in_segment};
pub use encoding::encode;
