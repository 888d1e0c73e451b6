//! The operator at the running place, by one executor. It promises that what an operator answers and leaves is the model's row;
//! if it isn't made nothing has changed, and `why` is the reason.
//!
//! For `b67_session`: `reader_here` (`why`) and `operate` (`Makes`), the loop's two calls. By itself: `operator` (`row`).
//!
//! Begin with `operate`: its arms are by the first syllable.
#![tactic(auto)]

mod apart;
mod arms;
mod entering;
mod entering_under;
mod firsts;
mod operators;
mod reader;
mod short_ways;

pub use apart::Went;
pub use arms::{Made, operate};
pub use operators::operator;
pub use reader::{Reader, reader_here};
