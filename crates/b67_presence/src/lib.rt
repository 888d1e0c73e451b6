//! Paging in: the running segment or the array that is touched is brought into core, and other areas are evicted if no hole has
//! room. It promises that the session stays, that an object comes in if core has the step's need, and that too few free sectors
//! are answered exactly.
//!
//! For `b67_session`: `bring` (`row`, `unchanged`, `keeps`, `tasks`, `cause`, `device`); below it `bring_code`, `bring_data`
//! (`row`, `hole`), `page_in` (`row`, `unchanged`). Laws: `short_is_full`, `sessions_can_page`.
//!
//! Begin with `bring`: `row`, `unchanged`.
#![tactic(auto)]

mod can_page;
mod full;
mod objects;
mod paging;
mod wanting;
mod way;

pub use can_page::sessions_can_page;
pub use full::short_is_full;
pub use objects::{bring_code, bring_data};
pub use paging::{AbsentObject, PagingRefusal, page_in};
pub use wanting::bring;
