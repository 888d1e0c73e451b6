//! References followed by operators: LOAD and VALC, INDX and NXLV, STFF, STOD and STON. Each promises its row; a procedure at
//! the end of a reference is handed on.
//!
//! For `b67_exec`: `load`, `value`, `indx`, `nxlv`, `stff`, `store` (`row`), and ways without a search: `own_item`, `indx_at`,
//! `nxlv_at`, `stff_named`, `store_near`, `store_from`. By themselves: `valc`, `stod`, `ston` (`row`).
//!
//! Begin with `valc`, whose clause `row` is the rule of VALC.
#![tactic(auto)]

mod indexing;
mod loading;
mod own;
mod storing;
mod stuffing;

pub use b67_exec_cells::namc;
pub use indexing::{indx, indx_at, nxlv, nxlv_at, own_item};
pub use loading::{load, valc, value};
pub use own::store_near;
pub use storing::{stod, ston, store, store_from};
pub use stuffing::{stff, stff_named};
