//! What an operator reads and writes: the cells on top, the elements of arrays, the code at the running place; and the
//! operators on the top cells alone. Each promises its row.
//!
//! For all operators: `top_cell` (`cell`), `two_cells` (`cells`), `drop_cells`, `replace_cells` (`row`), `element`, `row_copy`,
//! `present_segment`, `read_in`. For `b67_exec` the operators themselves (`row`): `on_numbers`, `on_one`, `on_two`,
//! `literal`, `namc`, `mpcw`, `dlet`, `exch`, `dupl`, `branch_to`, `branch_if`.
//!
//! Begin with `top_cell` (`cell`) and `replace_cells` (`row`).
#![tactic(auto)]

mod branches;
mod cells;
mod code;
mod elements;
mod moves;
mod numbers;
mod procedures;
mod pushes;

pub use branches::{branch_if, branch_to};
pub use cells::{count_cells, drop_cells, put_over, replace_cells, top_cell, two_cells};
pub use code::{descriptor, present_segment, read_in};
pub use elements::{array_descriptor, element, row_copy};
pub use moves::{dlet, dupl, exch};
pub use numbers::{Binary, Unary, on_numbers, on_one, on_two};
pub use procedures::mpcw;
pub use pushes::{literal, namc};
