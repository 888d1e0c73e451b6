//! Laws of the model. Order: every row, every whole step and every run keeps a state in order, over admitted programs and, but
//! for places, over any code; so the opening of an admitted deck is in order with all that follows. Runs: who made each word,
//! where INVALID OPERATOR occurs, jobs apart, chains followed to their ends, identities that only grow, the choice of a turn.
//!
//! For the crates that step: `each_row_keeps_order`, `rows_keep_order`, `steps_keep_order`, `runs_stay_in_order`, with
//! `rows_keep_order_but_places` and `steps_keep_order_but_places`; `couples_end_in_order`, `rows_keep_profiles`,
//! `opening_is_in_order`, `starts_are_segments`, `places_have_operators`.
//!
//! For whoever asks what a run can't do. Words: `each_row_makes_its_words`, `runs_make_their_words`,
//! `sessions_keep_or_make_their_words`, `openings_are_made_by_the_loader`. NVLD: `invalid_operator_is_nvld`,
//! `invalid_operator_exactly_at_nvld`, `sessions_fault_exactly_at_nvld`, `runs_fault_exactly_at_nvld`,
//! `runs_end_exactly_at_nvld`. Jobs and tasks: `jobs_print_apart`, `jobs_stay_apart`, `chase_follows_chains`,
//! `identities_grow_by_steps`, `chosen_tasks_are_ready`, `choice_ignores_numbers`, `first_parts_keep_order`,
//! `last_parts_restore_order`.
//!
//! Begin with `runs_stay_in_order`, then `jobs_print_apart` and `runs_make_their_words`.
#![tactic(auto)]

mod apart;
mod chains;
mod couples_end;
mod faults;
mod keeping;
mod opening;
mod profiles;
mod runs;
mod steps;
mod turns;
mod weaker;
mod whole_runs;
mod words;

pub use apart::{jobs_print_apart, jobs_stay_apart};
pub use chains::{chase_follows_chains, identities_grow_by_steps};
pub use couples_end::couples_end_in_order;
pub use faults::invalid_operator_is_nvld;
pub use keeping::each_row_keeps_order;
pub use opening::opening_is_in_order;
pub use profiles::rows_keep_profiles;
pub use runs::runs_stay_in_order;
pub use steps::{
    places_have_operators, rows_keep_order, rows_keep_order_but_places, steps_keep_order,
    steps_keep_order_but_places,
};
pub use turns::{
    choice_ignores_numbers, chosen_tasks_are_ready, first_parts_keep_order,
    last_parts_restore_order,
};
pub use weaker::starts_are_segments;
pub use whole_runs::{
    invalid_operator_exactly_at_nvld, openings_are_made_by_the_loader, runs_end_exactly_at_nvld,
    runs_fault_exactly_at_nvld, runs_make_their_words, sessions_fault_exactly_at_nvld,
    sessions_keep_or_make_their_words,
};
pub use words::each_row_makes_its_words;
