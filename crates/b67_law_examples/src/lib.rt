//! Worked examples, as laws whose clauses the checker computes: some 130 law functions. Of runs of the machine: what decks
//! print, the core and the sectors that they need, and which programs the loader refuses. Of cards: the jobs and the parameters
//! of decks, the programs of assemblies, and which card is refused for which reason. And for any cards: what is assembled is
//! what the machine reads, a label is the place of its card's operator, and a segment's entries are the places that its ENTRY
//! cards name.
//!
//! For whoever doubts a definition: each example says in a name what comes of a program that is named beside it. For whoever
//! asks whether a listing tells the program: `operators_are_read`, `cards_are_read`.
//!
//! Begin with `sum_is_printed` and `operators_are_read`.
#![tactic(auto, unfolding(b67_model::specs::Rows::step, b67_model::specs::Endings::stepped, b67_model::specs::Alone::step_of, b67_model::specs::Run::next))]

pub mod assembly;
pub mod choices;
pub mod decks;
pub mod lengths;
pub mod listing;
pub mod long;
pub mod refusals;
pub mod runs;
pub mod sizes;
pub mod tasks;
pub mod texts;
