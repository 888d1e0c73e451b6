//! The deck of an exercise, drawn from a seed. It promises the text of the definition, which is a deck that is read again.
//!
//! For `b67_job`: `deck_of`. Laws: `texts_have_decks`, `seed_one`.
//!
//! Begin with `deck_of`, then the law `texts_have_decks`.
#![tactic(auto)]

mod deck;
mod draws;
mod laws;
mod stores;
mod text;

pub use deck::deck_of;
pub use laws::{seed_one, texts_have_decks};
pub use stores::Store;
