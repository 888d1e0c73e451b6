//! Admitted programs of a deck.

use b67_load::Admitted;
use b67_model_text::Deck;
use b67_word::List;

/// A list of admitted programs, seen by contracts as the list of their files.
pub type Programs = List<Admitted>;

/// A deck with an admitted program for each of its jobs, in job order.
#[derive(Drop)]
pub struct Loaded {
    pub deck: Deck,
    pub programs: Programs,
}
