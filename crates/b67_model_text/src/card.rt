//! The cards of a text.

use crate::text::Text;
use b67_word::List;

/// A card: its number, from 1 on, and its text without the spaces at the end.
#[derive(Drop)]
pub struct Card {
    pub number: u32,
    pub text: Text,
}

/// A list of cards.
pub type Cards = List<Card>;
