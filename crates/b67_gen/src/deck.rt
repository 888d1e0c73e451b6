//! The deck of an exercise.

ghost use Rattle.std.specs.Prelude.{◌≡◌, ◌≤◌, ◌<◌, ◌^◌, IfOk, Ok};
ghost use Rattle.b67_model_text.specs.Deck.{deck_of};
ghost use Rattle.b67_gen.specs.Generated.{generated_text};

use crate::draws::Draws;
use crate::stores::{draw_lengths, draw_stores};
use crate::text::text_over;
use b67_card::read_deck;
use b67_io::FreeTape;
use b67_model_text::Deck;
use b67_word::Bytes;
use std::alloc::{AllocError, Global};

// The text of the deck.
fn generated_text(alloc: Global, seed: u32, size: u32) -> Result<Bytes, AllocError>
    requires seed { seed < 2 ^ 31 }
    requires low { 1 ≤ size }
    requires high { size ≤ 500 }
    ensures { IfOk result (λ text. text ≡ generated_text seed size) }
{
    let mut draws = Draws::new(seed);
    let arrays = draw_lengths(alloc, &mut draws, size)?;
    let stores = draw_stores(alloc, &mut draws, arrays.as_slice(), 4 * size)?;
    text_over(alloc, arrays.as_slice(), stores.as_slice())
}

/// The deck of an exercise of `size` arrays, from 1 to 500, that is drawn from `seed`, which is at most 2,147,483,647.
///
/// The lengths of the arrays are drawn, from 50 to 249 words, and then 4 × `size` stores of values below 1,000. Its one job
/// makes the arrays and the stores, and prints the sum of the elements, one for each store. The deck is the one that a reader
/// of its text gives, so its cards are numbered as there.
pub fn deck_of(alloc: Global, seed: u32, size: u32) -> Result<Deck, AllocError>
    requires seed { seed ≤ 2147483647 }
    requires low { 1 ≤ size }
    requires high { size ≤ 500 }
    ensures { IfOk result (λ deck. deck_of (generated_text seed size) ≡ Ok deck) }
{
    let text = generated_text(alloc, seed, size)?;
    let mut tape = FreeTape::new(text, 512);
    match read_deck(alloc, &mut tape) {
        Ok(deck) => Ok(deck),
        // No card of the text is refused, as `texts_have_decks` says, and the tape never fails.
        Err(_) => Err(AllocError),
    }
}
