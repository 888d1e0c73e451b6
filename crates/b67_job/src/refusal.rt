//! Why a deck, cards or pairs are refused.

use b67_word::Place;

/// The first refusal of a deck, of cards or of pairs.
#[derive(Clone, Copy, Debug, PartialEq, Eq)]
pub enum Refusal {
    /// A card of the deck breaks this reason of the deck's grammar.
    Deck {
        card: u32,
        reason: u8,
    },
    /// A card of an `?ASM` body breaks this reason of the assembler.
    Asm {
        card: u32,
        reason: u8,
    },
    /// The bytes of the body of this `?HEX` card, or of the cards from this one on, are no codefile, from this byte on, counted
    /// from 0.
    Codefile {
        card: u32,
        reason: u8,
        byte: usize,
    },
    /// The program of this `?JOB` card breaks this rule of the loader, in this segment at this place.
    Load {
        card: u32,
        reason: u8,
        segment: u8,
        place: Place,
    },
    /// This pair, counted from 1, breaks this reason of binding.
    Bind {
        pair: u32,
        reason: u8,
    },
}
