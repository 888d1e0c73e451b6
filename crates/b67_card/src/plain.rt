//! Cards that are no commands: they add their text to the newest job.

ghost use Rattle.std.specs.Prelude.{◌≡◌, ◌<◌, ◌≤◌, ◌^◌, length};
ghost use Rattle.b67_model_text.specs.Deck.{plain_cards};
ghost use Rattle.b67_card.specs.Reading.{IsRead};
ghost use Rattle.b67_card.specs.Meaning.{IsMeaning};

use crate::command::{Refused, plain};
use crate::fault::DeckFault;
use crate::line::{first_line, trimmed};
use crate::reading::{LIMIT, read_all};
use b67_io::Source;
use b67_model_text::{Card, Cards};
use std::alloc::Global;

// The cards of a text that is within the limit.
fn plain_cards(alloc: Global, text: &[u8]) -> Result<Cards, DeckFault>
    requires { length text.now ≤ LIMIT }
    ensures { IsMeaning result (plain_cards text.now) }
{
    let mut cards = Cards::new(alloc);
    let mut number: u32 = 0;
    let mut rest = text;
    while !rest.is_empty() {
        let (line, after) = first_line(rest);
        let line = trimmed(line);
        number += 1;
        if !line.is_empty() {
            match plain(line) {
                Ok(text) => cards.push(Card { number, text })?,
                Err(Refused::Reason(reason)) => {
                    return Err(DeckFault::Card {
                        card: number,
                        reason,
                    });
                }
                Err(Refused::Memory) => return Err(DeckFault::Memory),
            }
        }
        rest = after;
    }
    Ok(cards)
}

/// Reads the cards of a source for the assembler alone, up to its end or to the first byte past the limit of
/// 4,194,304. Reasons 1, 2 and 14 alone are looked for.
pub fn read_cards<S: Source>(alloc: Global, source: &mut S) -> Result<Cards, DeckFault>
    ensures answer { IsRead S.left S.faults source.old source.new plain_cards result }
    ensures later { S.faults source.old ≤ S.faults source.new }
{
    match read_all(alloc, source) {
        Ok(bytes) => plain_cards(alloc, bytes.as_slice()),
        Err(fault) => Err(DeckFault::from(fault)),
    }
}
