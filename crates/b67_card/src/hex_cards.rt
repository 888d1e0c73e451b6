//! The hexadecimal cards of a source.

ghost use Rattle.std.specs.Prelude.{◌≡◌, ◌<◌, ◌≤◌, ◌^◌, length};
ghost use Rattle.b67_model_text.specs.Deck.{hexadecimal, hexadecimal_cards};
ghost use Rattle.b67_card.specs.Reading.{IsRead};
ghost use Rattle.b67_card.specs.Meaning.{IsMeaning};
ghost use Rattle.b67_card.specs.Said.{IsPlain};

use crate::command::{Refused, plain};
use crate::fault::DeckFault;
use crate::hex::is_hex;
use crate::line::{first_line, trimmed};
use crate::reading::{LIMIT, read_all};
use b67_io::Source;
use b67_model_text::{Card, Cards, Text};
use std::alloc::Global;

// The text of a hexadecimal card, or the lowest reason of 1, 2 and 11 why it is refused.
fn hexadecimal(text: &[u8]) -> Result<Text, Refused>
    ensures { IsPlain result text.now (hexadecimal text.now) }
{
    match plain(text) {
        Ok(card) => {
            if is_hex(text) {
                Ok(card)
            } else {
                Err(Refused::Reason(11))
            }
        }
        Err(refused) => Err(refused),
    }
}

// The cards of a text that is within the limit.
fn hexadecimal_cards(alloc: Global, text: &[u8]) -> Result<Cards, DeckFault>
    requires { length text.now ≤ LIMIT }
    ensures { IsMeaning result (hexadecimal_cards text.now) }
{
    let mut cards = Cards::new(alloc);
    let mut number: u32 = 0;
    let mut rest = text;
    while !rest.is_empty() {
        let (line, after) = first_line(rest);
        let line = trimmed(line);
        number += 1;
        if !line.is_empty() {
            match hexadecimal(line) {
                Ok(text) => cards.push(Card { number, text })?,
                Err(Refused::Reason(reason)) => {
                    return Err(DeckFault::Card {
                        card: number,
                        reason,
                    });
                }
                Err(Refused::Memory) => return Err(DeckFault::Memory),
            }
        }
        rest = after;
    }
    Ok(cards)
}

/// Reads the hexadecimal cards of a source that has no others, up to its end or to the first byte past the limit of
/// 4,194,304. Reasons 1, 2, 11 and 14 alone are looked for.
pub fn read_hexadecimal<S: Source>(alloc: Global, source: &mut S) -> Result<Cards, DeckFault>
    ensures answer { IsRead S.left S.faults source.old source.new hexadecimal_cards result }
    ensures later { S.faults source.old ≤ S.faults source.new }
{
    match read_all(alloc, source) {
        Ok(bytes) => hexadecimal_cards(alloc, bytes.as_slice()),
        Err(fault) => Err(DeckFault::from(fault)),
    }
}
