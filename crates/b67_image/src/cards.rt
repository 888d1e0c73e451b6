//! The cards of an image.

ghost use Rattle.std.specs.Prelude.{◌≡◌, ◌≤◌, ◌<◌, ◌+◌, ◌^◌, length};
ghost use Rattle.std.specs.Str.{bytes_eq};
ghost use Rattle.b67_image.specs.Text.{limit, first_card, last_card, is_digits, bytes_of};
ghost use Rattle.b67_image.specs.Cards.{IsFound, IsGathered, AreBytes};

use crate::fault::ImageFault;
use b67_card::{first_line, is_hex, put_digits, trimmed};
use b67_word::Bytes;
use std::alloc::Global;

/// The number of the image's first card and the text behind it.
#[derive(Drop)]
pub struct Begun<'t> {
    pub card: u32,
    pub rest: &'t [u8],
}

fn is_first(text: &[u8]) -> bool
    ensures { result ≡ bytes_eq text.now first_card }
{
    text == b"?IMAGE".as_slice()
}

fn is_last(text: &[u8]) -> bool
    ensures { result ≡ bytes_eq text.now last_card }
{
    text == b"?END".as_slice()
}

/// Finds the first card of the image. Else the number of the last card.
#[tactic(auto, unfolding(crate::specs::Text::found_from))]
fn find_first(text: &[u8]) -> Result<Begun<'_>, u32>
    requires { length text.now ≤ limit }
    ensures { IsFound result text.now }
{
    let mut number: u32 = 0;
    let mut last: u32 = 0;
    let mut rest = text;
    'lines: while !rest.is_empty() {
        let (line, after) = first_line(rest);
        let line = trimmed(line);
        number += 1;
        if !line.is_empty() {
            if is_first(line) {
                return Ok(Begun {
                    card: number,
                    rest: after,
                });
            }
            last = number;
        }
        rest = after;
    }
    Err(last)
}

/// A card of at most 64 hexadecimal digits.
fn is_digits(text: &[u8]) -> bool
    ensures { result ≡ is_digits text.now }
{
    text.len() <= 64 && is_hex(text)
}

/// The bytes of the cards up to the last card of the image; `card` is the number of the card before.
#[tactic(auto, using(crate::proofs::Gathers::regroup, crate::proofs::Gathers::none_yet), unfolding(crate::specs::Text::bytes_from))]
fn gather(alloc: Global, card: u32, text: &[u8]) -> Result<Bytes, ImageFault>
    requires { card + length text.now < 2 ^ 32 }
    ensures { IsGathered result card text.now }
{
    let mut bytes = Bytes::new(alloc);
    let mut number = card;
    let mut last = card;
    let mut rest = text;
    'lines: while !rest.is_empty() {
        let (line, after) = first_line(rest);
        let line = trimmed(line);
        number += 1;
        if !line.is_empty() {
            if is_last(line) {
                return Ok(bytes);
            }
            if !is_digits(line) {
                return Err(ImageFault::Card {
                    card: number,
                    reason: 2,
                });
            }
            match put_digits(line, &mut bytes) {
                Ok(()) => {}
                Err(_) => return Err(ImageFault::Memory),
            }
            last = number;
        }
        rest = after;
    }
    Err(ImageFault::Card {
        card: last,
        reason: 3,
    })
}

/// The number of the image's first card, and the bytes of the image.
#[derive(Drop)]
pub struct Spelled {
    pub card: u32,
    pub bytes: Bytes,
}

/// The bytes of a text's image.
pub fn bytes_of(alloc: Global, text: &[u8]) -> Result<Spelled, ImageFault>
    requires { length text.now ≤ limit }
    ensures { AreBytes result (bytes_of text.now) }
{
    match find_first(text) {
        Err(card) => Err(ImageFault::Card { card, reason: 1 }),
        Ok(begun) => match gather(alloc, begun.card, begun.rest) {
            Ok(bytes) => Ok(Spelled {
                card: begun.card,
                bytes,
            }),
            Err(fault) => Err(fault),
        },
    }
}
