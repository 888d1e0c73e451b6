//! Bytes that go out as hexadecimal cards, 32 to a card, and 64 cards at once: a card by itself would be a call of the system each.

ghost use Rattle.std.specs.Prelude.{◌≡◌, ◌≤◌, ◌<◌, [], ◌∷◌, length, OnOk, OnErr};
ghost use Rattle.b67_io.specs.Line.{ended};
ghost use Rattle.b67_io.specs.Told.{Took, TookPart};
ghost use Rattle.b67_io.specs.Causes.{HasCause};
ghost use Rattle.b67_model_text.specs.Hex.{hex_char, hex_text};
ghost use Rattle.b67_image.specs.Punching.{Punched};
ghost use Rattle.b67_image.specs.Text.{card_lines};

use arrayvec::ArrayVec;
use b67_io::Sink;
use b67_word::Failed;
use std::marker::Model;

/// The bytes that don't fill 64 cards yet.
#[derive(Drop)]
pub struct Hand {
    bytes: ArrayVec<u8, 2048>,
}

impl Model for Hand {
    ghost use Rattle.std.specs.Prelude.{◌<◌, List, ℕ, length};

    ghost Value = { List ℕ };

    ghost view = { λ h. h.bytes.items };

    ghost invariant = { λ h. length h.bytes.items < 2048 };
}

/// Puts a text.
pub fn put_text<K: Sink>(sink: &mut K, text: &[u8]) -> Result<(), Failed>
    ensures whole { OnOk result (Took K.taken sink.old sink.new text.now) }
    ensures part { OnErr result (TookPart K.taken sink.old sink.new text.now) }
    ensures cause { HasCause K.faults sink.old sink.new result }
{
    let mut done = 0;
    'put: while done < text.len() {
        done += sink.put(&text[done..])?;
    }
    Ok(())
}

fn hex_char(digit: u8) -> u8
    requires { digit < 16 }
    ensures { result ≡ hex_char digit }
{
    if digit < 10 {
        digit + b'0'
    } else {
        digit - 10 + b'a'
    }
}

/// The card of at most 32 bytes, with the end of its line.
fn card_of(bytes: &[u8]) -> ArrayVec<u8, 65>
    requires { length bytes.now ≤ 32 }
    ensures { result.items ≡ ended (hex_text bytes.now) }
{
    let mut card = ArrayVec::<u8, 65>::new();
    'digits: for byte in bytes {
        card.push(hex_char(*byte / 16));
        card.push(hex_char(*byte % 16));
    }
    card.push(b'\n');
    card
}

/// The cards of the bytes that 64 cards hold, each with the end of its line.
fn cards_of(bytes: &[u8]) -> ArrayVec<u8, 4160>
    requires { length bytes.now ≤ 2048 }
    ensures { result.items ≡ card_lines bytes.now }
{
    let mut cards = ArrayVec::<u8, 4160>::new();
    let mut left = bytes;
    'cards: while !left.is_empty() {
        let (first, more) = left.split_at(left.len().min(32));
        let _ = cards.try_extend_from_slice(card_of(first).as_slice());
        left = more;
    }
    cards
}

impl Hand {
    /// No bytes in hand.
    pub fn new() -> Self
        ensures { result ≡ [] }
    {
        Hand {
            bytes: ArrayVec::new(),
        }
    }

    /// Takes in a byte, and prints the 64 cards that it fills.
    fn punch_one<K: Sink>(&mut self, sink: &mut K, byte: u8) -> Result<(), Failed>
        ensures row { Punched K.taken sink.old sink.new self.old self.new result (byte ∷ []) }
        ensures cause { HasCause K.faults sink.old sink.new result }
    {
        self.bytes.push(byte);
        if self.bytes.len() < 2048 {
            return Ok(());
        }
        let cards = cards_of(self.bytes.as_slice());
        self.bytes = ArrayVec::new();
        put_text(sink, cards.as_slice())
    }

    /// How many bytes are in hand.
    pub fn len(&self) -> usize
        ensures len { result ≡ length self.now }
        ensures small { result < 2048 }
    {
        self.bytes.len()
    }

    /// Takes in bytes, and prints what they fill, 64 cards at once.
    pub fn punch<K: Sink>(&mut self, sink: &mut K, bytes: &[u8]) -> Result<(), Failed>
        ensures row { Punched K.taken sink.old sink.new self.old self.new result bytes.now }
        ensures cause { HasCause K.faults sink.old sink.new result }
    {
        let _held = self.len();
        'bytes: for byte in bytes {
            self.punch_one(sink, *byte)?;
        }
        Ok(())
    }

    /// Prints the cards of the bytes in hand.
    pub fn finish<K: Sink>(&mut self, sink: &mut K) -> Result<(), Failed>
        ensures whole { OnOk result (Took K.taken sink.old sink.new (card_lines self.old)) }
        ensures part { OnErr result (TookPart K.taken sink.old sink.new (card_lines self.old)) }
        ensures cause { HasCause K.faults sink.old sink.new result }
    {
        put_text(sink, cards_of(self.bytes.as_slice()).as_slice())
    }
}
