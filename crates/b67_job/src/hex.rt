//! Bytes as hexadecimal cards.

ghost use Rattle.std.specs.Prelude.{◌≡◌, ◌<◌, ◌++◌, OnOk};
ghost use Rattle.b67_model_text.specs.Hex.{hex_char, hex_text};
ghost use Rattle.b67_io.specs.Line.{ended};
ghost use Rattle.b67_job.specs.Verdicts.{hex_lines};

use b67_word::Bytes;
use std::alloc::AllocError;

/// The greatest number of bytes whose digits one card has.
const CARD: usize = 32;

fn hex_char(digit: u8) -> u8
    requires { digit < 16 }
    ensures { result ≡ hex_char digit }
{
    if digit < 10 {
        digit + b'0'
    } else {
        digit - 10 + b'a'
    }
}

fn put_digits(bytes: &[u8], into: &mut Bytes) -> Result<(), AllocError>
    ensures { OnOk result (into.new ≡ into.old ++ hex_text bytes.now) }
{
    for byte in bytes {
        into.push(hex_char(*byte / 16))?;
        into.push(hex_char(*byte % 16))?;
    }
    Ok(())
}

fn put_card(bytes: &[u8], into: &mut Bytes) -> Result<(), AllocError>
    ensures { OnOk result (into.new ≡ into.old ++ ended (hex_text bytes.now)) }
{
    put_digits(bytes, into)?;
    into.push(b'\n')?;
    Ok(())
}

/// Appends the hexadecimal cards of bytes, each on a line, 32 bytes to a card but for the last.
pub fn put_cards(bytes: &[u8], into: &mut Bytes) -> Result<(), AllocError>
    ensures { OnOk result (into.new ≡ into.old ++ hex_lines bytes.now) }
{
    let count = bytes.len().div_ceil(CARD);
    'card: for card in 0..count {
        let start = card * CARD;
        let end = bytes.len().min(start + CARD);
        put_card(&bytes[start..end], into)?;
    }
    Ok(())
}
