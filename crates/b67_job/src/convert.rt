//! The command `convert`.

ghost use Rattle.std.specs.Prelude.{◌≡◌, ◌≤◌, IfOk};
ghost use Rattle.b67_codefile.specs.Spelling.{IsWithin, spelling};
ghost use Rattle.b67_model_text.specs.Deck.{bytes_in, first_number};
ghost use Rattle.b67_job.specs.Verdicts.{convert_verdict, converted_of, hex_lines};
ghost use Rattle.b67_job.specs.CommandMeets.{IsJudged, MeetsVerdict};

use crate::admission::{codefile_in, deck_fault};
use crate::admit_fault::AdmitFault;
use crate::asm::text_of;
use b67_card::{put_digits, read_hexadecimal};
use b67_codefile::{Codefile, convert};
use b67_io::Source;
use b67_model_text::Card;
use b67_word::Bytes;
use std::alloc::{AllocError, Global};

// The bytes whose digits cards have.
fn bytes_of(alloc: Global, cards: &[Card]) -> Result<Bytes, AllocError>
    ensures { IfOk result (λ bytes. bytes ≡ bytes_in cards.now) }
{
    let mut bytes = Bytes::new(alloc);
    for card in cards {
        put_digits(card.text.as_str().as_bytes(), &mut bytes)?;
    }
    Ok(bytes)
}

fn first_number(cards: &[Card]) -> u32
    ensures { result ≡ first_number cards.now }
{
    match cards {
        [] => 1,
        [card, ..] => card.number,
    }
}

fn second_version(alloc: Global, file: &Codefile) -> Result<Bytes, AllocError>
    requires { IsWithin file.now }
    ensures { IfOk result (λ text. text ≡ hex_lines (spelling (record file.now { version = 2 }))) }
{
    let second = convert(alloc, file)?;
    text_of(alloc, &second)
}

fn converted_text(alloc: Global, cards: &[Card]) -> Result<Bytes, AdmitFault>
    ensures { MeetsVerdict result (converted_of cards.now) }
{
    let bytes = match bytes_of(alloc, cards) {
        Ok(bytes) => bytes,
        Err(_) => return Err(AdmitFault::Memory),
    };
    match codefile_in(alloc, first_number(cards), bytes.as_slice()) {
        Ok(file) => match second_version(alloc, &file) {
            Ok(text) => Ok(text),
            Err(_) => Err(AdmitFault::Memory),
        },
        Err(fault) => Err(fault),
    }
}

/// What `convert` prints of a source of hexadecimal cards, read to its end: the hexadecimal cards of the codefile of
/// version 2 with the same segments and rows, or the first refusal. The file isn't verified. All memory is taken here, before
/// anything is printed.
pub fn convert_text<S: Source>(alloc: Global, source: &mut S) -> Result<Bytes, AdmitFault>
    ensures answer { IsJudged S.left S.faults source.old source.new convert_verdict result }
    ensures later { S.faults source.old ≤ S.faults source.new }
{
    match read_hexadecimal(alloc, source) {
        Ok(cards) => match converted_text(alloc, cards.as_slice()) {
            Ok(text) => Ok(text),
            Err(AdmitFault::Refused(refusal)) => Err(AdmitFault::Refused(refusal)),
            Err(_) => Err(AdmitFault::Memory),
        },
        Err(fault) => Err(deck_fault(fault)),
    }
}
