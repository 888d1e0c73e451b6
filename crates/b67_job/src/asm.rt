//! The command `asm`.

ghost use Rattle.std.specs.Prelude.{◌≡◌, ◌≤◌, IfOk};
ghost use Rattle.b67_codefile.specs.Spelling.{IsWithin, spelling};
ghost use Rattle.b67_job.specs.Verdicts.{asm_verdict, asm_of, hex_lines};
ghost use Rattle.b67_job.specs.CommandMeets.{IsJudged, MeetsVerdict};

use crate::admission::deck_fault;
use crate::admit_fault::AdmitFault;
use crate::hex::put_cards;
use crate::refusal::Refusal;
use b67_asm::{AsmFault, assemble};
use b67_card::read_cards;
use b67_codefile::{Codefile, write};
use b67_io::Source;
use b67_model_text::Cards;
use b67_word::Bytes;
use std::alloc::{AllocError, Global};

/// The hexadecimal cards of a codefile.
pub fn text_of(alloc: Global, file: &Codefile) -> Result<Bytes, AllocError>
    requires { IsWithin file.now }
    ensures { IfOk result (λ text. text ≡ hex_lines (spelling file.now)) }
{
    let bytes = write(alloc, file)?;
    let mut text = Bytes::new(alloc);
    put_cards(bytes.as_slice(), &mut text)?;
    Ok(text)
}

fn assembled_text(alloc: Global, cards: &Cards) -> Result<Bytes, AdmitFault>
    ensures { MeetsVerdict result (asm_of cards.now) }
{
    match assemble(alloc, cards) {
        Ok(file) => match text_of(alloc, &file) {
            Ok(text) => Ok(text),
            Err(_) => Err(AdmitFault::Memory),
        },
        Err(AsmFault::Card { card, reason }) => {
            Err(AdmitFault::Refused(Refusal::Asm { card, reason }))
        }
        Err(AsmFault::Memory) => Err(AdmitFault::Memory),
    }
}

/// What `asm` prints of a source of assembly cards, read to its end: the codefile's hexadecimal cards, or the first refusal.
/// All memory is taken here, before anything is printed.
pub fn asm_text<S: Source>(alloc: Global, source: &mut S) -> Result<Bytes, AdmitFault>
    ensures answer { IsJudged S.left S.faults source.old source.new asm_verdict result }
    ensures later { S.faults source.old ≤ S.faults source.new }
{
    match read_cards(alloc, source) {
        Ok(cards) => match assembled_text(alloc, &cards) {
            Ok(text) => Ok(text),
            Err(AdmitFault::Refused(refusal)) => Err(AdmitFault::Refused(refusal)),
            Err(_) => Err(AdmitFault::Memory),
        },
        Err(fault) => Err(deck_fault(fault)),
    }
}
