//! Reading, assembling and admitting.

ghost use Rattle.b67_codefile.specs.Meaning as meaning;
ghost use Rattle.std.specs.Prelude.{◌≡◌, ◌≤◌, IfOk, length, map};
ghost use Rattle.std.specs.List.{AllByRecursion};
ghost use Rattle.b67_codefile.specs.Spelling.{IsWithin};
ghost use Rattle.b67_codefile.specs.Reading.{file_of};
ghost use Rattle.b67_job.specs.Admitting.{codefile_in, program_in, programs, by_rules, first_broken_rule, admitted, prepared, with_programs};
ghost use Rattle.b67_job.specs.Verdicts.{file_in};
ghost use Rattle.b67_job.specs.Meets.{MeetsAnswer, LoadsDeck, prepared_of, of_deck_fault};

use crate::admit_fault::AdmitFault;
use crate::programs::{Loaded, Programs};
use crate::refusal::Refusal;
use b67_asm::{AsmFault, assemble};
use b67_card::{DeckFault, read_deck};
use b67_codefile::{BadFile, Codefile, read};
use b67_io::Source;
use b67_load::{Admitted, LoadFault, verify};
use b67_model_text::{Body, Cards, Deck, Job};
use std::alloc::Global;
use std::collections::VecDeque;

/// The codefile of bytes, or the reason why they are none, by a card.
pub fn codefile_in(alloc: Global, card: u32, bytes: &[u8]) -> Result<Codefile, AdmitFault>
    ensures within { IfOk result IsWithin }
    ensures answer { MeetsAnswer (λ file. file) result (codefile_in card (file_of bytes.now)) }
{
    match read(alloc, bytes) {
        Ok(file) => Ok(file),
        Err(BadFile::Short { at }) => Err(refused(card, 1, at)),
        Err(BadFile::BadHeader { at }) => Err(refused(card, 2, at)),
        Err(BadFile::BadWord { at }) => Err(refused(card, 3, at)),
        Err(BadFile::TooMany { at }) => Err(refused(card, 4, at)),
        Err(BadFile::Trailing { at }) => Err(refused(card, 5, at)),
        Err(BadFile::BadEntry { at }) => Err(refused(card, 6, at)),
        Err(BadFile::Memory) => Err(AdmitFault::Memory),
    }
}

fn refused(card: u32, reason: u8, byte: usize) -> AdmitFault
    ensures { result ≡ AdmitFault.Refused (Refusal.Codefile card reason byte) }
{
    AdmitFault::Refused(Refusal::Codefile { card, reason, byte })
}

/// A program is admitted exactly if it breaks none of the loader's rules. The card is that of its job.
pub fn admitted_one(alloc: Global, card: u32, file: Codefile) -> Result<Admitted, AdmitFault>
    requires { IsWithin file }
    ensures kept { IfOk result (λ a. a ≡ file) }
    ensures answer { MeetsAnswer (λ a. tt) result (by_rules card (first_broken_rule (meaning.program_of file))) }
{
    match verify(alloc, file) {
        Ok(program) => Ok(program),
        Err(
            LoadFault::Refused {
                segment,
                place,
                reason,
            },
        ) => Err(AdmitFault::Refused(Refusal::Load {
            card,
            reason,
            segment,
            place,
        })),
        Err(LoadFault::Memory) => Err(AdmitFault::Memory),
    }
}

fn assembled_in(alloc: Global, card: u32, cards: &Cards) -> Result<Codefile, AdmitFault>
    ensures within { IfOk result IsWithin }
    ensures file { MeetsAnswer (λ file. file) result (file_in card (Body.Cards cards.now)) }
    ensures answer { MeetsAnswer meaning.program_of result (program_in card (Body.Cards cards.now)) }
{
    match assemble(alloc, cards) {
        Ok(file) => Ok(file),
        Err(AsmFault::Card { card, reason }) => {
            Err(AdmitFault::Refused(Refusal::Asm { card, reason }))
        }
        Err(AsmFault::Memory) => Err(AdmitFault::Memory),
    }
}

/// The file of a job's program, assembled or read, or the refusal of its cards or its bytes.
pub fn file_of(alloc: Global, job: &Job) -> Result<Codefile, AdmitFault>
    ensures within { IfOk result IsWithin }
    ensures file { MeetsAnswer (λ file. file) result (file_in job.now.body_card job.now.program) }
    ensures answer { MeetsAnswer meaning.program_of result (program_in job.now.body_card job.now.program) }
{
    match &job.program {
        Body::Cards(cards) => assembled_in(alloc, job.body_card, cards),
        Body::Bytes(bytes) => codefile_in(alloc, job.body_card, bytes.as_slice()),
    }
}

fn files_of(alloc: Global, jobs: &[Job]) -> Result<VecDeque<Codefile>, AdmitFault>
    ensures within { IfOk result (λ files. AllByRecursion IsWithin files.items) }
    ensures each { IfOk result (λ files. length files.items ≡ length jobs.now) }
    ensures answer { MeetsAnswer (λ files. map meaning.program_of files.items) result (programs jobs.now) }
{
    let mut files = VecDeque::new(alloc);
    'jobs: for job in jobs {
        let file = file_of(alloc, job)?;
        match files.push_back(file) {
            Ok(()) => {}
            Err(_) => return Err(AdmitFault::Memory),
        }
    }
    Ok(files)
}

fn admitted_all(
    alloc: Global,
    jobs: &[Job],
    mut files: VecDeque<Codefile>,
) -> Result<Programs, AdmitFault>
    requires within { AllByRecursion IsWithin files.items }
    requires each { length files.items ≡ length jobs.now }
    ensures kept { IfOk result (λ ps. ps ≡ files.items) }
    ensures answer { MeetsAnswer (λ ps. tt) result (admitted jobs.now (map meaning.program_of files.items)) }
{
    let mut programs = Programs::new(alloc);
    'jobs: for job in jobs {
        let Some(file) = files.pop_front() else {
            return Err(AdmitFault::Memory);
        };
        let program = admitted_one(alloc, job.card, file)?;
        match programs.push(program) {
            Ok(()) => {}
            Err(_) => return Err(AdmitFault::Memory),
        }
    }
    Ok(programs)
}

/// The programs of jobs: each is assembled or read, in job order, and then each is admitted, in job order.
fn programs_of(alloc: Global, jobs: &[Job]) -> Result<Programs, AdmitFault>
    ensures { MeetsAnswer (λ ps. map meaning.program_of ps) result (prepared jobs.now) }
{
    match files_of(alloc, jobs) {
        Ok(files) => admitted_all(alloc, jobs, files),
        Err(fault) => Err(fault),
    }
}

/// A deck's fault, as it is handed on.
pub fn deck_fault(fault: DeckFault) -> AdmitFault
    ensures { result ≡ of_deck_fault fault }
{
    match fault {
        DeckFault::Card { card, reason } => AdmitFault::Refused(Refusal::Deck { card, reason }),
        DeckFault::SourceFault => AdmitFault::SourceFault,
        DeckFault::Memory => AdmitFault::Memory,
    }
}

/// Loads the programs of a deck: each job's cards are assembled or its bytes read, in job order, and then each program is
/// admitted, in job order. The answer is the first refusal of all.
pub fn prepare(alloc: Global, deck: Deck) -> Result<Loaded, AdmitFault>
    ensures { MeetsAnswer prepared_of result (with_programs deck) }
{
    match programs_of(alloc, deck.jobs.as_slice()) {
        Ok(programs) => Ok(Loaded { deck, programs }),
        Err(fault) => Err(fault),
    }
}

/// Reads a deck to its end, and loads its programs: each job's cards are assembled or its bytes read, in job order, and
/// then each program is admitted, in job order. The answer is the first refusal of all.
pub fn admit<S: Source>(alloc: Global, source: &mut S) -> Result<Loaded, AdmitFault>
    ensures answer { LoadsDeck S.left S.faults source.old source.new result }
    ensures later { S.faults source.old ≤ S.faults source.new }
{
    match read_deck(alloc, source) {
        Ok(deck) => prepare(alloc, deck),
        Err(fault) => Err(deck_fault(fault)),
    }
}
