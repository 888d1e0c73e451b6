//! The command `bind`.

ghost use Rattle.b67_job.specs.Meets as meets;
ghost use Rattle.std.specs.Prelude.{◌≤◌};
ghost use Rattle.b67_bind.specs.Reasons.{binding};
ghost use Rattle.b67_job.specs.Verdicts.{two_jobs, bound_text, bind_jobs, bind_deck, bind_verdict};
ghost use Rattle.b67_job.specs.CommandMeets.{IsJudged, MeetsVerdict};

use crate::admission::{admitted_one, deck_fault, file_of};
use crate::admit_fault::AdmitFault;
use crate::asm::text_of;
use crate::refusal::Refusal;
use b67_bind::{BindFault, Pairs, bind};
use b67_card::read_deck;
use b67_io::Source;
use b67_load::Admitted;
use b67_model_text::{Deck, Job};
use b67_word::Bytes;
use std::alloc::Global;

/// The host's job and the part's: a deck must have just these two.
fn two_jobs(jobs: &[Job]) -> Result<(&Job, &Job), AdmitFault>
    ensures { meets.MeetsAnswer (λ b. (b.0.now, b.1.now)) result (two_jobs jobs.now) }
{
    match jobs {
        [host, part] => Ok((host, part)),
        [_, _, third, ..] => Err(AdmitFault::Refused(Refusal::Deck {
            card: third.card,
            reason: 15,
        })),
        _ => Err(AdmitFault::Refused(Refusal::Deck {
            card: 1,
            reason: 15,
        })),
    }
}

/// The cards of the file that a part is bound into a host as, or the first pair that is refused.
fn bound_text(
    alloc: Global,
    host: &Admitted,
    part: &Admitted,
    pairs: &Pairs,
) -> Result<Bytes, AdmitFault>
    ensures { MeetsVerdict result (bound_text (binding host.now part.now pairs.now)) }
{
    match bind(alloc, host, part, pairs) {
        Ok(bound) => Ok(text_of(alloc, bound.file())?),
        Err(BindFault::Refused { pair, reason }) => {
            Err(AdmitFault::Refused(Refusal::Bind { pair, reason }))
        }
        Err(BindFault::Memory) => Err(AdmitFault::Memory),
    }
}

/// Both jobs are assembled or read, then both are admitted, and then the part is bound into the host.
fn bind_jobs(alloc: Global, host: &Job, part: &Job, pairs: &Pairs) -> Result<Bytes, AdmitFault>
    ensures { MeetsVerdict result (bind_jobs pairs.now host.now part.now) }
{
    let host_file = file_of(alloc, host)?;
    let part_file = file_of(alloc, part)?;
    let host = admitted_one(alloc, host.card, host_file)?;
    let part = admitted_one(alloc, part.card, part_file)?;
    bound_text(alloc, &host, &part, pairs)
}

fn bind_deck(alloc: Global, deck: &Deck, pairs: &Pairs) -> Result<Bytes, AdmitFault>
    ensures { MeetsVerdict result (bind_deck pairs.now deck.now) }
{
    let (host, part) = two_jobs(deck.jobs.as_slice())?;
    bind_jobs(alloc, host, part, pairs)
}

/// What `bind` prints of a deck of two jobs, read to its end: the hexadecimal cards of the codefile that the second job's
/// program is bound into the first one's as, or the first refusal. All memory is taken here, before anything is printed.
pub fn bind_text<S: Source>(
    alloc: Global,
    source: &mut S,
    pairs: &Pairs,
) -> Result<Bytes, AdmitFault>
    ensures answer { IsJudged S.left S.faults source.old source.new (bind_verdict pairs.now) result }
    ensures later { S.faults source.old ≤ S.faults source.new }
{
    match read_deck(alloc, source) {
        Ok(deck) => bind_deck(alloc, &deck, pairs),
        Err(fault) => Err(deck_fault(fault)),
    }
}
