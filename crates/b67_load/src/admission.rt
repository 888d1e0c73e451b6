//! Admitting a program.

ghost use Rattle.std.specs.Prelude.{◌≡◌, ◌++◌, IfOk, IfErr, option_map, slice_get};
ghost use Rattle.b67_word.specs.Tagged.{contents};
ghost use Rattle.b67_model.specs.Loader.{listing, refusals, refusals_of, wrong_entries};
ghost use Rattle.b67_codefile.specs.Spelling.{IsFileSegment, IsWithin};
ghost use Rattle.b67_codefile.specs.Meaning.{program_of};
ghost use Rattle.b67_load.specs.Broken.{listed, refusal_at, Finds, FindsFirst};
ghost use Rattle.b67_load.specs.Order.{TellsLeast};

use crate::admitted::Admitted;
use crate::entry::ORIGIN;
use crate::fault::LoadFault;
use crate::listing::Listing;
use crate::rules::{Broken, broken_rule, earlier, wrong_entry};
use b67_codefile::{Codefile, Segment};
use std::alloc::Global;

/// The first rule that is broken at a place of the listing.
fn broken_in_listing(
    file: &Codefile,
    number: u8,
    segment: &Segment,
    listing: &Listing,
) -> Option<Broken>
    ensures { slice_get (refusals_of (listed file.now number segment.now listing.now) listing.now) 0 ≡ option_map (refusal_at number) result }
{
    'entries: for entry in listing.entries() {
        if let Some(rule) = broken_rule(file, number, segment, listing, entry) {
            return Some(Broken {
                place: entry.place,
                rule,
            });
        }
    }
    None
}

fn check_segment(
    alloc: Global,
    file: &Codefile,
    number: u8,
    segment: &Segment,
) -> Result<(), LoadFault>
    requires { IsFileSegment segment.now }
    ensures { let l = listed file.now number segment.now (listing (contents segment.now.code)) in FindsFirst result (refusals_of l l.entries ++ wrong_entries l segment.now.entries) }
{
    let listing = Listing::new(alloc, segment.code.as_slice())?;
    let listed = broken_in_listing(file, number, segment, &listing);
    match earlier(listed, wrong_entry(segment, &listing)) {
        Some(broken) => Err(LoadFault::Refused {
            segment: number,
            place: broken.place,
            reason: broken.rule,
        }),
        None => Ok(()),
    }
}

fn check(alloc: Global, file: &Codefile) -> Result<(), LoadFault>
    requires { IsWithin file.now }
    ensures { FindsFirst result (refusals (program_of file.now)) }
{
    let segments = file.segments.as_slice();
    if segments.is_empty() {
        return Err(LoadFault::Refused {
            segment: 0,
            place: ORIGIN,
            reason: 10,
        });
    }
    let mut number = 0;
    'segments: for segment in segments {
        number += 1;
        check_segment(alloc, file, number, segment)?;
    }
    Ok(())
}

/// Admits a file within the limits exactly if it breaks none of the loader's rules, and keeps it as it is. Else the
/// first refusal is the answer. A file that is refused is dropped.
pub fn verify(alloc: Global, file: Codefile) -> Result<Admitted, LoadFault>
    requires { IsWithin file }
    // There is no refusal, or else the first one is told, and this is the least by segment, then by place, then by rule.
    ensures exact { Finds result (refusals (program_of file)) }
    ensures least { IfErr result (λ fault. TellsLeast fault (refusals (program_of file))) }
    ensures kept { IfOk result (λ admitted. admitted ≡ file) }
{
    check(alloc, &file)?;
    Ok(Admitted::new(file))
}
