//! The rules that an operator may break.

ghost use Rattle.b67_model.specs.Loader as loader;
ghost use Rattle.std.specs.Prelude.{◌≡◌, ◌<◌, ◌&&◌, ◌||◌, ℕ, List, not, nat_lt, ◌==◌, option_map, slice_get};
ghost use Rattle.std.specs.List.{list_any};
ghost use Rattle.b67_word.specs.Couples.{couple};
ghost use Rattle.b67_model.specs.Loader.{At, target_of, couple_bits, proc_bits, may_be_last, holds_of, holds_at, is_outside, is_start, is_last, named_segment, named_level, may_begin_at, has_stray_bits, breaks_rule_8, broken_at, broken_in, stands_before, wrong_entries};
ghost use Rattle.b67_codefile.specs.Meaning.{segment_of, program_of};
ghost use Rattle.b67_load.specs.Listing.{seen, CoupleFits, CouplesFit};
ghost use Rattle.b67_load.specs.Broken.{listed, rules_at, first_broken, refusal_at, wrong_at, earlier};
ghost use Rattle.b67_codefile.specs.Spelling.{EntriesRise};
ghost use Rattle.b67_codefile.specs.declared.file.Codefile.{Codefile};

use crate::entry::{Entry, ORIGIN, same_place};
use crate::listing::Listing;
use b67_codefile::{Codefile, Segment, place_of_entry};
use b67_syllable::{Code, Op, Undecodable};
use b67_word::{Place, couple_of};

/// The place to which an operator branches.
fn target_of(op: Op) -> Option<Place>
    ensures { result ≡ target_of op }
{
    match op {
        Op::Brun(place) | Op::Brtr(place) | Op::Brfl(place) => Some(place),
        _ => None,
    }
}

/// The bits of an operator's address couple.
pub fn couple_bits(op: Op) -> Option<u16>
    ensures { result ≡ couple_bits op }
{
    match op {
        Op::Valc(bits) | Op::Namc(bits) => Some(bits),
        _ => None,
    }
}

/// The program control word that an operator makes.
pub fn proc_bits(op: Op) -> Option<u64>
    ensures { result ≡ proc_bits op }
{
    match op {
        Op::Mpcw(bits) => Some(bits),
        _ => None,
    }
}

/// Whether no operator needs to follow.
fn may_be_last(op: Op) -> bool
    ensures { result ≡ may_be_last op }
{
    matches!(
        op,
        Op::Brun(_) | Op::Plain(Code::Exit | Code::Retn | Code::Nvld)
    )
}

fn is_outside(segment: &Segment, place: Place) -> bool
    ensures { result ≡ is_outside (segment_of segment.now) place }
{
    usize::from(place.word) >= segment.code.as_slice().len() || place.syllable > 5
}

/// The segment that has this displacement in the dictionary, in which the first segment has 2.
fn named_segment(file: &Codefile, disp: u16) -> Option<&Segment>
    ensures { option_map (λ s. segment_of s.now) result ≡ named_segment (program_of file.now) disp }
{
    if disp < 2 {
        return None;
    }
    file.segments.as_slice().get(usize::from(disp - 2))
}

fn named_level(file: &Codefile, disp: u16) -> Option<u8>
    ensures { result ≡ named_level (program_of file.now) disp }
{
    named_segment(file, disp).map(|segment| segment.level)
}

/// Whether a procedure may begin at a place, given as a branch's 16 bits: at the segment's first one or at an entry.
pub fn may_begin_at(segment: &Segment, bits: u64) -> bool
    ensures { result ≡ may_begin_at (Some (segment_of segment.now)) bits }
{
    bits == 0 || has_entry(segment.entries.as_slice(), bits)
}

fn has_entry(entries: &[u16], bits: u64) -> bool
    ensures { result ≡ list_any (λ e. e == bits) entries.now }
{
    entries.iter().any(|entry| u64::from(*entry) == bits)
}

/// Rule 3: a branch to a place inside the segment at which no operator begins.
fn misses_start(segment: &Segment, listing: &Listing, op: Op) -> bool
    ensures { result ≡ holds_at (target_of op) (λ target. not (is_outside (segment_of segment.now) target) && not (is_start listing.now target)) }
{
    target_of(op).is_some_and(|target| !is_outside(segment, target) && !listing.has_start(target))
}

/// Rule 4: a branch to a place outside the segment.
fn leaves_segment(segment: &Segment, op: Op) -> bool
    ensures { result ≡ holds_at (target_of op) (is_outside (segment_of segment.now)) }
{
    target_of(op).is_some_and(|target| is_outside(segment, target))
}

/// Rule 6: a couple whose level is above the segment's.
fn couple_is_too_high(level: u8, op: Op) -> bool
    requires { CoupleFits op }
    ensures { result ≡ holds_of (couple_bits op) (λ bits. nat_lt level (couple bits level).level) }
{
    match couple_bits(op) {
        Some(bits) => couple_of(bits, level.min(31)).level > level,
        None => false,
    }
}

/// Rule 7: a program control word with a bit outside its fields, or of no segment.
fn pcw_is_malformed(file: &Codefile, op: Op) -> bool
    ensures { result ≡ holds_of (proc_bits op) (has_stray_bits (program_of file.now)) }
{
    match proc_bits(op) {
        Some(bits) => {
            bits >= 1 << 36
                || (bits >> 19) % 2 != 0
                || named_level(file, (bits % 0x4000) as u16).is_none()
        }
        None => false,
    }
}

/// Rule 8: a program control word whose level isn't its segment's, or isn't one above that of the segment in which the
/// word stands, or whose place is neither the first nor an entry of its segment.
fn pcw_is_misplaced(file: &Codefile, segment: &Segment, op: Op) -> bool
    ensures { (number : ℕ) (entries : List loader.Entry) → result ≡ holds_of (proc_bits op) (breaks_rule_8 (listed file.now number segment.now entries)) }
{
    match proc_bits(op) {
        Some(bits) => {
            let level = (bits >> 14) % 32;
            !is_level_of(named_level(file, (bits % 0x4000) as u16), level)
                || level != u64::from(segment.level) + 1
                || !named_segment(file, (bits % 0x4000) as u16).is_some_and(|named| may_begin_at(
                    named,
                    bits >> 20,
                ))
        }
        None => false,
    }
}

fn is_level_of(named: Option<u8>, level: u64) -> bool
    ensures { result ≡ holds_of named (λ n. n == level) }
{
    named.is_some_and(|named| u64::from(named) == level)
}

/// The first rule that an operator breaks at its place.
fn broken_by_operator(
    file: &Codefile,
    segment: &Segment,
    listing: &Listing,
    place: Place,
    op: Op,
) -> Option<u8>
    requires { CoupleFits op }
    ensures { (number : ℕ) → result ≡ first_broken (broken_at (listed file.now number segment.now listing.now) (At place op)) }
{
    if misses_start(segment, listing, op) {
        Some(3)
    } else if leaves_segment(segment, op) {
        Some(4)
    } else if listing.is_last(place) && !may_be_last(op) {
        Some(5)
    } else if couple_is_too_high(segment.level, op) {
        Some(6)
    } else if pcw_is_malformed(file, op) {
        Some(7)
    } else if pcw_is_misplaced(file, segment, op) {
        Some(8)
    } else {
        None
    }
}

/// The first rule that an entry breaks at its place.
fn broken_by_entry(
    file: &Codefile,
    segment: &Segment,
    listing: &Listing,
    entry: &Entry,
) -> Option<u8>
    requires { CouplesFit (seen entry.now) }
    ensures { (number : ℕ) → result ≡ first_broken (broken_at (listed file.now number segment.now listing.now) (seen entry.now)) }
{
    match entry.read {
        Ok(op) => broken_by_operator(file, segment, listing, entry.place, op),
        Err(Undecodable::NotAdmitted) => Some(1),
        Err(Undecodable::PastEnd) => Some(2),
        Err(Undecodable::BadPlace) => None,
    }
}

/// The first rule that a segment's level breaks.
fn broken_by_level(number: u8, segment: &Segment) -> Option<u8>
    ensures { (file : Codefile) (entries : List loader.Entry) → result ≡ first_broken (broken_in (listed file number segment.now entries)) }
{
    if segment.level < 2 || segment.level > 31 {
        Some(9)
    } else if number == 1 && segment.level != 2 {
        Some(10)
    } else {
        None
    }
}

/// The first rule that is broken at an entry's place. What a segment's level breaks stands at the segment's first place.
pub(crate) fn broken_rule(
    file: &Codefile,
    number: u8,
    segment: &Segment,
    listing: &Listing,
    entry: &Entry,
) -> Option<u8>
    requires { CouplesFit (seen entry.now) }
    ensures { result ≡ first_broken (rules_at (listed file.now number segment.now listing.now) (seen entry.now)) }
{
    match broken_by_entry(file, segment, listing, entry) {
        Some(rule) => Some(rule),
        None if same_place(entry.place, ORIGIN) => broken_by_level(number, segment),
        None => None,
    }
}

/// A rule that is broken at a place.
#[derive(Clone, Copy)]
pub(crate) struct Broken {
    pub place: Place,
    pub rule: u8,
}

/// Whether a place stands before another: by word, then by syllable.
fn stands_before(a: Place, b: Place) -> bool
    ensures { result ≡ stands_before a b }
{
    a.word < b.word || (a.word == b.word && a.syllable < b.syllable)
}

/// Rule 11: the first entry of a segment that isn't a start.
pub(crate) fn wrong_entry(segment: &Segment, listing: &Listing) -> Option<Place>
    requires { EntriesRise 0 segment.now.entries }
    ensures { (file : Codefile) (number : ℕ) → slice_get (wrong_entries (listed file number segment.now listing.now) segment.now.entries) 0 ≡ option_map (λ place. refusal_at number (wrong_at place)) result }
{
    'entries: for entry in segment.entries.as_slice() {
        let place = place_of_entry(*entry);
        if !listing.has_start(place) {
            return Some(place);
        }
    }
    None
}

/// What is broken first of a rule at a place of the listing and of rule 11 at an entry.
pub(crate) fn earlier(listed: Option<Broken>, wrong: Option<Place>) -> Option<Broken>
    ensures { result ≡ earlier listed wrong }
{
    match listed {
        Some(broken) => match wrong {
            Some(place) if stands_before(place, broken.place) => Some(Broken { place, rule: 11 }),
            _ => Some(broken),
        },
        None => wrong.map(|place| Broken { place, rule: 11 }),
    }
}
