ghost use Rattle.b67_model_text.specs.Asm as asm;
ghost use Rattle.std.specs.Prelude.{◌≡◌, ◌∷◌, ◌+◌, ◌*◌, ◌<◌, ◌≤◌, ◌^◌, ◌&&◌, not, min, is_some, if◌then◌else◌, IfSome, IfOk, IsTrue, Ok};
ghost use Rattle.b67_word.specs.Couples.{couple_bits};
ghost use Rattle.b67_model.specs.Encoding.{has_bits};
ghost use Rattle.b67_model.specs.declared.operators.Op.TheVariants.{Mpcw};
ghost use Rattle.std.specs.List.{list_any};
ghost use Rattle.std.specs.Option.{option_map, option_and_then};
ghost use Rattle.b67_model.specs.Operators.{place_at};
ghost use Rattle.b67_asm.specs.Names.{label_entries};
ghost use Rattle.b67_asm.specs.Scope.{names_in, scope_of, IsOperator};
ghost use Rattle.b67_model.specs.declared.limits.TheConstants.{MOST_SEGMENT};

use crate::names::{Names, is_entry, label_of, meaning_of, place_of};
use b67_model::{MOST_SEGMENT, Op};
use b67_model_text::{Branch, Call, Name, Named, Sketch, Statement, Values};
use b67_word::{Couple, Place, bits_of};
use indexmap::IndexMap;

// The operator that a card of a segment denotes.

/// What the operators of a segment may name: names, labels, how many segments there are, and the segment's level.
#[derive(Clone, Copy)]
pub struct Scope<'s, 'a> {
    pub names: &'s Names<'a>,
    pub labels: &'s IndexMap<&'a [u8], u64>,
    pub segments: u32,
    pub level: u8,
}

fn pcw_in(named: Option<Named>) -> Option<u64>
    ensures exact { result ≡ asm.pcw_in named }
    ensures small { IfSome result (λ bits. bits < 2 ^ 40) }
{
    match named {
        Some(
            Named::Segment {
                number,
                level: Some(level),
            },
        ) => {
            if level <= 31 {
                Some(u64::from(level) * 0x4000 + (u64::from(number) + 2))
            } else {
                None
            }
        }
        _ => None,
    }
}

fn label_in<'a>(names: &Names<'a>, named: Option<Named>, label: &'a [u8]) -> Option<u64>
    ensures { result ≡ asm.label_in (names_in names.now) named label.now }
{
    match named {
        Some(Named::Segment { number, .. }) => label_of(names, number, label),
        _ => None,
    }
}

fn entry_in<'a>(names: &Names<'a>, named: Option<Named>, label: &'a [u8]) -> bool
    ensures { result ≡ asm.entry_in (names_in names.now) named label.now }
{
    match named {
        Some(Named::Segment { number, .. }) => is_entry(names, number, label),
        _ => false,
    }
}

/// A place's 16 bits, as a branch has them. None past the longest segment comes to code.
pub fn place_bits(syllable: u64) -> u16
    ensures { result ≡ asm.syllable_bits syllable }
{
    let place = place_at(syllable.min(6 * (MOST_SEGMENT as u64)));
    u16::from(place.syllable) * 0x2000 + place.word
}

fn pcw_at(bits: Option<u64>, syllable: Option<u64>) -> Option<u64>
    requires { IfSome bits (λ bits. bits < 2 ^ 40) }
    ensures exact { result ≡ asm.pcw_at bits syllable }
    ensures small { IfSome result (λ bits. bits < 2 ^ 48) }
{
    match bits {
        Some(bits) => match syllable {
            Some(syllable) => Some(bits + u64::from(place_bits(syllable)) * 0x10_0000),
            None => None,
        },
        None => None,
    }
}

fn row_in(named: Option<Named>) -> Option<u32>
    ensures { result ≡ asm.row_in named }
{
    match named {
        Some(Named::Row { number }) => Some(number),
        _ => None,
    }
}

fn has_bits(op: Op) -> bool
    ensures { result ≡ has_bits op }
{
    match op {
        Op::Valc(bits) | Op::Namc(bits) => bits < 0x4000,
        Op::Lt48(bits) | Op::Mpcw(bits) => bits < 0x1_0000_0000_0000,
        Op::Brun(place) | Op::Brtr(place) | Op::Brfl(place) => place.syllable < 8
            && place.word < 0x2000,
        _ => true,
    }
}

fn is_in_range(sketch: &Sketch) -> bool
    ensures { result ≡ asm.is_in_range sketch.now }
{
    match sketch {
        Sketch::Whole(op) => has_bits(*op),
        Sketch::OutOfRange => false,
        _ => true,
    }
}

/// Whether every name of an operator means what the operator needs.
pub fn has_names<'a>(names: &Names<'a>, sketch: &'a Sketch) -> bool
    ensures { result ≡ asm.has_names (names_in names.now) sketch.now }
{
    match sketch {
        Sketch::Pcw { segment } => pcw_in(meaning_of(
            &names.meanings,
            segment.as_str().as_bytes(),
        )).is_some(),
        Sketch::PcwAt { segment, label } => {
            let named = meaning_of(&names.meanings, segment.as_str().as_bytes());
            pcw_in(named).is_some() && label_in(names, named, label.as_str().as_bytes()).is_some()
        }
        Sketch::Row { row, .. } => row_in(meaning_of(
            &names.meanings,
            row.as_str().as_bytes(),
        )).is_some(),
        _ => true,
    }
}

/// Whether the label of an MPCW is an entry of the segment named.
pub fn has_entry<'a>(names: &Names<'a>, sketch: &'a Sketch) -> bool
    ensures { result ≡ asm.has_entry (names_in names.now) sketch.now }
{
    match sketch {
        Sketch::PcwAt { segment, label } => entry_in(
            names,
            meaning_of(&names.meanings, segment.as_str().as_bytes()),
            label.as_str().as_bytes(),
        ),
        _ => true,
    }
}

fn has_label<'a>(labels: &IndexMap<&'a [u8], u64>, sketch: &'a Sketch) -> bool
    ensures { result ≡ asm.has_label (λ label. asm.meaning (label_entries labels.now.entries) label) sketch.now }
{
    match sketch {
        Sketch::Jump { label, .. } => place_of(labels, label.as_str().as_bytes()).is_some(),
        _ => true,
    }
}

fn called(call: Call, bits: u16) -> Op
    requires { bits < 2 ^ 14 }
    ensures exact { result ≡ asm.call_operator call bits }
    ensures fits { IsTrue (has_bits result) }
{
    match call {
        Call::Value => Op::Valc(bits),
        Call::Name => Op::Namc(bits),
    }
}

fn place_at(syllable: u64) -> Place
    requires { syllable ≤ 6 * MOST_SEGMENT }
    ensures { result ≡ place_at syllable }
{
    Place {
        word: (syllable / 6) as u16,
        syllable: (syllable % 6) as u8,
    }
}

fn branch_to(branch: Branch, syllable: u64) -> Op
    ensures exact { result ≡ asm.branch_to branch syllable }
    ensures fits { IsTrue (has_bits result) }
{
    let place = place_at(syllable.min(6 * (MOST_SEGMENT as u64)));
    match branch {
        Branch::Always => Op::Brun(place),
        Branch::IfTrue => Op::Brtr(place),
        Branch::IfFalse => Op::Brfl(place),
    }
}

fn is_word(value: Option<u64>) -> bool
    ensures { result ≡ asm.is_word value }
{
    match value {
        None => false,
        Some(bits) => bits < 0x1_0000_0000_0000,
    }
}

fn has_no_word(values: &[Option<u64>]) -> bool
    ensures { result ≡ list_any (λ v. not (asm.is_word v)) values.now }
{
    values.iter().any(|v| !is_word(*v))
}

/// Whether one of the words is out of range.
pub fn is_bad(first: Option<u64>, more: &[Option<u64>]) -> bool
    ensures { result ≡ list_any (λ v. not (asm.is_word v)) (first ∷ more.now) }
{
    !is_word(first) || has_no_word(more)
}

fn misplaced_values(first: Option<u64>, more: &Values) -> u8
    ensures { result ≡ (if list_any (λ v. not (asm.is_word v)) (first ∷ more.now) then 3 else 6) }
{
    if is_bad(first, more.as_slice()) { 3 } else { 6 }
}

/// Why a card is refused that stands in no block of its kind.
pub fn misplaced<'a>(names: &Names<'a>, statement: &'a Statement) -> u8
    ensures { result ≡ asm.misplaced (names_in names.now) statement.now }
{
    match statement {
        Statement::Values { first, more } => misplaced_values(*first, more),
        Statement::Operator { sketch, .. } => {
            if !is_in_range(sketch) {
                3
            } else if has_names(names, sketch) {
                6
            } else {
                5
            }
        }
        _ => 6,
    }
}

// The bits of a row's couple, at level 1.
fn row_bits(segments: u32, number: u32, level: u8) -> Option<u16>
    ensures exact { result ≡ couple_bits (min level 31) (record { level = 1; disp = segments + number + 2 }) }
    ensures small { IfSome result (λ bits. bits < 2 ^ 14) }
{
    let disp = u64::from(segments) + u64::from(number) + 2;
    if disp >= 0x2000 {
        return None;
    }
    let couple = Couple {
        level: 1,
        disp: disp as u16,
    };
    match bits_of(couple, level.min(31)) {
        Some(bits) => Some(bits),
        None => None,
    }
}

fn couple_call(call: Call, couple: Option<Couple>, level: u8) -> Option<Op>
    ensures exact { result ≡ option_map (asm.call_operator call) (option_and_then (couple_bits (min level 31)) couple) }
    ensures fits { IfSome result (λ op. IsTrue (has_bits op)) }
{
    match bits_of(couple?, level.min(31)) {
        Some(bits) => Some(called(call, bits)),
        None => None,
    }
}

fn is_first_label<'a>(labels: &IndexMap<&'a [u8], u64>, n: u64, label: &'a Option<Name>) -> bool
    ensures { result ≡ asm.is_first_label (λ text. asm.meaning (label_entries labels.now.entries) text) n label.now }
{
    match label {
        None => true,
        Some(label) => place_of(labels, label.as_str().as_bytes()) == Some(n),
    }
}

fn row_operator<'a>(scope: &Scope<'_, 'a>, call: Call, row: &'a [u8]) -> Option<Op>
    ensures exact { result ≡ option_map (asm.call_operator call) (option_and_then (λ number. couple_bits (min scope.now.level 31) (record { level = 1; disp = scope.now.segments + number + 2 })) (asm.row_in ((names_in scope.now.names.now).means row.now))) }
    ensures fits { IfSome result (λ op. IsTrue (has_bits op)) }
{
    match row_in(meaning_of(&scope.names.meanings, row)) {
        Some(number) => match row_bits(scope.segments, number, scope.level) {
            Some(bits) => Some(called(call, bits)),
            None => None,
        },
        None => None,
    }
}

fn jump<'a>(labels: &IndexMap<&'a [u8], u64>, branch: Branch, label: &'a [u8]) -> Option<Op>
    ensures exact { result ≡ option_map (asm.branch_to branch) (asm.meaning (label_entries labels.now.entries) label.now) }
    ensures fits { IfSome result (λ op. IsTrue (has_bits op)) }
{
    match place_of(labels, label) {
        Some(syllable) => Some(branch_to(branch, syllable)),
        None => None,
    }
}

fn pcw<'a>(names: &Names<'a>, segment: &'a [u8]) -> Option<Op>
    ensures exact { result ≡ option_map Mpcw (asm.pcw_in ((names_in names.now).means segment.now)) }
    ensures fits { IfSome result (λ op. IsTrue (has_bits op)) }
{
    match pcw_in(meaning_of(&names.meanings, segment)) {
        Some(bits) => Some(Op::Mpcw(bits)),
        None => None,
    }
}

fn pcw_of_label<'a>(names: &Names<'a>, segment: &'a [u8], label: &'a [u8]) -> Option<Op>
    ensures exact { result ≡ option_map Mpcw (asm.pcw_at (asm.pcw_in ((names_in names.now).means segment.now)) (asm.label_in (names_in names.now) ((names_in names.now).means segment.now) label.now)) }
    ensures fits { IfSome result (λ op. IsTrue (has_bits op)) }
{
    let named = meaning_of(&names.meanings, segment);
    match pcw_at(pcw_in(named), label_in(names, named, label)) {
        Some(bits) => Some(Op::Mpcw(bits)),
        None => None,
    }
}

fn denoted<'a>(scope: &Scope<'_, 'a>, sketch: &'a Sketch) -> Option<Op>
    requires { IsTrue (asm.is_in_range sketch.now) }
    ensures exact { result ≡ asm.denoted (scope_of scope.now) sketch.now }
    ensures fits { IfSome result (λ op. IsTrue (has_bits op)) }
{
    match sketch {
        Sketch::Whole(op) => Some(*op),
        Sketch::OutOfRange => None,
        Sketch::Couple { call, couple } => couple_call(*call, *couple, scope.level),
        Sketch::Row { call, row } => row_operator(scope, *call, row.as_str().as_bytes()),
        Sketch::Jump { branch, label } => jump(scope.labels, *branch, label.as_str().as_bytes()),
        Sketch::Pcw { segment } => pcw(scope.names, segment.as_str().as_bytes()),
        Sketch::PcwAt { segment, label } => pcw_of_label(
            scope.names,
            segment.as_str().as_bytes(),
            label.as_str().as_bytes(),
        ),
    }
}

/// What an operator's card writes at syllable n, None for a couple that doesn't fit, or the reason of 3 to 5 why the card is
/// refused.
pub fn operator_in<'a>(
    scope: &Scope<'_, 'a>,
    n: u64,
    label: &'a Option<Name>,
    sketch: &'a Sketch,
) -> Result<Option<Op>, u8>
    ensures exact { IsOperator result (scope_of scope.now) n label.now sketch.now }
    ensures fits { IfOk result (λ o. IfSome o (λ op. IsTrue (has_bits op))) }
{
    if !is_in_range(sketch) {
        return Err(3);
    }
    if !is_first_label(scope.labels, n, label) {
        return Err(4);
    }
    if !has_names(scope.names, sketch) || !has_label(scope.labels, sketch) {
        return Err(5);
    }
    Ok(denoted(scope, sketch))
}
