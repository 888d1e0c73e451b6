ghost use Rattle.std.specs.Prelude.{◌≡◌, ◌+◌, ◌<◌, ◌≤◌, ◌^◌, ◌||◌, ℕ, List, [], ◌∷◌, length, is_some, IfOk, OnOk};
ghost use Rattle.std.specs.Option.{option_or};
ghost use Rattle.std.specs.List.{cons_option, list_any};
ghost use Rattle.b67_model.specs.Encoding.{syllable_after};
ghost use Rattle.b67_model_text.specs.Asm.{meaning, definition, definitions, segments_behind, rows_behind, labels, label_at, after_sketch, syllable_after_card, names_entry, own, cards_of_segments, names_of};
ghost use Rattle.b67_asm.specs.Names.{name_entries, label_entries};
ghost use Rattle.b67_asm.specs.Scope.{names_in, begins_segment, HoldLabels, HoldsLabels};

use crate::cards::own_of;
use b67_model::Op;
use b67_model_text::{Line, Named, Sketch, Statement};
use indexmap::IndexMap;
use std::alloc::{AllocError, Global};

// The names and labels that cards define.

/// The labels of a segment's cards with their syllables, and the labels that its ENTRY cards name.
#[derive(Drop)]
pub struct Labels<'a> {
    pub places: IndexMap<&'a [u8], u64>,
    pub entries: IndexMap<&'a [u8], u64>,
}

/// What names mean, and the labels of each segment, by its number.
#[derive(Drop)]
pub struct Names<'a> {
    pub meanings: IndexMap<&'a [u8], Named>,
    pub segments: Vec<Labels<'a>>,
}

/// What a name means.
pub fn meaning_of(names: &IndexMap<&[u8], Named>, name: &[u8]) -> Option<Named>
    ensures { result ≡ meaning (name_entries names.now.entries) name.now }
{
    names.get(name).copied()
}

/// A label's syllable.
pub fn place_of<'a>(labels: &IndexMap<&'a [u8], u64>, label: &'a [u8]) -> Option<u64>
    ensures { result ≡ meaning (label_entries labels.now.entries) label.now }
{
    labels.get(label).copied()
}

/// The syllable of a segment's label.
pub fn label_of<'a>(names: &Names<'a>, number: u32, label: &'a [u8]) -> Option<u64>
    ensures { result ≡ (names_in names.now).label number label.now }
{
    match names.segments.get(number as usize) {
        Some(labels) => place_of(&labels.places, label),
        None => None,
    }
}

/// Whether a segment's label is an entry of it.
pub fn is_entry<'a>(names: &Names<'a>, number: u32, label: &'a [u8]) -> bool
    ensures { result ≡ (names_in names.now).entry number label.now }
{
    match names.segments.get(number as usize) {
        Some(labels) => {
            place_of(&labels.entries, label).is_some() && place_of(&labels.places, label) != Some(0)
        }
        None => false,
    }
}

// Adds a name, unless it is there already.
fn define<'a>(
    names: &mut IndexMap<&'a [u8], Named>,
    name: &'a [u8],
    named: Named,
) -> Result<(), AllocError>
    ensures { OnOk result ((q : List ℕ) → meaning (name_entries names.new.entries) q ≡ option_or (meaning (name_entries names.old.entries) q) (meaning ((name.now, named) ∷ []) q)) }
{
    if names.get(name).is_some() {
        return Ok(());
    }
    match names.insert(name, named) {
        Ok(_) => Ok(()),
        Err(_) => Err(AllocError),
    }
}

// Adds a label, unless it is there already.
fn define_at<'a>(
    labels: &mut IndexMap<&'a [u8], u64>,
    label: &'a [u8],
    syllable: u64,
) -> Result<(), AllocError>
    ensures { OnOk result ((q : List ℕ) → meaning (label_entries labels.new.entries) q ≡ option_or (meaning (label_entries labels.old.entries) q) (meaning ((label.now, syllable) ∷ []) q)) }
{
    if labels.get(label).is_some() {
        return Ok(());
    }
    match labels.insert(label, syllable) {
        Ok(_) => Ok(()),
        Err(_) => Err(AllocError),
    }
}

#[tactic(auto, using(crate::proofs::NamesLaw::or_none))]
fn define_statement<'a>(
    names: &mut IndexMap<&'a [u8], Named>,
    statement: &'a Statement,
    segments: u32,
    rows: u32,
) -> Result<(), AllocError>
    ensures { OnOk result ((q : List ℕ) → meaning (name_entries names.new.entries) q ≡ option_or (meaning (name_entries names.old.entries) q) (meaning (cons_option (definition segments rows (Ok statement.now)) []) q)) }
{
    match statement {
        Statement::Segment { name, level } => define(
            names,
            name.as_str().as_bytes(),
            Named::Segment {
                number: segments,
                level: *level,
            },
        ),
        Statement::Row { name } => define(
            names,
            name.as_str().as_bytes(),
            Named::Row { number: rows },
        ),
        Statement::Values { .. } => Ok(()),
        Statement::Operator { .. } => Ok(()),
        Statement::Entry { .. } => Ok(()),
    }
}

#[tactic(auto, using(crate::proofs::NamesLaw::or_none))]
fn define_line<'a>(
    names: &mut IndexMap<&'a [u8], Named>,
    line: &'a Line,
    segments: u32,
    rows: u32,
) -> Result<(), AllocError>
    ensures { OnOk result ((q : List ℕ) → meaning (name_entries names.new.entries) q ≡ option_or (meaning (name_entries names.old.entries) q) (meaning (cons_option (definition segments rows line.now.says) []) q)) }
{
    match &line.says {
        Ok(statement) => define_statement(names, statement, segments, rows),
        Err(_) => Ok(()),
    }
}

#[tactic(auto, using(crate::proofs::NamesLaw::or_none))]
fn label_statement<'a>(
    labels: &mut IndexMap<&'a [u8], u64>,
    statement: &'a Statement,
    n: u64,
) -> Result<(), AllocError>
    ensures { OnOk result ((q : List ℕ) → meaning (label_entries labels.new.entries) q ≡ option_or (meaning (label_entries labels.old.entries) q) (meaning (cons_option (label_at n (Ok statement.now)) []) q)) }
{
    match statement {
        Statement::Operator { label, .. } => match label {
            Some(label) => define_at(labels, label.as_str().as_bytes(), n),
            None => Ok(()),
        },
        Statement::Segment { .. } => Ok(()),
        Statement::Row { .. } => Ok(()),
        Statement::Values { .. } => Ok(()),
        Statement::Entry { .. } => Ok(()),
    }
}

#[tactic(auto, using(crate::proofs::NamesLaw::or_none))]
fn label_line<'a>(
    labels: &mut IndexMap<&'a [u8], u64>,
    line: &'a Line,
    n: u64,
) -> Result<(), AllocError>
    ensures { OnOk result ((q : List ℕ) → meaning (label_entries labels.new.entries) q ≡ option_or (meaning (label_entries labels.old.entries) q) (meaning (cons_option (label_at n line.now.says) []) q)) }
{
    match &line.says {
        Ok(statement) => label_statement(labels, statement, n),
        Err(_) => Ok(()),
    }
}

/// How many segments stand behind a card.
pub fn segments_behind(segments: u32, line: &Line) -> u32
    requires { segments < 2 ^ 31 }
    ensures exact { result ≡ segments_behind segments line.now.says }
    ensures near { result ≤ segments + 1 }
{
    match &line.says {
        Ok(statement) => match statement {
            Statement::Segment { .. } => segments + 1,
            Statement::Row { .. } => segments,
            Statement::Values { .. } => segments,
            Statement::Operator { .. } => segments,
            Statement::Entry { .. } => segments,
        },
        Err(_) => segments,
    }
}

/// How many data rows stand behind a card.
pub fn rows_behind(rows: u32, line: &Line) -> u32
    requires { rows < 2 ^ 31 }
    ensures exact { result ≡ rows_behind rows line.now.says }
    ensures near { result ≤ rows + 1 }
{
    match &line.says {
        Ok(statement) => match statement {
            Statement::Row { .. } => rows + 1,
            Statement::Segment { .. } => rows,
            Statement::Values { .. } => rows,
            Statement::Operator { .. } => rows,
            Statement::Entry { .. } => rows,
        },
        Err(_) => rows,
    }
}

fn behind_operator(op: Op, n: u64) -> u64
    requires { n < 2 ^ 40 }
    ensures exact { result ≡ syllable_after op n }
    ensures near { result ≤ n + 12 }
{
    match op {
        Op::Valc(_) | Op::Namc(_) => n + 2,
        Op::Lt8(_) | Op::Bset(_) | Op::Brst(_) => n + 2,
        Op::Lt16(_) | Op::Isol(_, _) | Op::Insr(_, _) => n + 3,
        Op::Brun(_) | Op::Brtr(_) | Op::Brfl(_) => n + 3,
        Op::Lt48(_) | Op::Mpcw(_) => 6 * (n / 6 + 2),
        Op::Plain(_) => n + 1,
    }
}

fn behind_sketch(sketch: &Sketch, n: u64) -> u64
    requires { n < 2 ^ 40 }
    ensures exact { result ≡ after_sketch sketch.now n }
    ensures near { result ≤ n + 12 }
{
    match sketch {
        Sketch::Whole(op) => behind_operator(*op, n),
        Sketch::OutOfRange => n,
        Sketch::Couple { .. } => n + 2,
        Sketch::Row { .. } => n + 2,
        Sketch::Jump { .. } => n + 3,
        Sketch::Pcw { .. } => 6 * (n / 6 + 2),
        Sketch::PcwAt { .. } => 6 * (n / 6 + 2),
    }
}

fn reach(n: u64, line: &Line) -> u64
    requires { n < 2 ^ 40 }
    ensures exact { result ≡ syllable_after_card n line.now.says }
    ensures near { result ≤ n + 12 }
{
    match &line.says {
        Ok(statement) => match statement {
            Statement::Operator { sketch, .. } => behind_sketch(sketch, n),
            Statement::Segment { .. } => n,
            Statement::Row { .. } => n,
            Statement::Values { .. } => n,
            Statement::Entry { .. } => n,
        },
        Err(_) => n,
    }
}

// What each name means: its first definition.
fn meanings_of<'a>(
    alloc: Global,
    lines: &'a [Line],
) -> Result<IndexMap<&'a [u8], Named>, AllocError>
    requires { length lines.now < 2 ^ 31 }
    ensures { IfOk result (λ m. (q : List ℕ) → meaning (name_entries m.entries) q ≡ meaning (definitions 0 0 lines.now) q) }
{
    let mut names = IndexMap::new(alloc);
    let mut segments: u32 = 0;
    let mut rows: u32 = 0;
    for line in lines {
        define_line(&mut names, line, segments, rows)?;
        segments = segments_behind(segments, line);
        rows = rows_behind(rows, line);
    }
    Ok(names)
}

/// The syllable of each label: its first place.
pub fn labels_of<'a>(
    alloc: Global,
    lines: &'a [Line],
) -> Result<IndexMap<&'a [u8], u64>, AllocError>
    requires { length lines.now < 2 ^ 31 }
    ensures { IfOk result (λ m. (q : List ℕ) → meaning (label_entries m.entries) q ≡ meaning (labels 0 lines.now) q) }
{
    let mut labels = IndexMap::new(alloc);
    let mut n: u64 = 0;
    for line in lines {
        label_line(&mut labels, line, n)?;
        n = reach(n, line);
    }
    Ok(labels)
}

// Adds the label that a card names, if it is an ENTRY.
fn enter_line<'a>(entries: &mut IndexMap<&'a [u8], u64>, line: &'a Line) -> Result<(), AllocError>
    ensures { OnOk result ((q : List ℕ) → is_some (meaning (label_entries entries.new.entries) q) ≡ (is_some (meaning (label_entries entries.old.entries) q) || names_entry q line.now.says)) }
{
    match &line.says {
        Ok(statement) => enter_statement(entries, statement),
        Err(_) => Ok(()),
    }
}

fn enter_statement<'a>(
    entries: &mut IndexMap<&'a [u8], u64>,
    statement: &'a Statement,
) -> Result<(), AllocError>
    ensures { OnOk result ((q : List ℕ) → is_some (meaning (label_entries entries.new.entries) q) ≡ (is_some (meaning (label_entries entries.old.entries) q) || names_entry q (Ok statement.now))) }
{
    match statement {
        Statement::Entry { label } => define_at(entries, label.as_str().as_bytes(), 0),
        Statement::Segment { .. } => Ok(()),
        Statement::Row { .. } => Ok(()),
        Statement::Values { .. } => Ok(()),
        Statement::Operator { .. } => Ok(()),
    }
}

// The labels that ENTRY cards name.
fn entries_of<'a>(alloc: Global, lines: &'a [Line]) -> Result<IndexMap<&'a [u8], u64>, AllocError>
    ensures { IfOk result (λ m. (q : List ℕ) → is_some (meaning (label_entries m.entries) q) ≡ list_any (λ l. names_entry q l.says) lines.now) }
{
    let mut entries = IndexMap::new(alloc);
    for line in lines {
        enter_line(&mut entries, line)?;
    }
    Ok(entries)
}

// The labels of a segment's own cards.
fn labels_in<'a>(alloc: Global, lines: &'a [Line]) -> Result<Labels<'a>, AllocError>
    requires { length lines.now < 2 ^ 31 }
    ensures { IfOk result (λ labels. HoldsLabels labels lines.now) }
{
    let places = labels_of(alloc, lines)?;
    let entries = entries_of(alloc, lines)?;
    Ok(Labels { places, entries })
}

fn begins_segment(line: &Line) -> bool
    ensures { result ≡ begins_segment line.now.says }
{
    match &line.says {
        Ok(Statement::Segment { .. }) => true,
        _ => false,
    }
}

// The labels of each segment.
fn segments_of<'a>(alloc: Global, lines: &'a [Line]) -> Result<Vec<Labels<'a>>, AllocError>
    requires { length lines.now < 2 ^ 31 }
    ensures { IfOk result (λ segments. HoldLabels segments.items (cards_of_segments lines.now)) }
{
    let mut segments = Vec::new(alloc);
    let mut rest = lines;
    while let [line, more @ ..] = rest {
        if begins_segment(line) {
            let labels = labels_in(alloc, own_of(more))?;
            segments.push(labels)?;
        }
        rest = more;
    }
    Ok(segments)
}

/// What cards may name.
pub fn names_of<'a>(alloc: Global, lines: &'a [Line]) -> Result<Names<'a>, AllocError>
    requires { length lines.now < 2 ^ 31 }
    ensures { IfOk result (λ names. names_in names ≡ names_of lines.now) }
{
    let meanings = meanings_of(alloc, lines)?;
    let segments = segments_of(alloc, lines)?;
    Ok(Names { meanings, segments })
}
