ghost use Rattle.b67_model_text.specs.Asm as asm;
ghost use Rattle.std.specs.Prelude.{◌≡◌, ◌+◌, ◌≤◌, ◌<◌, ◌^◌, false, length, [], OnOk, IfOk};
ghost use Rattle.std.specs.List.{list_any};
ghost use Rattle.b67_asm.specs.Scope.{names_in, scope_at};
ghost use Rattle.b67_asm.specs.Putting.{CodePut, put_behind, code_count};
ghost use Rattle.b67_asm.specs.Blocks.{segment_head, row_head, SegmentPut, RowPartPut, SegmentAdded, RowAdded, PartPut, Grows, has_entry_card};
ghost use Rattle.b67_model.specs.declared.limits.TheConstants.{MOST_PARTS};

use crate::fault::AsmFault;
use crate::names::{Names, labels_of, meaning_of};
use crate::operator::{Scope, misplaced};
use crate::row::words_in;
use crate::segment::{Coded, code_in};
use b67_codefile::{Codefile, Segment};
use b67_model::MOST_PARTS;
use b67_model_text::{Kind, Line, Named, Statement};
use b67_word::Words;
use std::alloc::Global;

// Segments and data rows, each from its card and the cards behind it.

/// A card that begins a segment or a data row, by its number and name, with what stands before it and its own cards.
#[derive(Clone, Copy)]
pub struct Block<'a> {
    pub number: u32,
    pub name: &'a [u8],
    pub segments: usize,
    pub rows: usize,
    pub own: &'a [Line],
}

fn is_numbers(kind: Kind) -> bool
    ensures { result ≡ asm.is_numbers kind }
{
    match kind {
        Kind::Numbers => true,
        Kind::Segment | Kind::Row | Kind::Entry | Kind::Operator => false,
    }
}

fn has_numbers(lines: &[Line]) -> bool
    ensures { result ≡ list_any (λ l. asm.is_numbers l.kind) lines.now }
{
    lines.iter().any(|l| is_numbers(l.kind))
}

fn is_entry_card(line: &Line) -> bool
    ensures { result ≡ asm.is_entry_card line.now.kind line.now.says }
{
    match &line.says {
        Ok(Statement::Entry { .. }) => true,
        Ok(_) => false,
        Err(_) => line.kind == Kind::Entry,
    }
}

fn is_code(line: &Line) -> bool
    ensures { result ≡ asm.is_code line.now }
{
    !is_numbers(line.kind) && !is_entry_card(line)
}

fn has_code(lines: &[Line]) -> bool
    ensures { result ≡ list_any asm.is_code lines.now }
{
    lines.iter().any(|l| is_code(l))
}

fn is_segment_number(count: usize, named: Option<Named>) -> bool
    ensures { result ≡ asm.is_segment_number count named }
{
    match named {
        Some(Named::Segment { number, .. }) => number as usize == count,
        _ => false,
    }
}

fn is_row_number(count: usize, named: Option<Named>) -> bool
    ensures { result ≡ asm.is_row_number count named }
{
    match named {
        Some(Named::Row { number }) => number as usize == count,
        _ => false,
    }
}

#[tactic(auto, using(crate::proofs::Parts::code_some))]
fn level_of<'a>(names: &Names<'a>, block: &Block<'a>, level: Option<u8>) -> Result<u8, u8>
    requires { block.now.segments + block.now.rows ≤ MOST_PARTS }
    ensures exact { result ≡ segment_head (names_in names.now) block.now.segments block.now.rows block.now.name.now level block.now.own.now }
    ensures small { IfOk result (λ l. l < 2 ^ 8) }
    ensures room { OnOk result (block.now.segments + block.now.rows < MOST_PARTS) }
    ensures some { OnOk result (1 ≤ code_count block.now.own.now) }
{
    match level {
        None => Err(3),
        Some(level) => {
            if !is_segment_number(block.segments, meaning_of(&names.meanings, block.name)) {
                return Err(4);
            }
            if !has_code(block.own) {
                return Err(7);
            }
            if block.segments + block.rows < MOST_PARTS as usize {
                Ok(level)
            } else {
                Err(9)
            }
        }
    }
}

#[tactic(auto, using(crate::proofs::Parts::any_some))]
fn check_row<'a>(names: &Names<'a>, block: &Block<'a>) -> Result<(), u8>
    requires { block.now.segments + block.now.rows ≤ MOST_PARTS }
    ensures exact { result ≡ row_head (names_in names.now) block.now.segments block.now.rows block.now.name.now block.now.own.now }
    ensures room { OnOk result (block.now.segments + block.now.rows < MOST_PARTS) }
    ensures some { OnOk result (1 ≤ length block.now.own.now) }
{
    if !is_row_number(block.rows, meaning_of(&names.meanings, block.name)) {
        return Err(4);
    }
    if !has_numbers(block.own) {
        return Err(7);
    }
    if block.segments + block.rows < MOST_PARTS as usize {
        Ok(())
    } else {
        Err(9)
    }
}

// The code and the entries of a segment's own cards.
fn segment_code<'a>(
    alloc: Global,
    names: &Names<'a>,
    segments: u32,
    level: u8,
    own: &'a [Line],
) -> Result<Coded, AsmFault>
    requires { length own.now < 2 ^ 31 }
    ensures { CodePut result (put_behind [] (asm.content_of (scope_at (names_in names.now) segments level own.now) own.now)) (code_count own.now) }
{
    let labels = labels_of(alloc, own)?;
    let scope = Scope {
        names,
        labels: &labels,
        segments,
        level,
    };
    code_in(alloc, &scope, own)
}

fn segment_in<'a>(
    alloc: Global,
    names: &Names<'a>,
    segments: u32,
    block: &Block<'a>,
    level: Option<u8>,
) -> Result<Segment, AsmFault>
    requires counts { block.now.segments + block.now.rows ≤ MOST_PARTS }
    requires small { length block.now.own.now < 2 ^ 31 }
    ensures exact { SegmentPut result (asm.segment_part (names_in names.now) segments block.now.segments block.now.rows block.now.number block.now.name.now level block.now.own.now) block.now.own.now }
    ensures room { OnOk result (block.now.segments + block.now.rows < MOST_PARTS) }
{
    match level_of(names, block, level) {
        Ok(level) => match segment_code(alloc, names, segments, level, block.own) {
            Ok(coded) => Ok(Segment {
                level,
                entries: coded.entries,
                code: coded.code,
            }),
            Err(fault) => Err(fault),
        },
        Err(reason) => Err(AsmFault::Card {
            card: block.number,
            reason,
        }),
    }
}

fn row_in<'a>(alloc: Global, names: &Names<'a>, block: &Block<'a>) -> Result<Words, AsmFault>
    requires { block.now.segments + block.now.rows ≤ MOST_PARTS }
    ensures exact { RowPartPut result (asm.row_part (names_in names.now) block.now.segments block.now.rows block.now.number block.now.name.now block.now.own.now) }
    ensures room { OnOk result (block.now.segments + block.now.rows < MOST_PARTS) }
{
    match check_row(names, block) {
        Ok(()) => match words_in(alloc, names, block.own) {
            Ok(words) => Ok(words),
            Err(fault) => Err(fault),
        },
        Err(reason) => Err(AsmFault::Card {
            card: block.number,
            reason,
        }),
    }
}

#[tactic(auto, using(crate::proofs::Parts::all_one, crate::proofs::Parts::all_plain))]
fn put_segment<'a>(
    alloc: Global,
    names: &Names<'a>,
    segments: u32,
    block: &Block<'a>,
    level: Option<u8>,
    file: &mut Codefile,
) -> Result<(), AsmFault>
    requires grows { Grows file.old }
    requires segments { block.now.segments ≡ length file.old.segments }
    requires rows { block.now.rows ≡ length file.old.rows }
    requires small { length block.now.own.now < 2 ^ 31 }
    requires plain { file.old.version ≡ 1 → has_entry_card block.now.own.now ≡ false }
    ensures { SegmentAdded result (asm.segment_part (names_in names.now) segments block.now.segments block.now.rows block.now.number block.now.name.now level block.now.own.now) file.old file.new }
{
    match segment_in(alloc, names, segments, block, level) {
        Ok(segment) => {
            file.segments.push(segment)?;
            Ok(())
        }
        Err(fault) => Err(fault),
    }
}

#[tactic(auto, using(crate::proofs::Parts::all_one))]
fn put_row<'a>(
    alloc: Global,
    names: &Names<'a>,
    block: &Block<'a>,
    file: &mut Codefile,
) -> Result<(), AsmFault>
    requires grows { Grows file.old }
    requires segments { block.now.segments ≡ length file.old.segments }
    requires rows { block.now.rows ≡ length file.old.rows }
    ensures { RowAdded result (asm.row_part (names_in names.now) block.now.segments block.now.rows block.now.number block.now.name.now block.now.own.now) file.old file.new }
{
    match row_in(alloc, names, block) {
        Ok(words) => {
            file.rows.push(words)?;
            Ok(())
        }
        Err(fault) => Err(fault),
    }
}

fn block_of<'a>(number: u32, name: &'a [u8], own: &'a [Line], file: &Codefile) -> Block<'a>
    ensures number { result.number ≡ number }
    ensures name { result.name.now ≡ name.now }
    ensures own { result.own.now ≡ own.now }
    ensures segments { result.segments ≡ length file.now.segments }
    ensures rows { result.rows ≡ length file.now.rows }
{
    Block {
        number,
        name,
        segments: file.segments.as_slice().len(),
        rows: file.rows.as_slice().len(),
        own,
    }
}

/// Puts the segment or data row that a card begins behind those of a codefile.
pub fn put_part<'a>(
    alloc: Global,
    names: &Names<'a>,
    segments: u32,
    line: &'a Line,
    own: &'a [Line],
    file: &mut Codefile,
) -> Result<(), AsmFault>
    requires grows { Grows file.old }
    requires small { length own.now < 2 ^ 31 }
    requires plain { file.old.version ≡ 1 → has_entry_card own.now ≡ false }
    ensures { PartPut result (asm.program_part (names_in names.now) segments (length file.old.segments) (length file.old.rows) line.now.number line.now.says own.now) line.now file.old file.new }
{
    match &line.says {
        Err(reason) => Err(AsmFault::Card {
            card: line.number,
            reason: *reason,
        }),
        Ok(statement) => match statement {
            Statement::Segment { name, level } => {
                let block = block_of(line.number, name.as_str().as_bytes(), own, file);
                put_segment(alloc, names, segments, &block, *level, file)
            }
            Statement::Row { name } => {
                let block = block_of(line.number, name.as_str().as_bytes(), own, file);
                put_row(alloc, names, &block, file)
            }
            Statement::Values { .. } => Err(AsmFault::Card {
                card: line.number,
                reason: misplaced(names, statement),
            }),
            Statement::Operator { .. } => Err(AsmFault::Card {
                card: line.number,
                reason: misplaced(names, statement),
            }),
            Statement::Entry { .. } => Err(AsmFault::Card {
                card: line.number,
                reason: misplaced(names, statement),
            }),
        },
    }
}
