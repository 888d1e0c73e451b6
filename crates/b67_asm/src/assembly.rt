//! The codefile of assembly cards.

ghost use Rattle.b67_model_text.specs.Asm as asm;
ghost use Rattle.std.specs.Prelude.{◌≡◌, ◌⊎◌, ◌+◌, ◌<◌, ◌^◌, length, [], false};
ghost use Rattle.b67_asm.specs.Scope.{names_in};
ghost use Rattle.b67_asm.specs.Blocks.{IsAssembled, IsChecked, assembled_lines, with_names, has_entry_card};

use crate::block::put_part;
use crate::cards::{is_head, own_from};
use crate::fault::AsmFault;
use crate::names::{Names, names_of, segments_behind};
use crate::operator::misplaced;
use crate::statement::lines_of;
use b67_codefile::{Codefile, Rows, Segments};
use b67_model_text::{Cards, Line, Statement};
use std::alloc::Global;

fn says_entry(line: &Line) -> bool
    ensures { result ≡ asm.says_entry line.now.says }
{
    match &line.says {
        Ok(Statement::Entry { .. }) => true,
        _ => false,
    }
}

fn has_entry_card(lines: &[Line]) -> bool
    ensures { result ≡ has_entry_card lines.now }
{
    lines.iter().any(|l| says_entry(l))
}

// Cards make a file of version 2 if one of them is an ENTRY.
fn version_in(lines: &[Line]) -> u8
    ensures exact { result ≡ asm.version_in lines.now }
    ensures either { (result ≡ 1) ⊎ (result ≡ 2) }
    ensures plain { result ≡ 1 → has_entry_card lines.now ≡ false }
{
    if has_entry_card(lines) { 2 } else { 1 }
}

fn segment_count(lines: &[Line]) -> u32
    requires { length lines.now < 2 ^ 31 }
    ensures { result ≡ asm.segment_count 0 lines.now }
{
    let mut segments: u32 = 0;
    for line in lines {
        segments = segments_behind(segments, line);
    }
    segments
}

#[tactic(auto, using(crate::proofs::Program::none_before))]
fn program_in<'a>(
    alloc: Global,
    names: &Names<'a>,
    segments: u32,
    lines: &'a [Line],
) -> Result<Codefile, AsmFault>
    requires { length lines.now < 2 ^ 31 }
    ensures { IsAssembled result (asm.version_in lines.now) (asm.program_from (names_in names.now) segments 0 0 lines.now) }
{
    let mut file = Codefile {
        version: version_in(lines),
        segments: Segments::new(alloc),
        rows: Rows::new(alloc),
    };
    let mut next = 0;
    for line in lines {
        next += 1;
        if is_head(line.kind) {
            let own = own_from(lines, next);
            put_part(alloc, names, segments, line, own, &mut file)?;
        }
    }
    Ok(file)
}

// A card that stands before all segments and data rows is refused.
fn check_front<'a>(names: &Names<'a>, lines: &'a [Line]) -> Result<(), AsmFault>
    ensures { IsChecked result (asm.no_strays (names_in names.now) lines.now) }
{
    match lines {
        [] => Ok(()),
        [line, ..] => {
            if is_head(line.kind) {
                return Ok(());
            }
            let reason = match &line.says {
                Ok(statement) => misplaced(names, statement),
                Err(reason) => *reason,
            };
            Err(AsmFault::Card {
                card: line.number,
                reason,
            })
        }
    }
}

fn with_names<'a>(alloc: Global, names: &Names<'a>, lines: &'a [Line]) -> Result<Codefile, AsmFault>
    requires { length lines.now < 2 ^ 31 }
    ensures { IsAssembled result (asm.version_in lines.now) (with_names (names_in names.now) lines.now) }
{
    match check_front(names, lines) {
        Ok(()) => program_in(alloc, names, segment_count(lines), lines),
        Err(fault) => Err(fault),
    }
}

fn assemble_lines(alloc: Global, lines: &[Line]) -> Result<Codefile, AsmFault>
    ensures { IsAssembled result (asm.version_in lines.now) (assembled_lines lines.now) }
{
    if lines.len() >= 0x8000_0000 {
        return Err(AsmFault::Memory);
    }
    let names = names_of(alloc, lines)?;
    with_names(alloc, &names, lines)
}

/// The codefile that cards denote, or the first refused card with its lowest reason. More than 2,147,483,647 cards are
/// more than memory is taken for.
pub fn assemble(alloc: Global, cards: &Cards) -> Result<Codefile, AsmFault>
    ensures { IsAssembled result (asm.version_of cards.now) (asm.assembled cards.now) }
{
    let lines = lines_of(alloc, cards.as_slice())?;
    assemble_lines(alloc, lines.as_slice())
}
