ghost use Rattle.b67_model_text.specs.Asm as asm;
ghost use Rattle.std.specs.Prelude.{◌≡◌, ◌∷◌, ◌++◌, ◌≤◌, ◌<◌, ◌+◌, not, map, length, OnOk, IsTrue, IsFalse};
ghost use Rattle.std.specs.List.{list_any, AllByRecursion};
ghost use Rattle.b67_word.specs.Tagged.{word, contents};
ghost use Rattle.b67_codefile.specs.Spelling.{HasTag};
ghost use Rattle.b67_asm.specs.Scope.{names_in};
ghost use Rattle.b67_asm.specs.RowPutting.{WordsPut, RowPut, line_words, checked_values};
ghost use Rattle.b67_model.specs.declared.limits.TheConstants.{MOST_ARRAY};

use crate::fault::{AsmFault, Refused};
use crate::names::Names;
use crate::operator::{is_bad, misplaced};
use b67_model::MOST_ARRAY;
use b67_model_text::{Line, Statement};
use b67_word::{Word, Words};
use std::alloc::{AllocError, Global};

// The words of a data row's cards.

fn word_of(value: Option<u64>) -> Word
    requires { IsTrue (asm.is_word value) }
    ensures same { result ≡ word 0 (asm.value_in value) }
    ensures bears { HasTag 0 result }
{
    match value {
        Some(bits) => Word::of(0, bits),
        None => Word::of(0, 0),
    }
}

fn put_more(values: &[Option<u64>], into: &mut Words) -> Result<(), AllocError>
    requires { IsFalse (list_any (λ v. not (asm.is_word v)) values.now) }
    ensures words { OnOk result (contents into.new ≡ contents into.old ++ map asm.value_in values.now) }
    ensures tags { OnOk result (AllByRecursion (HasTag 0) into.old → AllByRecursion (HasTag 0) into.new) }
{
    for value in values {
        into.push(word_of(*value))?;
    }
    Ok(())
}

fn put_values(first: Option<u64>, more: &[Option<u64>], into: &mut Words) -> Result<(), AllocError>
    requires { IsFalse (list_any (λ v. not (asm.is_word v)) (first ∷ more.now)) }
    ensures words { OnOk result (contents into.new ≡ contents into.old ++ map asm.value_in (first ∷ more.now)) }
    ensures tags { OnOk result (AllByRecursion (HasTag 0) into.old → AllByRecursion (HasTag 0) into.new) }
{
    into.push(word_of(first))?;
    put_more(more, into)
}

fn put_statement<'a>(
    names: &Names<'a>,
    statement: &'a Statement,
    into: &mut Words,
) -> Result<(), Refused>
    requires { length into.old ≤ MOST_ARRAY }
    ensures { WordsPut result (asm.row_values (names_in names.now) (length into.old) statement.now) into.old into.new }
{
    match statement {
        Statement::Values { first, more } => put_checked(*first, more.as_slice(), into),
        _ => Err(Refused::Reason(misplaced(names, statement))),
    }
}

fn put_checked(first: Option<u64>, more: &[Option<u64>], into: &mut Words) -> Result<(), Refused>
    requires { length into.old ≤ MOST_ARRAY }
    ensures { WordsPut result (checked_values (length into.old) (first ∷ more.now)) into.old into.new }
{
    if is_bad(first, more) {
        return Err(Refused::Reason(3));
    }
    if more.len() >= (MOST_ARRAY as usize) - into.as_slice().len() {
        return Err(Refused::Reason(7));
    }
    put_values(first, more, into)?;
    Ok(())
}

fn put_line<'a>(names: &Names<'a>, line: &'a Line, into: &mut Words) -> Result<(), Refused>
    requires { length into.old ≤ MOST_ARRAY }
    ensures { WordsPut result (line_words (names_in names.now) (length into.old) line.now) into.old into.new }
{
    match &line.says {
        Ok(statement) => put_statement(names, statement, into),
        Err(reason) => Err(Refused::Reason(*reason)),
    }
}

/// The words of a data row's cards, or the first refused card.
pub fn words_in<'a>(alloc: Global, names: &Names<'a>, lines: &'a [Line]) -> Result<Words, AsmFault>
    ensures { RowPut result (asm.row_words (names_in names.now) 0 lines.now) (length lines.now) }
{
    let mut words = Words::new(alloc);
    for line in lines {
        match put_line(names, line, &mut words) {
            Ok(()) => {}
            Err(Refused::Reason(reason)) => {
                return Err(AsmFault::Card {
                    card: line.number,
                    reason,
                });
            }
            Err(Refused::Memory) => return Err(AsmFault::Memory),
        }
    }
    Ok(words)
}
