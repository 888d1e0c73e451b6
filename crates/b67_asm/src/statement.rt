ghost use Rattle.b67_model.specs.declared.operators.Mnemonic.TheVariants as names;
ghost use Rattle.b67_model_text.specs.Statements as spec;
ghost use Rattle.std.specs.Prelude.{◌≡◌, ◌-◌, [], ◌∷◌, ◌≤◌, map, take, IfOk, IfSome, length};
ghost use Rattle.std.specs.Option.{option_and_then};
ghost use Rattle.b67_model_text.specs.Answers.{or_reason};
ghost use Rattle.b67_model_text.specs.Command.{row_of, parted};
ghost use Rattle.b67_asm.specs.Rows.{key_and_mnemonic, ValuesPut};

use crate::number::{bits_in, numeral_up_to};
use b67_card::{name, parted, words};
use b67_model::{Mnemonic, OPERATORS, Op};
use b67_model_text::{Branch, Call, Card, Kind, Line, Lines, Name, Sketch, Statement, Values};
use b67_word::Couple;
use std::alloc::{AllocError, Global};

// What an assembly card says by itself.

fn look_up(rows: &[(u8, &[u8], Mnemonic)], word: &[u8]) -> Option<Mnemonic>
    ensures { result ≡ row_of word.now (map key_and_mnemonic rows.now) }
{
    for row in rows {
        if row.1 == word {
            return Some(row.2);
        }
    }
    None
}

fn mnemonic_of(word: &[u8]) -> Option<Mnemonic>
    ensures { result ≡ row_of word.now spec.mnemonics }
{
    look_up(&OPERATORS, word)
}

fn jump_to(branch: Branch, word: &[u8]) -> Option<Sketch>
    ensures { result ≡ spec.jump_to branch word.now }
{
    let label = name(word)?;
    Some(Sketch::Jump { branch, label })
}

fn pcw_at(segment: &[u8], label: &[u8]) -> Option<Sketch>
    ensures { result ≡ spec.pcw_at (segment.now, label.now) }
{
    let segment = name(segment)?;
    let label = name(label)?;
    Some(Sketch::PcwAt { segment, label })
}

fn pcw_named(word: &[u8]) -> Option<Sketch>
    ensures { result ≡ spec.pcw_named word.now }
{
    let segment = name(word)?;
    Some(Sketch::Pcw { segment })
}

// A procedure by its segment's name, or by a name and a label of that segment.
fn pcw_of(word: &[u8]) -> Option<Sketch>
    ensures { result ≡ spec.pcw_of word.now }
{
    match parted(word, b':') {
        Some((segment, label)) => pcw_at(segment, label),
        None => pcw_named(word),
    }
}

fn row_call(call: Call, word: &[u8]) -> Option<Sketch>
    ensures { result ≡ spec.row_call call word.now }
{
    let row = name(word)?;
    Some(Sketch::Row { call, row })
}

fn couple_of(level: Option<u64>, disp: Option<u64>) -> Option<Couple>
    requires level { IfSome level (λ n. n ≤ 255) }
    requires disp { IfSome disp (λ n. n ≤ 16383) }
    ensures { result ≡ spec.couple_of level disp }
{
    match level {
        Some(level) => match disp {
            Some(disp) => Some(Couple {
                level: level as u8,
                disp: disp as u16,
            }),
            None => None,
        },
        None => None,
    }
}

// A couple, whose displacement may be a row's name at level 1.
fn couple_in(call: Call, level: &[u8], disp: &[u8]) -> Option<Sketch>
    ensures { result ≡ spec.couple_in call (level.now, disp.now) }
{
    let level = numeral_up_to(level, 255)?;
    match numeral_up_to(disp, 16_383) {
        Some(n) => Some(Sketch::Couple {
            call,
            couple: couple_of(level, n),
        }),
        None => {
            if level == Some(1) {
                row_call(call, disp)
            } else {
                None
            }
        }
    }
}

fn two_numbers(is_insert: bool, high: &[u8], width: &[u8]) -> Option<Sketch>
    ensures { result ≡ spec.two_numbers (spec.field_operator is_insert) (high.now, width.now) }
{
    let high = numeral_up_to(high, 255)?;
    let width = numeral_up_to(width, 255)?;
    match high {
        Some(high) => match width {
            Some(width) => {
                if is_insert {
                    Some(Sketch::Whole(Op::Insr(high as u8, width as u8)))
                } else {
                    Some(Sketch::Whole(Op::Isol(high as u8, width as u8)))
                }
            }
            None => Some(Sketch::OutOfRange),
        },
        None => Some(Sketch::OutOfRange),
    }
}

fn call_of(call: Call, word: &[u8]) -> Option<Sketch>
    ensures { result ≡ option_and_then (spec.couple_in call) (parted 44 word.now) }
{
    let (level, disp) = parted(word, b',')?;
    couple_in(call, level, disp)
}

fn field_of(is_insert: bool, word: &[u8]) -> Option<Sketch>
    ensures { result ≡ option_and_then (spec.two_numbers (spec.field_operator is_insert)) (parted 44 word.now) }
{
    let (high, width) = parted(word, b',')?;
    two_numbers(is_insert, high, width)
}

fn literal_8(word: &[u8]) -> Option<Sketch>
    ensures { result ≡ spec.with_operand names.Lt8 word.now }
{
    match numeral_up_to(word, 255)? {
        Some(n) => Some(Sketch::Whole(Op::Lt8(n as u8))),
        None => Some(Sketch::OutOfRange),
    }
}

fn literal_16(word: &[u8]) -> Option<Sketch>
    ensures { result ≡ spec.with_operand names.Lt16 word.now }
{
    match numeral_up_to(word, 65_535)? {
        Some(n) => Some(Sketch::Whole(Op::Lt16(n as u16))),
        None => Some(Sketch::OutOfRange),
    }
}

fn literal_48(word: &[u8]) -> Option<Sketch>
    ensures { result ≡ spec.with_operand names.Lt48 word.now }
{
    match bits_in(word)? {
        Some(bits) => Some(Sketch::Whole(Op::Lt48(bits))),
        None => Some(Sketch::OutOfRange),
    }
}

fn set_bit(word: &[u8]) -> Option<Sketch>
    ensures { result ≡ spec.with_operand names.Bset word.now }
{
    match numeral_up_to(word, 47)? {
        Some(n) => Some(Sketch::Whole(Op::Bset(n as u8))),
        None => Some(Sketch::OutOfRange),
    }
}

fn reset_bit(word: &[u8]) -> Option<Sketch>
    ensures { result ≡ spec.with_operand names.Brst word.now }
{
    match numeral_up_to(word, 47)? {
        Some(n) => Some(Sketch::Whole(Op::Brst(n as u8))),
        None => Some(Sketch::OutOfRange),
    }
}

fn with_operand(mnemonic: Mnemonic, word: &[u8]) -> Option<Sketch>
    ensures { result ≡ spec.with_operand mnemonic word.now }
{
    match mnemonic {
        Mnemonic::Plain(_) => None,
        Mnemonic::Valc => call_of(Call::Value, word),
        Mnemonic::Namc => call_of(Call::Name, word),
        Mnemonic::Brun => jump_to(Branch::Always, word),
        Mnemonic::Brtr => jump_to(Branch::IfTrue, word),
        Mnemonic::Brfl => jump_to(Branch::IfFalse, word),
        Mnemonic::Lt8 => literal_8(word),
        Mnemonic::Lt16 => literal_16(word),
        Mnemonic::Lt48 => literal_48(word),
        Mnemonic::Mpcw => pcw_of(word),
        Mnemonic::Bset => set_bit(word),
        Mnemonic::Brst => reset_bit(word),
        Mnemonic::Isol => field_of(false, word),
        Mnemonic::Insr => field_of(true, word),
    }
}

fn sketch_of(mnemonic: Mnemonic, operands: &[&[u8]]) -> Option<Sketch>
    ensures { result ≡ spec.sketch_of mnemonic (map (λ w. w.now) operands.now) }
{
    match operands {
        [] => match mnemonic {
            Mnemonic::Plain(code) => Some(Sketch::Whole(Op::Plain(code))),
            _ => None,
        },
        [word, more @ ..] => {
            if more.is_empty() {
                with_operand(mnemonic, word)
            } else {
                None
            }
        }
    }
}

fn segment_at(word: &[u8], level: &[u8]) -> Option<Statement>
    ensures { result ≡ spec.segment (word.now ∷ level.now ∷ []) }
{
    let name = name(word)?;
    match numeral_up_to(level, 255)? {
        Some(n) => Some(Statement::Segment {
            name,
            level: Some(n as u8),
        }),
        None => Some(Statement::Segment { name, level: None }),
    }
}

fn segment(parameters: &[&[u8]]) -> Option<Statement>
    ensures { result ≡ spec.segment (map (λ w. w.now) parameters.now) }
{
    match parameters {
        [word, level] => segment_at(word, level),
        _ => None,
    }
}

fn row_named(word: &[u8]) -> Option<Statement>
    ensures { result ≡ spec.row_named word.now }
{
    let name = name(word)?;
    Some(Statement::Row { name })
}

fn row(parameters: &[&[u8]]) -> Option<Statement>
    ensures { result ≡ spec.row (map (λ w. w.now) parameters.now) }
{
    match parameters {
        [] => None,
        [word, more @ ..] => {
            if more.is_empty() {
                row_named(word)
            } else {
                None
            }
        }
    }
}

fn entry_named(word: &[u8]) -> Option<Statement>
    ensures { result ≡ spec.entry_named word.now }
{
    let label = name(word)?;
    Some(Statement::Entry { label })
}

fn entry(parameters: &[&[u8]]) -> Option<Statement>
    ensures { result ≡ spec.entry (map (λ w. w.now) parameters.now) }
{
    match parameters {
        [] => None,
        [word, more @ ..] => {
            if more.is_empty() {
                entry_named(word)
            } else {
                None
            }
        }
    }
}

// Appends the words of a data row, and answers whether all are well formed.
fn put_values(words: &[&[u8]], into: &mut Values) -> Result<bool, AllocError>
    ensures { ValuesPut result (spec.all_bits (map (λ w. w.now) words.now)) into.old into.new }
{
    for word in words {
        match bits_in(word) {
            Some(value) => into.push(value)?,
            None => return Ok(false),
        }
    }
    Ok(true)
}

fn num(alloc: Global, words: &[&[u8]]) -> Result<Option<Statement>, AllocError>
    ensures { IfOk result (λ o. o ≡ spec.num (map (λ w. w.now) words.now)) }
{
    match words {
        [] => Ok(None),
        [word, rest @ ..] => match bits_in(word) {
            None => Ok(None),
            Some(first) => {
                let mut more = Values::new(alloc);
                if put_values(rest, &mut more)? {
                    Ok(Some(Statement::Values { first, more }))
                } else {
                    Ok(None)
                }
            }
        },
    }
}

fn operator(label: Option<Name>, words: &[&[u8]]) -> Result<Statement, u8>
    ensures { result ≡ spec.operator label (map (λ w. w.now) words.now) }
{
    match words {
        [] => Err(1),
        [key, operands @ ..] => match mnemonic_of(key) {
            None => Err(1),
            Some(mnemonic) => match sketch_of(mnemonic, operands) {
                None => Err(2),
                Some(sketch) => Ok(Statement::Operator { label, sketch }),
            },
        },
    }
}

fn is_label(word: &[u8]) -> bool
    ensures { result ≡ spec.is_label word.now }
{
    match word.last() {
        Some(last) => *last == b':',
        None => false,
    }
}

fn labelled(words: &[&[u8]]) -> Result<Statement, u8>
    ensures { result ≡ spec.labelled (map (λ w. w.now) words.now) }
{
    match words {
        [] => Err(1),
        [word, more @ ..] => {
            if !is_label(word) {
                return operator(None, words);
            }
            match name(without_last(word)) {
                Some(label) => operator(Some(label), more),
                None => Err(1),
            }
        }
    }
}

fn without_last(word: &[u8]) -> &[u8]
    ensures { result.now ≡ take (length word.now - 1) word.now }
{
    match word {
        [front @ .., _] => front,
        [] => word,
    }
}

fn kind_of(word: &[u8]) -> Kind
    ensures { result ≡ spec.kind_of word.now }
{
    match word {
        b"SEGMENT" => Kind::Segment,
        b"ROW" => Kind::Row,
        b"NUM" => Kind::Numbers,
        b"ENTRY" => Kind::Entry,
        _ => Kind::Operator,
    }
}

fn or_malformed(statement: Option<Statement>) -> Result<Statement, u8>
    ensures { result ≡ or_reason statement 2 }
{
    match statement {
        Some(statement) => Ok(statement),
        None => Err(2),
    }
}

fn statement_of(alloc: Global, words: &[&[u8]]) -> Result<Result<Statement, u8>, AllocError>
    ensures { IfOk result (λ answer. answer ≡ spec.statement_of (map (λ w. w.now) words.now)) }
{
    match words {
        [] => Ok(Err(1)),
        [word, more @ ..] => match kind_of(word) {
            Kind::Segment => Ok(or_malformed(segment(more))),
            Kind::Row => Ok(or_malformed(row(more))),
            Kind::Numbers => {
                let statement = num(alloc, more)?;
                Ok(or_malformed(statement))
            }
            Kind::Entry => Ok(or_malformed(entry(more))),
            Kind::Operator => Ok(labelled(words)),
        },
    }
}

fn without_comment(text: &[u8]) -> &[u8]
    ensures { result.now ≡ spec.without_comment text.now }
{
    match parted(text, b';') {
        Some((front, _)) => front,
        None => text,
    }
}

fn line_with(alloc: Global, number: u32, words: &[&[u8]]) -> Result<Option<Line>, AllocError>
    ensures { IfOk result (λ o. o ≡ spec.line_with number (map (λ w. w.now) words.now)) }
{
    match words {
        [] => Ok(None),
        [word, ..] => {
            let says = statement_of(alloc, words)?;
            Ok(Some(Line {
                number,
                kind: kind_of(word),
                says,
            }))
        }
    }
}

fn line_of(alloc: Global, card: &Card) -> Result<Option<Line>, AllocError>
    ensures { IfOk result (λ o. o ≡ spec.line_of card.now) }
{
    let words = words(alloc, without_comment(card.text.as_str().as_bytes()))?;
    line_with(alloc, card.number, words.as_slice())
}

/// The cards that aren't ignored, with what each says.
pub fn lines_of(alloc: Global, cards: &[Card]) -> Result<Lines, AllocError>
    ensures { IfOk result (λ lines. lines ≡ spec.lines_of cards.now) }
{
    let mut lines = Lines::new(alloc);
    for card in cards {
        match line_of(alloc, card)? {
            Some(line) => lines.push(line)?,
            None => {}
        }
    }
    Ok(lines)
}
