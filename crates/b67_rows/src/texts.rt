//! The lines of a text. What stands behind a line's mark, `<` or `>`, says how it is put: a line; `-`, without its end; `*`, for
//! each count; the mark again, a text by its name.

use crate::lines::parted;
use b67_word::Bytes;
use std::alloc::{AllocError, Global};

/// A text that is put for each count from the first one on, before the last one.
#[derive(Clone, Copy)]
struct Many<'a> {
    first: u32,
    last: u32,
    text: &'a str,
}

fn count_of(word: &str) -> Option<u32> {
    word.parse::<u32>().ok()
}

fn many_of(rest: &str) -> Option<Many<'_>> {
    let (first, rest) = parted(rest);
    let (last, text) = parted(rest);
    Some(Many {
        first: count_of(first)?,
        last: count_of(last)?,
        text,
    })
}

/// Whether a line is one that a text has by itself.
pub fn is_own_line(how: &str, rest: &str) -> bool {
    if how == "*" {
        return many_of(rest).is_some();
    }
    how.is_empty() || how == "-"
}

// The number that a byte represents in a text of many: `@` its count, `&` the next one, `%` 1 to 8 in turn.
fn number_of(byte: u8, count: u32) -> Option<u32> {
    match byte {
        b'@' => Some(count),
        b'&' => Some(count.saturating_add(1)),
        b'%' => Some(count % 8 + 1),
        _ => None,
    }
}

// Appends a byte of a text, or the number that it represents where the text is one of many.
fn put_byte(
    alloc: Global,
    bytes: &mut Bytes,
    byte: u8,
    count: Option<u32>,
) -> Result<(), AllocError> {
    match count.and_then(|count| number_of(byte, count)) {
        Some(number) => bytes.extend(format!(in alloc; "{number}")?.as_bytes()),
        None => bytes.push(byte),
    }
}

// Appends the byte that `\` and a letter are.
fn put_escaped(bytes: &mut Bytes, letter: u8) -> Result<(), AllocError> {
    bytes.push(match letter {
        b'n' => b'\n',
        b'r' => b'\r',
        b't' => b'\t',
        other => other,
    })
}

// Appends a byte of a text, behind a `\` or not.
fn put_next(
    alloc: Global,
    bytes: &mut Bytes,
    is_escaped: bool,
    byte: u8,
    count: Option<u32>,
) -> Result<(), AllocError> {
    if is_escaped {
        return put_escaped(bytes, byte);
    }
    if byte == b'\\' {
        return Ok(());
    }
    put_byte(alloc, bytes, byte, count)
}

// Appends a text, in which `\n`, `\r` and `\t` are such bytes, and `\\` is one `\`.
fn put_text(
    alloc: Global,
    bytes: &mut Bytes,
    text: &str,
    count: Option<u32>,
) -> Result<(), AllocError> {
    let mut is_escaped = false;
    for byte in text.as_bytes() {
        put_next(alloc, bytes, is_escaped, *byte, count)?;
        is_escaped = !is_escaped && *byte == b'\\';
    }
    Ok(())
}

fn put_many(alloc: Global, bytes: &mut Bytes, many: Many<'_>) -> Result<(), AllocError> {
    for count in many.first..many.last {
        put_text(alloc, bytes, many.text, Some(count))?;
    }
    Ok(())
}

/// Appends a line that a text has by itself.
pub fn put_own_line(
    alloc: Global,
    bytes: &mut Bytes,
    how: &str,
    rest: &str,
) -> Result<(), AllocError> {
    if how == "*" {
        return match many_of(rest) {
            Some(many) => put_many(alloc, bytes, many),
            None => Ok(()),
        };
    }
    put_text(alloc, bytes, rest, None)?;
    if how == "-" {
        return Ok(());
    }
    bytes.push(b'\n')
}
