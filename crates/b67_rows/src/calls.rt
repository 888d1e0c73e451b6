//! The two calls of a row.

use crate::lines::words_of;
use crate::row::Row;
use b67_io::{Paper, Tape};
use b67_word::{Bytes, Numbers};
use std::alloc::{AllocError, Global};

/// How many bytes of a text a read gives, if a row doesn't say it.
pub const PIECE: usize = 4096;

/// A command's words, what it reads and what it prints on.
#[derive(Drop)]
pub struct Call<'a> {
    pub words: Vec<&'a str>,
    pub tape: Tape,
    pub paper: Paper,
}

/// The first call, whose text is read in such pieces, with so much room to print.
pub fn first_call<'a>(
    alloc: Global,
    row: Row<'a>,
    piece: usize,
    room: usize,
) -> Result<Call<'a>, AllocError> {
    Ok(Call {
        words: row.words(alloc)?,
        tape: tape_of(alloc, row, piece)?,
        paper: Paper::new(alloc, room, row.numbers(alloc, "bad-puts")?)?,
    })
}

fn tape_of(alloc: Global, row: Row<'_>, piece: usize) -> Result<Tape, AllocError> {
    let text = row.text(alloc, '<')?;
    Ok(Tape::new(text, piece.max(1), row.numbers(alloc, "bad-reads")?))
}

/// A call of words on a text. None of its reads and puts fails.
pub fn call_on<'a>(
    alloc: Global,
    words: Vec<&'a str>,
    text: &[u8],
    room: usize,
) -> Result<Call<'a>, AllocError> {
    let mut bytes = Bytes::new(alloc);
    bytes.extend(text)?;
    Ok(Call {
        words,
        tape: Tape::new(bytes, PIECE, Numbers::new(alloc)),
        paper: Paper::new(alloc, room, Numbers::new(alloc))?,
    })
}

/// The second call, on what the first one printed, without the bytes that are cut.
pub fn then_call<'a>(
    alloc: Global,
    row: Row<'a>,
    printed: &[u8],
    room: usize,
) -> Result<Call<'a>, AllocError> {
    let words = words_of(alloc, row.rest_of("then").unwrap_or(""))?;
    call_on(alloc, words, kept_of(row, printed), room)
}

fn kept_of<'p>(row: Row<'_>, printed: &'p [u8]) -> &'p [u8] {
    let cut = row.number("cut").unwrap_or(0).min(u64::from(u32::MAX)) as usize;
    &printed[..printed.len().saturating_sub(cut)]
}
