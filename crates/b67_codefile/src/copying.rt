//! Parts of a file, copied.

ghost use Rattle.std.specs.Prelude.{◌≡◌, IfOk};

use crate::file::{Entries, Rows, Segment, Segments};
use b67_word::{Word, Words};
use std::alloc::{AllocError, Global};

/// The same words. Fails only when memory runs out.
pub fn copy_of_words(alloc: Global, words: &[Word]) -> Result<Words, AllocError>
    ensures { IfOk result (λ copy. copy ≡ words.now) }
{
    let mut copy = Words::new(alloc);
    for word in words {
        copy.push(*word)?;
    }
    Ok(copy)
}

/// The same entries. Fails only when memory runs out.
pub fn copy_of_entries(alloc: Global, entries: &[u16]) -> Result<Entries, AllocError>
    ensures { IfOk result (λ copy. copy ≡ entries.now) }
{
    let mut copy = Entries::new(alloc);
    for entry in entries {
        copy.push(*entry)?;
    }
    Ok(copy)
}

/// The same segment: its level, its entries and its code. Fails only when memory runs out.
pub fn copy_of_segment(alloc: Global, segment: &Segment) -> Result<Segment, AllocError>
    ensures { IfOk result (λ copy. copy ≡ segment.now) }
{
    let entries = copy_of_entries(alloc, segment.entries.as_slice())?;
    let code = copy_of_words(alloc, segment.code.as_slice())?;
    Ok(Segment {
        level: segment.level,
        entries,
        code,
    })
}

/// The same segments. Fails only when memory runs out.
pub fn copy_of_segments(alloc: Global, segments: &[Segment]) -> Result<Segments, AllocError>
    ensures { IfOk result (λ copy. copy ≡ segments.now) }
{
    let mut copy = Segments::new(alloc);
    for segment in segments {
        let segment = copy_of_segment(alloc, segment)?;
        copy.push(segment)?;
    }
    Ok(copy)
}

/// The same data rows. Fails only when memory runs out.
pub fn copy_of_rows(alloc: Global, rows: &[Words]) -> Result<Rows, AllocError>
    ensures { IfOk result (λ copy. copy ≡ rows.now) }
{
    let mut copy = Rows::new(alloc);
    for row in rows {
        let row = copy_of_words(alloc, row.as_slice())?;
        copy.push(row)?;
    }
    Ok(copy)
}
