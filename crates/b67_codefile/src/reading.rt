//! Reading a codefile from front to back: each function reads a part at the front of bytes, and gives the bytes after it.

ghost use Rattle.std.specs.Prelude.{◌≡◌, ◌<◌, length, IfOk, Ok};
ghost use Rattle.std.specs.Int.{w8, w16, w64};
ghost use Rattle.b67_codefile.specs.declared.file.Codefile.{Codefile};
ghost use Rattle.b67_codefile.specs.Spelling.{IsWithin, spelling, entry_count};
ghost use Rattle.b67_codefile.specs.Reading.{Gives, Answers, number_read, word_at, words_at, many_at, entry_at, many_entries_at, entries_at, segment_at, row_at, header_at, counts_at, reading, file_of};

use crate::fault::{BadFile, FormatError, ReadError};
use crate::file::{Codefile, Entries, Rows, Segment, Segments};
use b67_model::{MOST_ARRAY, MOST_PARTS, MOST_SEGMENT};
use b67_word::{Word, Words};
use std::alloc::Global;

fn u8_at(bytes: &[u8]) -> Result<(u8, &[u8]), ReadError>
    ensures { Gives (λ x. (x.0, x.1.now)) result (number_read w8 bytes.now) }
{
    if bytes.is_empty() {
        return Err(ReadError::Format(FormatError::Short));
    }
    let (front, rest) = bytes.split_at(1);
    Ok((u8::from_be_bytes([front[0]]), rest))
}

fn u16_at(bytes: &[u8]) -> Result<(u16, &[u8]), ReadError>
    ensures { Gives (λ x. (x.0, x.1.now)) result (number_read w16 bytes.now) }
{
    if bytes.len() < 2 {
        return Err(ReadError::Format(FormatError::Short));
    }
    let (front, rest) = bytes.split_at(2);
    Ok((u16::from_be_bytes([front[0], front[1]]), rest))
}

fn u64_at(bytes: &[u8]) -> Result<(u64, &[u8]), ReadError>
    ensures { Gives (λ x. (x.0, x.1.now)) result (number_read w64 bytes.now) }
{
    if bytes.len() < 8 {
        return Err(ReadError::Format(FormatError::Short));
    }
    let (front, rest) = bytes.split_at(8);
    let number = u64::from_be_bytes([
        front[0], front[1], front[2], front[3], front[4], front[5], front[6], front[7],
    ]);
    Ok((number, rest))
}

#[tactic(auto, unfolding(crate::specs::Reading::word_at))]
fn word_of(tag: u8, bytes: &[u8]) -> Result<(Word, &[u8]), ReadError>
    requires { tag < 8 }
    ensures { Gives (λ x. (x.0, x.1.now)) result (word_at tag bytes.now) }
{
    let (number, rest) = u64_at(bytes)?;
    if number / 0x1_0000_0000_0000 != u64::from(tag) {
        return Err(ReadError::Format(FormatError::BadWord {
            remaining: bytes.len(),
        }));
    }
    Ok((Word::of(tag, number % 0x1_0000_0000_0000), rest))
}

fn many_words_of(
    alloc: Global,
    tag: u8,
    count: u16,
    bytes: &[u8],
) -> Result<(Words, &[u8]), ReadError>
    requires { tag < 8 }
    ensures { Gives (λ x. (x.0, x.1.now)) result (many_at (word_at tag) count bytes.now) }
{
    let mut words = Words::new(alloc);
    let mut rest = bytes;
    'words: for _ in 0..count {
        let (word, after) = match word_of(tag, rest) {
            Ok(found) => found,
            Err(e) => return Err(e),
        };
        words.push(word)?;
        rest = after;
    }
    Ok((words, rest))
}

#[tactic(auto, unfolding(crate::specs::Reading::words_at))]
fn words_of(alloc: Global, tag: u8, limit: u16, bytes: &[u8]) -> Result<(Words, &[u8]), ReadError>
    requires { tag < 8 }
    ensures { Gives (λ x. (x.0, x.1.now)) result (words_at tag limit bytes.now) }
{
    let (count, rest) = u16_at(bytes)?;
    if count < 1 || count > limit {
        return Err(ReadError::Format(FormatError::TooMany {
            remaining: bytes.len(),
        }));
    }
    many_words_of(alloc, tag, count, rest)
}

/// The number of syllables before an entry.
fn entry_count(entry: u16) -> u16
    ensures { result ≡ entry_count entry }
{
    6 * (entry % 0x2000) + entry / 0x2000
}

fn entry_of(before: u16, bytes: &[u8]) -> Result<(u16, &[u8]), ReadError>
    ensures { Gives (λ x. (x.0, x.1.now)) result (entry_at before bytes.now) }
{
    let (entry, rest) = u16_at(bytes)?;
    if entry / 0x2000 >= 6 || entry_count(entry) <= before {
        return Err(ReadError::Format(FormatError::BadEntry {
            remaining: bytes.len(),
        }));
    }
    Ok((entry, rest))
}

fn many_entries_of(alloc: Global, count: u8, bytes: &[u8]) -> Result<(Entries, &[u8]), ReadError>
    ensures { Gives (λ x. (x.0, x.1.now)) result (many_entries_at 0 count bytes.now) }
{
    let mut entries = Entries::new(alloc);
    let mut before = 0;
    let mut rest = bytes;
    'entries: for _ in 0..count {
        let (entry, after) = entry_of(before, rest)?;
        entries.push(entry)?;
        before = entry_count(entry);
        rest = after;
    }
    Ok((entries, rest))
}

#[tactic(auto, unfolding(crate::specs::Reading::entries_at))]
fn entries_of(alloc: Global, version: u8, bytes: &[u8]) -> Result<(Entries, &[u8]), ReadError>
    ensures { Gives (λ x. (x.0, x.1.now)) result (entries_at version bytes.now) }
{
    if version == 1 {
        return Ok((Entries::new(alloc), bytes));
    }
    let (count, rest) = u8_at(bytes)?;
    many_entries_of(alloc, count, rest)
}

#[tactic(auto, unfolding(crate::specs::Reading::segment_at))]
fn segment_of(alloc: Global, version: u8, bytes: &[u8]) -> Result<(Segment, &[u8]), ReadError>
    ensures { Gives (λ x. (x.0, x.1.now)) result (segment_at version bytes.now) }
{
    let (level, rest) = u8_at(bytes)?;
    let (entries, rest) = entries_of(alloc, version, rest)?;
    let (code, rest) = words_of(alloc, 3, MOST_SEGMENT, rest)?;
    Ok((
        Segment {
            level,
            entries,
            code,
        },
        rest,
    ))
}

fn segments_of(
    alloc: Global,
    version: u8,
    count: u16,
    bytes: &[u8],
) -> Result<(Segments, &[u8]), ReadError>
    ensures { Gives (λ x. (x.0, x.1.now)) result (many_at (segment_at version) count bytes.now) }
{
    let mut segments = Segments::new(alloc);
    let mut rest = bytes;
    'segments: for _ in 0..count {
        let (segment, after) = segment_of(alloc, version, rest)?;
        segments.push(segment)?;
        rest = after;
    }
    Ok((segments, rest))
}

fn rows_of(alloc: Global, count: u16, bytes: &[u8]) -> Result<(Rows, &[u8]), ReadError>
    ensures { Gives (λ x. (x.0, x.1.now)) result (many_at row_at count bytes.now) }
{
    let mut rows = Rows::new(alloc);
    let mut rest = bytes;
    'rows: for _ in 0..count {
        let (row, after) = words_of(alloc, 0, MOST_ARRAY, rest)?;
        rows.push(row)?;
        rest = after;
    }
    Ok((rows, rest))
}

/// The version that the first eight bytes tell.
fn header_of(bytes: &[u8]) -> Result<(u8, &[u8]), ReadError>
    ensures { Gives (λ x. (x.0, x.1.now)) result (header_at bytes.now) }
{
    let (number, rest) = u64_at(bytes)?;
    if number == 0x4236_3743_4f44_4531 {
        return Ok((1, rest));
    }
    if number == 0x4236_3743_4f44_4532 {
        return Ok((2, rest));
    }
    Err(ReadError::Format(FormatError::BadHeader))
}

fn counts_of(bytes: &[u8]) -> Result<((u16, u16), &[u8]), ReadError>
    ensures { Gives (λ x. (x.0, x.1.now)) result (counts_at bytes.now) }
{
    let (segments, rest) = u16_at(bytes)?;
    let (rows, rest) = u16_at(rest)?;
    if u32::from(segments) + u32::from(rows) > MOST_PARTS as u32 {
        return Err(ReadError::Format(FormatError::TooMany {
            remaining: bytes.len(),
        }));
    }
    Ok(((segments, rows), rest))
}

#[tactic(auto, unfolding(crate::specs::Reading::reading))]
fn whole(alloc: Global, bytes: &[u8]) -> Result<Codefile, ReadError>
    ensures { Gives (λ x. x) result (reading bytes.now) }
{
    let (version, rest) = header_of(bytes)?;
    let ((segments, rows), rest) = counts_of(rest)?;
    let (segments, rest) = segments_of(alloc, version, segments, rest)?;
    let (rows, rest) = rows_of(alloc, rows, rest)?;
    if !rest.is_empty() {
        return Err(ReadError::Format(FormatError::Trailing {
            remaining: rest.len(),
        }));
    }
    Ok(Codefile {
        version,
        segments,
        rows,
    })
}

fn answer_of(alloc: Global, bytes: &[u8]) -> Result<Codefile, BadFile>
    ensures { Answers result (file_of bytes.now) }
{
    match whole(alloc, bytes) {
        Ok(file) => Ok(file),
        Err(ReadError::Memory) => Err(BadFile::Memory),
        Err(ReadError::Format(FormatError::Short)) => Err(BadFile::Short { at: bytes.len() }),
        Err(ReadError::Format(FormatError::BadHeader)) => Err(BadFile::BadHeader { at: 0 }),
        Err(ReadError::Format(FormatError::BadWord { remaining })) => Err(BadFile::BadWord {
            at: bytes.len().saturating_sub(remaining),
        }),
        Err(ReadError::Format(FormatError::TooMany { remaining })) => Err(BadFile::TooMany {
            at: bytes.len().saturating_sub(remaining),
        }),
        Err(ReadError::Format(FormatError::Trailing { remaining })) => Err(BadFile::Trailing {
            at: bytes.len().saturating_sub(remaining),
        }),
        Err(ReadError::Format(FormatError::BadEntry { remaining })) => Err(BadFile::BadEntry {
            at: bytes.len().saturating_sub(remaining),
        }),
    }
}

/// The codefile whose bytes these are, all of them. The format is a header with the version, the numbers of segments and
/// data rows, each segment's level, in version 2 its number of entries and these, its length and words, and each row's
/// length and words, all numbers in big-endian order. No file has two spellings.
pub fn read(alloc: Global, bytes: &[u8]) -> Result<Codefile, BadFile>
    // A file that is read is within the limits, and these are its bytes.
    ensures found { IfOk result (λ f. IsWithin f × (bytes.now ≡ spelling f)) }
    // The bytes of a file within the limits are read as that file, unless memory runs out.
    ensures only { (f : Codefile) → IsWithin f → bytes.now ≡ spelling f → Answers result (Ok f) }
    // Else the first rule that is broken from the front is told, with its byte.
    ensures exact { Answers result (file_of bytes.now) }
{
    answer_of(alloc, bytes)
}
