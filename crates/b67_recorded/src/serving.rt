//! The program's call over ends that record.

ghost use Rattle.std.specs.Prelude.{◌≡◌, ◌≤◌, ◌<◌, ◌^◌, ◌++◌, ℕ, List, [], Ok, Some, None, false, IfOk, IfSome, map, string_bytes, vec_capacity};
ghost use Rattle.std.specs.Process.{exit_status};
ghost use Rattle.b67_io.specs.Line.{ended};
ghost use Rattle.b67_job.specs.Command.{command_line_of, backing_path};
ghost use Rattle.b67_job.specs.Judgement.{reads_text, text_limit};
ghost use Rattle.b67_job.specs.Lines.{backing_fault_line};
ghost use Rattle.b67_session_lines.specs.Ends.{EndsPrinting};
ghost use Rattle.b67_program.specs.Input.{IsTakenIn};
ghost use Rattle.b67_program.specs.Words.{texts_of};
ghost use Rattle.b67_recorded.specs.Ends.{text_told, text_faults};
ghost use Rattle.b67_recorded.specs.Faithful.{GaveNoted, IsFaithful};
ghost use Rattle.b67_recorded.specs.Files.{reads_sectors};
ghost use Rattle.b67_recorded.specs.Given.{WasTextTaken};
ghost use Rattle.b67_recorded.specs.Recorded.{RunsOverMirror, RunsOverCopyBy, ServesTextBy, IsTextServedBy, IsRecordServed};

use crate::mirror::Mirrored;
use crate::process::RecordedProcess;
use crate::record::Texts;
use crate::sink::RecordedSink;
use crate::source::RecordedSource;
use b67_io::Sink;
use b67_job::{CommandLine, backing_path, command_of, refuse_memory, say_reading_fault};
use b67_program::{Devices, InputFault, Words, carry_out, memory_backing, text_limit};
use b67_session_lines::{line_of, say};
use b67_word::Bytes;
use std::alloc::{AllocError, Global};
use std::io::{Read, Write};
use std::process::ExitCode;

/// So many sectors a file of the system has: its copy has room for them.
const SECTORS: usize = 65536;

/// The same words, as `serve` takes them, which are noted.
fn noted<'a>(
    alloc: Global,
    into: &mut Texts,
    words: &'a [String],
) -> Result<Vec<&'a str>, AllocError>
    ensures same { IfOk result (λ all. texts_of all.items ≡ map string_bytes words.now) }
    ensures noted { IfOk result (λ all. into.new.texts ≡ into.old.texts ++ texts_of all.items) }
{
    let mut all = Vec::new(alloc);
    'words: for word in words {
        into.note(word.as_str().as_bytes());
        all.push(word.as_str())?;
    }
    Ok(all)
}

/// Whether the command of the words reads the sectors of its file before it writes them.
fn reads_first(words: &[&str]) -> bool
    ensures { result ≡ reads_sectors (command_line_of words.now) }
{
    match command_of(words) {
        None => false,
        Some(CommandLine::Resume) => true,
        Some(_) => false,
    }
}

/// The bytes of the text, or none if none is read.
fn take_text<R: Read>(
    alloc: Global,
    limit: Option<usize>,
    input: &mut RecordedSource<R>,
) -> Result<Bytes, InputFault>
    requires { IfSome limit (λ most. most < 2 ^ 31) }
    ensures answer { WasTextTaken limit input.old.given.bytes input.new.given.bytes input.old.faults input.new.faults input.new.ended result }
    ensures gave { (part : List ℕ) × (input.new.given.bytes ≡ input.old.given.bytes ++ part) }
    ensures unread { limit ≡ None → input.new ≡ input.old }
    ensures faithful { GaveNoted R.remaining input.old input.new }
{
    match limit {
        Some(limit) => input.take_in(alloc, limit),
        None => Ok(Bytes::new(alloc)),
    }
}

fn say_backing_fault<K: Sink>(printer: &mut K) -> u8
    ensures { EndsPrinting K.taken K.faults printer.old printer.new 6 (ended backing_fault_line) result }
{
    say(printer, 6, &line_of("BACKING FAULT"))
}

/// Carries out the command of the words over a text and a mirrored file, and closes the file.
fn serve_mirrored<D: Devices + Drop, W: Write>(
    alloc: Global,
    words: &[&str],
    path: &str,
    text: Bytes,
    process: &mut RecordedProcess<D>,
    file: Mirrored<D::File>,
    printer: &mut RecordedSink<W>,
) -> u8
    ensures over { RunsOverMirror D.kept words.now text path.now file process.new.inner printer.old printer.new result }
    ensures same { D.opened process.new.inner ≡ D.opened process.old.inner }
    ensures noted { (process.new.words.texts ≡ process.old.words.texts) × (process.new.opened.texts ≡ process.old.opened.texts) }
{
    let mut file = file;
    let status = carry_out(alloc, words, text, printer, &mut file);
    process.inner.close(path, file.into_inner());
    status
}

/// The same over a file whose sectors are all copied first. If they can't be, it is closed, and the call ends with `BACKING FAULT`.
fn serve_copied<D: Devices + Drop, W: Write>(
    alloc: Global,
    words: &[&str],
    path: &str,
    text: Bytes,
    process: &mut RecordedProcess<D>,
    device: D::File,
    room: Vec<[u64; 30]>,
    printer: &mut RecordedSink<W>,
) -> u8
    requires { 65536 ≤ vec_capacity room }
    ensures over { RunsOverCopyBy D.kept words.now text path.now device process.new printer.old printer.new result }
    ensures same { D.opened process.new.inner ≡ D.opened process.old.inner }
    ensures noted { (process.new.words.texts ≡ process.old.words.texts) × (process.new.opened.texts ≡ process.old.opened.texts) }
{
    match Mirrored::copied(device, room) {
        Ok(file) => serve_mirrored(alloc, words, path, text, process, file, printer),
        Err(device) => {
            process.inner.close(path, device);
            say_backing_fault(printer)
        }
    }
}

/// Serves words over a text and the file of their path.
fn serve_file<D: Devices + Drop, W: Write>(
    alloc: Global,
    words: &[&str],
    path: &str,
    text: Bytes,
    process: &mut RecordedProcess<D>,
    room: Vec<[u64; 30]>,
    printer: &mut RecordedSink<W>,
) -> u8
    requires room { 65536 ≤ vec_capacity room }
    requires named { backing_path words.now ≡ Some path.now }
    requires taken { IsTakenIn (text_limit (command_line_of words.now)) text_told text_faults text [] (Ok text) }
    ensures served { ServesTextBy D.opened D.kept words.now text process.old process.new printer.old printer.new result }
    ensures noted { process.new.words.texts ≡ process.old.words.texts }
{
    process.opened.note(path.as_bytes());
    let device = process.inner.open(path);
    if reads_first(words) {
        return serve_copied(alloc, words, path, text, process, device, room, printer);
    }
    let file = Mirrored::over(device, room);
    serve_mirrored(alloc, words, path, text, process, file, printer)
}

/// Serves words over a text in memory: over the file of their path, or over sectors in memory if they name none.
fn serve_text<D: Devices + Drop, W: Write>(
    alloc: Global,
    words: &[&str],
    text: Bytes,
    process: &mut RecordedProcess<D>,
    room: Vec<[u64; 30]>,
    printer: &mut RecordedSink<W>,
) -> ExitCode
    requires room { 65536 ≤ vec_capacity room }
    requires taken { IsTakenIn (text_limit (command_line_of words.now)) text_told text_faults text [] (Ok text) }
    ensures served { ServesTextBy D.opened D.kept words.now text process.old process.new printer.old printer.new (exit_status result) }
    ensures noted { process.new.words.texts ≡ process.old.words.texts }
{
    match backing_path(words) {
        Some(path) => ExitCode::from(serve_file(alloc, words, path, text, process, room, printer)),
        None => match memory_backing(alloc) {
            Ok(mut backing) => {
                ExitCode::from(carry_out(alloc, words, text, printer, &mut backing))
            }
            Err(_) => ExitCode::from(refuse_memory(printer).status),
        },
    }
}

/// Reads the text of the words' command, and serves them over it, with room for the copy of a file.
fn serve_read<D: Devices + Drop, R: Read, W: Write>(
    alloc: Global,
    words: &[&str],
    process: &mut RecordedProcess<D>,
    room: Vec<[u64; 30]>,
    input: &mut RecordedSource<R>,
    printer: &mut RecordedSink<W>,
) -> ExitCode
    requires { 65536 ≤ vec_capacity room }
    ensures served { IsTextServedBy D.opened D.kept words.now process.old process.new input.old input.new printer.old printer.new (exit_status result) }
    ensures unread { reads_text (command_line_of words.now) ≡ false → input.new ≡ input.old }
    ensures faithful { IsFaithful R.remaining input.old input.new printer.old printer.new }
    ensures noted { process.new.words.texts ≡ process.old.words.texts }
{
    match take_text(alloc, text_limit(words), input) {
        Ok(text) => serve_text(alloc, words, text, process, room, printer),
        Err(InputFault::SourceFault) => ExitCode::from(say_reading_fault(printer)),
        Err(InputFault::Memory) => ExitCode::from(refuse_memory(printer).status),
    }
}

/// The same, once there is memory for that copy.
fn serve_words<D: Devices + Drop, R: Read, W: Write>(
    alloc: Global,
    words: &[&str],
    process: &mut RecordedProcess<D>,
    input: &mut RecordedSource<R>,
    printer: &mut RecordedSink<W>,
) -> ExitCode
    ensures served { IsTextServedBy D.opened D.kept words.now process.old process.new input.old input.new printer.old printer.new (exit_status result) }
    ensures unread { reads_text (command_line_of words.now) ≡ false → input.new ≡ input.old }
    ensures faithful { IsFaithful R.remaining input.old input.new printer.old printer.new }
    ensures noted { process.new.words.texts ≡ process.old.words.texts }
{
    match Vec::with_capacity(alloc, SECTORS) {
        Ok(room) => serve_read(alloc, words, process, room, input, printer),
        Err(_) => ExitCode::from(refuse_memory(printer).status),
    }
}

/// Serves a process over ends that record: carries out the command that its words are, over its input, its printer and its files, and
/// answers with what the process is to end. The text of the command is read first, to the first byte past the limit of a deck, or of an
/// image, at most.
///
/// The status is that of `serve` on these words and this text. A read that fails ends the call with `READING FAULT` and status 7, refused memory
/// with `NO MEMORY` and status 9: then no file is opened.
pub fn serve_recorded<D: Words + Devices + Drop, R: Read, W: Write>(
    alloc: Global,
    process: &mut RecordedProcess<D>,
    input: &mut RecordedSource<R>,
    printer: &mut RecordedSink<W>,
) -> ExitCode
    // The process's words were noted and served over the text that the input gave; or a read failed, or memory was refused.
    ensures served { IsRecordServed D.given D.opened D.kept process.old process.new input.old input.new printer.old printer.new (exit_status result) }

    // The bytes that were noted are those that the writer took and that the reader gave, where these tell what they have.
    ensures faithful { IsFaithful R.remaining input.old input.new printer.old printer.new }
{
    match process.inner.words(alloc) {
        Ok(words) => match noted(alloc, &mut process.words, words.as_slice()) {
            Ok(words) => serve_words(alloc, words.as_slice(), process, input, printer),
            Err(_) => ExitCode::from(refuse_memory(printer).status),
        },
        Err(_) => ExitCode::from(refuse_memory(printer).status),
    }
}
