//! The call that the program makes.

ghost use Rattle.std.specs.Prelude.{◌≡◌, ◌<◌, ◌^◌, [], false, IfOk, IfSome};
ghost use Rattle.std.specs.Process.{exit_status};
ghost use Rattle.b67_io.specs.Causes.{Rose};
ghost use Rattle.b67_backing.specs.Memory.{memory_sectors, failing_reads, failing_writes};
ghost use Rattle.b67_backing.specs.Held.{blank};
ghost use Rattle.b67_job.specs.Command.{command_line_of, backing_path};
ghost use Rattle.b67_job.specs.Device.{device_of};
ghost use Rattle.b67_job.specs.Judgement.{reads_text, text_limit};
ghost use Rattle.b67_program.specs.Opening.{OpensPaths, Finds, Leaves, paths_of};
ghost use Rattle.b67_program.specs.Input.{IsTakenIn};
ghost use Rattle.b67_program.specs.Served.{ImageIsTyped, CarriesOut, IsAnswered, IsServed};

use crate::files::Devices;
use crate::reading::{InputFault, PIECE, read_input};
use b67_backing::{Backing, MemoryBacking};
use b67_io::{FreeTape, Sink, Source};
use b67_job::{
    CommandLine, Outcome, backing_path, command_of, outcome_is_typed, refuse_memory, run,
    say_reading_fault,
};
use b67_model::{DECK_BYTES, IMAGE_BYTES};
use b67_word::{Bytes, Numbers};
use std::alloc::{AllocError, Global};
use std::process::ExitCode;

/// How many sectors a run has whose words name no file.
const SECTORS: u32 = 4096;

/// A deck has at most so many bytes, and so has the text of a program.
const DECK_LIMIT: usize = DECK_BYTES;

/// An image has at most so many bytes.
const IMAGE_LIMIT: usize = IMAGE_BYTES;

/// How many bytes of a text the command of the words may read, where it reads one.
pub fn text_limit(words: &[&str]) -> Option<usize>
    ensures limit { result ≡ text_limit (command_line_of words.now) }
    ensures small { IfSome result (λ most. most < 2 ^ 31) }
{
    match command_of(words) {
        None => None,
        Some(CommandLine::Exercise { .. }) => None,
        Some(CommandLine::Resume) => Some(IMAGE_LIMIT),
        Some(CommandLine::Dump) => Some(IMAGE_LIMIT),
        Some(_) => Some(DECK_LIMIT),
    }
}

// The bytes of the text, or none if none is read.
fn take_in<S: Source>(
    alloc: Global,
    limit: Option<usize>,
    input: &mut S,
) -> Result<Bytes, InputFault>
    requires { IfSome limit (λ most. most < 2 ^ 31) }
    ensures { IsTakenIn limit S.left S.faults input.old input.new result }
{
    match limit {
        Some(limit) => read_input(alloc, input, limit),
        None => Ok(Bytes::new(alloc)),
    }
}

// Looks at each number of the machine whose image the words asked for, if a call left one: its type bounds it. Changes nothing.
fn image_is_typed(words: &[&str], outcome: &Outcome)
    ensures { ImageIsTyped (command_line_of words.now) outcome.now.machine }
{
    match command_of(words) {
        None => {}
        Some(CommandLine::Image { .. }) => outcome_is_typed(outcome),
        Some(_) => {}
    }
}

/// Carries out the command of the words over a text in memory and a backing, and answers the status of `run`.
pub fn carry_out<K: Sink, B: Backing>(
    alloc: Global,
    words: &[&str],
    text: Bytes,
    printer: &mut K,
    backing: &mut B,
) -> u8
    ensures { CarriesOut words.now text (device_of B.holds B.size B.faults backing.old backing.new) K.taken K.faults printer.old printer.new result }
{
    let mut deck = FreeTape::new(text, PIECE);
    let outcome = run(alloc, words, &mut deck, printer, backing);
    image_is_typed(words, &outcome);
    outcome.status
}

// Carries out the command of the words over the text that an input gives, and a backing.
fn answer<S: Source, K: Sink, B: Backing>(
    alloc: Global,
    words: &[&str],
    input: &mut S,
    printer: &mut K,
    backing: &mut B,
) -> u8
    ensures answered { IsAnswered words.now S.left S.faults input.old input.new (device_of B.holds B.size B.faults backing.old backing.new)
        K.taken K.faults printer.old printer.new result }
    ensures unread { reads_text (command_line_of words.now) ≡ false → input.new ≡ input.old }
    ensures reading { result ≡ 7 → Rose S.faults input.old input.new }
{
    match take_in(alloc, text_limit(words), input) {
        Ok(bytes) => carry_out(alloc, words, bytes, printer, backing),
        Err(InputFault::SourceFault) => say_reading_fault(printer),
        Err(InputFault::Memory) => refuse_memory(printer).status,
    }
}

/// The sectors of a run whose words name no file.
pub fn memory_backing(alloc: Global) -> Result<MemoryBacking, AllocError>
    ensures zeros { IfOk result (λ b. memory_sectors b ≡ blank 4096) }
    ensures calm { IfOk result (λ b. (failing_reads b ≡ []) × (failing_writes b ≡ [])) }
    ensures faults { IfOk result (λ b. b.faults ≡ 0) }
{
    MemoryBacking::new(alloc, SECTORS, Numbers::new(alloc), Numbers::new(alloc))
}

/// Carries out the command that the words are, and answers with what the program is to end. The text that the command reads is read
/// into memory first, to the first byte past the limit of a deck, or of an image, at most. The command runs over the file of the words' path; where
/// they name none, over 4,096 sectors of zeros in memory.
///
/// The status is that of `run`. A read that fails ends the call with `READING FAULT` and status 7, refused memory with `NO
/// MEMORY` and status 9.
pub fn serve<R: Devices, S: Source, K: Sink>(
    alloc: Global,
    words: &[&str],
    devices: &mut R,
    input: &mut S,
    printer: &mut K,
) -> ExitCode
    // The file of the words' path is opened, and no other.
    ensures opened { OpensPaths R.opened devices.old devices.new (paths_of (backing_path words.now)) }

    // The status is that of `run` over the bytes that were read, and over that file or 4,096 sectors of zeros; or a read failed,
    // or memory was refused.
    ensures served { IsServed words.now S.left S.faults input.old input.new (Finds R.kept R.File.holds devices.old) (Leaves R.kept R.File.holds devices.new) (device_of R.File.holds R.File.size R.File.faults)
        K.taken K.faults printer.old printer.new (exit_status result) }

    // A command that reads no text, and words that are no command, leave the input as it was.
    ensures unread { reads_text (command_line_of words.now) ≡ false → input.new ≡ input.old }

    // Status 7 is that a read of the input failed.
    ensures reading { exit_status result ≡ 7 → Rose S.faults input.old input.new }
{
    match backing_path(words) {
        Some(path) => {
            let mut backing = devices.open(path);
            let status = answer(alloc, words, input, printer, &mut backing);
            devices.close(path, backing);
            ExitCode::from(status)
        }
        None => match memory_backing(alloc) {
            Ok(mut backing) => {
                ExitCode::from(answer(alloc, words, input, printer, &mut backing))
            }
            Err(_) => ExitCode::from(refuse_memory(printer).status),
        },
    }
}
