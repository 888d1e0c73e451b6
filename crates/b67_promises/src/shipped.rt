//! The program that people run: what it prints, with no premise on a device.

ghost use Rattle.std.specs.Prelude.{◌≡◌, ◌≤◌, ◌⊎◌, ◌++◌, ℕ, List, Some, None, Ok};
ghost use Rattle.std.specs.Process.{exit_status};
ghost use denote.Ref.{Bor};
ghost use Rattle.b67_job.specs.Admitting.{Prepared, deck_prepared};
ghost use Rattle.b67_job.specs.Command.{command_line_of, backing_path};
ghost use Rattle.b67_recorded.specs.Faithful.{IsFaithful};
ghost use Rattle.b67_recorded.specs.Recorded.{IsRecordServed};
ghost use Rattle.b67_promises.specs.Commands.{PrintsAlone, PrintsOver, HasCauses, NeitherFailed};
ghost use Rattle.b67_promises.specs.Described.{IsRunCommand, IsAmpleFor};
ghost use Rattle.b67_promises.specs.Paged.{PagesOverMirror};
ghost use Rattle.b67_promises.specs.Paging.{texts, IsWhole, AsksForRun, EndsToo};
ghost use Rattle.b67_promises.specs.Shipped.{FilesHave, PrintsAsDescribed, PrintsBehind, TookTheSame};

use b67_program::{Devices, Words};
use b67_recorded::{RecordedProcess, RecordedSink, RecordedSource, serve_recorded};
use std::alloc::Global;
use std::io::{Read, Stdin, Stdout, Write};
use std::process::ExitCode;

/// The program's one call, over any reader, any writer and any files. Whatever they do: what the writer took, and what the call is to
/// end with, are what the model's machine gives for the bytes that the reader gave.
pub fn program_described<D: Words + Devices + Drop, R: Read, W: Write>(
    alloc: Global,
    process: &mut RecordedProcess<D>,
    input: &mut RecordedSource<R>,
    printer: &mut RecordedSink<W>,
) -> ExitCode
    // Of words that are a run command: those that the process gave.
    ensures described { (core sectors : ℕ) → (words : List (Bor (List ℕ))) → (w : IsRunCommand core words) → process.new.words.texts ≡ process.old.words.texts ++ texts words
        → FilesHave process.old sectors
        → PrintsAsDescribed core sectors w.path process.old process.new input.old input.new printer.old printer.new (exit_status result) }

    // Where all tasks end or the halt comes, the deck was run step by step over the mirrored file of the path.
    ensures paged { (core : ℕ) → (words : List (Bor (List ℕ))) → (w : IsRunCommand core words) → process.new.words.texts ≡ process.old.words.texts ++ texts words → IsWhole (exit_status result)
        → PagesOverMirror D.kept core w.path process.old process.new input.old input.new (exit_status result) }

    // Of words that name no file: what the command makes of the text that the reader gave.
    ensures alone { (words : List (Bor (List ℕ))) → process.new.words.texts ≡ process.old.words.texts ++ texts words → backing_path words ≡ None
        → PrintsAlone (command_line_of words) process.old process.new input.old input.new printer.old printer.new (exit_status result) }

    // Of words that name a path: what it makes of the text, and of what the mirror of the file was found to hold.
    ensures over_file { (words : List (Bor (List ℕ))) → (path : List ℕ) → process.new.words.texts ≡ process.old.words.texts ++ texts words → backing_path words ≡ Some path
        → PrintsOver D.kept (command_line_of words) path process.old process.new input.old input.new printer.old printer.new (exit_status result) }

    // A status that names the reader or the writer comes only where that failed.
    ensures causes { (words : List (Bor (List ℕ))) → process.new.words.texts ≡ process.old.words.texts ++ texts words
        → HasCauses (command_line_of words) input.old input.new printer.old printer.new (exit_status result) }

    // Where core and sectors suffice, and neither the reader nor the writer fails, all tasks end or the halt comes, or the file failed, or memory was refused.
    ensures complete { (core sectors : ℕ) → (words : List (Bor (List ℕ))) → IsRunCommand core words → process.new.words.texts ≡ process.old.words.texts ++ texts words → FilesHave process.old sectors
        → (text : List ℕ) → (p : Prepared) → input.new.given.bytes ≡ input.old.given.bytes ++ text → deck_prepared text ≡ Ok p → IsAmpleFor core sectors p → NeitherFailed input.old input.new printer.old printer.new
        → IsWhole (exit_status result) ⊎ ((exit_status result ≡ 6) ⊎ (exit_status result ≡ 9)) }

    // The answer is that of a call of `serve_recorded`.
    ensures call { IsRecordServed D.given D.opened D.kept process.old process.new input.old input.new printer.old printer.new (exit_status result) }

    // The bytes that were noted are those that the writer took and that the reader gave, where these tell what they have.
    ensures faithful { IsFaithful R.remaining input.old input.new printer.old printer.new }
{
    serve_recorded(alloc, process, input, printer)
}

/// The one call of the program `b67`, over standard input, standard output and the files of the system. No premise on a device is left.
pub fn program(
    alloc: Global,
    process: &mut RecordedProcess<HostRuntime>,
    input: &mut RecordedSource<Stdin>,
    printer: &mut RecordedSink<Stdout>,
) -> ExitCode
    ensures described { (core : ℕ) → (words : List (Bor (List ℕ))) → (w : IsRunCommand core words) → process.new.words.texts ≡ process.old.words.texts ++ texts words
        → PrintsAsDescribed core 65536 w.path process.old process.new input.old input.new printer.old printer.new (exit_status result) }

    // Of words that name no file: what the command makes of the text that the reader gave.
    ensures alone { (words : List (Bor (List ℕ))) → process.new.words.texts ≡ process.old.words.texts ++ texts words → backing_path words ≡ None
        → PrintsAlone (command_line_of words) process.old process.new input.old input.new printer.old printer.new (exit_status result) }

    // Of words that name a path: what it makes of the text, and of what the mirror of the file was found to hold.
    ensures over_file { (words : List (Bor (List ℕ))) → (path : List ℕ) → process.new.words.texts ≡ process.old.words.texts ++ texts words → backing_path words ≡ Some path
        → PrintsOver (λ _ _. None) (command_line_of words) path process.old process.new input.old input.new printer.old printer.new (exit_status result) }

    // A status that names the reader or the writer comes only where that failed.
    ensures causes { (words : List (Bor (List ℕ))) → process.new.words.texts ≡ process.old.words.texts ++ texts words
        → HasCauses (command_line_of words) input.old input.new printer.old printer.new (exit_status result) }

    // Where core and sectors suffice, and neither the reader nor the writer fails, all tasks end or the halt comes, or the file failed, or memory was refused.
    ensures complete { (core : ℕ) → (words : List (Bor (List ℕ))) → IsRunCommand core words → process.new.words.texts ≡ process.old.words.texts ++ texts words
        → (text : List ℕ) → (p : Prepared) → input.new.given.bytes ≡ input.old.given.bytes ++ text → deck_prepared text ≡ Ok p → IsAmpleFor core 65536 p → NeitherFailed input.old input.new printer.old printer.new
        → IsWhole (exit_status result) ⊎ ((exit_status result ≡ 6) ⊎ (exit_status result ≡ 9)) }

    // The answer is that of a call of `serve_recorded`.
    ensures call { IsRecordServed (λ _. None) (λ _. None) (λ _ _. None) process.old process.new input.old input.new printer.old printer.new (exit_status result) }
{
    program_described(alloc, process, input, printer)
}

/// The same call over a text and a writer in memory, which tell what they have: so what it prints is told of the writer itself. The writer is given back.
pub fn program_in_memory<D: Words + Devices + Drop>(
    alloc: Global,
    process: &mut RecordedProcess<D>,
    text: &[u8],
    lines: Vec<u8>,
) -> (ExitCode, Vec<u8>)
    // Of words that are a run command: those that the process gave.
    ensures printed { (core sectors : ℕ) → (words : List (Bor (List ℕ))) → IsRunCommand core words → process.new.words.texts ≡ process.old.words.texts ++ texts words
        → FilesHave process.old sectors → PrintsBehind core sectors text.now lines.items result.1.items (exit_status result.0) }
{
    let mut input = RecordedSource::new(text);
    let mut printer = RecordedSink::new(lines);
    let code = program_described(alloc, process, &mut input, &mut printer);
    (code, printer.into_inner())
}

/// Two of the program's calls, over readers, writers and files of their own. Of one text, whatever the cores, the files and
/// what they give back: what the writers took is the same, if both end with 0 or 3.
pub fn program_twice<
    D: Words + Devices + Drop,
    R: Read,
    W: Write,
    E: Words + Devices + Drop,
    S: Read,
    X: Write,
>(
    alloc: Global,
    process: &mut RecordedProcess<D>,
    input: &mut RecordedSource<R>,
    printer: &mut RecordedSink<W>,
    other_process: &mut RecordedProcess<E>,
    other_input: &mut RecordedSource<S>,
    other_printer: &mut RecordedSink<X>,
) -> (ExitCode, ExitCode)
    // Of words that ask for `run`, and readers that gave one text.
    ensures same { (words other_words : List (Bor (List ℕ))) → (text : List ℕ) → AsksForRun words → AsksForRun other_words
        → process.new.words.texts ≡ process.old.words.texts ++ texts words → other_process.new.words.texts ≡ other_process.old.words.texts ++ texts other_words
        → input.new.given.bytes ≡ input.old.given.bytes ++ text → other_input.new.given.bytes ≡ other_input.old.given.bytes ++ text
        → TookTheSame printer.old printer.new (exit_status result.0) other_printer.old other_printer.new (exit_status result.1) }

    // Of one text, the second one in a core of no fewer words, over a reader and a writer that don't fail: its file may.
    ensures more_core { (core more : ℕ) → (words other_words : List (Bor (List ℕ))) → IsRunCommand core words → IsRunCommand more other_words → (text : List ℕ) → core ≤ more
        → process.new.words.texts ≡ process.old.words.texts ++ texts words → other_process.new.words.texts ≡ other_process.old.words.texts ++ texts other_words
        → input.new.given.bytes ≡ input.old.given.bytes ++ text → other_input.new.given.bytes ≡ other_input.old.given.bytes ++ text → NeitherFailed other_input.old other_input.new other_printer.old other_printer.new
        → IsWhole (exit_status result.0) → EndsToo (exit_status result.0) (exit_status result.1) ⊎ (exit_status result.1 ≡ 6) }

    // The first answer is that of a call of `serve_recorded` on the first process, input and printer.
    ensures call { IsRecordServed D.given D.opened D.kept process.old process.new input.old input.new printer.old printer.new (exit_status result.0) }

    // The second answer is that of a call on the others.
    ensures other_call { IsRecordServed E.given E.opened E.kept other_process.old other_process.new other_input.old other_input.new other_printer.old other_printer.new (exit_status result.1) }

    // What was noted is what went through, where the readers and the writers tell what they have.
    ensures faithful { IsFaithful R.remaining input.old input.new printer.old printer.new × IsFaithful S.remaining other_input.old other_input.new other_printer.old other_printer.new }
{
    let one = serve_recorded(alloc, process, input, printer);
    let other = serve_recorded(alloc, other_process, other_input, other_printer);
    (one, other)
}
