//! Printing a last line, and what is left of a line.

ghost use Rattle.std.specs.Prelude.{◌≡◌, ◌<◌, ◌≤◌, ◌+◌, ◌^◌, ◌++◌, ℕ, List, length, max, OnOk, OnErr};
ghost use Rattle.b67_io.specs.Line.{ended};
ghost use Rattle.b67_io.specs.Told.{Continues};
ghost use Rattle.b67_io.specs.Causes.{HasCause};
ghost use Rattle.b67_session_lines.specs.Ends.{EndsPrinting};

use b67_io::{Line, Sink, put_line};
use b67_word::Failed;

/// Prints a line and answers the status, or 8.
pub fn say<K: Sink>(printer: &mut K, status: u8, line: &Line) -> u8
    ensures { EndsPrinting K.taken K.faults printer.old printer.new status (ended line.now) result }
{
    match put_line(printer, line, 0) {
        Ok(()) => status,
        Err(_taken) => 8,
    }
}

/// Puts what isn't printed yet of a line and its end, which stand in a text behind its first `start` bytes. `printed` counts
/// how many first bytes of the text are printed; it is raised by those that are taken.
pub fn put_rest<K: Sink>(
    sink: &mut K,
    line: &Line,
    start: u64,
    printed: &mut u64,
) -> Result<(), Failed>
    requires { start < 2 ^ 62 }
    ensures text { (before after : List ℕ) → length before ≡ start → start ≤ printed.old
        → Continues K.taken sink.old sink.new (before ++ ended line.now ++ after) printed.old printed.new }
    ensures whole { OnOk result (printed.new ≡ max printed.old (start + (length line.now + 1))) }
    ensures part { OnErr result ((printed.old ≤ printed.new) × (printed.new < start + (length line.now + 1))) }
    ensures cause { HasCause K.faults sink.old sink.new result }
{
    let end = start + line.len() as u64 + 1;
    if *printed >= end {
        return Ok(());
    }
    let from = if *printed > start {
        *printed - start
    } else {
        0
    };
    match put_line(sink, line, from as usize) {
        Ok(()) => {
            *printed = end;
            Ok(())
        }
        Err(taken) => {
            *printed = start + from + taken as u64;
            Err(Failed)
        }
    }
}
