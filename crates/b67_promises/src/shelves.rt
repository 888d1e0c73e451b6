//! One deck served on two shelves: the theorem on two calls of the program, with no premise on a device left.

ghost use Rattle.std.specs.Prelude.{◌≡◌, ◌≤◌, ℕ, List, None, length};
ghost use Rattle.std.specs.Process.{exit_status};
ghost use Rattle.b67_io.specs.Told.{Took};
ghost use Rattle.b67_io.specs.Free.{free_left};
ghost use Rattle.b67_io.specs.Paper.{paper_told};
ghost use Rattle.b67_model_text.specs.Deck.{limit};
ghost use Rattle.b67_promises.specs.Described.{IsRunCommand, IsAnsweredSo};
ghost use Rattle.b67_promises.specs.Paging.{AsksForRun, SameLines};
ghost use Rattle.b67_promises.specs.Shelves.{IsServedOnShelf};

use crate::described::serve_described;
use crate::paging::serve_twice;
use crate::shelf::Shelf;
use b67_io::{FreeTape, Paper};
use std::alloc::Global;
use std::process::ExitCode;

/// Serves a deck on a shelf. With no premise on a device left: what is printed, and the status, are what the model's machine gives. The
/// answer is that of a call of `serve`.
pub fn serve_on_shelf(
    alloc: Global,
    words: &[&str],
    shelf: &mut Shelf,
    input: &mut FreeTape,
    printer: &mut Paper,
) -> ExitCode
    ensures ends { (core : ℕ) → IsRunCommand core words.now → length (free_left input.old) ≤ limit
        → (text : List ℕ) × Took paper_told printer.old printer.new text × IsAnsweredSo None core 64 (free_left input.old) (exit_status result) text }

    // The answer is that of a call of `serve` on the words, the shelf, the input and the printer.
    ensures call { IsServedOnShelf words.now shelf.old shelf.new input.old input.new printer.old printer.new (exit_status result) }
{
    serve_described(alloc, words, shelf, input, printer)
}

/// Serves one deck on two shelves. With no premise on a device left: core and sectors change no line. The answers are those of two
/// calls of `serve`.
pub fn serve_on_shelves(
    alloc: Global,
    words: &[&str],
    shelf: &mut Shelf,
    input: &mut FreeTape,
    printer: &mut Paper,
    other_words: &[&str],
    other_shelf: &mut Shelf,
    other_input: &mut FreeTape,
    other_printer: &mut Paper,
) -> (ExitCode, ExitCode)
    ensures decks { AsksForRun words.now → AsksForRun other_words.now → free_left other_input.old ≡ free_left input.old → length (free_left input.old) ≤ limit
        → SameLines paper_told printer.old printer.new (exit_status result.0) paper_told other_printer.old other_printer.new (exit_status result.1) }

    // The first answer is that of a call of `serve` on the words, the shelf, the input and the printer.
    ensures call { IsServedOnShelf words.now shelf.old shelf.new input.old input.new printer.old printer.new (exit_status result.0) }

    // The second answer is that of a call on the others.
    ensures other_call { IsServedOnShelf other_words.now other_shelf.old other_shelf.new other_input.old other_input.new other_printer.old other_printer.new (exit_status result.1) }
{
    serve_twice(
        alloc,
        words,
        shelf,
        input,
        printer,
        other_words,
        other_shelf,
        other_input,
        other_printer,
    )
}
