//! A run that halts: its image is read, and the rest prints what it would have printed.

ghost use Rattle.std.specs.Prelude.{◌≡◌, ◌≢◌, ◌≤◌, ◌<◌, ◌^◌, ◌++◌, ℕ, List, length, Option, Some, None};
ghost use Rattle.b67_model.specs.declared.limits.TheConstants.{MOST_STACKS};
ghost use Rattle.b67_io.specs.Causes.{Stayed};
ghost use Rattle.b67_task.specs.declared.tables.Machine.{Machine};
ghost use Rattle.std.specs.Process.{exit_status};
ghost use Rattle.b67_model_text.specs.Deck as deck;
ghost use Rattle.b67_image.specs.Text.{limit};
ghost use Rattle.b67_job.specs.Command.{backing_path};
ghost use Rattle.b67_job.specs.Device.{device_of};
ghost use Rattle.b67_job.specs.Due.{Answered};
ghost use Rattle.b67_promises.specs.Paging.{AsksForRun, AsksForRunIn, EndsToo};
ghost use Rattle.b67_program.specs.Opening.{Finds, Leaves};
ghost use Rattle.b67_program.specs.Served.{IsServed};
ghost use Rattle.b67_promises.specs.Halts.{AsksForImage, AsksForImageIn, AsksForResume, DifferInHalt, ResumePrints, ResumeBegins, PrintsTheRest, ImagesOfRunsAreRead, IsReadBack};

use b67_backing::Backing;
use b67_image::parts_tell_sessions;
use b67_io::{Sink, Source};
use b67_job::{Outcome, outcome_is_typed, run};
use b67_program::{Devices, serve};
use std::alloc::Global;
use std::process::ExitCode;

/// Runs a deck to its halt by `image`; goes on from what was printed by `resume`, over the same backing; and runs the same deck
/// without its halt by `run`, over a backing of its own. Answers the three statuses.
///
/// If the first run halts (3) and the other two end (0), the lines of the halted run and of the resumed one are together those of
/// the whole run. The second is no 2 then: an image that a run prints is never refused, if it isn't too long.
pub fn run_halted_then_resumed<
    S: Source,
    K: Sink,
    B: Backing,
    I: Source,
    L: Sink,
    T: Source,
    M: Sink,
    C: Backing,
>(
    alloc: Global,
    words: &[&str],
    deck: &mut S,
    printer: &mut K,
    backing: &mut B,
    resume_words: &[&str],
    image: &mut I,
    resume_printer: &mut L,
    whole_words: &[&str],
    whole_deck: &mut T,
    whole_printer: &mut M,
    whole_backing: &mut C,
) -> (u8, u8, u8)
    // What the second source gives is what the first printer took. The backings tell what their sectors hold.
    ensures together { (bytes other before text : List ℕ) → AsksForImage words.now → AsksForResume resume_words.now → AsksForRun whole_words.now
        → S.left deck.old ≡ Some bytes → T.left whole_deck.old ≡ Some other → DifferInHalt bytes other
        → K.taken printer.old ≡ Some before → K.taken printer.new ≡ Some (before ++ text) → I.left image.old ≡ Some text → B.holds backing.old ≢ None → C.holds whole_backing.old ≢ None
        → result.0 ≡ 3 → result.1 ≡ 0 → result.2 ≡ 0
        → ResumePrints text L.taken resume_printer.old resume_printer.new M.taken whole_printer.old whole_printer.new }

    // The image isn't refused, if all that the first call printed is no longer than an image may be.
    ensures accepted { (before text : List ℕ) → AsksForImage words.now → AsksForResume resume_words.now
        → K.taken printer.old ≡ Some before → K.taken printer.new ≡ Some (before ++ text) → I.left image.old ≡ Some text → length text ≤ limit
        → result.0 ≡ 3 → result.1 ≢ 2 }

    // Whatever the second status is: the lines of the halted run and what the second call printed are a beginning of what the whole
    // run printed, and at most one line.
    ensures begins { (bytes other before text : List ℕ) → AsksForImage words.now → AsksForResume resume_words.now → AsksForRun whole_words.now
        → S.left deck.old ≡ Some bytes → T.left whole_deck.old ≡ Some other → DifferInHalt bytes other
        → K.taken printer.old ≡ Some before → K.taken printer.new ≡ Some (before ++ text) → I.left image.old ≡ Some text → B.holds backing.old ≢ None → C.holds whole_backing.old ≢ None
        → result.0 ≡ 3 → result.2 ≡ 0
        → ResumeBegins text L.taken resume_printer.old resume_printer.new M.taken whole_printer.old whole_printer.new }

    // If the whole run ends in a core that is no greater than the image's, the resumed one ends, too, unless a device or its printer
    // fails, or sectors or memory run out.
    ensures ends_too { (bytes other before text : List ℕ) → (core less : ℕ) → AsksForImageIn core words.now → AsksForResume resume_words.now → AsksForRunIn less whole_words.now → less ≤ core → core < 2 ^ 20
        → S.left deck.old ≡ Some bytes → T.left whole_deck.old ≡ Some other → DifferInHalt bytes other
        → K.taken printer.old ≡ Some before → K.taken printer.new ≡ Some (before ++ text) → I.left image.old ≡ Some text → length text ≤ limit → B.holds backing.old ≢ None → C.holds whole_backing.old ≢ None
        → Stayed I.faults image.old image.new → Stayed L.faults resume_printer.old resume_printer.new → Stayed B.faults backing.old backing.new
        → result.0 ≡ 3 → result.2 ≡ 0 → EndsToo 0 result.1 }

    // The first two statuses are those of calls of `run`, the second over the backing as the first has left it.
    ensures calls { (middle : B)
        × ((machine : Option Machine) × Answered words.now S.left S.faults deck.old deck.new (device_of B.holds B.size B.faults backing.old middle)
        machine K.taken K.faults printer.old printer.new result.0)
        × ((machine : Option Machine) × Answered resume_words.now I.left I.faults image.old image.new (device_of B.holds B.size B.faults middle backing.new)
        machine L.taken L.faults resume_printer.old resume_printer.new result.1) }

    // The third is that of a call on the others.
    ensures whole_call { (machine : Option Machine) × Answered whole_words.now T.left T.faults whole_deck.old whole_deck.new (device_of C.holds C.size C.faults whole_backing.old whole_backing.new)
        machine M.taken M.faults whole_printer.old whole_printer.new result.2 }
{
    parts_tell_sessions();
    let halted = run(alloc, words, deck, printer, backing);
    outcome_is_typed(&halted);
    tasks_are_few(&halted);
    let resumed = run(alloc, resume_words, image, resume_printer, backing);
    let whole = run(alloc, whole_words, whole_deck, whole_printer, whole_backing);
    (halted.status, resumed.status, whole.status)
}

/// Serves a deck by `image`, which halts, and serves `resume` on what was printed, over the file of the same path, as the program
/// does. Answers what each call is to end with.
///
/// If the first ends with 3 and the second with 0, the lines of the halted run and those of the resumed one are together what the
/// machine of the model prints of the deck, to the end of all its tasks.
pub fn serve_halted_then_resumed<R: Devices, S: Source, K: Sink, I: Source, L: Sink>(
    alloc: Global,
    words: &[&str],
    devices: &mut R,
    input: &mut S,
    printer: &mut K,
    resume_words: &[&str],
    image: &mut I,
    resume_printer: &mut L,
) -> (ExitCode, ExitCode)
    // What the second input gives is what the first printer took. It is told what the file of the path holds, and neither text is
    // longer than a command reads.
    ensures together { (path bytes before text : List ℕ) → AsksForImage words.now → AsksForResume resume_words.now
        → backing_path words.now ≡ Some path → backing_path resume_words.now ≡ Some path → R.kept devices.old path ≢ None
        → S.left input.old ≡ Some bytes → length bytes ≤ deck.limit
        → K.taken printer.old ≡ Some before → K.taken printer.new ≡ Some (before ++ text) → I.left image.old ≡ Some text → length text ≤ limit
        → exit_status result.0 ≡ 3 → exit_status result.1 ≡ 0
        → PrintsTheRest bytes text L.taken resume_printer.old resume_printer.new }

    // The answers are those of two calls of `serve`, the second over the files as the first has left them.
    ensures calls { (middle : R)
        × IsServed words.now S.left S.faults input.old input.new (Finds R.kept R.File.holds devices.old) (Leaves R.kept R.File.holds middle) (device_of R.File.holds R.File.size R.File.faults)
        K.taken K.faults printer.old printer.new (exit_status result.0)
        × IsServed resume_words.now I.left I.faults image.old image.new (Finds R.kept R.File.holds middle) (Leaves R.kept R.File.holds devices.new) (device_of R.File.holds R.File.size R.File.faults)
        L.taken L.faults resume_printer.old resume_printer.new (exit_status result.1) }
{
    parts_tell_sessions();
    let halted = serve(alloc, words, devices, input, printer);
    let resumed = serve(alloc, resume_words, devices, image, resume_printer);
    (halted, resumed)
}

/// What `image` prints of a run that halts is read as the image of its machine, if the machine's numbers are within their ranges,
/// the text within the limit, and it has as many sectors as are wanted: the lines of steps before the image, and the line of the
/// halt behind it, are passed over. If the machine represents a session, the text is never refused.
pub fn images_of_runs_are_read()
    ensures { ImagesOfRunsAreRead }
{}

/// Looks at the table of tasks of the machine that a call has left, if it left one: its type bounds it. Changes nothing.
pub(crate) fn tasks_are_few(outcome: &Outcome)
    ensures { (k : Machine) → outcome.now.machine ≡ Some k → length k.tasks.rows.items ≤ MOST_STACKS }
{
    if let Some(machine) = &outcome.machine {
        let _rows = machine.tasks.rows.as_slice();
    }
}

/// Runs a deck to its halt by `image`. What it prints is read over the same backing as the machine that it leaves, and is never
/// refused, if it is no longer than an image may be: each number of that machine is within its range.
pub fn run_to_image<S: Source, K: Sink, B: Backing>(
    alloc: Global,
    words: &[&str],
    deck: &mut S,
    printer: &mut K,
    backing: &mut B,
) -> Outcome
    ensures read { (before text : List ℕ) → AsksForImage words.now → K.taken printer.old ≡ Some before → K.taken printer.new ≡ Some (before ++ text)
        → result.status ≡ 3 → length text ≤ limit → IsReadBack (B.size backing.new) text result.machine }

    // The outcome is that of a call of `run`.
    ensures call { Answered words.now S.left S.faults deck.old deck.new (device_of B.holds B.size B.faults backing.old backing.new)
        result.machine K.taken K.faults printer.old printer.new result.status }
{
    let outcome = run(alloc, words, deck, printer, backing);
    outcome_is_typed(&outcome);
    tasks_are_few(&outcome);
    outcome
}
