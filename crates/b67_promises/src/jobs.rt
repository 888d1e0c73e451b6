//! A job prints the same lines, whatever other jobs do.

ghost use Rattle.std.specs.Prelude.{◌≡◌, ◌≢◌, ◌≤◌, ◌<◌, ◌^◌, ℕ, List, Option, Some, None, []};
ghost use Rattle.b67_io.specs.Causes.{Stayed};
ghost use Rattle.b67_task.specs.declared.tables.Machine.{Machine};
ghost use Rattle.b67_job.specs.Device.{device_of};
ghost use Rattle.b67_job.specs.Due.{Answered};
ghost use Rattle.b67_promises.specs.Paging.{AsksForRun, AsksForRunIn, EndsToo};
ghost use Rattle.b67_promises.specs.Jobs.{JobsNeedNoOthers, ShareJob, IsLoneJob, SameOfJob, printed_by_job, ShareJobInTurns, IsOfTaskOne};

use b67_backing::Backing;
use b67_io::{Sink, Source};
use b67_job::run;
use std::alloc::Global;

/// In a run without switches a job's steps, in their order, are those that it makes when it runs as the one job of a deck with the
/// same stack size and the same quantum. So its lines are the same, but for its number, and so is what it comes to.
pub fn jobs_need_no_others()
    ensures { JobsNeedNoOthers }
{}

/// Runs two decks that share a job and their run cards, of which none is a `?SWITCH`, as `run_twice` does: both print the same lines of
/// this job, behind its number, whatever the other jobs of each deck are, and at whatever place it stands. If one of them halts, or
/// stops for core, for sectors or for a failing device, what it printed of the job begins what the other one prints.
///
/// If the other deck holds this job alone, a core in which the first one ends suffices for it.
///
/// The statuses are those of two calls of `run`, each on the words and the devices that were handed in for it.
pub fn run_apart<S: Source, K: Sink, B: Backing, T: Source, L: Sink, C: Backing>(
    alloc: Global,
    words: &[&str],
    deck: &mut S,
    printer: &mut K,
    backing: &mut B,
    other_words: &[&str],
    other_deck: &mut T,
    other_printer: &mut L,
    other_backing: &mut C,
) -> (u8, u8)
    // The backings tell what their sectors hold.
    ensures jobs { (bytes other : List ℕ) → (i j : ℕ) → ShareJob i j bytes other → AsksForRun words.now → AsksForRun other_words.now
        → S.left deck.old ≡ Some bytes → T.left other_deck.old ≡ Some other → B.holds backing.old ≢ None → C.holds other_backing.old ≢ None
        → SameOfJob i j K.taken printer.old printer.new result.0 L.taken other_printer.old other_printer.new result.1 }

    // The other deck holds the job alone, and runs in a core of no fewer words, over devices and a printer that don't fail.
    ensures more_core { (bytes other : List ℕ) → (i j core more : ℕ) → (h : ShareJob i j bytes other) → IsLoneJob h → AsksForRunIn core words.now → AsksForRunIn more other_words.now → core ≤ more → more < 2 ^ 20
        → S.left deck.old ≡ Some bytes → T.left other_deck.old ≡ Some other → B.holds backing.old ≢ None → C.holds other_backing.old ≢ None
        → Stayed T.faults other_deck.old other_deck.new → Stayed L.faults other_printer.old other_printer.new → Stayed C.faults other_backing.old other_backing.new
        → result.0 ≡ 0 → result.1 ≢ 2 → EndsToo result.0 result.1 }

    // The first status is that of a call of `run` on the words, the deck, the printer and the backing.
    ensures call { (machine : Option Machine) × Answered words.now S.left S.faults deck.old deck.new (device_of B.holds B.size B.faults backing.old backing.new)
        machine K.taken K.faults printer.old printer.new result.0 }

    // The second status is that of a call on the others.
    ensures other_call { (machine : Option Machine) × Answered other_words.now T.left T.faults other_deck.old other_deck.new (device_of C.holds C.size C.faults other_backing.old other_backing.new)
        machine L.taken L.faults other_printer.old other_printer.new result.1 }
{
    let one = run(alloc, words, deck, printer, backing);
    let other = run(alloc, other_words, other_deck, other_printer, other_backing);
    (one.status, other.status)
}

/// Runs two decks that share a job, and their run cards but those of the quantum and of switches, as `run_twice` does. If both end,
/// and the first printed lines of task 1 of this job alone, the second printed the same of the job.
pub fn run_apart_in_turns<S: Source, K: Sink, B: Backing, T: Source, L: Sink, C: Backing>(
    alloc: Global,
    words: &[&str],
    deck: &mut S,
    printer: &mut K,
    backing: &mut B,
    other_words: &[&str],
    other_deck: &mut T,
    other_printer: &mut L,
    other_backing: &mut C,
) -> (u8, u8)
    // The backings tell what their sectors hold, and both printers tell what they took.
    ensures one_task { (bytes other text text' : List ℕ) → (i j : ℕ) → ShareJobInTurns i j bytes other → AsksForRun words.now → AsksForRun other_words.now
        → S.left deck.old ≡ Some bytes → T.left other_deck.old ≡ Some other → B.holds backing.old ≢ None → C.holds other_backing.old ≢ None
        → K.taken printer.old ≡ Some [] → K.taken printer.new ≡ Some text → L.taken other_printer.old ≡ Some [] → L.taken other_printer.new ≡ Some text'
        → result.0 ≡ 0 → result.1 ≡ 0 → IsOfTaskOne (printed_by_job i text) → printed_by_job j text' ≡ printed_by_job i text }

    // The first status is that of a call of `run` on the words, the deck, the printer and the backing.
    ensures call { (machine : Option Machine) × Answered words.now S.left S.faults deck.old deck.new (device_of B.holds B.size B.faults backing.old backing.new)
        machine K.taken K.faults printer.old printer.new result.0 }

    // The second status is that of a call on the others.
    ensures other_call { (machine : Option Machine) × Answered other_words.now T.left T.faults other_deck.old other_deck.new (device_of C.holds C.size C.faults other_backing.old other_backing.new)
        machine L.taken L.faults other_printer.old other_printer.new result.1 }
{
    let one = run(alloc, words, deck, printer, backing);
    let turned = run(alloc, other_words, other_deck, other_printer, other_backing);
    (one.status, turned.status)
}
