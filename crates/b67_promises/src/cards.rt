//! A program is what is printed of it on cards.

ghost use Rattle.std.specs.Prelude.{◌≡◌, ◌≢◌, ◌≤◌, ℕ, List, [], length, Option, Some, None, codes};
ghost use Rattle.b67_io.specs.Causes.{Stayed};
ghost use Rattle.b67_model_text.specs.Deck.{limit};
ghost use Rattle.b67_task.specs.declared.tables.Machine.{Machine};
ghost use Rattle.b67_job.specs.Device.{device_of};
ghost use Rattle.b67_job.specs.Due.{Answered};
ghost use Rattle.b67_promises.specs.Paging.{AsksForRun, SameLines};
ghost use Rattle.b67_promises.specs.Cards.{AsksForAsm, AsksForConvert, AsksForBind, AsksForCheck, HoldPrinted, HoldsInstead, IsTakenText, IsAcceptedAlike, CodefilesHoldPrograms, ConvertingKeepsPrograms, DecksOpenOneSession};

use b67_backing::Backing;
use b67_io::{Sink, Source};
use b67_job::run;
use std::alloc::Global;

/// Has `asm` or `convert` print the hexadecimal cards of a source's program, and runs two decks that are the same but for one
/// job: in the first one it holds the source, in the other one the printed cards. Answers the three statuses.
///
/// Once the cards are printed, both decks print the same, as `run_twice` says it of one deck.
pub fn run_source_and_printed<
    R: Source,
    P: Sink,
    A: Backing,
    S: Source,
    K: Sink,
    B: Backing,
    T: Source,
    L: Sink,
    C: Backing,
>(
    alloc: Global,
    made_words: &[&str],
    source: &mut R,
    cards: &mut P,
    spare: &mut A,
    words: &[&str],
    deck: &mut S,
    printer: &mut K,
    backing: &mut B,
    other_words: &[&str],
    other_deck: &mut T,
    other_printer: &mut L,
    other_backing: &mut C,
) -> (u8, u8, u8)
    // Of assembly cards, which stand behind ?ASM.
    ensures asm { (text printed bytes other : List ℕ) → AsksForAsm made_words.now → R.left source.old ≡ Some text → P.taken cards.old ≡ Some [] → P.taken cards.new ≡ Some printed → result.0 ≡ 0
        → HoldPrinted (codes "?ASM") bytes other text printed → AsksForRun words.now → AsksForRun other_words.now
        → S.left deck.old ≡ Some bytes → T.left other_deck.old ≡ Some other → B.holds backing.old ≢ None → C.holds other_backing.old ≢ None
        → SameLines K.taken printer.old printer.new result.1 L.taken other_printer.old other_printer.new result.2 }

    // Of hexadecimal cards, which stand behind ?HEX.
    ensures convert { (text printed bytes other : List ℕ) → AsksForConvert made_words.now → R.left source.old ≡ Some text → P.taken cards.old ≡ Some [] → P.taken cards.new ≡ Some printed → result.0 ≡ 0
        → HoldPrinted (codes "?HEX") bytes other text printed → AsksForRun words.now → AsksForRun other_words.now
        → S.left deck.old ≡ Some bytes → T.left other_deck.old ≡ Some other → B.holds backing.old ≢ None → C.holds other_backing.old ≢ None
        → SameLines K.taken printer.old printer.new result.1 L.taken other_printer.old other_printer.new result.2 }

    // The first status is that of a call of `run` on the source, the cards and the spare backing.
    ensures made_call { (machine : Option Machine) × Answered made_words.now R.left R.faults source.old source.new (device_of A.holds A.size A.faults spare.old spare.new)
        machine P.taken P.faults cards.old cards.new result.0 }

    // The second status is that of a call on the words, the deck, the printer and the backing.
    ensures call { (machine : Option Machine) × Answered words.now S.left S.faults deck.old deck.new (device_of B.holds B.size B.faults backing.old backing.new)
        machine K.taken K.faults printer.old printer.new result.1 }

    // The third status is that of a call on the others.
    ensures other_call { (machine : Option Machine) × Answered other_words.now T.left T.faults other_deck.old other_deck.new (device_of C.holds C.size C.faults other_backing.old other_backing.new)
        machine L.taken L.faults other_printer.old other_printer.new result.2 }
{
    let made = run(alloc, made_words, source, cards, spare);
    let one = run(alloc, words, deck, printer, backing);
    let other = run(alloc, other_words, other_deck, other_printer, other_backing);
    (made.status, one.status, other.status)
}

/// Has `asm`, `convert` or `bind` print hexadecimal cards; checks a deck; and checks the same deck with the cards in the place of one
/// job's body. Answers the three statuses.
///
/// What is printed is admitted: if the cards are printed (0) and the first deck is accepted (0), the second one is, too, unless its
/// source or its printer fails, or memory is refused. It may be no longer than a deck may be. Of `asm` and `convert` the body is what
/// was printed, and both checks print the same; the cards of `bind` may stand in the place of any body.
pub fn check_printed<
    R: Source,
    P: Sink,
    A: Backing,
    S: Source,
    K: Sink,
    B: Backing,
    T: Source,
    L: Sink,
    C: Backing,
>(
    alloc: Global,
    made_words: &[&str],
    source: &mut R,
    cards: &mut P,
    spare: &mut A,
    words: &[&str],
    deck: &mut S,
    printer: &mut K,
    backing: &mut B,
    other_words: &[&str],
    other_deck: &mut T,
    other_printer: &mut L,
    other_backing: &mut C,
) -> (u8, u8, u8)
    // The body is assembly cards, behind ?ASM, of which `asm` printed the codefile.
    ensures asm { (text printed bytes other : List ℕ) → AsksForAsm made_words.now → AsksForCheck words.now → AsksForCheck other_words.now
        → R.left source.old ≡ Some text → P.taken cards.old ≡ Some [] → P.taken cards.new ≡ Some printed → S.left deck.old ≡ Some bytes → T.left other_deck.old ≡ Some other
        → HoldPrinted (codes "?ASM") bytes other text printed → length other ≤ limit → Stayed T.faults other_deck.old other_deck.new → Stayed L.faults other_printer.old other_printer.new
        → result.0 ≡ 0 → result.1 ≡ 0 → IsAcceptedAlike K.taken printer.old printer.new L.taken other_printer.old other_printer.new result.2 }

    // The body is hexadecimal cards, behind ?HEX, which `convert` read.
    ensures convert { (text printed bytes other : List ℕ) → AsksForConvert made_words.now → AsksForCheck words.now → AsksForCheck other_words.now
        → R.left source.old ≡ Some text → P.taken cards.old ≡ Some [] → P.taken cards.new ≡ Some printed → S.left deck.old ≡ Some bytes → T.left other_deck.old ≡ Some other
        → HoldPrinted (codes "?HEX") bytes other text printed → length other ≤ limit → Stayed T.faults other_deck.old other_deck.new → Stayed L.faults other_printer.old other_printer.new
        → result.0 ≡ 0 → result.1 ≡ 0 → IsAcceptedAlike K.taken printer.old printer.new L.taken other_printer.old other_printer.new result.2 }

    // What `bind` printed, of a deck of its own, may stand in the place of any body.
    ensures bind { (text printed bytes other : List ℕ) → AsksForBind made_words.now → AsksForCheck words.now → AsksForCheck other_words.now
        → R.left source.old ≡ Some text → P.taken cards.old ≡ Some [] → P.taken cards.new ≡ Some printed → S.left deck.old ≡ Some bytes → T.left other_deck.old ≡ Some other
        → HoldsInstead bytes other printed → length other ≤ limit → Stayed T.faults other_deck.old other_deck.new → Stayed L.faults other_printer.old other_printer.new
        → result.0 ≡ 0 → result.1 ≡ 0 → IsTakenText result.2 }

    // The first status is that of a call of `run` on the source, the cards and the spare backing.
    ensures made_call { (machine : Option Machine) × Answered made_words.now R.left R.faults source.old source.new (device_of A.holds A.size A.faults spare.old spare.new)
        machine P.taken P.faults cards.old cards.new result.0 }

    // The second status is that of a call on the words, the deck, the printer and the backing.
    ensures call { (machine : Option Machine) × Answered words.now S.left S.faults deck.old deck.new (device_of B.holds B.size B.faults backing.old backing.new)
        machine K.taken K.faults printer.old printer.new result.1 }

    // The third status is that of a call on the others.
    ensures other_call { (machine : Option Machine) × Answered other_words.now T.left T.faults other_deck.old other_deck.new (device_of C.holds C.size C.faults other_backing.old other_backing.new)
        machine L.taken L.faults other_printer.old other_printer.new result.2 }
{
    let made = run(alloc, made_words, source, cards, spare);
    let checked = run(alloc, words, deck, printer, backing);
    let other = run(alloc, other_words, other_deck, other_printer, other_backing);
    (made.status, checked.status, other.status)
}

/// The bytes of a program's codefile are read back as that program.
pub fn codefiles_hold_programs()
    ensures { CodefilesHoldPrograms }
{}

/// A program is that of its codefile in version 2, which `convert` prints.
pub fn converting_keeps_programs()
    ensures { ConvertingKeepsPrograms }
{}

/// Runs two decks that open one session, as `run_twice` does: they print the same.
pub fn run_one_session<S: Source, K: Sink, B: Backing, T: Source, L: Sink, C: Backing>(
    alloc: Global,
    words: &[&str],
    deck: &mut S,
    printer: &mut K,
    backing: &mut B,
    other_words: &[&str],
    other_deck: &mut T,
    other_printer: &mut L,
    other_backing: &mut C,
) -> (u8, u8)
    ensures decks { (bytes other : List ℕ) → DecksOpenOneSession bytes other → AsksForRun words.now → AsksForRun other_words.now
        → S.left deck.old ≡ Some bytes → T.left other_deck.old ≡ Some other → B.holds backing.old ≢ None → C.holds other_backing.old ≢ None
        → SameLines K.taken printer.old printer.new result.0 L.taken other_printer.old other_printer.new result.1 }

    // The first status is that of a call of `run` on the words, the deck, the printer and the backing.
    ensures call { (machine : Option Machine) × Answered words.now S.left S.faults deck.old deck.new (device_of B.holds B.size B.faults backing.old backing.new)
        machine K.taken K.faults printer.old printer.new result.0 }

    // The second status is that of a call on the others.
    ensures other_call { (machine : Option Machine) × Answered other_words.now T.left T.faults other_deck.old other_deck.new (device_of C.holds C.size C.faults other_backing.old other_backing.new)
        machine L.taken L.faults other_printer.old other_printer.new result.1 }
{
    let one = run(alloc, words, deck, printer, backing);
    let other = run(alloc, other_words, other_deck, other_printer, other_backing);
    (one.status, other.status)
}
