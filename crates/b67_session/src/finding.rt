//! A search through a run for the least count of operators at which something holds.

ghost use Rattle.b67_session.specs.AttemptStops as stops;
ghost use Rattle.b67_session.specs.declared.seeking.Sought.TheVariants as sought;
ghost use Rattle.std.specs.Prelude.{◌≡◌, ◌≢◌, ◌≤◌, ◌+◌, ◌-◌, ℕ, List, Option, Some, None, Result, Ok, Err, IfOk, length};
ghost use Rattle.std.specs.Result.{IsOk};
ghost use Rattle.b67_io.specs.Causes.{Stayed};
ghost use Rattle.b67_model.specs.Schedule.{Session};
ghost use Rattle.b67_model.specs.Run.{after};
ghost use Rattle.b67_layout.specs.Machine.{Says, content_after};
ghost use Rattle.b67_stack.specs.declared.Step.TheVariants.{Done};
ghost use Rattle.b67_exec.specs.Near.{StopsHere};
ghost use Rattle.b67_session.specs.AttemptStops.{Stop};
ghost use Rattle.b67_session.specs.Slices.{StandsAt, SetsOutSome, Keeps};
ghost use Rattle.b67_session.specs.Steps.{IsInOrderFor, GoesOnInTurn};
ghost use Rattle.b67_session.specs.Complete.{Suffices};
ghost use Rattle.b67_session.specs.Search.{IsSearched, FindsLeast, ComesTo, StopsUnfound, SearchLeaves, CountsOn, PassesBy};

use crate::seeking::{
    CodePlace, Depth, Sought, count_of, heights_here, is_elsewhere, is_found, note_chosen, noted,
};
use crate::slices::pause;
use crate::steps::step;
use crate::turns::go_on_with_turn;
use b67_backing::Backing;
use b67_io::Tally;
use b67_mcp::Stop;
use b67_stack::Step;
use b67_task::Machine;

/// Goes on with the turn of the last task from the count `next` on, up to the count `most` and to an operator of which what is
/// sought may hold, and answers the count then. If the deepest is sought, it notes each stack.
fn go_on_looking(
    machine: &mut Machine,
    what: Sought,
    places: &[CodePlace],
    next: u64,
    most: u64,
    best: &mut Option<Depth>,
    why: &mut Step,
) -> u64
    requires stands { IsInOrderFor machine.old }
    requires unprinted { machine.old.tasks.printed ≡ 0 }
    requires done { why.old ≡ Done }
    ensures few { CountsOn next most result }
    ensures stops { why.new ≢ Done → StopsHere machine.new.cpu why.new }
    ensures row { (said : Option (List (List ℕ))) (s : Session) → StandsAt said machine.old s → GoesOnInTurn said (result - next) s machine.old machine.new }
    ensures passes { (said : Option (List (List ℕ))) (start s : Session) (from : ℕ) → StandsAt said machine.old s → 1 ≤ s.turn → after next start ≡ s → from ≤ next
        → PassesBy what places.now from next result start best.old best.new }
    ensures keeps { Keeps machine.old machine.new }
{
    let mut made = next;
    'operator: while made < most {
        if !is_elsewhere(machine, what, places) {
            return made;
        }
        let top = heights_here(&machine.cpu.regs).top;
        let one = go_on_with_turn(machine, 1, why);
        if one == 0 {
            return made;
        }
        *best = noted(what, *best, Depth { made, top });
        made += one;
    }
    made
}

/// Goes on with the turn of the last task from the count `next` on, up to the count `most` and to an operator of which what is
/// sought may hold, and answers the count then. Below `from` it isn't asked.
fn go_on_past(
    machine: &mut Machine,
    what: Sought,
    places: &[CodePlace],
    from: u64,
    next: u64,
    most: u64,
    best: &mut Option<Depth>,
    why: &mut Step,
) -> u64
    requires stands { IsInOrderFor machine.old }
    requires unprinted { machine.old.tasks.printed ≡ 0 }
    requires done { why.old ≡ Done }
    ensures few { CountsOn next most result }
    ensures stops { why.new ≢ Done → StopsHere machine.new.cpu why.new }
    ensures row { (said : Option (List (List ℕ))) (s : Session) → StandsAt said machine.old s → GoesOnInTurn said (result - next) s machine.old machine.new }
    ensures passes { (said : Option (List (List ℕ))) (start s : Session) → StandsAt said machine.old s → 1 ≤ s.turn → after next start ≡ s
        → PassesBy what places.now from next result start best.old best.new }
    ensures keeps { Keeps machine.old machine.new }
{
    if next < from {
        let unseen = from.min(most).saturating_sub(next);
        return next + go_on_with_turn(machine, unseen, why);
    }
    match what {
        Sought::Switch => next + go_on_with_turn(machine, most.saturating_sub(next), why),
        _ => go_on_looking(machine, what, places, next, most, best, why),
    }
}

/// The least count from `from` on, among the first `most` and before the halt, at which what is sought holds of the next step of
/// a session: so many steps come before it. None if it holds at no such count. The steps are made up to that count, or all of them
/// if the deepest is sought, and their lines are dropped.
///
/// Core has the words of the steps that come before that count; where it is none, or the deepest is sought, those of all steps
/// that the run makes at such counts and before them. It stops where the run itself does, by the same cause, and nothing that is
/// sought came before.
pub fn find<B: Backing>(
    machine: &mut Machine,
    what: Sought,
    places: &[CodePlace],
    from: u64,
    most: u64,
    backing: &mut B,
) -> Result<Option<u64>, Stop>
    requires begins { SetsOutSome (B.holds backing.old) machine.old }
    requires sized { B.size backing.old + 1 ≡ length machine.old.sectors.links }
    ensures least { (told : Option (List (List ℕ))) (s : Session) → told ≢ None → Says told (B.holds backing.old) → StandsAt told machine.old s
        → IfOk result (FindsLeast what places.now (IsSearched from most machine.old.tasks) s) }
    ensures comes { (told : Option (List (List ℕ))) (s : Session) → told ≢ None → Says told (B.holds backing.old) → StandsAt told machine.old s → IfOk result (ComesTo what (length machine.old.cpu.core) (IsSearched from most machine.old.tasks) s) }
    ensures stands { (told : Option (List (List ℕ))) (s : Session) (n : ℕ) → told ≢ None → Says told (B.holds backing.old) → StandsAt told machine.old s → what ≢ sought.Deepest → result ≡ Ok (Some n)
        → StandsAt (content_after told (B.holds backing.new)) machine.new (after n s) }
    ensures stops { (told : Option (List (List ℕ))) (s : Session) (stop : Stop) → told ≢ None → Says told (B.holds backing.old) → StandsAt told machine.old s → result ≡ Err stop
        → StopsUnfound (content_after told (B.holds backing.new)) (told ≢ None) (B.size backing.old) what places.now from most s stop machine.old machine.new }
    ensures complete { (told : Option (List (List ℕ))) (s : Session) → told ≢ None → Says told (B.holds backing.old) → StandsAt told machine.old s
        → Suffices (length machine.old.cpu.core) (B.size backing.old) most machine.old.tasks s → Stayed B.faults backing.old backing.new → IsOk result }
    ensures leaves { SearchLeaves B.holds B.size B.calls B.faults result machine.old machine.new backing.old backing.new }
{
    let mut paper = Tally::new();
    let mut made = 0;
    let mut best = None;
    let mut why = Step::Done;
    'turn: while made < most {
        if let Some(_progress) = pause(&machine.tasks, machine.tasks.halt) {
            return Ok(count_of(best));
        }
        if is_found(machine, what, places, from, made) {
            return Ok(Some(made));
        }
        best = note_chosen(machine, what, from, made, best);
        match step(machine, &mut why, backing, &mut paper) {
            Ok(()) => {}
            Err(stop) => return Err(stop),
        }
        made = go_on_past(
            machine,
            what,
            places,
            from,
            made + 1,
            most,
            &mut best,
            &mut why,
        );
    }
    Ok(count_of(best))
}
