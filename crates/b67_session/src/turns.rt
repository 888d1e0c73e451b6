//! A turn: the chosen task runs, and makes operators.

ghost use Rattle.std.specs.Prelude.{◌≡◌, ◌≢◌, ℕ, ◌+◌, ◌-◌, ◌≤◌, List, length, Option, Some, slice_get, true, false};
ghost use Rattle.b67_model.specs.InOrder.{IsInOrderButPlaces};
ghost use Rattle.b67_model.specs.Schedule.{Session};
ghost use Rattle.b67_layout.specs.Orders.{IsInOrderButCounts};
ghost use Rattle.b67_stack.specs.Represents.{Storage};
ghost use Rattle.b67_layout.specs.Placement.{Placement};
ghost use Rattle.b67_task.specs.Turns.{with_running};
ghost use Rattle.b67_task.specs.declared.tables.TaskRow.{TaskRow};
ghost use Rattle.b67_stack.specs.declared.Step.TheVariants.{Done};
ghost use Rattle.b67_exec.specs.Near.{StopsHere};
ghost use Rattle.b67_task.specs.Runs.{RunsTask};
ghost use Rattle.b67_task.specs.Tables.{MachineRepresents};
ghost use Rattle.b67_task.specs.Standing.{HasRow};
ghost use Rattle.b67_task.specs.Lasting.{TurnLasts};
ghost use Rattle.b67_session.specs.Slices.{StandsAt, Keeps};
ghost use Rattle.b67_session.specs.Steps.{IsInOrderFor, CountsTurn, GoesOnInTurn};
ghost use Rattle.b67_session.specs.Makes.{MakesInSegment, MakesOne, ForEachReady};
ghost use Rattle.b67_session.specs.InTurn.{BeginsWith, MayMake, TurnBegins, HasTurnLeft, MadeInTurn, LeavesToMake, SaysWhyFewer};

use crate::making::make_next;
use b67_exec::{Went, reader_here};
use b67_stack::Step;
use b67_task::{Machine, count_turn, switch_to, turn_room};

/// The task of a row is then the running one, if it wasn't. The session's state stays. If another task was, `why` is known no more
/// of the operator at the running place, and is `Done`.
#[inline(always)]
pub(crate) fn give_turn(machine: &mut Machine, row: u8, why: &mut Step)
    requires row { HasRow machine.old row }
    requires why { why.old ≢ Done → StopsHere machine.old.cpu why.old }
    ensures stands { (x : Storage) (told : Option (List (List ℕ))) (plan : Placement) (s : Session) (r : TaskRow) → IsInOrderButCounts s
        → MachineRepresents x told machine.old plan s → slice_get machine.old.tasks.rows.items row ≡ Some r
        → MachineRepresents x told machine.new (with_running plan r.slot) s }
    ensures tables { machine.new.tasks ≡ record machine.old.tasks { rows = machine.new.tasks.rows; running = row } }
    ensures len { length machine.new.cpu.core ≡ length machine.old.cpu.core }
    ensures sectors { machine.new.sectors ≡ machine.old.sectors }
    ensures why { why.new ≢ Done → StopsHere machine.new.cpu why.new }
{
    if machine.tasks.running != row {
        switch_to(machine, row);
        *why = Step::Done;
    }
}

/// How many operators are still to be made, and whether the turn goes on with them, in this segment or another.
#[derive(Clone, Copy)]
struct StillToMake {
    room: u64,
    goes: bool,
}

/// Makes operators of the running task, up to `most`, and reads the segment's descriptor once, and its words one by one. It stops
/// after one that may leave the segment; and before one that calls an intrinsic, ends its task, wants something that is absent, or
/// faults: then the turn doesn't go on, and `why` is the reason.
#[inline(always)]
fn make_in_segment(machine: &mut Machine, most: u64, why: &mut Step) -> StillToMake
    requires { MayMake machine.old most }
    ensures left { LeavesToMake most result.room result.goes }
    ensures stops { result.goes ≡ false → StopsHere machine.new.cpu why.new }
    ensures first { BeginsWith (most - result.room) machine.old machine.new }
    ensures row { (said : Option (List (List ℕ))) (steps core : ℕ) (s : Session) → length machine.old.cpu.core ≡ core → HasTurnLeft said steps most s core machine.old
        → HasTurnLeft said (steps + (most - result.room)) result.room s core machine.new }
    ensures tables { machine.new.tasks ≡ machine.old.tasks }
    ensures keeps { Keeps machine.old machine.new }
{
    let mut room = most;
    let mut reader = match reader_here(&machine.cpu, why) {
        Some(reader) => reader,
        None => return StillToMake { room, goes: false },
    };
    'operator: while room > 0 {
        match make_next(machine, &mut reader, why) {
            Went::On => room -= 1,
            Went::Away => return StillToMake {
                room: room - 1,
                goes: true,
            },
            Went::Not => return StillToMake { room, goes: false },
        }
    }
    StillToMake { room, goes: true }
}

/// Makes operators of the running task, up to `room`, and answers how many. It stops before one that calls an intrinsic, ends its
/// task, wants something that is absent or faults: then `why` is the reason, else it stays. None is counted yet.
#[inline(never)]
fn make_in_turn(machine: &mut Machine, room: u64, why: &mut Step) -> u64
    requires runs { RunsTask machine.old }
    requires begins { 2 ≤ room → TurnBegins machine.old room }
    ensures few { result ≤ room }
    ensures why { SaysWhyFewer room result machine.new.cpu why.old why.new }
    ensures first { BeginsWith result machine.old machine.new }
    ensures row { (x : Storage) (said : Option (List (List ℕ))) (plan : Placement) (s : Session) → IsInOrderButPlaces s → MachineRepresents x said machine.old plan s → TurnLasts plan s room
        → MadeInTurn said result s (length machine.old.cpu.core) machine.new }
    ensures tables { machine.new.tasks ≡ machine.old.tasks }
    ensures keeps { Keeps machine.old machine.new }
{
    let mut left = room;
    let mut reason = Step::Done;
    'segment: while left > 0 {
        let next = make_in_segment(machine, left, &mut reason);
        left = next.room;
        if !next.goes {
            *why = reason;
            return room - left;
        }
    }
    room
}

/// Makes the operator at the running place, unless `why` says already why it isn't made, and answers whether it was made. If it
/// wasn't, `why` is the reason and nothing has changed.
#[inline(always)]
pub(crate) fn make_told(machine: &mut Machine, why: &mut Step) -> bool
    requires runs { RunsTask machine.old }
    requires why { why.old ≢ Done → StopsHere machine.old.cpu why.old }
    ensures row { result ≡ true → MakesOne machine.old machine.new }
    ensures done { result ≡ true → why.new ≡ Done }
    ensures rest { result ≡ false → machine.new ≡ machine.old }
    ensures stops { result ≡ false → StopsHere machine.new.cpu why.new }
    ensures keeps { Keeps machine.old machine.new }
    ensures tasks { machine.new.tasks ≡ machine.old.tasks }
{
    match *why {
        Step::Done => {}
        _ => return false,
    }
    let made = make_in_turn(machine, 1, why);
    if made == 0 {
        return false;
    }
    true
}

/// Makes the operator at the running place. Where it leaves an activation record, the areas and chains of that record's
/// arrays are given back. The running task is a ready one, as each task is that was chosen.
///
/// `Absent(Code(..))` exactly where the running segment is absent, and `Call(n)` exactly where the operator calls
/// intrinsic n. Else `Done`, `Absent(Array(..))`, `Fault` and `Ended` are by the operator's row. Nothing is changed but at
/// `Done`: then every array, segment and data row that is left is held as it was, in the same area and the same sectors,
/// and only words have changed that the operator may change and, where a record was left, words of the directory and of
/// holes.
#[inline(always)]
pub fn make(machine: &mut Machine) -> Step
    requires runs { RunsTask machine.old }
    ensures row { ForEachReady machine.old (λ x told plan s m t. MakesInSegment x told plan s m t result machine.old machine.new) }
    ensures rest { result ≢ Done → machine.new ≡ machine.old }
    ensures stops { result ≢ Done → StopsHere machine.new.cpu result }
    ensures keeps { Keeps machine.old machine.new }
    ensures tasks { machine.new.tasks ≡ machine.old.tasks }
{
    let mut why = Step::Done;
    if make_told(machine, &mut why) {
        return Step::Done;
    }
    why
}

/// Goes on with the turn of the last task: makes operators of it, each a whole step, up to `most`, and answers how many. It
/// stops before another task is chosen, before the halt and before an operator by which the job reaches its limit; before an
/// operator that calls an intrinsic, ends its task, wants something that is absent or faults, and `why` is then the reason; and if
/// no task has the turn.
#[inline(always)]
pub(crate) fn go_on_with_turn(machine: &mut Machine, most: u64, why: &mut Step) -> u64
    requires stands { IsInOrderFor machine.old }
    requires unprinted { machine.old.tasks.printed ≡ 0 }
    requires done { why.old ≡ Done }
    ensures counts { CountsTurn most result machine.old machine.new why.old why.new }
    ensures lasts { (said : Option (List (List ℕ))) (s : Session) (h : StandsAt said machine.old s) → 1 ≤ result → TurnLasts h.plan s 1 }
    ensures stops { why.new ≢ Done → StopsHere machine.new.cpu why.new }
    ensures row { (said : Option (List (List ℕ))) (s : Session) → StandsAt said machine.old s → GoesOnInTurn said result s machine.old machine.new }
    ensures keeps { Keeps machine.old machine.new }
{
    let room = turn_room(&machine.tasks, most);
    if room == 0 {
        return 0;
    }
    let made = make_in_turn(machine, room, why);
    count_turn(&mut machine.tasks, made);
    made
}
