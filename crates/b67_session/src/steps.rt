//! One step of a session of any jobs and tasks.

ghost use Rattle.b67_session.specs.AttemptStops as stops;
ghost use Rattle.std.specs.Prelude.{◌≡◌, ◌≢◌, ℕ, ◌+◌, ◌≤◌, List, Option, None, Err, length};
ghost use Rattle.b67_model.specs.Endings.{ends_with};
ghost use Rattle.b67_model.specs.State.{Condition, Task, SessionJob};
ghost use Rattle.b67_model.specs.Schedule.{Session};
ghost use Rattle.b67_layout.specs.Machine.{Says, content_after};
ghost use Rattle.b67_io.specs.Causes.{Rose, HasCause};
ghost use Rattle.b67_law.specs.Orders.{IsInOrderButLimit};
ghost use Rattle.b67_law.specs.Turns.{IsNext, part_of};
ghost use Rattle.b67_stack.specs.declared.Step.TheVariants.{Done};
ghost use Rattle.b67_stack.specs.Represents.{Storage};
ghost use Rattle.b67_exec.specs.Near.{StopsHere};
ghost use Rattle.b67_layout.specs.Placement.{Placement};
ghost use Rattle.b67_task.specs.Runs.{Keeps};
ghost use Rattle.b67_task.specs.Tables.{MachineRepresents};
ghost use Rattle.b67_task.specs.Counted.{choice_of, CountsHaveRoom};
ghost use Rattle.b67_session.specs.Closing.{StandsChosen, ChoseSome, Closes};
ghost use Rattle.b67_session.specs.Holds.{waiting_step, HoldsSo, HoldsSome};
ghost use Rattle.b67_session.specs.Ends.{StandsBetween};
ghost use Rattle.b67_session.specs.Attempts.{TryLeaves};
ghost use Rattle.b67_session.specs.Slices.{IsStepDue, StandsAt, IfPresent};
ghost use Rattle.b67_session.specs.Steps.{chosen_of, EndsStep, Steps};

use crate::attempting::attempt_told;
use crate::closes::close;
use crate::counts::count_one;
use crate::ends::finish;
use crate::holds::make_wait;
use crate::tries::Tried;
use crate::turns::give_turn;
use b67_backing::Backing;
use b67_io::Sink;
use b67_mcp::Stop;
use b67_stack::Step;
use b67_task::{Chosen, Machine, TaskState, choose};
use b67_word::{Ending, Failed};

/// The last part of a step whose operator is counted: the lines of LIMIT, if its job stands at its limit.
#[inline(always)]
fn end_step<K: Sink>(machine: &mut Machine, paper: &mut K) -> Result<(), Stop>
    requires { StandsBetween machine.old }
    ensures finishes { (x : Storage) (told : Option (List (List ℕ))) (plan : Placement) (h : Session) → IsInOrderButLimit h → MachineRepresents x told machine.old plan h
        → EndsStep K.taken x told plan h result machine.old machine.new paper.old paper.new }
    ensures cause { result ≡ Err stops.PrintFault → Rose K.faults paper.old paper.new }
    ensures later { K.faults paper.old ≤ K.faults paper.new }
    ensures other { result ≢ Err stops.BackingFault }
    ensures tasks { machine.new.tasks ≡ record machine.old.tasks { rows = machine.new.tasks.rows; running = machine.new.tasks.running; printed = machine.new.tasks.printed } }
    ensures keeps { Keeps machine.old machine.new }
{
    match finish(machine, paper) {
        Ok(()) => Ok(()),
        Err(_failed) => Err(Stop::PrintFault),
    }
}

/// As `close`. The choice comes in parts, so that the loop of steps, which seldom calls this, needs no memory for it.
#[inline(never)]
fn ends<K: Sink>(
    machine: &mut Machine,
    row: u8,
    job: u8,
    number: u32,
    turn: u32,
    ending: Ending,
    paper: &mut K,
) -> Result<(), Failed>
    requires row { ChoseSome machine.old (chosen_of row job number turn) }
    requires room { CountsHaveRoom machine.old.tasks (chosen_of row job number turn) }
    ensures closes { (x : Storage) (told : Option (List (List ℕ))) (plan : Placement) (s : Session) (m : SessionJob) (t : Task) → StandsChosen x told machine.old plan s m t (chosen_of row job number turn)
        → Closes K.taken x told plan s (part_of s (choice_of (chosen_of row job number turn)) m t (ends_with m.progress.job t.number ending)) result machine.old machine.new paper.old paper.new }
    ensures cause { HasCause K.faults paper.old paper.new result }
    ensures keeps { Keeps machine.old machine.new }
{
    let chosen = Chosen {
        row,
        job,
        number,
        turn,
    };
    close(machine, chosen, ending, paper)
}

/// As `make_wait`, with the choice in parts, too.
#[inline(never)]
fn waits<K: Sink>(
    machine: &mut Machine,
    row: u8,
    job: u8,
    number: u32,
    turn: u32,
    state: TaskState,
    paper: &mut K,
) -> Result<(), Failed>
    requires row { HoldsSome machine.old (chosen_of row job number turn) state }
    requires room { CountsHaveRoom machine.old.tasks (chosen_of row job number turn) }
    ensures holds { (x : Storage) (told : Option (List (List ℕ))) (plan : Placement) (s : Session) (m : SessionJob) (t : Task) (condition : Condition) → StandsChosen x told machine.old plan s m t (chosen_of row job number turn) → HoldsSo plan m t state condition
        → Closes K.taken x told plan s (part_of s (choice_of (chosen_of row job number turn)) m t (waiting_step m.progress.job t condition)) result machine.old machine.new paper.old paper.new }
    ensures cause { HasCause K.faults paper.old paper.new result }
    ensures keeps { Keeps machine.old machine.new }
{
    let chosen = Chosen {
        row,
        job,
        number,
        turn,
    };
    make_wait(machine, chosen, state, paper)
}

/// Makes one step of a session of which a task lives, with its text printed and its operator counted. After a `Stop` it isn't
/// counted, and the machine represents the state before it; but if the printer failed in the lines of LIMIT, the step is made
/// and counted but for these lines and the tasks' ends. If `why` isn't `Done`, it is what the operator at the running place was
/// seen to answer; the step is the same. Then it is `Done`.
#[inline(always)]
pub(crate) fn step<B: Backing, K: Sink>(
    machine: &mut Machine,
    why: &mut Step,
    backing: &mut B,
    paper: &mut K,
) -> Result<(), Stop>
    requires due { IsStepDue (B.holds backing.old) machine.old }
    requires sized { B.size backing.old + 1 ≡ length machine.old.sectors.links }
    requires why { why.old ≢ Done → StopsHere machine.old.cpu why.old }
    ensures done { why.new ≡ Done }
    ensures row { (said : Option (List (List ℕ))) (s : Session) → Says said (B.holds backing.old) → StandsAt said machine.old s
        → Steps K.taken (content_after said (B.holds backing.new)) (said ≢ None) (B.size backing.old) s result machine.old machine.new paper.old paper.new }
    ensures present { (said : Option (List (List ℕ))) (s : Session) (m : SessionJob) (t : Task) → Says said (B.holds backing.old) → (h : StandsAt said machine.old s) → IsNext s m t
        → IfPresent B.holds (said ≢ None) (length machine.old.cpu.core) 1 h.storage h.plan s m t result machine.old machine.new backing.old backing.new }
    ensures leaves { TryLeaves B.holds B.size B.calls B.faults K.faults result machine.old machine.new backing.old backing.new paper.old paper.new }
{
    let chosen = match choose(&machine.tasks) {
        Some(chosen) => chosen,
        None => unreachable!(),
    };
    give_turn(machine, chosen.row, why);
    match attempt_told(machine, why, backing, paper) {
        Ok(Tried::Made) => {
            count_one(&mut machine.tasks, chosen);
            end_step(machine, paper)
        }
        Ok(Tried::Ends(ending)) => match ends(
            machine,
            chosen.row,
            chosen.job,
            chosen.number,
            chosen.turn,
            ending,
            paper,
        ) {
            Ok(()) => end_step(machine, paper),
            Err(_failed) => Err(Stop::PrintFault),
        },
        Ok(Tried::Waits(state)) => match waits(
            machine,
            chosen.row,
            chosen.job,
            chosen.number,
            chosen.turn,
            state,
            paper,
        ) {
            Ok(()) => end_step(machine, paper),
            Err(_failed) => Err(Stop::PrintFault),
        },
        Ok(Tried::Absent(_)) => unreachable!(),
        Err(stop) => Err(stop),
    }
}
