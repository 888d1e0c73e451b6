//! A slice of a run: steps one after the other.

ghost use Rattle.std.specs.Prelude.{◌≡◌, ◌≢◌, ℕ, ◌+◌, List, Option, None, length};
ghost use Rattle.std.specs.Result.{IsOk};
ghost use Rattle.b67_model.specs.State.{Task, SessionJob};
ghost use Rattle.b67_model.specs.Schedule.{Session};
ghost use Rattle.b67_io.specs.Causes.{Stayed};
ghost use Rattle.b67_layout.specs.Machine.{Says, content_after};
ghost use Rattle.b67_session.specs.Attempts.{TryLeaves};
ghost use Rattle.b67_model.specs.Run.{StepResult};
ghost use Rattle.b67_law.specs.Turns.{IsNext};
ghost use Rattle.b67_session.specs.Complete.{SetsOut, Suffices};
ghost use Rattle.b67_session.specs.Slices.{IsOpen, SetsOutSome, StandsAt, IsLimited, RepresentsWithoutTasks, Slices, IfPresent, PagesByStep, Resumes, StaysEnded, Pauses};
ghost use Rattle.b67_session.specs.Shaped.{SliceLeaves};

use crate::ends::end_by_limit;
use crate::limits::is_at_limit;
use crate::steps::step;
use crate::turns::go_on_with_turn;
use b67_backing::Backing;
use b67_io::Sink;
use b67_mcp::Stop;
use b67_stack::Step;
use b67_task::{Machine, Tasks};

/// How far a slice came: no task lives; the count of the halt is reached and a task lives; all its steps were made.
#[derive(Clone, Copy, Debug, PartialEq, Eq)]
pub enum Progress {
    Ended,
    Halted,
    More,
}

/// Whether a slice goes no further: no task lives, or else the count of a halt is reached.
#[inline(always)]
pub(crate) fn pause(tasks: &Tasks, halt: Option<u64>) -> Option<Progress>
    ensures { Pauses tasks.now halt result }
{
    if tasks.rows.is_empty() {
        return Some(Progress::Ended);
    }
    match halt {
        Some(count) if count == tasks.made => Some(Progress::Halted),
        _ => None,
    }
}

/// Makes steps of a session until no task lives, the count of the halt is reached, or `n` were made, looked at in this order.
#[inline(always)]
fn go_on<B: Backing, K: Sink>(
    machine: &mut Machine,
    n: u64,
    backing: &mut B,
    paper: &mut K,
) -> Result<Progress, Stop>
    requires begins { SetsOutSome (B.holds backing.old) machine.old }
    requires sized { B.size backing.old + 1 ≡ length machine.old.sectors.links }
    ensures row { (told : Option (List (List ℕ))) (s : Session) → Says told (B.holds backing.old) → StandsAt told machine.old s
        → Slices K.taken (content_after told (B.holds backing.new)) (told ≢ None) (B.size backing.old) n s result machine.old machine.new paper.old paper.new }
    ensures present { (told : Option (List (List ℕ))) (s : Session) (m : SessionJob) (t : Task) → Says told (B.holds backing.old) → (h : StandsAt told machine.old s) → IsNext s m t
        → IfPresent B.holds (told ≢ None) (length machine.old.cpu.core) n h.storage h.plan s m t result machine.old machine.new backing.old backing.new }
    ensures paged { PagesByStep B.holds result machine.old machine.new backing.old backing.new }
    ensures ended { (told : Option (List (List ℕ))) (s : Session) → RepresentsWithoutTasks told machine.old s
        → StaysEnded result machine.old machine.new backing.old backing.new paper.old paper.new }
    ensures leaves { TryLeaves B.holds B.size B.calls B.faults K.faults result machine.old machine.new backing.old backing.new paper.old paper.new }
{
    let mut made = 0;
    let mut why = Step::Done;
    'turn: while made < n {
        if let Some(progress) = pause(&machine.tasks, machine.tasks.halt) {
            return Ok(progress);
        }
        match step(machine, &mut why, backing, paper) {
            Ok(()) => {}
            Err(stop) => return Err(stop),
        }
        made += 1 + go_on_with_turn(machine, n - made - 1, &mut why);
    }
    match pause(&machine.tasks, machine.tasks.halt) {
        Some(progress) => Ok(progress),
        None => Ok(Progress::More),
    }
}

/// Makes steps of a session of any jobs and tasks until no task lives, the count of the halt is reached, or `n` were made,
/// looked at in this order. Each step's text is printed as the step is made. Without a task it answers `Ended`, and nothing is
/// printed or changed.
///
/// No step is made or stopped at the count of the halt. After a `Stop` the step isn't made, and the machine represents
/// the state before it; but if the printer failed in the lines of LIMIT, the step is made and counted but for those lines
/// and the tasks' ends, and the next call begins with them. The call may be made again after every answer. `printed`
/// counts the bytes of the text in hand that were taken, and the next call skips these: no byte is printed twice. After
/// every answer but `PrintFault` the text of each step that was made is printed whole, and nothing of the next step's.
///
/// `NoCore` only if the step's need exceeds core, with both; no step that was made needs more. A step that does ends in
/// another stop only if its segment is absent, core has room for it, and the device is full or fails as it is brought in:
/// if the segment was present when a call began that made no step, `BackingFull` and `BackingFault` come only with enough
/// core. `PrintFault` before a step comes only with enough core too. `BackingFull` only if the session takes more sectors than
/// the device has, with both, and the step starts a task, or its segment or array is absent and no hole has room for it; or
/// if the session that a RESIZE to a greater length would make does, with its sum. More sectors are then wanted than are free.
/// `BackingFault` and `PrintFault` only if that device failed. A single step whose segment and array are present, and which
/// is no such RESIZE and starts no task, doesn't call the backing; if one of the two is absent and a hole has room for it, no
/// sector is written, and `BackingFull` isn't answered. In both cases, if that step is made, ends no task and makes none wait,
/// and is no PROCESS, every area is where it was, but those of arrays of a record that it leaves, and that of one that
/// DEALLOCATE empties or RESIZE gives another length; and no area is new where both are present. Where both are, that holds of
/// a step that ends tasks too, by LIMIT or otherwise, or makes one wait: but for the same, every array, segment and data row
/// that is left is in the area where it was; and if its own task ends or waits, in the same sectors too. If nothing is known
/// of what the device's sectors hold, the words that it gives back may be others, and as many. After `Ended` the machine
/// represents the session without a task; if it was known what the sectors hold, the one after the steps.
/// Whatever the device gives back, the machine then represents some session, in order but for places
/// if a task lives or the slice set out from such a session.
///
/// There is no `Stop` if it is known what the device's sectors hold, no count of failures rises, and core and sectors suffice
/// for the steps that are to be made, up to the halt.
#[inline(always)]
pub fn slice<B: Backing, K: Sink>(
    machine: &mut Machine,
    n: u64,
    backing: &mut B,
    paper: &mut K,
) -> Result<Progress, Stop>
    requires open { IsOpen (B.holds backing.old) machine.old }
    requires sized { B.size backing.old + 1 ≡ length machine.old.sectors.links }
    ensures row { (told : Option (List (List ℕ))) (s : Session) → Says told (B.holds backing.old) → StandsAt told machine.old s
        → Slices K.taken (content_after told (B.holds backing.new)) (told ≢ None) (B.size backing.old) n s result machine.old machine.new paper.old paper.new }
    ensures present { (told : Option (List (List ℕ))) (s : Session) (m : SessionJob) (t : Task) → Says told (B.holds backing.old) → (h : StandsAt told machine.old s) → IsNext s m t
        → IfPresent B.holds (told ≢ None) (length machine.old.cpu.core) n h.storage h.plan s m t result machine.old machine.new backing.old backing.new }
    ensures resumed { (told : Option (List (List ℕ))) (h : Session) (part : StepResult) → Says told (B.holds backing.old) → IsLimited told machine.old h part
        → Resumes B.holds K.taken told (content_after told (B.holds backing.new)) (B.size backing.old) n h part result machine.old machine.new backing.old backing.new paper.old paper.new }
    ensures ended { (told : Option (List (List ℕ))) (s : Session) → RepresentsWithoutTasks told machine.old s
        → StaysEnded result machine.old machine.new backing.old backing.new paper.old paper.new }
    ensures complete { (told : Option (List (List ℕ))) (s : Session) → told ≢ None → Says told (B.holds backing.old) → SetsOut told machine.old s
        → Suffices (length machine.old.cpu.core) (B.size backing.old) n machine.old.tasks s → Stayed B.faults backing.old backing.new → Stayed K.faults paper.old paper.new
        → IsOk result }
    ensures leaves { SliceLeaves B.holds B.size B.calls B.faults K.faults result machine.old machine.new backing.old backing.new paper.old paper.new }
{
    if machine.tasks.rows.is_empty() {
        return Ok(Progress::Ended);
    }
    if !is_at_limit(&machine.tasks) {
        return go_on(machine, n, backing, paper);
    }
    match end_by_limit(machine, paper) {
        Ok(()) => go_on(machine, n, backing, paper),
        Err(_failed) => Err(Stop::PrintFault),
    }
}
