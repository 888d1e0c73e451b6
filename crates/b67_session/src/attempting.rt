//! The next operator, with what it wants brought into core.

ghost use Rattle.std.specs.Prelude.{◌≡◌, ◌≢◌, ◌+◌, length};
ghost use Rattle.b67_layout.specs.Machine.{DeviceAfterCalls, content_after};
ghost use Rattle.b67_mcp.specs.Running.{JobsHaveRoom, CallCauses, Keeps};
ghost use Rattle.b67_stack.specs.declared.Step.TheVariants.{Done};
ghost use Rattle.b67_exec.specs.Near.{StopsHere};
ghost use Rattle.b67_session.specs.Attempts.{RunsOver, ForEachOver, AttemptRow, WithCodeRow, LastRow, TablesStay, TryLeaves};

use crate::bringing::bring_wanted;
use crate::tries::{Tried, carry_out, try_once};
use crate::turns::make_told;
use b67_backing::Backing;
use b67_io::Sink;
use b67_mcp::Stop;
use b67_stack::Step;
use b67_task::Machine;
use b67_word::{Ending, Fault};

/// Makes the next operator, whose segment and array are present. Over a device that doesn't tell what its sectors hold, the
/// code that was read back may want another array: it then ends its task by INVALID OPERATOR.
#[inline(always)]
fn last_try<B: Backing, K: Sink>(
    machine: &mut Machine,
    backing: &mut B,
    paper: &mut K,
) -> Result<Tried, Stop>
    requires runs { RunsOver machine.old (B.holds backing.old) }
    requires jobs { JobsHaveRoom machine.old.tasks.jobs }
    requires same { B.size backing.old + 1 ≡ length machine.old.sectors.links }
    ensures row { ForEachOver machine.old (B.holds backing.old) (λ x plan s m t.
        LastRow K.taken x (content_after x.device (B.holds backing.new)) (length machine.old.cpu.core) (B.size backing.old) machine.old.tasks.printed plan s m t result machine.new
        backing.old backing.new paper.old paper.new) }
    ensures causes { CallCauses B.faults K.faults backing.old backing.new paper.old paper.new result }
    ensures kept { Keeps machine.old machine.new }
    ensures tables { TablesStay result machine.old.tasks machine.new.tasks }
    ensures device { DeviceAfterCalls B.holds B.size B.calls B.faults backing.old backing.new }
{
    match try_once(machine, backing, paper) {
        Ok(Tried::Made) => Ok(Tried::Made),
        Ok(Tried::Ends(ending)) => Ok(Tried::Ends(ending)),
        Ok(Tried::Waits(state)) => Ok(Tried::Waits(state)),
        Ok(Tried::Absent(_)) => Ok(Tried::Ends(Ending::Faulted(Fault::InvalidOperator))),
        Err(stop) => Err(stop),
    }
}

/// Makes the next operator, whose segment is present, with the array that it touches brought in first.
#[inline(always)]
fn with_code<B: Backing, K: Sink>(
    machine: &mut Machine,
    backing: &mut B,
    paper: &mut K,
) -> Result<Tried, Stop>
    requires runs { RunsOver machine.old (B.holds backing.old) }
    requires jobs { JobsHaveRoom machine.old.tasks.jobs }
    requires same { B.size backing.old + 1 ≡ length machine.old.sectors.links }
    ensures row { ForEachOver machine.old (B.holds backing.old) (λ x plan s m t.
        WithCodeRow K.taken x (content_after x.device (B.holds backing.new)) (length machine.old.cpu.core) (B.size backing.old) machine.old.tasks.printed plan s m t result machine.new
        backing.old backing.new paper.old paper.new) }
    ensures causes { CallCauses B.faults K.faults backing.old backing.new paper.old paper.new result }
    ensures kept { Keeps machine.old machine.new }
    ensures tables { TablesStay result machine.old.tasks machine.new.tasks }
    ensures device { DeviceAfterCalls B.holds B.size B.calls B.faults backing.old backing.new }
{
    match try_once(machine, backing, paper) {
        Ok(Tried::Made) => Ok(Tried::Made),
        Ok(Tried::Ends(ending)) => Ok(Tried::Ends(ending)),
        Ok(Tried::Waits(state)) => Ok(Tried::Waits(state)),
        Ok(Tried::Absent(wanted)) => match bring_wanted(machine, backing, wanted) {
            Ok(()) => last_try(machine, backing, paper),
            Err(stop) => Err(stop),
        },
        Err(stop) => Err(stop),
    }
}

/// Executes the next operator as `attempt` does, by its answer, which isn't `Done`.
#[inline(always)]
fn attempt_seen<B: Backing, K: Sink>(
    machine: &mut Machine,
    why: Step,
    backing: &mut B,
    paper: &mut K,
) -> Result<Tried, Stop>
    requires runs { RunsOver machine.old (B.holds backing.old) }
    requires jobs { JobsHaveRoom machine.old.tasks.jobs }
    requires same { B.size backing.old + 1 ≡ length machine.old.sectors.links }
    requires why { StopsHere machine.old.cpu why }
    ensures row { ForEachOver machine.old (B.holds backing.old) (λ x plan s m t.
        AttemptRow B.holds K.taken x (content_after x.device (B.holds backing.new)) (length machine.old.cpu.core) (B.size backing.old) machine.old.tasks.printed plan s m t result machine.new
        backing.old backing.new paper.old paper.new) }
    ensures tables { TablesStay result machine.old.tasks machine.new.tasks }
    ensures leaves { TryLeaves B.holds B.size B.calls B.faults K.faults result machine.old machine.new backing.old backing.new paper.old paper.new }
{
    match carry_out(machine, why, backing, paper) {
        Ok(Tried::Made) => Ok(Tried::Made),
        Ok(Tried::Ends(ending)) => Ok(Tried::Ends(ending)),
        Ok(Tried::Waits(state)) => Ok(Tried::Waits(state)),
        Ok(Tried::Absent(wanted)) => match bring_wanted(machine, backing, wanted) {
            Ok(()) => with_code(machine, backing, paper),
            Err(stop) => Err(stop),
        },
        Err(stop) => Err(stop),
    }
}

/// Executes the next operator as `attempt` does. If `why` isn't `Done`, it is what the operator was seen to answer. Then
/// it is `Done`.
#[inline(always)]
pub(crate) fn attempt_told<B: Backing, K: Sink>(
    machine: &mut Machine,
    why: &mut Step,
    backing: &mut B,
    paper: &mut K,
) -> Result<Tried, Stop>
    requires runs { RunsOver machine.old (B.holds backing.old) }
    requires jobs { JobsHaveRoom machine.old.tasks.jobs }
    requires same { B.size backing.old + 1 ≡ length machine.old.sectors.links }
    requires why { why.old ≢ Done → StopsHere machine.old.cpu why.old }
    ensures done { why.new ≡ Done }
    ensures row { ForEachOver machine.old (B.holds backing.old) (λ x plan s m t.
        AttemptRow B.holds K.taken x (content_after x.device (B.holds backing.new)) (length machine.old.cpu.core) (B.size backing.old) machine.old.tasks.printed plan s m t result machine.new
        backing.old backing.new paper.old paper.new) }
    ensures tables { TablesStay result machine.old.tasks machine.new.tasks }
    ensures leaves { TryLeaves B.holds B.size B.calls B.faults K.faults result machine.old machine.new backing.old backing.new paper.old paper.new }
{
    if make_told(machine, why) {
        return Ok(Tried::Made);
    }
    let seen = *why;
    *why = Step::Done;
    attempt_seen(machine, seen, backing, paper)
}

/// Executes the next operator of the running task, including an intrinsic's call. The running segment and the array that it
/// touches are brought into core first, and other areas are evicted if need be.
///
/// `NoCore` exactly where the step's need exceeds core, with both, unless core has room for the running segment, which is
/// absent, and the device is full or fails as it is brought in. If one thing is wanted and a hole has room for it, no sector is
/// written, and `BackingFull` isn't answered; and if the operator is made, every area is where it was, as if nothing was wanted.
/// `BackingFull` only where the session takes more sectors than the device has, with both, and no hole has room for what is
/// absent, or the step starts a task; or where the session does that a RESIZE to a greater length would make, with its sum:
/// then nothing is absent that no hole has room for. More sectors are then wanted than are free: by a present array that keeps
/// no chain, or by the chain of the array that becomes longer. `BackingFault` and `PrintFault` only where that device failed.
/// After each of them, and when the operator ends its task or makes it wait, the machine represents the same session; after
/// `BackingFull` and `BackingFault` its segment or its array is absent, or the step is such a RESIZE or starts a task. Where
/// both are present the backing isn't called but by such steps, and a task ends or waits only by its row. After `PrintFault`
/// `printed` is raised by the bytes that were taken. Over a device that doesn't tell what its sectors hold, the words that it
/// gave back may be others, and as many. `Absent` is never answered.
#[inline(always)]
pub fn attempt<B: Backing, K: Sink>(
    machine: &mut Machine,
    backing: &mut B,
    paper: &mut K,
) -> Result<Tried, Stop>
    requires runs { RunsOver machine.old (B.holds backing.old) }
    requires jobs { JobsHaveRoom machine.old.tasks.jobs }
    requires same { B.size backing.old + 1 ≡ length machine.old.sectors.links }
    ensures row { ForEachOver machine.old (B.holds backing.old) (λ x plan s m t.
        AttemptRow B.holds K.taken x (content_after x.device (B.holds backing.new)) (length machine.old.cpu.core) (B.size backing.old) machine.old.tasks.printed plan s m t result machine.new
        backing.old backing.new paper.old paper.new) }
    ensures causes { CallCauses B.faults K.faults backing.old backing.new paper.old paper.new result }
    ensures kept { Keeps machine.old machine.new }
    ensures tables { TablesStay result machine.old.tasks machine.new.tasks }
    ensures device { DeviceAfterCalls B.holds B.size B.calls B.faults backing.old backing.new }
{
    let mut why = Step::Done;
    attempt_told(machine, &mut why, backing, paper)
}
