//! One try at the next operator.

ghost use Rattle.std.specs.Prelude.{◌≡◌, ◌+◌, length};
ghost use Rattle.b67_layout.specs.Machine.{DeviceAfterCalls};
ghost use Rattle.b67_exec.specs.Near.{StopsHere};
ghost use Rattle.b67_task.specs.Runs.{Keeps};
ghost use Rattle.b67_mcp.specs.Running.{JobsHaveRoom, CallCauses};
ghost use Rattle.b67_session.specs.Makes.{ForEachReady};
ghost use Rattle.b67_session.specs.Tries.{ReadyRuns, TryRow};

use crate::turns::make;
use b67_backing::Backing;
use b67_io::Sink;
use b67_mcp::{CallEnd, Stop, intrinsic};
use b67_stack::{Step, What};
use b67_task::{Machine, TaskState};
use b67_word::Ending;

/// The operator was made, with its text printed; it wants something in core; it ends its task; or it makes its task wait, in
/// this state. After `attempt`, which brings in what is wanted, never `Absent`.
#[derive(Clone, Copy, Debug, PartialEq, Eq)]
pub enum Tried {
    Made,
    Absent(What),
    Ends(Ending),
    Waits(TaskState),
}

/// What is due where the next operator of the running task isn't made by itself and `why` is its answer: an intrinsic is called, or
/// the answer is handed on. All else as `try_once`.
#[inline(never)]
pub(crate) fn carry_out<B: Backing, K: Sink>(
    machine: &mut Machine,
    why: Step,
    backing: &mut B,
    paper: &mut K,
) -> Result<Tried, Stop>
    requires runs { ReadyRuns machine.old }
    requires jobs { JobsHaveRoom machine.old.tasks.jobs }
    requires same { B.size backing.old + 1 ≡ length machine.old.sectors.links }
    requires why { StopsHere machine.old.cpu why }
    ensures tried { ForEachReady machine.old (λ x told plan s m t.
        TryRow B.holds K.taken (B.size backing.old) x told plan s m t result machine.old machine.new backing.old backing.new paper.old paper.new) }
    ensures causes { CallCauses B.faults K.faults backing.old backing.new paper.old paper.new result }
    ensures keeps { Keeps machine.old machine.new }
    ensures device { DeviceAfterCalls B.holds B.size B.calls B.faults backing.old backing.new }
{
    match why {
        Step::Done => unreachable!(),
        Step::Absent(found) => Ok(Tried::Absent(found)),
        Step::Fault(fault) => Ok(Tried::Ends(Ending::Faulted(fault))),
        Step::Ended => Ok(Tried::Ends(Ending::Ended)),
        Step::Call(n) => match intrinsic(machine, n, backing, paper) {
            Ok(CallEnd::Done) => Ok(Tried::Made),
            Ok(CallEnd::Absent(found)) => Ok(Tried::Absent(found)),
            Ok(CallEnd::Fault(fault)) => Ok(Tried::Ends(Ending::Faulted(fault))),
            Ok(CallEnd::Waits(state)) => Ok(Tried::Waits(state)),
            Err(stop) => Err(stop),
        },
    }
}

/// Makes the next operator of the running task, an intrinsic's call included, unless what it wants is absent. Nothing has
/// changed but where it was made. `PrintFault`, with nothing changed but that `printed` is raised by the bytes of its text
/// that were taken, which aren't all, only where the printer failed. `NoCore`, with nothing changed, only where the step starts
/// a task and needs more words than core has, with both. `BackingFull`, only where the session, or the one that a RESIZE would
/// make, takes more sectors than the device has, with both, and `BackingFault`, only where the device failed, leave the machine
/// for the same session. A step that was made, ends its task, makes it wait, or was stopped by the printer or the device needs
/// no more words than core has. The backing is called only where a call makes a present array longer or starts a task, and is
/// made or stopped by the backing.
#[inline(never)]
pub fn try_once<B: Backing, K: Sink>(
    machine: &mut Machine,
    backing: &mut B,
    paper: &mut K,
) -> Result<Tried, Stop>
    requires runs { ReadyRuns machine.old }
    requires jobs { JobsHaveRoom machine.old.tasks.jobs }
    requires same { B.size backing.old + 1 ≡ length machine.old.sectors.links }
    ensures tried { ForEachReady machine.old (λ x told plan s m t.
        TryRow B.holds K.taken (B.size backing.old) x told plan s m t result machine.old machine.new backing.old backing.new paper.old paper.new) }
    ensures causes { CallCauses B.faults K.faults backing.old backing.new paper.old paper.new result }
    ensures keeps { Keeps machine.old machine.new }
    ensures device { DeviceAfterCalls B.holds B.size B.calls B.faults backing.old backing.new }
{
    match make(machine) {
        Step::Done => Ok(Tried::Made),
        why => carry_out(machine, why, backing, paper),
    }
}
