//! PROCESS.

ghost use Rattle.std.specs.Prelude.{◌≡◌, ◌+◌, length};
ghost use Rattle.b67_ctl.specs.Layout.{IsPlace};
ghost use Rattle.b67_mcp.specs.Calls.{StandsAtCall, ForCall};
ghost use Rattle.b67_task.specs.Runs.{Keeps};
ghost use Rattle.b67_mcp.specs.Process.{CanNumber, ProcessRow, ProcessFits, ProcessServed};
ghost use Rattle.b67_model.specs.declared.intrinsics.TheConstants.{PROCESS};
ghost use Rattle.b67_layout.specs.Machine.{Says, DeviceAfterCalls, content_after};
ghost use Rattle.b67_mcp.specs.Answers.{SilentMeets};
ghost use Rattle.b67_mcp.specs.Called.{CallsSome, CallReaches};
ghost use Rattle.b67_mcp.specs.Running.{ForCalls, SilentCauses};

use crate::process_asked::task_asked;
use crate::process_started::{answer, start_asked, tasks_of_job};
use crate::running::next_place;
use crate::stopping::stop_for;
use crate::{CallEnd, Stop, silent};
use b67_backing::{Backing, SpaceFault};
use b67_model::MOST_TASKS;
use b67_task::Machine;
use b67_word::{Fault, Place};

/// PROCESS: starts a child of the running task, with copies of the call's words, and answers its number; or 0 where [`MOST_TASKS`]
/// tasks of the job live. The call is cut, and its task goes on at a place of its segment. A fault changes nothing.
///
/// Areas under the child's stack are evicted first. `NoCore`, with nothing changed, exactly where a task is to be started
/// and the step needs more words than core has (`need`). After `BackingFull` and `BackingFault` the machine represents the same session.
/// The backing is called only where a task is to be started.
pub fn process<B: Backing>(
    machine: &mut Machine,
    next: Place,
    backing: &mut B,
) -> Result<Result<(), Fault>, SpaceFault>
    requires calls { StandsAtCall machine.old }
    requires place { IsPlace next }
    requires number { CanNumber machine.old.tasks.jobs }
    requires same { B.size backing.old + 1 ≡ length machine.old.sectors.links }
    ensures row { ForCall machine.old (λ x told plan s m t arguments. ProcessRow B.holds told plan s m t next arguments result machine.old machine.new backing.old backing.new
        × ProcessFits (length machine.old.cpu.core) s m t next arguments result) }
    ensures kept { Keeps machine.old machine.new }
    ensures printed { machine.new.tasks.printed ≡ machine.old.tasks.printed }
    ensures device { ProcessServed B.holds B.size B.calls B.faults backing.old backing.new result }
{
    let asked = match task_asked(&machine.cpu) {
        Ok(asked) => asked,
        Err(fault) => return Ok(Err(fault)),
    };
    let live = tasks_of_job(machine);
    if live >= MOST_TASKS {
        answer(machine, 0, next);
        return Ok(Ok(()));
    }
    start_asked(machine, asked, next, backing)
}

/// PROCESS: a task is started, or none where 15 of its job live, and the call is cut and answers. Its fault changes nothing.
/// Where the new stack has no room in core nothing is changed; where too few sectors are free or the device fails, the machine
/// represents the same session.
#[inline(always)]
pub(crate) fn start<B: Backing>(machine: &mut Machine, backing: &mut B) -> Result<CallEnd, Stop>
    requires calls { CallsSome machine.old PROCESS }
    requires number { CanNumber machine.old.tasks.jobs }
    requires same { B.size backing.old + 1 ≡ length machine.old.sectors.links }
    ensures row { ForCalls machine.old PROCESS (λ x told plan s m t. Says told (B.holds backing.old)
        → SilentMeets x (content_after told (B.holds backing.new)) (B.size backing.old) plan s m t result machine.old machine.new) }
    ensures reaches { ForCalls machine.old PROCESS (λ x told plan s m t. CallReaches (length machine.old.cpu.core) x plan s m t result backing.old backing.new) }
    ensures causes { SilentCauses B.faults backing.old backing.new result }
    ensures kept { Keeps machine.old machine.new }
    ensures device { DeviceAfterCalls B.holds B.size B.calls B.faults backing.old backing.new }
{
    let next = next_place(machine);
    match process(machine, next, backing) {
        Ok(done) => Ok(silent(done)),
        Err(fault) => Err(stop_for(machine, fault)),
    }
}
