//! WAIT and CAUSE.

ghost use Rattle.b67_model.specs.Intrinsics as rows;
ghost use Rattle.std.specs.Prelude.{◌≡◌};
ghost use Rattle.b67_ctl.specs.Layout.{IsPlace};
ghost use Rattle.b67_mcp.specs.Calls.{StandsAtCall, ForCall};
ghost use Rattle.b67_task.specs.Runs.{Keeps};
ghost use Rattle.b67_mcp.specs.Events.{WaitMeets, DoneMeets};

use crate::await_status::running_job;
use crate::call::cut_call;
use crate::cell_given::cell_given;
use crate::woken::wake_rows;
use b67_entry::is_critical;
use b67_task::{Machine, TaskState};
use b67_word::{Fault, Place, Word};

/// WAIT: where the cell holds 0, the running task is to wait at it, with nothing changed; else the call is cut. Its fault
/// changes nothing.
pub fn wait_at(machine: &mut Machine, next: Place) -> Result<Option<TaskState>, Fault>
    requires call { StandsAtCall machine.old }
    requires place { IsPlace next }
    ensures row { ForCall machine.old (λ x told plan s m t arguments. WaitMeets rows.wait x told plan s m t next arguments result machine.old machine.new) }
    ensures kept { Keeps machine.old machine.new }
    ensures sectors { machine.new.sectors ≡ machine.old.sectors }
{
    let found = cell_given(&machine.cpu)?;
    if machine.cpu.core.get(found.at).bits() == 0 {
        return Ok(Some(TaskState::WaitsAt {
            mark: found.mark,
            offset: found.offset,
        }));
    }
    if is_critical(&machine.cpu) {
        return Err(Fault::CriticalBlock);
    }
    cut_call(&mut machine.cpu, next);
    Ok(None)
}

/// CAUSE: the cell holds 1, who waited at it is ready, and the call is cut. Its fault changes nothing.
pub fn cause(machine: &mut Machine, next: Place) -> Result<(), Fault>
    requires call { StandsAtCall machine.old }
    requires place { IsPlace next }
    ensures row { ForCall machine.old (λ x told plan s m t arguments. DoneMeets rows.cause x told plan s m t next arguments result machine.old machine.new) }
    ensures kept { Keeps machine.old machine.new }
    ensures sectors { machine.new.sectors ≡ machine.old.sectors }
{
    let found = cell_given(&machine.cpu)?;
    if is_critical(&machine.cpu) {
        return Err(Fault::CriticalBlock);
    }
    let job = running_job(machine);
    machine.cpu.core.set(found.at, Word::of(0, 1));
    wake_rows(&mut machine.tasks.rows, job, found.mark, found.offset);
    cut_call(&mut machine.cpu, next);
    Ok(())
}
