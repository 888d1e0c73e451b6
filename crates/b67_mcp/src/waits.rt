//! AWAIT, STATUS, WAIT and CAUSE.

ghost use Rattle.std.specs.Prelude.{◌≡◌, ◌≤◌, ℕ, Ok, length};
ghost use Rattle.b67_model.specs.declared.intrinsics.TheConstants.{AWAIT, CAUSE};
ghost use Rattle.b67_mcp.specs.Answers.{SilentMeets, waiting_end};
ghost use Rattle.b67_mcp.specs.Called.{CallsSome, CallTouches, CallFits};
ghost use Rattle.b67_mcp.specs.Running.{ForCalls, Keeps};

use crate::await_status::{await_task, status_of};
use crate::running::next_place;
use crate::wait_cause::{cause, wait_at};
use crate::{CallEnd, silent};
use b67_model::{AWAIT, STATUS, WAIT};
use b67_task::{Machine, TaskState};
use b67_word::Fault;

/// The end of a call that may make its task wait.
fn waiting(done: Result<Option<TaskState>, Fault>) -> CallEnd
    ensures { result ≡ waiting_end done }
{
    match done {
        Ok(waits) => match waits {
            Some(state) => CallEnd::Waits(state),
            None => CallEnd::Done,
        },
        Err(fault) => CallEnd::Fault(fault),
    }
}

/// AWAIT, STATUS, WAIT and CAUSE by their rows: the call is cut, its task is to wait, or it faults. Only where it is cut is
/// anything changed.
#[inline(always)]
pub(crate) fn wait_for(machine: &mut Machine, n: u8) -> CallEnd
    requires calls { CallsSome machine.old n }
    requires from { AWAIT ≤ n }
    requires upto { n ≤ CAUSE }
    ensures row { ForCalls machine.old n (λ x told plan s m t. (count : ℕ) → SilentMeets x told count plan s m t (Ok result) machine.old machine.new) }
    ensures present { ForCalls machine.old n (λ x told plan s m t. CallTouches x plan m t (Ok result) × CallFits (length machine.old.cpu.core) s m t (Ok result)) }
    ensures kept { Keeps machine.old machine.new }
{
    let next = next_place(machine);
    match n {
        AWAIT => waiting(await_task(machine, next)),
        STATUS => silent(status_of(machine, next)),
        WAIT => waiting(wait_at(machine, next)),
        _ => silent(cause(machine, next)),
    }
}
