//! The call of an intrinsic by the running task, with the printer and the device: a file for each intrinsic or family. It
//! promises the row of each: what it answers and leaves, each fault in its order, what it prints, whom it wakes or starts; and
//! that after a stop the machine represents the same session.
//!
//! For `b67_session`: `intrinsic` (`call` with `row`, `present`, `fits`, `quiet`; `causes`, `kept`, `device`), which asks that
//! each job's next task can be numbered; `stop_for`, the stop of a step for which core, sectors or the device fail.
//!
//! Begin with `intrinsic`, whose clause `call` holds the row of each intrinsic; then the file of one, as `resize`.
#![tactic(auto)]

mod await_status;
mod call;
mod cell_given;
mod deallocate;
mod declare;
mod ends;
mod number;
mod originals;
mod print;
mod print_row;
mod print_row_lines;
mod print_row_values;
mod process;
mod process_asked;
mod process_started;
mod read;
mod resize;
mod running;
mod stopping;
mod wait_cause;
mod waits;
mod woken;

ghost use Rattle.std.specs.Prelude.{◌≡◌, ◌+◌, length};
ghost use Rattle.b67_layout.specs.Machine.{DeviceAfterCalls};
ghost use Rattle.b67_mcp.specs.Called.{CallsSome, CallRow};
ghost use Rattle.b67_mcp.specs.Answers.{call_end_of};
ghost use Rattle.b67_mcp.specs.Running.{JobsHaveRoom, ForCalls, CallCauses, Keeps};

use crate::deallocate::deallocate;
use crate::declare::declare;
use crate::print::print;
use crate::print_row::print_row;
use crate::process::start;
use crate::read::read;
use crate::resize::resize;
use crate::waits::wait_for;
use b67_backing::Backing;
use b67_io::Sink;
use b67_model::{ARRAYDEC, DEALLOCATE, PRINT, PRINTROW, PROCESS, READ, RESIZE};
use b67_task::Machine;
use b67_word::Fault;
pub use ends::{CallEnd, Stop};
pub use stopping::stop_for;

/// The end of a call that prints nothing.
fn silent(done: Result<(), Fault>) -> CallEnd
    ensures { result ≡ call_end_of done }
{
    match done {
        Ok(()) => CallEnd::Done,
        Err(fault) => CallEnd::Fault(fault),
    }
}

/// Makes the call of an intrinsic at which the running task stands, by its row.
///
/// Where its row prints, what isn't printed yet of its text (past the first `printed` bytes) is taken by the printer before
/// anything is changed, and `printed` is then 0. `PrintFault`, with nothing changed but that `printed` is raised by the
/// bytes that were taken, which aren't all, comes only where the printer failed. `Absent`, with nothing changed, comes
/// exactly where the row touches an absent array. `Fault` and `Waits` change nothing and print nothing. `NoCore`, with nothing
/// changed, comes only where the row starts a task and needs more words than core has, with both. `BackingFull`, only where
/// the session, or the one that a RESIZE would make, takes more sectors than the device has, with both, and `BackingFault`,
/// only where the device failed, leave the machine for the same session. Where the call was made, faults, or is stopped by the
/// device or the printer, what its row touches is present. The backing is called only where the call makes a present array
/// longer or starts a task, and is made or stopped by the backing.
pub fn intrinsic<B: Backing, K: Sink>(
    machine: &mut Machine,
    n: u8,
    backing: &mut B,
    paper: &mut K,
) -> Result<CallEnd, Stop>
    requires calls { CallsSome machine.old n }
    requires jobs { JobsHaveRoom machine.old.tasks.jobs }
    requires same { B.size backing.old + 1 ≡ length machine.old.sectors.links }
    ensures call { ForCalls machine.old n (λ x told plan s m t.
        CallRow B.holds K.taken (B.size backing.old) x told plan s m t n result machine.old machine.new backing.old backing.new paper.old paper.new) }
    ensures causes { CallCauses B.faults K.faults backing.old backing.new paper.old paper.new result }
    ensures kept { Keeps machine.old machine.new }
    ensures device { DeviceAfterCalls B.holds B.size B.calls B.faults backing.old backing.new }
{
    match n {
        ARRAYDEC => Ok(silent(declare(machine))),
        PRINT => print(machine, paper),
        PRINTROW => print_row(machine, paper),
        READ => Ok(silent(read(machine))),
        PROCESS => start(machine, backing),
        DEALLOCATE => Ok(silent(deallocate(machine))),
        RESIZE => resize(machine, backing),
        _ => Ok(wait_for(machine, n)),
    }
}
