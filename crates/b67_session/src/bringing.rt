//! What the next operator wants is brought in.

ghost use Rattle.std.specs.Prelude.{◌≡◌, ◌≢◌, ℕ, ◌+◌, Err, length};
ghost use Rattle.b67_io.specs.Causes.{Rose};
ghost use Rattle.b67_model.specs.State.{Task, SessionJob};
ghost use Rattle.b67_model.specs.Schedule.{Session};
ghost use Rattle.b67_layout.specs.Orders.{IsInOrderButCounts};
ghost use Rattle.b67_stack.specs.Represents.{Storage};
ghost use Rattle.b67_layout.specs.Machine.{DeviceAfterCalls};
ghost use Rattle.b67_layout.specs.Placement.{Placement};
ghost use Rattle.b67_layout.specs.Session.{IsRunning};
ghost use Rattle.b67_task.specs.Runs.{Keeps};
ghost use Rattle.b67_presence.specs.Bringing.{StandsOver, WantsSome, IsWanted};
ghost use Rattle.b67_mcp.specs.declared.ends.Stop.TheVariants.{BackingFault, PrintFault};
ghost use Rattle.b67_session.specs.Brought.{BroughtRow};

use b67_backing::Backing;
use b67_mcp::{Stop, stop_for};
use b67_presence::bring;
use b67_stack::What;
use b67_task::Machine;

/// Brings in what the next operator wants, and evicts other areas if need be; the running segment is then present too. After
/// a stop the machine represents the same session. If a hole has room no area moves and no sector is written.
#[inline(always)]
pub fn bring_wanted<B: Backing>(
    machine: &mut Machine,
    backing: &mut B,
    wanted: What,
) -> Result<(), Stop>
    requires wants { WantsSome machine.old (B.holds backing.old) wanted }
    requires same { B.size backing.old + 1 ≡ length machine.old.sectors.links }
    ensures row { (x : Storage) (plan : Placement) (s : Session) (m : SessionJob) (t : Task) (words : ℕ) → IsInOrderButCounts s
        → StandsOver x (B.holds backing.old) machine.old plan s → IsRunning plan s.jobs m t → IsWanted x plan m t wanted words
        → BroughtRow B.holds (length machine.old.cpu.core) (B.size backing.old) x plan s m t wanted words result machine.new backing.old backing.new }
    ensures cause { result ≡ Err BackingFault → Rose B.faults backing.old backing.new }
    ensures silent { result ≢ Err PrintFault }
    ensures tasks { machine.new.tasks ≡ machine.old.tasks }
    ensures keeps { Keeps machine.old machine.new }
    ensures device { DeviceAfterCalls B.holds B.size B.calls B.faults backing.old backing.new }
{
    match bring(machine, backing, wanted) {
        Ok(()) => Ok(()),
        Err(fault) => Err(stop_for(machine, fault)),
    }
}
