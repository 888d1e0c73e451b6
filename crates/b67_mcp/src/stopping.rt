//! How a step stops for lack of space.

ghost use Rattle.b67_task.specs.Needing.{StandsOrdered};
ghost use Rattle.b67_mcp.specs.Stopping.{StopsFor};

use crate::Stop;
use b67_backing::SpaceFault;
use b67_task::{Machine, sector_sum};

/// How a step stops for lack of space: if too few sectors are free, with the sectors that the session takes and those of the
/// device.
pub fn stop_for(machine: &Machine, fault: SpaceFault) -> Stop
    requires { StandsOrdered machine.now }
    ensures { StopsFor machine.now fault result }
{
    match fault {
        SpaceFault::NoCore { need, core } => Stop::NoCore { need, core },
        SpaceFault::BackingFull { wants, free } => Stop::BackingFull {
            sum: sector_sum(machine),
            sectors: machine.sectors.count(),
        },
        SpaceFault::BackingFault => Stop::BackingFault,
    }
}
