//! The slot in which an address lies.

ghost use Rattle.std.specs.Prelude.{◌≡◌, ◌+◌, ◌*◌, ◌<◌, ◌≤◌};
ghost use Rattle.b67_refer.specs.RunningContext.{RunsInSlot};

use b67_ctl::Regs;

/// The number of a slot, and a displacement in it.
#[derive(Clone, Copy, Debug, PartialEq, Eq)]
pub struct Spot {
    pub slot: u32,
    pub disp: u32,
}

/// Whether an address lies outside the running task's slot.
#[inline(always)]
pub(crate) fn is_elsewhere(regs: &Regs, at: u32) -> bool {
    at < regs.bosr || at > regs.losr
}

/// The slot in which an address lies, and its displacement there. It divides only if that isn't the running task's slot.
#[inline(always)]
pub fn spot_of(regs: &Regs, at: u32) -> Spot
    requires slot { RunsInSlot regs.now }
    requires above { regs.now.stacks ≤ at }
    ensures at { regs.now.stacks + result.slot * regs.now.stack_size + result.disp ≡ at }
    ensures low { result.disp < regs.now.stack_size }
{
    if at >= regs.bosr && at <= regs.losr {
        return Spot {
            slot: u32::from(regs.slot),
            disp: at - regs.bosr,
        };
    }
    let distance = at - regs.stacks;
    let size = u32::from(regs.stack_size);
    Spot {
        slot: distance / size,
        disp: distance % size,
    }
}
