//! Whether the display is that of the running task.

ghost use Rattle.std.specs.Prelude.{◌≡◌, ◌≤◌};
ghost use Rattle.std.specs.Bool.{OnTrue, OnFalse};
ghost use Rattle.b67_refer.specs.RunningContext.{RunningContext, IsShown};
ghost use Rattle.b67_image_shape.specs.FixedTests.{all_below};
ghost use Rattle.b67_image_shape.specs.Displays.{alike_at};
ghost use Rattle.b67_image_shape.specs.Shape.{ShowsRunning, IsToldDisplay};

use b67_core::Core;
use b67_ctl::{NO_SLOT, Regs};
use b67_refer::rebuild;
use b67_task::Machine;

/// Whether two displays are alike at the first levels.
fn are_alike(display: &[u32; 32], shown: &[u32; 32], levels: u8) -> bool
    requires { levels ≤ 32 }
    ensures { result ≡ all_below (alike_at display.now shown.now) levels }
{
    let mut n = levels;
    'each: while 0 < n {
        n -= 1;
        if display[n as usize] != shown[n as usize] {
            return false;
        }
    }
    true
}

/// Whether a display is that of the running task.
fn is_display(core: &Core, regs: &Regs, display: &[u32; 32]) -> bool
    requires { RunningContext core.now regs.now }
    ensures yes { OnTrue result ((a : RunningContext core.now regs.now) → IsShown a display.now) }
    ensures not { OnFalse result ((a : RunningContext core.now regs.now) → IsShown a display.now → ⊥) }
{
    let mut shown = [0u32; 32];
    rebuild(core, regs, &mut shown);
    are_alike(display, &shown, regs.level + 1)
}

/// Whether the display is that of the running task, if one runs.
pub fn display_passes(machine: &Machine) -> bool
    requires { IsToldDisplay machine.now }
    ensures yes { OnTrue result (ShowsRunning machine.now) }
    ensures not { OnFalse result (ShowsRunning machine.now → ⊥) }
{
    if machine.cpu.regs.slot == NO_SLOT {
        return true;
    }
    is_display(&machine.cpu.core, &machine.cpu.regs, &machine.cpu.display)
}
