//! The core that an operator of the running task needs.

ghost use Rattle.std.specs.Prelude.{◌≡◌, ◌^◌, ◌<◌, ◌≤◌};
ghost use Rattle.b67_task.specs.Runs.{RunsTask, ForEachRun};
ghost use Rattle.b67_task.specs.Needing.{need_with, array_area};

use crate::tables::Machine;
use b67_exec_cells::descriptor;

/// The words of the area of an array of that many words; 0 for no array, whose length is given as 0.
fn area_of(array: u32) -> u32
    requires { array < 2 ^ 16 }
    ensures { result ≡ array_area array }
{
    if array == 0 {
        return 0;
    }
    array + 2
}

/// The words of core that the running task's next operator needs where it starts that many tasks, 0 or 1, and touches an
/// array of that many words, at most 65,535; 0 for none. A stack is counted for each task alive at one moment so far,
/// the one that it starts included.
pub fn need(machine: &Machine, stacks: u8, array: u32) -> u32
    requires runs { RunsTask machine.now }
    requires stacks { stacks ≤ 1 }
    requires array { array < 2 ^ 16 }
    ensures { ForEachRun machine.now (λ x told plan s m t. result ≡ need_with s m t stacks array) }
{
    let regs = &machine.cpu.regs;
    let code = descriptor(&machine.cpu).words + 2;
    let live = machine.tasks.rows.len() as u32 + u32::from(stacks);
    let peak = u32::from(regs.peak).max(live);
    regs.stacks + peak * u32::from(regs.stack_size) + code + area_of(array)
}
