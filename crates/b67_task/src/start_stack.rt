//! The stack of a new task.

ghost use Rattle.std.specs.Prelude.{◌≡◌, ◌≢◌, ℕ, ◌+◌, ◌<◌, max, List, [], Some, length, slice_get};
ghost use Rattle.b67_model.specs.State.{Job, SessionJob, Task};
ghost use Rattle.b67_model.specs.Schedule.{Session};
ghost use Rattle.b67_stack.specs.Changes.{activations_below};
ghost use Rattle.b67_stack.specs.MachineView.{MachineView, RunsOn};
ghost use Rattle.b67_stack.specs.Stacks.{Activation, mark_place};
ghost use Rattle.b67_stack.specs.Represents.{Storage, Represents};
ghost use Rattle.b67_layout.specs.Placement.{Placement};
ghost use Rattle.b67_layout.specs.Session.{RepresentsSession};
ghost use Rattle.b67_task.specs.Born.{with_task_at};
ghost use Rattle.b67_task.specs.Joining.{BuildsSome, MayBuild, session_joined};

use crate::start_slot::build_stack;
use b67_ctl::{Mscw, SLOTS, STACK_VECTOR, Toscw, VectorWord};
use b67_stack::Cpu;

/// The displacement of the mark under the running stack's topmost one.
fn mark_disp(cpu: &Cpu) -> u16
    requires { (x : Storage) × (p : MachineView) × (stack : List Activation) × Represents x cpu.now.core cpu.now.regs p × RunsOn p cpu.now.regs.slot stack × (activations_below stack ≢ []) }
    ensures { (x : Storage) (p : MachineView) (stack : List Activation) → Represents x cpu.now.core cpu.now.regs p → RunsOn p cpu.now.regs.slot stack → activations_below stack ≢ []
        → result ≡ mark_place (activations_below stack) }
{
    let mark = cpu.top_mark();
    (cpu.regs.f - u32::from(mark.back) - cpu.regs.bosr) as u16
}

/// A live task depends on the mark at a displacement of a slot: the topmost mark on which one depends there is no lower.
pub fn raise(critical: &mut [u16; SLOTS as usize], slot: u8, at: u16)
    requires { slot < SLOTS }
    ensures own { (v : ℕ) → slice_get critical.old slot ≡ Some v → slice_get critical.new slot ≡ Some (max v at) }
    ensures others { (q : ℕ) → q ≢ slot → slice_get critical.new q ≡ slice_get critical.old q }
{
    if critical[slot as usize] < at {
        critical[slot as usize] = at;
    }
}

/// Builds the stack of a new task in a free slot, of those used so far: one activation record, entered at a level on an
/// environment, with copies of the last `count` cells of the running stack. The running task is its parent, and depends on the
/// mark at the displacement that is answered: that under its topmost one.
pub fn build_child(
    cpu: &mut Cpu,
    slot: u8,
    job: u8,
    env_stack: u16,
    env_disp: u16,
    level: u8,
    count: u32,
) -> u16
    requires { BuildsSome cpu.old slot job env_stack env_disp level count }
    ensures stands { (x : Storage) (plan : Placement) (s : Session) (m : SessionJob) (t : Task) (after : Job) (child : Task) → MayBuild x cpu.old plan s m t after child slot job env_stack env_disp level count
        → RepresentsSession x cpu.new (with_task_at plan m.constants.number child.number slot plan.peak) (session_joined plan s m after) }
    ensures mark { (x : Storage) (p : MachineView) (stack : List Activation) → Represents x cpu.old.core cpu.old.regs p → RunsOn p cpu.old.regs.slot stack → activations_below stack ≢ []
        → result ≡ mark_place (activations_below stack) }
    ensures len { length cpu.new.core ≡ length cpu.old.core }
    ensures regs { cpu.new.regs ≡ cpu.old.regs }
{
    let _size = cpu.core.size();
    let base = cpu.regs.stacks + u32::from(slot) * u32::from(cpu.regs.stack_size);
    let parent = cpu.regs.slot;
    let under = mark_disp(cpu);
    let top = Toscw {
        s: (2 + count) as u16,
        level,
        f: 1,
    };
    let mark = Mscw {
        far: env_stack != u16::from(slot),
        entered: true,
        env_stack,
        env_disp,
        value: false,
        level,
        back: 0,
    };
    let from = cpu.regs.s + 1 - count;
    build_stack(&mut cpu.core, base, top.word(), mark.word(), from, count);
    let vector = VectorWord {
        parent: u16::from(parent),
        job,
    };
    cpu.core.set(STACK_VECTOR + u32::from(slot), vector.word());
    raise(&mut cpu.critical, parent, under);
    under
}
