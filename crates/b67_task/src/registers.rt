//! Saving the registers of a task, and loading those of another.

ghost use Rattle.std.specs.Prelude.{◌≡◌, ◌≢◌, ℕ, ◌+◌, List, length, slice_get};
ghost use Rattle.b67_ctl.specs.Layout.{toscw_word};
ghost use Rattle.b67_model.specs.State.{Task, SessionJob};
ghost use Rattle.b67_model.specs.Schedule.{Session};
ghost use Rattle.b67_layout.specs.Orders.{IsInOrderButCounts};
ghost use Rattle.b67_stack.specs.declared.Cpu.{Cpu};
ghost use Rattle.b67_stack.specs.Stacks.{Activation, toscw_of};
ghost use Rattle.b67_stack.specs.MachineView.{MachineView, RunsOn};
ghost use Rattle.b67_stack.specs.Represents.{Storage, Represents};
ghost use Rattle.b67_stack.specs.Changes.{Runs};
ghost use Rattle.b67_layout.specs.Placement.{Placement};
ghost use Rattle.b67_layout.specs.Session.{RepresentsSession};
ghost use Rattle.b67_task.specs.Turns.{with_running, IsTurnOf, HasTurn, StandsForOne, WaitsOn, WaitsInOne, loaded};

use b67_core::Core;
use b67_ctl::{NO_SLOT, Regs, Toscw};
use b67_refer::rebuild;
use b67_stack::Cpu;
use b67_word::{Place, Word};

/// A live task: the slot of its stack, the core address of its job's dictionary and how many entries that has, and where
/// it goes on: the displacement of its segment in the dictionary, and the next operator's place.
#[derive(Clone, Copy, Debug, PartialEq, Eq)]
pub struct Turn {
    pub slot: u8,
    pub dict: u32,
    pub entries: u16,
    pub segment: u16,
    pub place: Place,
}

/// The top of stack word of the running task.
fn top_word(cpu: &Cpu) -> Word
    requires { Runs cpu.now }
    ensures { (x : Storage) (p : MachineView) (stack : List Activation) → Represents x cpu.now.core cpu.now.regs p
        → RunsOn p cpu.now.regs.slot stack → result ≡ toscw_word (toscw_of stack) }
{
    let regs = cpu.regs;
    let top = Toscw {
        s: (regs.s - regs.bosr) as u16,
        level: regs.level,
        f: (regs.f - regs.bosr) as u16,
    };
    top.word()
}

/// Puts the registers of the running task, if there is one, into the base word of its stack; its segment and place
/// aren't kept. Then no task's registers are in use.
fn put_away(cpu: &mut Cpu)
    requires { StandsForOne cpu.old }
    ensures stands { (x : Storage) (plan : Placement) (s : Session) → RepresentsSession x cpu.old plan s
        → RepresentsSession x cpu.new (with_running plan NO_SLOT) s }
    ensures words { (i : ℕ) → i ≢ cpu.old.regs.bosr → slice_get cpu.new.core i ≡ slice_get cpu.old.core i }
    ensures len { length cpu.new.core ≡ length cpu.old.core }
{
    if cpu.regs.slot == NO_SLOT {
        return;
    }
    let word = top_word(cpu);
    cpu.core.set(cpu.regs.bosr, word);
    cpu.regs.slot = NO_SLOT;
}

/// The registers of a waiting task.
fn registers(core: &Core, regs: &Regs, turn: Turn) -> Regs
    requires { WaitsInOne core.now regs.now turn.slot }
    ensures { (x : Storage) (p : MachineView) (stack : List Activation) → Represents x core.now regs.now p
        → WaitsOn p turn.slot stack → result ≡ loaded regs.now p stack turn }
{
    let _size = core.size();
    let size = u32::from(regs.stack_size);
    let base = regs.stacks + u32::from(turn.slot) * size;
    let top = Toscw::read(core.get(base));
    Regs {
        s: base + u32::from(top.s),
        f: base + u32::from(top.f),
        bosr: base,
        losr: base + size - 1,
        slot: turn.slot,
        level: top.level,
        segment: turn.segment,
        place: turn.place,
        dict: turn.dict,
        entries: turn.entries,
        stacks: regs.stacks,
        stack_size: regs.stack_size,
        peak: regs.peak,
    }
}

/// Brings the registers and the display of a live task into use; those of the task that ran before are put away, but for
/// its segment and place, which the caller keeps. The session's state stays.
pub(crate) fn switch_stack(cpu: &mut Cpu, turn: Turn)
    requires { HasTurn cpu.old turn }
    ensures stands { (x : Storage) (plan : Placement) (s : Session) (m : SessionJob) (t : Task) → IsInOrderButCounts s
        → RepresentsSession x cpu.old plan s → IsTurnOf plan s.jobs m t turn → RepresentsSession x cpu.new (with_running plan turn.slot) s }
    ensures words { (i : ℕ) → i ≢ cpu.old.regs.bosr → slice_get cpu.new.core i ≡ slice_get cpu.old.core i }
    ensures len { length cpu.new.core ≡ length cpu.old.core }
{
    put_away(cpu);
    cpu.regs = registers(&cpu.core, &cpu.regs, turn);
    rebuild(&cpu.core, &cpu.regs, &mut cpu.display);
}
