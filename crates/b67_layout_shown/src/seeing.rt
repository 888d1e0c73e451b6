//! What a machine's words, registers and rows show of its stacks, whatever they are.

ghost use Rattle.std.specs.Prelude.{◌≡◌, ◌+◌, ◌*◌, ◌<◌, ◌^◌, map, option_map};
ghost use Rattle.b67_model.specs.Keyed.{keyed};
ghost use Rattle.b67_layout.specs.Rows as layout;
ghost use Rattle.b67_task.specs.Tables.{task_row};
ghost use Rattle.b67_layout_shown.specs.Reading.{word_seen_at};
ghost use Rattle.b67_layout_shown.specs.Shown.{top_in};
ghost use Rattle.b67_layout_shown.specs.Machines.{sight_of};

use b67_core::Core;
use b67_ctl::Regs;
use b67_task::{Machine, TaskRow};
use b67_word::{Place, Word};

/// The word at an address: beyond the end of core one of tag 0 and no bits.
pub fn word_seen_at(core: &Core, at: u64) -> Word
    ensures { result ≡ word_seen_at core.now at }
{
    if at < u64::from(core.size()) {
        return core.get(at as u32);
    }
    Word::of(0, 0)
}

/// The row of the task in a slot, None if there is none.
pub fn row_in_slot(rows: &[TaskRow], slot: u64) -> Option<TaskRow>
    ensures { option_map task_row result ≡ keyed (λ (r : layout.TaskRow). r.slot) slot (map task_row rows.now) }
{
    'each: for row in rows {
        if u64::from(row.slot) == slot {
            return Some(*row);
        }
    }
    None
}

/// The address of the first word of a slot, the one under its stack.
pub fn slot_start(regs: Regs, slot: u64) -> u64
    requires { slot < 2 ^ 32 }
    ensures at { result ≡ regs.stacks + slot * regs.stack_size }
    ensures near { result < 2 ^ 49 }
{
    u64::from(regs.stacks) + slot * u64::from(regs.stack_size)
}

/// The addresses of a task's top word and of its topmost mark, and where it goes on.
#[derive(Clone, Copy)]
pub struct TaskTop {
    pub s: u64,
    pub f: u64,
    pub segment: u16,
    pub place: Place,
}

/// The top of a task: in the registers if it runs, or else in the word under its stack and in its row.
pub fn top_of(machine: &Machine, row: TaskRow) -> TaskTop
    ensures s { result.s ≡ (top_in (sight_of machine.now) (task_row row)).s }
    ensures f { result.f ≡ (top_in (sight_of machine.now) (task_row row)).f }
    ensures segment { result.segment ≡ (top_in (sight_of machine.now) (task_row row)).segment }
    ensures place { result.place ≡ (top_in (sight_of machine.now) (task_row row)).place }
    ensures near { (result.s < 2 ^ 50) × (result.f < 2 ^ 50) }
{
    let regs = machine.cpu.regs;
    let base = slot_start(regs, u64::from(row.slot));
    if row.slot == regs.slot {
        return TaskTop {
            s: u64::from(regs.s),
            f: u64::from(regs.f),
            segment: regs.segment,
            place: regs.place,
        };
    }
    let w = word_seen_at(&machine.cpu.core, base);
    TaskTop {
        s: base + w.part(20, 16),
        f: base + w.part(0, 14),
        segment: row.segment,
        place: row.place,
    }
}
