//! The stacks of tasks.

ghost use Rattle.std.specs.Prelude.{◌≡◌, ◌+◌, ◌-◌, ◌<◌, ◌≤◌, ◌^◌, length};
ghost use Rattle.std.specs.Bool.{OnTrue, OnFalse};
ghost use Rattle.b67_model.specs.declared.limits.TheConstants.{MOST_STACK};
ghost use Rattle.b67_layout_shown.specs.Machines.{sight_of};
ghost use Rattle.b67_layout_shown.specs.Shown.{top_in};
ghost use Rattle.b67_task.specs.Tables.{task_row, job_row};
ghost use Rattle.b67_image_shape.specs.TableFacts.{TableFacts};
ghost use Rattle.b67_image_shape.specs.FixedWords.{FixedFacts};
ghost use Rattle.b67_image_shape.specs.NearStacks.{NearStacks};
ghost use Rattle.b67_image_shape.specs.Items.{base_at};
ghost use Rattle.b67_image_shape.specs.TaskWalk.{level_in, registers_fit, is_toscw, top_fits, is_segment_place, TaskStands};

use crate::fixed_words::base_of;
use crate::walk::{same, walk_down};
use b67_ctl::{Regs, Toscw};
use b67_layout_shown::seeing::{top_of, word_seen_at};
use b67_task::{JobRow, Machine, TaskRow};
use b67_word::{Place, Word};

/// The level at a task's top.
fn level_of(machine: &Machine, row: TaskRow) -> u8
    ensures { result ≡ level_in (sight_of machine.now) (task_row row) }
{
    let regs = machine.cpu.regs;
    if row.slot == regs.slot {
        return regs.level;
    }
    let base = base_of(regs, row.slot);
    let w = word_seen_at(&machine.cpu.core, base);
    w.part(14, 5) as u8
}

/// Whether the registers have the slot of a base.
fn registers_fit(regs: Regs, base: u64) -> bool
    requires { base < 2 ^ 49 }
    ensures { result ≡ registers_fit regs base }
{
    u64::from(regs.bosr) == base && u64::from(regs.losr) + 1 == base + u64::from(regs.stack_size)
}

/// Whether a word is a top of stack word.
fn is_toscw(w: Word) -> bool
    ensures { result ≡ is_toscw w }
{
    let again = Toscw {
        s: w.part(20, 16) as u16,
        level: w.part(14, 5) as u8,
        f: w.part(0, 14) as u16,
    };
    same(w, again.word())
}

/// Whether the registers have a task's slot, or its top of stack word is one.
fn top_fits(machine: &Machine, row: TaskRow) -> bool
    ensures { result ≡ top_fits (sight_of machine.now) (task_row row) }
{
    let regs = machine.cpu.regs;
    let base = base_of(regs, row.slot);
    if row.slot == regs.slot {
        return registers_fit(regs, base);
    }
    is_toscw(word_seen_at(&machine.cpu.core, base))
}

/// Whether a place is one of a segment that a job with so many segments may have.
fn is_segment_place(segments: u16, entry: u16, place: Place) -> bool
    ensures { result ≡ is_segment_place segments (entry - 1) place }
{
    if entry < 2 {
        return false;
    }
    entry - 1 <= segments && place.word < 0x2000 && place.syllable < 8
}

/// Whether a task goes on at a place of a segment of its job.
fn goes_on(machine: &Machine, segments: u16, row: TaskRow) -> bool
    ensures { result ≡ is_segment_place segments ((top_in (sight_of machine.now) (task_row row)).segment - 1) (top_in (sight_of machine.now) (task_row row)).place }
{
    let top = top_of(machine, row);
    is_segment_place(segments, top.segment, top.place)
}

/// Whether the stack of a task of a job with so many segments stands.
pub fn task_stands(machine: &Machine, segments: u16, row: TaskRow) -> bool
    requires inside { base_at (sight_of machine.now) (task_row row) + machine.now.cpu.regs.stack_size ≤ length machine.now.cpu.core }
    requires room { machine.now.cpu.regs.stack_size < MOST_STACK + 1 }
    ensures yes { OnTrue result (TaskStands (sight_of machine.now) segments (task_row row)) }
    ensures not { OnFalse result (TaskStands (sight_of machine.now) segments (task_row row) → ⊥) }
{
    let regs = machine.cpu.regs;
    let base = base_of(regs, row.slot);
    let size = regs.stack_size;
    let top = top_of(machine, row);
    if top.s >= base + u64::from(size) {
        return false;
    }
    if !top_fits(machine, row) {
        return false;
    }
    let level = level_of(machine, row);
    if !walk_down(
        &machine.cpu.core,
        base,
        row.slot,
        segments,
        u32::from(size),
        level,
        top.f,
        top.s,
    ) {
        return false;
    }
    goes_on(machine, segments, row)
}

/// The same for all of these rows, by their jobs' rows.
fn each_stands(machine: &Machine, rows: &[TaskRow], jobs: &[JobRow]) -> bool
    requires rows { rows.now ≡ machine.now.tasks.rows.items }
    requires jobs { jobs.now ≡ machine.now.tasks.jobs }
    requires tables { TableFacts (sight_of machine.now) }
    requires fixed { FixedFacts (sight_of machine.now) machine.now.areas.low machine.now.areas.size }
    ensures yes { OnTrue result (NearStacks (sight_of machine.now)) }
    ensures not { OnFalse result (NearStacks (sight_of machine.now) → ⊥) }
{
    'each: for i in 0..rows.len() {
        let at = rows[i].job as usize;
        let job = &jobs[at - 1];
        if !task_stands(machine, job.segments, rows[i]) {
            return false;
        }
    }
    true
}

/// Whether the stacks of all live tasks stand, each array held as its original says.
pub fn stacks_stand(machine: &Machine) -> bool
    requires tables { TableFacts (sight_of machine.now) }
    requires fixed { FixedFacts (sight_of machine.now) machine.now.areas.low machine.now.areas.size }
    ensures yes { OnTrue result (NearStacks (sight_of machine.now)) }
    ensures not { OnFalse result (NearStacks (sight_of machine.now) → ⊥) }
{
    each_stands(
        machine,
        machine.tasks.rows.as_slice(),
        machine.tasks.jobs.as_slice(),
    )
}
