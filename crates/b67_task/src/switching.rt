//! The registers go from one task to another, and the rows of both tell where they go on.

ghost use Rattle.std.specs.Prelude.{◌≡◌, ◌≢◌, ℕ, ◌<◌, List, length, map, Option, Some, slice_get, slice_set};
ghost use Rattle.b67_word.specs.Tagged.{Tagged};
ghost use Rattle.b67_model.specs.declared.limits.TheConstants.{MOST_STACKS};
ghost use Rattle.b67_model.specs.State.{Task, SessionJob};
ghost use Rattle.b67_model.specs.Schedule.{Session};
ghost use Rattle.b67_layout.specs.Orders.{IsInOrderButCounts};
ghost use Rattle.b67_stack.specs.Represents.{Storage};
ghost use Rattle.b67_layout.specs.Placement.{Placement};
ghost use Rattle.b67_layout.specs.Session.{SessionHolds};
ghost use Rattle.b67_task.specs.Turns.{with_running, IsTurnOf};
ghost use Rattle.b67_task.specs.declared.tables.TaskRow.{TaskRow};
ghost use Rattle.b67_task.specs.declared.tables.Tasks.{Tasks};
ghost use Rattle.b67_task.specs.Tables.{TasksShow, MachineRepresents};
ghost use Rattle.b67_task.specs.Standing.{HasRow, InUse, Rests};

use crate::registers::{Turn, switch_stack};
use crate::tables::{Machine, NO_ROW, TaskRow, Tasks};
use b67_ctl::{NO_SLOT, Regs};

/// Notes in a row where its task goes on.
fn note(rows: &mut [TaskRow], at: u8, regs: &Regs)
    requires { at < length rows.old }
    ensures { (r : TaskRow) → slice_get rows.old at ≡ Some r
        → rows.new ≡ slice_set rows.old at (record r { segment = regs.now.segment; place = regs.now.place }) }
{
    let mut row = rows[at as usize];
    row.segment = regs.segment;
    row.place = regs.place;
    rows[at as usize] = row;
}

/// Notes where the running task goes on, if there is one; then the tables say that no registers are in use.
fn pause(tasks: &mut Tasks, regs: &Regs)
    requires { InUse regs.now tasks.old }
    ensures rests { (x : Storage) (core : List Tagged) (marks : List ℕ) (plan : Placement) (s : Session) → IsInOrderButCounts s
        → SessionHolds x core regs.now marks plan s → TasksShow plan s tasks.old → TasksShow (with_running plan NO_SLOT) s tasks.new }
    ensures rest { tasks.new ≡ record tasks.old { rows = tasks.new.rows; running = NO_ROW } }
    ensures slots { map (λ (r : TaskRow). r.slot) tasks.new.rows.items ≡ map (λ (r : TaskRow). r.slot) tasks.old.rows.items }
{
    if tasks.running == NO_ROW {
        return;
    }
    note(tasks.rows.as_mut_slice(), tasks.running, regs);
    tasks.running = NO_ROW;
}

/// The turn of a row's task.
fn turn_of(tasks: &Tasks, row: u8) -> Turn
    requires known { (plan : Placement) × (s : Session) × Rests tasks.now plan s }
    requires inside { row < length tasks.now.rows.items }
    ensures turn { (plan : Placement) (s : Session) → Rests tasks.now plan s → (m : SessionJob) × (t : Task) × IsTurnOf plan s.jobs m t result }
    ensures slot { (r : TaskRow) → slice_get tasks.now.rows.items row ≡ Some r → result.slot ≡ r.slot }
    ensures few { row < MOST_STACKS }
{
    let row = tasks.rows[row as usize];
    let job = &tasks.jobs.as_slice()[row.job as usize - 1];
    Turn {
        slot: row.slot,
        dict: job.dict,
        entries: job.segments + job.rows,
        segment: row.segment,
        place: row.place,
    }
}

/// The task of a row is then the running one: its registers and its display are in use, and the row of the task that ran
/// before tells where that one goes on. The session's state stays.
pub fn switch_to(machine: &mut Machine, row: u8)
    requires { HasRow machine.old row }
    ensures stands { (x : Storage) (told : Option (List (List ℕ))) (plan : Placement) (s : Session) (r : TaskRow) → IsInOrderButCounts s
        → MachineRepresents x told machine.old plan s → slice_get machine.old.tasks.rows.items row ≡ Some r
        → MachineRepresents x told machine.new (with_running plan r.slot) s }
    ensures tables { machine.new.tasks ≡ record machine.old.tasks { rows = machine.new.tasks.rows; running = row } }
    ensures words { (i : ℕ) → i ≢ machine.old.cpu.regs.bosr → slice_get machine.new.cpu.core i ≡ slice_get machine.old.cpu.core i }
    ensures areas { machine.new.areas ≡ machine.old.areas }
    ensures sectors { machine.new.sectors ≡ machine.old.sectors }
{
    pause(&mut machine.tasks, &machine.cpu.regs);
    let turn = turn_of(&machine.tasks, row);
    switch_stack(&mut machine.cpu, turn);
    machine.tasks.running = row;
}
