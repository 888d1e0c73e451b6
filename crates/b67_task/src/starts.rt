//! The birth of a task.

ghost use Rattle.std.specs.Prelude.{◌≡◌, ℕ, ◌+◌, ◌-◌, ◌^◌, ◌<◌, List, [], ◌∷◌, ◌++◌, Option, Some, length, slice_get, slice_set};
ghost use Rattle.b67_word.specs.declared.couples.Place.{Place};
ghost use Rattle.b67_ctl.specs.Layout.{IsPcw, pcw_word};
ghost use Rattle.b67_ctl.specs.declared.programs.Pcw.{Pcw};
ghost use Rattle.b67_model.specs.State.{Task, SessionJob};
ghost use Rattle.b67_model.specs.Schedule.{Session};
ghost use Rattle.b67_layout.specs.Orders.{IsInOrderButCounts};
ghost use Rattle.b67_stack.specs.Represents.{Storage};
ghost use Rattle.b67_layout.specs.Placement.{Placement};
ghost use Rattle.b67_layout.specs.Session.{IsRunning};
ghost use Rattle.b67_task.specs.declared.tables.JobRow.{JobRow};
ghost use Rattle.b67_task.specs.Runs.{ForEachRun, Keeps, RunsTask};
ghost use Rattle.b67_task.specs.Tables.{MachineRepresents};
ghost use Rattle.b67_task.specs.Starts.{StartsSome, MayStart, IsStarted, child, HasRowRoom, with_next};

use crate::start_slot::open_slot;
use crate::start_stack::build_child;
use crate::tables::{JobRow, Machine, TaskRow, TaskState, Tasks};
use b67_core::Core;
use b67_ctl::Pcw;
use b67_refer::enclosure_of;

/// The program control word at an address.
pub fn procedure_at(core: &Core, at: u32) -> Pcw
    requires { (p : Pcw) × IsPcw p × (slice_get core.now at ≡ Some (pcw_word p)) }
    ensures { (p : Pcw) → IsPcw p → slice_get core.now at ≡ Some (pcw_word p) → result ≡ p }
{
    Pcw::read(core.get(at))
}

/// Raises the number of a job's next task.
fn count_task(rows: &mut [JobRow], at: usize)
    requires { (r : JobRow) × (slice_get rows.old at ≡ Some r) × (r.next_task + 1 < 2 ^ 32) }
    ensures { (r : JobRow) → slice_get rows.old at ≡ Some r → rows.new ≡ slice_set rows.old at (with_next r) }
{
    let row = &mut rows[at];
    row.next_task += 1;
}

/// Adds the row of a new task; its job's next task has the next number.
fn add_row(tasks: &mut Tasks, row: TaskRow)
    requires { HasRowRoom tasks.old row }
    ensures rows { tasks.new.rows.items ≡ tasks.old.rows.items ++ row ∷ [] }
    ensures jobs { (r : JobRow) → slice_get tasks.old.jobs (row.job - 1) ≡ Some r → tasks.new.jobs ≡ slice_set tasks.old.jobs (row.job - 1) (with_next r) }
    ensures rest { tasks.new ≡ record tasks.old { rows = tasks.new.rows; jobs = tasks.new.jobs } }
{
    tasks.rows.push(row);
    count_task(tasks.jobs.as_mut_slice(), row.job as usize - 1);
}

/// The row of the running task.
fn running_row(machine: &Machine) -> TaskRow
    requires { RunsTask machine.now }
    ensures { ForEachRun machine.now (λ x told plan s m t. (result.job ≡ m.constants.number) × (result.slot ≡ plan.running)) }
{
    machine.tasks.rows[machine.tasks.running as usize]
}

/// Starts a child of the running task in the procedure whose word lies at a core address, with copies of the last `args`
/// cells of the top activation record as its cells; nothing is cut. Its stack stands in the lowest free slot, under which no
/// area has a word. Answers its number.
pub fn start(machine: &mut Machine, cell: u32, args: u32) -> u32
    requires { StartsSome machine.old cell args }
    ensures number { (x : Storage) (told : Option (List (List ℕ))) (plan : Placement) (s : Session) (m : SessionJob) (t : Task) → IsInOrderButCounts s
        → MachineRepresents x told machine.old plan s → IsRunning plan s.jobs m t → result ≡ m.progress.job.next_task }
    ensures stands { (x : Storage) (told : Option (List (List ℕ))) (plan : Placement) (s : Session) (m : SessionJob) (t : Task) (f segment level : ℕ) (place : Place) (slot : ℕ) → IsInOrderButCounts s
        → MachineRepresents x told machine.old plan s → IsRunning plan s.jobs m t → MayStart x plan m t (length machine.old.cpu.core) cell args f segment level place slot
        → IsStarted told plan s m (child m t args f segment level place) slot machine.new }
    ensures keeps { Keeps machine.old machine.new }
    ensures tables { machine.new.tasks ≡ record machine.old.tasks { rows = machine.new.tasks.rows; jobs = machine.new.tasks.jobs } }
    ensures sectors { machine.new.sectors ≡ machine.old.sectors }
{
    let parent = running_row(machine);
    let number = machine.tasks.next_number(parent.job);
    let slot = open_slot(&mut machine.cpu, &mut machine.areas);
    let procedure = procedure_at(&machine.cpu.core, cell);
    let env = enclosure_of(&machine.cpu.core, &machine.cpu.regs, cell).record;
    let critical = build_child(
        &mut machine.cpu,
        slot,
        parent.job,
        env.stack,
        env.disp,
        procedure.level,
        args,
    );
    let row = TaskRow {
        job: parent.job,
        number,
        slot,
        parent: parent.slot,
        critical,
        state: TaskState::Ready,
        segment: procedure.segment,
        place: procedure.place,
    };
    add_row(&mut machine.tasks, row);
    number
}
