//! A task ends, and its descendants with it.

ghost use Rattle.b67_word.specs.declared.faults.Ending as ending_type;
ghost use Rattle.std.specs.Prelude.{◌≡◌, ◌≤◌, ℕ, List, Option, length};
ghost use Rattle.b67_model.specs.declared.limits.TheConstants.{MOST_TASKS};
ghost use Rattle.b67_model.specs.State.{Task, SessionJob};
ghost use Rattle.b67_model.specs.Endings.{ends_task};
ghost use Rattle.b67_model.specs.Schedule.{Session};
ghost use Rattle.b67_stack.specs.Represents.{Storage};
ghost use Rattle.b67_layout.specs.Meets.{with_job};
ghost use Rattle.b67_layout.specs.Placement.{Placement};
ghost use Rattle.b67_task.specs.declared.tables.TheConstants.{NO_ROW};
ghost use Rattle.b67_task.specs.declared.tables.Tasks.{Tasks};
ghost use Rattle.b67_task.specs.Deaths.{ending_numbers, StandsWith, MayEnd, EndsSome, HasEnded};
ghost use Rattle.b67_task.specs.Families.{StandsInPlace, IsFamilyOf, EndsFamily};
ghost use Rattle.b67_layout.specs.Orders.{IsInOrderButCounts};
ghost use Rattle.b67_task.specs.Standing.{HasRow};
ghost use Rattle.b67_task.specs.Tables.{MachineRepresents};
ghost use Rattle.b67_task.specs.RowOf.{IsRowOf};
ghost use Rattle.b67_task.specs.Family.{endings_of};

use crate::end_rows::{leave_rows, slots_of};
use crate::end_slots::take_out;
use crate::families::endings;
use crate::marks::marks_of;
use crate::switching::switch_to;
use crate::tables::{MOST_LISTED, Machine, NO_ROW};
use arrayvec::ArrayVec;
use b67_word::Ending;

/// These tasks of a job end, each after those under it, as `endings` lists them. Their rows are gone, their slots are free,
/// the areas and sectors of their arrays are given back, and all others stay where they are; who awaited one is ready. The
/// registers of no other task may be in use, and none are then. The tables' counts needn't be those of the session.
fn end_one(machine: &mut Machine, job: u8, list: &[(u32, Ending)])
    requires some { EndsSome machine.old job (ending_numbers list.now) }
    requires few { length list.now ≤ MOST_TASKS }
    ensures stands { (u : Tasks) (x : Storage) (told : Option (List (List ℕ))) (plan : Placement) (s : Session) (m : SessionJob) → StandsWith machine.old u x told plan s
        → MayEnd plan s m (ending_numbers list.now) → m.constants.number ≡ job → HasEnded u x told plan s m list.now machine.new }
    ensures tasks { machine.new.tasks ≡ record machine.old.tasks { rows = machine.new.tasks.rows; running = NO_ROW } }
    ensures areas { machine.new.areas ≡ machine.old.areas }
    ensures len { length machine.new.cpu.core ≡ length machine.old.cpu.core }
    ensures count { length machine.new.sectors.links ≡ length machine.old.sectors.links }
{
    let slots = slots_of(machine.tasks.rows.as_slice(), job, list);
    take_out(
        &mut machine.cpu,
        &mut machine.areas,
        &mut machine.sectors,
        slots.as_slice(),
    );
    leave_rows(&mut machine.tasks.rows, job, list);
    machine.cpu.critical = marks_of(machine.tasks.rows.as_slice());
    machine.tasks.running = NO_ROW;
}

/// The task of a row ends, with those under it, in the ways that `endings` lists. Whoever's registers were in use, none are
/// then. All arrays, segments and data rows that are left lie in the same areas and the same sectors.
pub fn end_family(machine: &mut Machine, row: u8, job: u8, list: &[(u32, Ending)])
    requires some { EndsFamily machine.old row job list.now }
    requires few { length list.now ≤ MOST_TASKS }
    ensures stands { (x : Storage) (told : Option (List (List ℕ))) (plan : Placement) (s : Session) (m : SessionJob) (t : Task) (ending : ending_type.Ending)
        → IsFamilyOf x told machine.old plan s m t row job ending list.now → StandsInPlace x told machine.new plan s (with_job s m (ends_task m.progress.job t.number ending).job) }
    ensures tasks { machine.new.tasks ≡ record machine.old.tasks { rows = machine.new.tasks.rows; running = machine.new.tasks.running } }
    ensures len { length machine.new.cpu.core ≡ length machine.old.cpu.core }
    ensures count { length machine.new.sectors.links ≡ length machine.old.sectors.links }
{
    switch_to(machine, row);
    end_one(machine, job, list);
}

/// The task of a row ends so by itself, and those under it by PARENT: the answer lists them, the deepest first and the task
/// itself last. Their slots, the areas and the sectors of their arrays are free then, and who awaited one is ready. The machine
/// represents the session without them; nothing is printed or counted.
pub fn end(machine: &mut Machine, row: u8, ending: Ending) -> ArrayVec<(u32, Ending), MOST_LISTED>
    requires { HasRow machine.old row }
    ensures list { (x : Storage) (told : Option (List (List ℕ))) (plan : Placement) (s : Session) (m : SessionJob) (t : Task) → IsInOrderButCounts s → MachineRepresents x told machine.old plan s
        → IsRowOf plan s machine.old.tasks.rows.items row m t → result.items ≡ endings_of m.progress.job t.number ending }
    ensures stands { (x : Storage) (told : Option (List (List ℕ))) (plan : Placement) (s : Session) (m : SessionJob) (t : Task) → IsInOrderButCounts s → MachineRepresents x told machine.old plan s
        → IsRowOf plan s machine.old.tasks.rows.items row m t → StandsInPlace x told machine.new plan s (with_job s m (ends_task m.progress.job t.number ending).job) }
    ensures tasks { machine.new.tasks ≡ record machine.old.tasks { rows = machine.new.tasks.rows; running = machine.new.tasks.running } }
    ensures core { length machine.new.cpu.core ≡ length machine.old.cpu.core }
    ensures sectors { length machine.new.sectors.links ≡ length machine.old.sectors.links }
{
    let job = machine.tasks.rows[row as usize].job;
    let list = endings(&machine.tasks, row, ending);
    end_family(machine, row, job, list.as_slice());
    list
}
