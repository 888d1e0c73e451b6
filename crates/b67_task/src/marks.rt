//! The marks on which live tasks depend, by the rows of the table and by the stack.

ghost use Rattle.std.specs.Prelude.{◌≤◌, length, ◌≡◌, ℕ, List, Option, false};
ghost use Rattle.b67_task.specs.RowMarks.{ShowsMarks, Raised};
ghost use Rattle.std.specs.List.{list_any};
ghost use Rattle.b67_model.specs.State.{Frame, Task, SessionJob};
ghost use Rattle.b67_model.specs.Steps.{is_critical};
ghost use Rattle.b67_model.specs.Schedule.{Session};
ghost use Rattle.b67_stack.specs.Represents.{Storage};
ghost use Rattle.b67_layout.specs.Orders.{IsInOrderButCounts};
ghost use Rattle.b67_layout.specs.Placement.{Placement};
ghost use Rattle.b67_task.specs.Tables.{MachineRepresents};
ghost use Rattle.b67_task.specs.Marks.{IsMarkAt, depends_on};

use crate::start_stack::raise;
use crate::tables::{Machine, TaskRow};
use b67_ctl::SLOTS;
use b67_model::MOST_STACKS;

/// A row's task depends on the row's critical mark in its parent's slot.
fn depend(marks: &mut [u16; SLOTS as usize], row: TaskRow)
    ensures { Raised marks.old marks.new row }
{
    if row.parent >= SLOTS {
        return;
    }
    raise(marks, row.parent, row.critical);
}

/// The displacement of the topmost mark in each slot on which a task of these rows depends, 0 for none.
pub fn marks_of(rows: &[TaskRow]) -> [u16; SLOTS as usize]
    requires { length rows.now ≤ 255 }
    ensures { ShowsMarks result rows.now }
{
    let mut marks = [0; SLOTS as usize];
    for at in 0..rows.len() as u8 {
        depend(&mut marks, rows[at as usize]);
    }
    marks
}

/// Whether the task of some row depends on a mark of a slot.
fn some_depends(rows: &[TaskRow], slot: u8, mark: u16) -> bool
    ensures { result ≡ list_any (depends_on slot mark) rows.now }
{
    rows.iter()
        .any(|row| row.parent == slot && row.critical == mark)
}

/// Whether a live task depends on the activation record whose mark stands at this displacement of a slot's stack, which the
/// slot's task then may not leave. False if no live task has a mark there.
pub fn critical(machine: &Machine, slot: u8, mark: u16) -> bool
    ensures mark { (x : Storage) (told : Option (List (List ℕ))) (plan : Placement) (s : Session) (m : SessionJob) (t : Task) (f : Frame) → IsInOrderButCounts s → MachineRepresents x told machine.now plan s
        → IsMarkAt plan s m t f slot mark → result ≡ is_critical m.progress.job f.identity }
    ensures none { (x : Storage) (told : Option (List (List ℕ))) (plan : Placement) (s : Session) → IsInOrderButCounts s → MachineRepresents x told machine.now plan s
        → ((m : SessionJob) (t : Task) (f : Frame) → IsMarkAt plan s m t f slot mark → ⊥) → result ≡ false }
{
    if slot >= MOST_STACKS {
        return false;
    }
    some_depends(machine.tasks.rows.as_slice(), slot, mark)
}
