//! The running task, and the operator at which it stands.

ghost use Rattle.std.specs.Prelude.{◌≡◌, ◌+◌, ◌^◌, ◌<◌};
ghost use Rattle.b67_model.specs.Operators.{count_at};
ghost use Rattle.b67_ctl.specs.Layout.{IsPlace};
ghost use Rattle.b67_layout.specs.Meets.{with_job};
ghost use Rattle.b67_mcp.specs.Printed.{MayCut, job_cut};
ghost use Rattle.b67_word.specs.declared.couples.Place.{Place};
ghost use Rattle.b67_task.specs.Tables.{MachineRepresents};
ghost use Rattle.b67_mcp.specs.Called.{ChangesStack};
ghost use Rattle.b67_mcp.specs.Running.{ForRuns, IsBehind, StandsAtEntr, CutsSome, Keeps};

use crate::call::cut_call;
use b67_task::{Machine, TaskRow};
use b67_word::Place;

/// The place one syllable behind another.
fn one_behind(at: Place) -> Place
    requires in_word { at.syllable < 6 }
    requires fits { at.word < 2 ^ 13 }
    ensures in_word { result.syllable < 6 }
    ensures count { count_at result ≡ count_at at + 1 }
{
    if at.syllable == 5 {
        return Place {
            word: at.word + 1,
            syllable: 0,
        };
    }
    Place {
        word: at.word,
        syllable: at.syllable + 1,
    }
}

/// The place behind the operator at the running place, which is ENTR: it takes one syllable, so none is read again.
pub(crate) fn next_place(machine: &Machine) -> Place
    requires { StandsAtEntr machine.now }
    ensures place { IsPlace result }
    ensures behind { ForRuns machine.now (λ x told plan s m t. (next : Place) → IsBehind m t next → result ≡ next) }
{
    one_behind(machine.cpu.regs.place)
}

/// The running task's entry in the table of tasks.
pub(crate) fn running_row(machine: &Machine) -> TaskRow
    requires { StandsAtEntr machine.now }
    ensures job { ForRuns machine.now (λ x told plan s m t. result.job ≡ m.constants.number) }
    ensures number { ForRuns machine.now (λ x told plan s m t. result.number ≡ t.number) }
{
    machine.tasks.rows[machine.tasks.running as usize]
}

/// Cuts the call at which the running task stands off its stack, once its text is printed. Of what is printed next nothing is
/// printed yet.
pub(crate) fn cut(machine: &mut Machine)
    requires { CutsSome machine.old }
    ensures stands { ForRuns machine.old (λ x told plan s m t. MayCut m t → (next : Place) → IsBehind m t next
        → MachineRepresents x told machine.new plan (with_job s m (job_cut m t next))) }
    ensures printed { machine.new.tasks.printed ≡ 0 }
    ensures kept { Keeps machine.old machine.new }
    ensures changed { ChangesStack machine.old machine.new }
    ensures sectors { machine.new.sectors ≡ machine.old.sectors }
{
    let next = next_place(machine);
    cut_call(&mut machine.cpu, next);
    machine.tasks.printed = 0;
}
