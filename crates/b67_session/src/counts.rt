//! One operator more is counted.

ghost use Rattle.b67_task.specs.Counted.{CountsHaveRoom};
ghost use Rattle.b67_session.specs.Counts.{IsCounted};

use b67_task::{Chosen, Tasks, count};

/// Counts one operator of the chosen task, and that no line of the next step is printed yet.
#[inline(always)]
pub fn count_one(tasks: &mut Tasks, chosen: Chosen)
    requires { CountsHaveRoom tasks.old chosen }
    ensures { IsCounted chosen tasks.old tasks.new }
{
    count(tasks, chosen);
    tasks.printed = 0;
}
