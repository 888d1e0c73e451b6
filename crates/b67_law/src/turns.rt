//! The task of the next step, and the order of a session between the step's two parts.

ghost use Rattle.b67_law.specs.Turns.{ChoiceIgnoresNumbers, ChosenTasksAreReady, FirstPartsKeepOrder, LastPartsRestoreOrder};

/// Which task makes the next step doesn't depend on the words of segments and the numbers of arrays.
pub fn choice_ignores_numbers()
    ensures { ChoiceIgnoresNumbers }
{}

/// The task that is chosen is a ready task of a job.
pub fn chosen_tasks_are_ready()
    ensures { ChosenTasksAreReady }
{}

/// After the first part of a step a session is in order, but that the job may stand at its limit.
pub fn first_parts_keep_order()
    ensures { FirstPartsKeepOrder }
{}

/// A session is in order after the first part of a step if no last part follows, and after the last part.
pub fn last_parts_restore_order()
    ensures { LastPartsRestoreOrder }
{}
