//! A job's part of a run is its own run.

ghost use Rattle.b67_law.specs.JobsApart.{JobStatesApart};
ghost use Rattle.b67_model.specs.Apart.{JobsApart};

/// Whatever the other jobs do, a job's lines are those that its own steps, in their order, print.
pub fn jobs_print_apart()
    ensures { JobsApart }
{}

/// Whatever the other jobs do, a job's state and the endings of its tasks are those that its own steps, in their order,
/// leave.
pub fn jobs_stay_apart()
    ensures { JobStatesApart }
{}
