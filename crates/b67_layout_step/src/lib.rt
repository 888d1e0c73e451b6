//! The session that stands after a step or a store, and what a store makes of the machine: lemmas, and two laws on the arrays
//! that rows keep and touch.
//!
//! For `b67_fetch`, `b67_mcp` and what stands on them: laws `rows_keep_arrays`, `steps_touch_arrays`.
//!
//! Begin with the law `steps_touch_arrays`.
#![tactic(auto)]

ghost use Rattle.b67_layout_step.specs.Keeping.{RowsKeepArrays, StepsTouchArrays};

/// An operator other than EXIT and RETN keeps each array of its job.
pub fn rows_keep_arrays()
    ensures { RowsKeepArrays }
{}

/// The array that a step touches is one of its job.
pub fn steps_touch_arrays()
    ensures { StepsTouchArrays }
{}
