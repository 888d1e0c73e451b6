//! That a machine can represent a session in which a child runs.

ghost use Rattle.b67_layout.specs.Families.{ChildrenCanRun};

/// Some machine represents a session in order in which a child runs and its parent waits, with the mark set that the parent
/// may not leave. So what is asked of machines and sessions can be met by more than one task.
pub fn children_can_run()
    ensures { ChildrenCanRun }
{}
