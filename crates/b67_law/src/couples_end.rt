//! States in order: what a step of one task leaves of the others, and where references lead.

ghost use Rattle.b67_law.specs.Ends.{CouplesEndInOrder};

/// A couple of the running task leads to a fault, or to a cell, element, array or procedure that is
/// in reach and in order.
pub fn couples_end_in_order()
    ensures { CouplesEndInOrder }
{}
