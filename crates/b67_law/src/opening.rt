//! The opening state of a deck is in order.

ghost use Rattle.b67_law.specs.Opening.{OpensInOrder};

/// The opening state of each deck within its limits, whose programs are admitted, is in order.
pub fn opening_is_in_order()
    ensures { OpensInOrder }
{}
