//! The row of each operator and each intrinsic keeps a state in order.

ghost use Rattle.b67_law.specs.Keeping.{EachRowKeepsOrder};

/// The row of any operator, intrinsics included, keeps all items of the order but those on counts
/// where its parameters fit: with the items on places, and without them.
pub fn each_row_keeps_order()
    ensures { EachRowKeepsOrder }
{}
