//! That the search for copies looks where they are.

ghost use Rattle.b67_layout_spans.specs.SpansHold.{SpansHoldCopies};

/// In a machine that represents a session in order, whatever its places and counts, every present copy of an array lies in one
/// of the spans that `search_span` of `b67_overlay` gives for the array's original.
pub fn spans_hold_copies()
    ensures { SpansHoldCopies }
{}
