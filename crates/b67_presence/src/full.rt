//! When the sectors of a device are too few for a session.

ghost use Rattle.b67_layout_spans.specs.Full.{ShortIsFull};

/// Where a present array keeps no chain and needs more sectors than are free, the session takes more sectors than the
/// device has.
pub fn short_is_full()
    ensures { ShortIsFull }
{}
