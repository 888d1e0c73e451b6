//! A session in order is in order but for places; and it stays so with other code words and other numbers.

ghost use Rattle.b67_law.specs.Weaker.{StartsAreSegments};

/// A session in order is in order but for places.
pub fn starts_are_segments()
    ensures { StartsAreSegments }
{}
