//! What a step leaves of all tasks.

ghost use Rattle.b67_law.specs.Profiles.{RowsKeepProfiles};

/// An operator that calls no intrinsic leaves each task its number, its parents, its critical activation record and its
/// condition, starts and ends none, and makes no array.
pub fn rows_keep_profiles()
    ensures { RowsKeepProfiles }
{}
