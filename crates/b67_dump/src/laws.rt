//! The laws.

ghost use Rattle.b67_dump.specs.Laws.{DumpsAreShown, DumpsAreOne, WalksAreDumps};

/// The dump of each session that a machine represents is that of what the machine shows.
pub fn dumps_are_shown()
    ensures { DumpsAreShown }
{}

/// Machines that represent one session have one dump.
pub fn dumps_are_one()
    ensures { DumpsAreOne }
{}

/// What is read off a machine is the dump of each session that it represents.
pub fn walks_are_dumps()
    ensures { WalksAreDumps }
{}
