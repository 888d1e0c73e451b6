//! Worked rows.

ghost use Rattle.std.specs.Prelude.{◌≡◌};
ghost use Rattle.b67_layout_shown.specs.Shown.{shown};
ghost use Rattle.b67_layout_shown.specs.Example.{halted, eight};
ghost use Rattle.b67_dump.specs.Dump.{dump_text};
ghost use Rattle.b67_dump.specs.Walk.{walk_text};
ghost use Rattle.b67_dump.specs.Example.{halted_dump, eight_dump};

/// The dump of a machine with one array, halted before its EXIT.
pub fn halted_machines_are_dumped()
    ensures { dump_text (shown halted) ≡ halted_dump }
{}

/// The dump of two tasks, of which one awaits the other.
pub fn families_are_dumped()
    ensures { dump_text (shown eight) ≡ eight_dump }
{}

/// The dump of the halted machine, read off it.
pub fn halted_machines_are_walked()
    ensures { walk_text halted ≡ halted_dump }
{}

/// The dump of two tasks, read off their machine.
pub fn families_are_walked()
    ensures { walk_text eight ≡ eight_dump }
{}
