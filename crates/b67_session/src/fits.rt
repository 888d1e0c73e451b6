//! Core has room for what is present beside the stacks.

ghost use Rattle.b67_session.specs.Fits.{PresentFits, MadeFits};

/// Where the running segment is present, core has room for it beside the MCP, the dictionaries and the stacks; and where an
/// array of the running task's job is present too, for both of them.
pub fn present_fits()
    ensures { PresentFits }
{}

/// A step of the running task that starts no task, where the running segment and the array that it touches, if any, are
/// present, needs no more words than core has: core is never too small for such a step.
pub fn made_fits()
    ensures { MadeFits }
{}
