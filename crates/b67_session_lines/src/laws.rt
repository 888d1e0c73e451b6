//! A run stops in one way, and its steps have parts.

ghost use Rattle.b67_session_lines.specs.Moments.{StepsHaveParts};
ghost use Rattle.b67_session_lines.specs.Stops.{StopsOnce, StopsWithStatus};

/// A run stops with one status and one text.
pub fn runs_stop_once()
    ensures { StopsOnce }
{}

/// The status is the one that the session and the halt give.
pub fn runs_stop_with_their_status()
    ensures { StopsWithStatus }
{}

/// The next step of a session is its first part, and then the last part of the session after that, where it has one.
pub fn steps_have_parts()
    ensures { StepsHaveParts }
{}
