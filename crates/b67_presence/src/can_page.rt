//! What paging asks of a machine.

ghost use Rattle.b67_presence.specs.Paging.{SessionsCanPage};

/// A machine that represents a session in order, whatever its places and counts, can page: copies lie where they are
/// searched. So `overlay`, `claim` and the calls of paging ask no more of it than that.
pub fn sessions_can_page()
    ensures { SessionsCanPage }
{}
