//! The law of all sessions.

ghost use Rattle.ob_session.specs.Session.{SessionsAreRuns};

/// The law that the lines of a session, from its first on, make a run of the abstract machine from the opening state: also those after a line that was
/// no script line, or that found no memory. The call does nothing. (this profile)
pub fn sessions_are_runs()
    ensures { SessionsAreRuns }
{}
