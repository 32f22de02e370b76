//! A worked session.

ghost use Rattle.vr_pair.specs.Worked.{WorkedSession};

/// The lines of a small session are answered so: full, nothing waits, no such chain is taken, and both refusals of an
/// `add` for its parts.
pub fn worked_session()
    ensures { WorkedSession }
{}
