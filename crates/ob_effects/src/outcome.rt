//! The outcome of a line.

use crate::notice::Notice;
use ob_model::Reply;
use ob_output::Totals;

/// The outcome of a line of a script. (this profile)
#[derive(Debug, Drop)]
pub enum LineOutcome {
    /// It does nothing.
    Idle,
    /// It reported what the namespace counts.
    Counted(Totals),
    /// Its command was answered, or the open that waited.
    Replied(Reply),
    /// Its open waits for a parse.
    Pending,
    /// It made no step, for this reason.
    Told(Notice),
    /// It is no script line.
    NoLine,
    /// It found no memory.
    NoMemory,
}
