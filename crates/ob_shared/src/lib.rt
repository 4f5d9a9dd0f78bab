//! A namespace that threads share: a lock round it, and a pass for each caller.
//!
//! [`open_shared`] gives a [`Shared`] and its passes. A caller hands its [`Pass`] to each call and gets it back, with a receipt
//! of the step that was made: [`Shared::start`] begins a command, [`Shared::resume`] brings the parse that an open waits for,
//! [`Shared::abandon`] gives such an open up, and [`Shared::open_with`] runs a command to its reply. [`Shared::seal`] seals a segment of
//! the journal, so that it can be written out while others go on. Each of these takes the lock for
//! one step alone; a parse is run between two steps, with nothing held. [`Shared::publish`] has the [`Publishing`] under the lock show viewers
//! the namespace as it is. Once all callers have ended, [`Shared::close`] gives back
//! the namespace and the journal, of which each pass has its own steps as receipts.
//!
//! The state under the lock, its steps, and the check of passes against the journal come from `ob_locked` and `ob_agreement`, and are exported
//! again here.
#![tactic(auto)]

mod guarded;
mod shared;
mod to_reply;
mod under;

pub use ob_agreement::{Mismatch, agree};
pub use ob_locked::{
    Asked, Journal, Locked, Parsed, Parsing, Pass, Pending, Prepared, Segment, Started,
    open_locked, seal_step, step,
};
pub use ob_published::Publishing;
pub use shared::{Ended, Shared, open_shared};
pub use to_reply::Gate;
