//! A namespace that callers share, for use under a lock: the journal of its steps is a run of the abstract machine, and each caller has a
//! receipt of each of its steps.
//!
//! [`open_locked`] gives a [`Locked`] in the opening state, and a [`Pass`] for each seat. [`step`] is lent both, and makes the
//! step that is [`Asked`] for: it changes the namespace, adds the step's entry to the journal, and its receipt to the pass. A
//! parse is run between two steps: a [`Parsing`] is run into a [`Parsed`], or a [`Pending`] open is given up. One ledger counts
//! the steps: its book is kept beside the journal, and each pass has a share of it that counts its receipts.
//!
//! [`seal_step`] seals the journal's open [`Segment`], which is shared from then on, and opens an empty one.
//!
//! This crate has no lock and no thread: the owner of the `Locked` makes the steps.
#![tactic(auto)]

mod entering;
mod locked;
mod made;
mod opened;
mod pass;
mod place;
mod prepared;
mod rooms;
mod started;
mod steps;

pub use locked::Locked;
pub use ob_segments::{Journal, Segment};
pub use opened::open_locked;
pub use pass::{Pass, has_entry, is_known};
pub use prepared::Prepared;
pub use started::{Parsed, Parsing, Pending, Started};
pub use steps::{Asked, seal_step, step};
