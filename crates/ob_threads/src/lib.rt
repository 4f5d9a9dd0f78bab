//! Scripts with workers: each `thread` of a script is a thread of its own over one shared namespace, and what is written is the journal.
#![tactic(auto)]

mod ends;
mod journal;
mod lent;
mod order;
mod run;
mod seats;
mod workers;

pub use ends::ThreadsEnding;
pub use run::run_threads;
pub use seats::{Ran, run_seats};
