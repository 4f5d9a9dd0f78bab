//! Sessions: lines are read as they come, and each is answered before the next one is read.
#![tactic(auto)]

mod laws;
mod reading;
mod session;

pub use laws::sessions_are_runs;
pub use session::{answer_next, run_session};
