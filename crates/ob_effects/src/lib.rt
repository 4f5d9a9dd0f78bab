//! The effects of a line of a script: the steps that it makes of the namespace, its reply, and the variables after it.
#![tactic(auto)]

mod asking;
mod notice;
mod opening;
mod outcome;
mod session;
mod waiting;

pub use notice::Notice;
pub use opening::{OpenForm, keep_reply, open_command};
pub use outcome::LineOutcome;
pub use session::Session;
