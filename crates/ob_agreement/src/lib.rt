//! Whether the journal of a namespace and the passes of its callers agree, once all callers have ended.
//!
//! [`agree`] reports the least seat at which they don't, and where: a [`Mismatch`].
#![tactic(auto)]

mod agreement;
mod compared;

pub use agreement::agree;
pub use compared::Mismatch;
