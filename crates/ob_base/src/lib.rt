//! The words that every crate of the namespace shares: statuses, attribute flags, the numbers of
//! processes, objects and handles, and the fault of a call that grows.
#![tactic(auto)]

mod attrs;
mod fault;
mod ids;
mod status;

pub use attrs::Attrs;
pub use fault::Fault;
pub use ids::{Handle, ObjId, Proc};
pub use status::{Status, codes_tell_statuses, texts_tell_statuses};
