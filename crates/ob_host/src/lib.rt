//! A set of types for a caller's own objects, as those of an emulator: each has user data of the caller's, and a serial that its
//! first open draws. Deletions stay in a list until the caller takes them.
#![tactic(auto)]

mod args;
mod chain;
mod deletion;
mod inner;
mod kind;
mod object;
mod set;

pub use args::arguments;
pub use deletion::HostDeletion;
pub use inner::HostInner;
pub use kind::Kind;
pub use object::HostObject;
pub use set::HostSet;
