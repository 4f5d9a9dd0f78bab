//! The rows of a namespace, followed from outside: a copy that catches up with a core, and the changes that it made.
#![tactic(auto)]

mod mirror;

pub use mirror::Mirror;
