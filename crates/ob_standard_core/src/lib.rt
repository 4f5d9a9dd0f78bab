//! The core over the standard set of types, and the opens of it that wait.
//!
//! Each is a type without parameters. A crate that uses them is proved without a look into the nine types of the set
//! and what becomes of a value of each.
#![tactic(auto)]

mod standard_core;
mod waits;

pub use ob_runner::Begun;
pub use standard_core::StandardCore;
pub use waits::StandardWaits;
