//! The live processes, each with its device map and its handle table, and what is left of one that ends.
//!
//! Pending opens: those that reached an object whose parse is still to be run.
#![tactic(auto)]

mod ending;
mod live;
mod pending;
mod processes;

pub use ending::EndingProcess;
pub use pending::PendingOpens;
pub use processes::Processes;
