//! How processes begin and end, as changes of a namespace.
//!
//! A child begins with what it inherits of its parent: [`begin_child`]. A process that ends closes its
//! handles, and lives no longer: [`end_process`]. Each is specified over the state of the abstract machine
//! that the namespace represents. Nothing settles here: a command does so after the change.
#![tactic(auto)]

mod child;
mod close;
mod exit;
mod permanence;
mod settle;

pub use child::{Child, begin_child};
pub use close::close_handle;
pub use exit::{EndedProcess, end_process};
pub use permanence::set_permanence;
pub use settle::{settle_after_end, settle_after_loss};
