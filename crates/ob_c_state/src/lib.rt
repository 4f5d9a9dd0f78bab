//! The namespace that a caller in C holds, and commands that are run in it.
//!
//! The caller's struct is [`Ntns`]; if it is open, it owns a [`HostCore`], the namespace over the set of the caller's own
//! objects. [`call`] runs a command in it, and [`report_handle`] and its like report how it ended. The exports for C are those
//! of the crate above.
#![tactic(auto)]

mod buffers;
mod called;
mod caller;
mod calls;
mod commands;
mod copies;
mod inherit;
mod machine;
mod parts;

pub use buffers::{fill, fill_nothing, report_entry, report_text};
pub use called::{process_in, report_handle, status_in};
pub use caller::Ntns;
pub use calls::call;
pub use commands::{
    create_directory, create_link, create_object, create_shadowed, open_directory, open_link,
    open_object,
};
pub use machine::HostCore;
