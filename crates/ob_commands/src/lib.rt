//! Each command of a process, except opens by name: one step of the abstract machine, a file a command.
//!
//! A command is a short text over the parts of a namespace, `ob_space`: its refusals in their order, then the change, and
//! the reply. [`create`] makes an object, [`Making`], or opens the one that is there; [`duplicate`] gives a handle on, and [`close`] takes one away. [`turn`] makes an object permanent
//! or temporary, and [`set_device_map`] sets the caller's device map. [`query_name`], [`query_link`] and [`query_directory`],
//! a page of what is [`PageRequest`], report something and change nothing. [`new_process`] and [`exit_process`] begin
//! and end a process, over `ob_life`.
//!
//! Each is specified over the state of the abstract machine that the namespace represents, asks that it is orderly,
//! most also that it is settled or sound, and leaves it orderly. That it is settled and sound again, a law of the
//! machine says to who calls them.
#![tactic(auto)]

mod closing;
mod creating;
mod device_maps;
mod duplicating;
mod listing;
mod lives;
mod making;
mod naming;
mod replies;
mod shadows;

pub use closing::close;
pub use creating::create;
pub use device_maps::set_device_map;
pub use duplicating::duplicate;
pub use listing::{PageRequest, query_directory};
pub use lives::{exit_process, new_process};
pub use making::{Making, link_to, object_of};
pub use naming::{query_link, query_name};
