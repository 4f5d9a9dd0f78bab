//! The meaning of the namespace: its vocabulary, and the definitions of its abstract machine.
//!
//! `src/` has the plain data that commands, replies and states are made of. `specs/` has the
//! definitions, one file a subject; docs/ARCHITECTURE.md gives their reading order. The crates
//! above state their contracts by these definitions and by nothing else.
#![tactic(auto)]

mod bytes;
pub mod choices;
mod command;
mod entries;
pub mod examples;
mod handles;
pub mod laws;
mod reply;
mod state;
mod terms;

pub use bytes::Bytes;
pub use command::{Command, Place};
pub use entries::{Entries, Listed, TypeName};
pub use handles::Handles;
pub use reply::{Answer, Event, Given, ParseRun, Reply};
pub use state::{Body, Held, Object, PendingOpen, Process, Row, Wanted};
pub use terms::{GrantOptions, Mode, Reason};
