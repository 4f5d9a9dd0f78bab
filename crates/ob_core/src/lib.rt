//! The namespace itself: commands in, replies out, one step of the abstract machine each.
//!
//! A [`Core`] is generic in its set of types, of which it knows only that it is lawful, and in the
//! handle table of its processes. Its state lies in the parts of `ob_space`. The steps of commands are in
//! `ob_commands`, those of opens by name, and of opens that wait for a parse, in `ob_opens`; here each command is given
//! its step, and what holds between the steps is kept.
//!
//! The parts of a command and of its reply are handed on: [`Command`], [`Place`] and [`Wanted`],
//! [`Reply`] and [`Given`], and the [`Bytes`], [`Handles`] and [`Entries`] in them, of which each [`Listed`] has a [`TypeName`]; and so are handle tables, [`HandleTable`],
//! [`SlabTable`] and [`OpenTable`], the [`Cache`] by which names are looked up, and the parses that an open may wait for, [`Parsing`] and [`Parsed`], with [`Pending`] for either. So a caller names this crate and a set of types and nothing else for them.
#![tactic(auto)]

mod namespace;
mod referent;
mod steps;

pub use namespace::Core;
pub use ob_handles::{HandleTable, OpenTable, SlabTable};
pub use ob_lookup::{Cache, RemovedName};
pub use ob_model::{
    Bytes, Command, Entries, Given, Handles, Listed, Place, Reply, TypeName, Wanted,
};
pub use ob_objects::Named;
pub use ob_opens::Started;
pub use ob_types::{Parsed, Parsing, Pending};
pub use referent::Referent;
