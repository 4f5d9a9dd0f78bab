//! The numbers by which a caller in C names types and statuses, and the texts of both, which end in a byte 0.
//!
//! Sources: the Windows Driver Kit's "NTSTATUS values"; Windows Internals, Object Manager (object types); the numbers of
//! types are this profile.
#![tactic(auto)]

mod statuses;
mod types;

pub use statuses::status_text;
pub use types::{DIRECTORY, LINK, kind_of, type_named, type_of_kind, type_text};
