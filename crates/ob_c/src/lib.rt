//! The namespace for callers in C: a static library over the set of a caller's own objects.
//!
//! Each export makes one call of the machine, and its contract says which, with the state as it is after it. A caller holds
//! the namespace as a struct of two words, zeros where it is closed ([`Ntns`]). No call blocks, prints, or ends the process.
//! A `Global` in a signature has no bytes, so that a caller passes nothing for it; a slice is a pointer, which is not null,
//! and then a length. Names that end in `_raw` are those whose form in C has pointers that may be null or to what is
//! const: the header's functions call them.
#![tactic(auto)]

mod deletions;
mod handles;
mod lifecycle;
mod listing;
mod naming;
mod objects;
mod opening;
mod pages;
mod pending;
mod processes;
mod queries;
mod referents;
mod rows;
mod texts;

pub use deletions::Deletion;
pub use listing::HandleRow;
pub use ob_c_state::Ntns;
pub use pending::BegunOpen;
pub use rows::PageRow;
