//! Keys: paths below one root, and links among them that a lookup goes on from.
#![tactic(auto)]

mod entry;
mod face;
mod key;
mod table;

pub use entry::{KeyEntry, KeyTarget};
pub use face::KeyFace;
pub use key::{KeyKind, KeySet};
pub use table::KeyTable;
