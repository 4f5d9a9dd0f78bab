//! One object directory: its entries by rising stamps, what is found under a name, and how an entry
//! comes and goes.
#![tactic(auto)]

mod dir;
mod entries;
mod entry;
mod index;
mod named;
mod page;
mod runs;

pub use dir::{Dir, dir_finds_what_the_state_finds, entries_follow_the_rows, not_found_is_free};
pub use entries::DirEntries;
pub use entry::DirEntry;
pub use page::DirPage;
