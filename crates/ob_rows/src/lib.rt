//! The rows of a namespace as a directory index: which row has a stamp, what a name finds in a directory, and how
//! rows come and go by changes that are listed.
#![tactic(auto)]

mod change;
mod index;
mod stamped;
mod table;

pub use change::{RowChange, changes_follow_one_another, counts_account_for_all};
pub use table::{RowTable, table_finds_what_the_state_finds};
