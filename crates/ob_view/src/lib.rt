//! Viewers: readers that take no lock, see the names of a namespace after some publication, and never go back.
#![tactic(auto)]

mod histories;
mod opened;
mod path;
mod query;
mod viewer;

pub use histories::viewers_see_histories;
pub use opened::{MOST_VIEWERS, ViewedNamespace, open_viewed};
pub use viewer::Viewer;
