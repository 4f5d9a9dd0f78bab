//! A picture of a namespace as text: its objects in the tree of their names, and its processes with their handles.
#![tactic(auto)]

mod entries;
mod index;
mod lines;
mod names;
mod paths;
mod processes;
mod style;
mod survey;
mod texts;
mod tree;

pub use style::Style;
pub use survey::{HeldList, Seen, SeenProcess, Survey};
pub use tree::tree_text;
