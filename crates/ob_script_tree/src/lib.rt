//! The tree of the namespace that a script leaves.
#![tactic(auto)]

mod drawing;
mod leaving;
mod picture;

pub use drawing::run_tree;
pub use picture::{Picture, picture_text};
