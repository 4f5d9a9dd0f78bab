//! The survey of a namespace as one JSON value for tools.
#![tactic(auto)]

mod members;
mod objects;
mod processes;
mod text;
mod tree;

pub use tree::tree_json;
