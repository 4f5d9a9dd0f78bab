//! A survey of a namespace: what a tree shows of its objects and processes, read from a core.
#![tactic(auto)]

mod reading;

pub use reading::survey;
