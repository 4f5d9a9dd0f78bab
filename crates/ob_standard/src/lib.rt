//! The standard set of types: events, mutants, sections, devices, files and keys, counted.
#![tactic(auto)]

mod set;

pub use set::{Standard, StandardFace, StandardInner, StandardKind};
