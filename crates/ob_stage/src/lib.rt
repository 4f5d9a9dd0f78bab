//! A stage for scenes of tests: a namespace over any set of types whose calls are recorded, on which the steps of lines are made, and what can be
//! seen of it. The lines' requests are described where the scenes are (`ob_core_tests`). A struct without contracts
//! hides the core, so that the tests above it are proved without a look into the types of a set.
#![tactic(auto)]

mod commands;
mod lines;
mod stage;

pub use lines::{number_of, sides_of, word_of};
pub use stage::{Listing, Stage, StageEnd};
