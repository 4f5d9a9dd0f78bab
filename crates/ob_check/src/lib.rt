//! The check of a script: its lines are judged without being run, and each that is wrong is reported with the column where it stops.
#![tactic(auto)]

mod check;
mod laws;

pub use check::{Checked, check_script, run_check};
pub use laws::clean_scripts_are_cut;
