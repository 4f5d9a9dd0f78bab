//! The shell: scripts are read whole, run line by line over the namespace, and answered in text.
#![tactic(auto)]

mod laws;
mod printing;
mod run;

pub use laws::{offsets_are_added_in_full, shown_law};
pub use printing::write_outcome;
pub use run::{Ending, ending_of, perform_line, run_script};
