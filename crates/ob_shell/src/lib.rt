//! The program `ntns`: which task its arguments ask for, as the parser `clap` reads them. Each task is done over streams
//! and ends in one of a few ways, and the program's status is a function of that end.
#![tactic(auto)]

mod end;
mod opening;
mod performing;
mod planning;
mod refusing;
mod serving;

pub use end::{ProgramOutcome, TaskOutcome};
pub use ob_check::Checked;
pub use ob_journal::Verdict;
pub use ob_output::{ShellFault, Unread, Unwritten};
pub use ob_scripts::{Ending, run_script};
pub use ob_threads::{ThreadsEnding, run_threads};
pub use opening::perform_opened;
pub use performing::{complain, converse, perform, starve};
pub use planning::{Task, plan, unreadable};
pub use refusing::refuse;
pub use serving::serve;
