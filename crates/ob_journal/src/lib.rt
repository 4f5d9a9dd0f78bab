//! The checker of journals: whether the lines of one are those of a run. A journal is read whole and checked, and the
//! verdict is written in a line.
#![tactic(auto)]

mod check;
mod choice;
mod laws;
mod position;
mod replay;
mod report;
mod run;
mod verdict;

pub use check::check_journal;
pub use laws::{
    what_is_told_is_counted, what_is_told_is_in_segments, what_stops_is_no_run,
    what_stops_is_refused,
};
pub use ob_entries::{Entry, write_header, write_line};
pub use report::{Cause, CheckFault, Report};
pub use run::{JOURNAL_LIMIT, run_replay};
pub use verdict::{Verdict, write_verdict};
