//! Scripts with workers: their lines, cut into the lines of each seat.
//!
//! In such a script the lines `thread`, `join` and `seal` may be beside those of a script without workers. The part
//! before the first `thread` and the one after `join` are seat 0's; each `thread` begins the lines of one
//! worker; `seal` is a line of the seat among whose lines it is. A script is cut whole, before any line of it
//! runs, or the fault says which line is the first that is in no such script. Nothing here knows what the lines do.
//! docs/script.md has the language.
#![tactic(auto)]

mod form;
mod line;
mod part;
mod phase;
mod script;

pub use form::{SeatForm, read_seat_line, seat_lines_have_one_form};
pub use part::Part;
pub use phase::{Phase, judge_line, right_scripts_are_cut};
pub use script::{
    CutFault, MOST_WORKERS, WorkerScript, cut, lines_of_parts_are_read, scripts_have_one_cut,
};
