//! Streams: a script is read whole, within a limit, and bytes are written, with the faults of both.
//!
//! Lines of the output of a script: their texts, made without memory, and the block in which they are gathered until it is written.
#![tactic(auto)]

mod counts;
mod fault;
mod gathering;
mod lines;
mod misfits;
mod reading;
mod short_line;
mod status_lines;
mod texts;
mod writing;

pub use counts::Totals;
pub use fault::{ShellFault, Unread};
pub use gathering::{gather, make_room};
pub use lines::{LINE_ROOM, push_counts_line, push_number, push_text, push_text_line};
pub use misfits::{EXPECTED_ROOM, push_expected, push_misfit_line};
pub use reading::{SCRIPT_LIMIT, read_all, read_script};
pub use short_line::{ShortLine, text_line};
pub use status_lines::push_status_front;
pub use texts::{push_entry, push_printed};
pub use writing::{Unwritten, write_out};
