//! The journal of a namespace: its entries, and the lines that they are written as.
//!
//! An [`Entry`] is one event of a history with its number, the seat whose caller asked, and how it ended. Contracts see it
//! as the entry of a run of the abstract machine, so that a list of entries may be a run. A [`Segment`] is what follows
//! one header of a journal. [`is_same_entry`] compares entries, and [`write_header`] and [`write_line`] write the lines of
//! a journal. [`Operation`] and [`word_of_parse`] have the words of these lines, and [`Operation::from_word`] and
//! [`parse_of_word`] their meaning.
#![tactic(auto)]

mod alike;
mod entry;
mod lines;
mod members;
mod replies;
mod segment;
mod steps;
mod texts;
mod words;

pub use entry::{Entry, is_same_entry};
pub use lines::{write_header, write_line};
pub use segment::Segment;
pub use words::{Operation, parse_of_word, word_of_parse};
