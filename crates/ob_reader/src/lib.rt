//! The lines of a journal, read back.
//!
//! [`read_header`] reads a [`Header`] of either version, and [`read_line`] an entry: a [`Line`]. [`read_segment_line`] reads a line of
//! a journal of version 2, which is one or the other: a [`SegmentLine`]. They judge the form alone: whether the line is JSON, has the
//! keys that it should and no others, and numbers, texts and words of the form. The answer that a line says is a
//! [`Said`], which [`is_said`] compares with an answer.
#![tactic(auto)]

mod compare;
mod header;
pub mod laws;
mod line;
mod members;
mod read;
mod replies;
mod said;
mod steps;
mod texts;
mod words;

pub use compare::is_said;
pub use header::Header;
pub use line::{Line, SegmentLine};
pub use read::{read_header, read_line, read_segment_line};
pub use said::{Gift, Numbers, Said};
