//! The content of a line.

use crate::header::Header;
use crate::said::Said;
use ob_model::Event;
use ob_standard::StandardKind;

/// The content of a journal's line for an entry. Only the form of the line is judged. (this profile)
#[derive(Debug, Drop)]
pub struct Line {
    /// The entry's number: any number below 2^64.
    pub number: u64,
    /// The seat of the caller that asked: any number below 2^64.
    pub seat: u64,
    /// The event that was asked for.
    pub step: Event<StandardKind>,
    /// How it ended, as the line says.
    pub reply: Said,
}

/// The content of a line of a journal of version 2, other than its first. Only its form is judged. (this profile)
#[derive(Debug, Drop)]
pub enum SegmentLine {
    /// It has the key `journal`: the header of a segment, or none where it isn't of the form of a header.
    Header(Option<Header>),
    /// An entry, or none where the line isn't of the form of an entry.
    Entry(Option<Line>),
}
