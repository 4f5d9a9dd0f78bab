//! The journal of a namespace in segments: entries are added at the end of the open one, which is sealed from time to time.
//!
//! A [`Journal`] finds the entry of a number in constant time in the open segment, and in logarithmic time among the sealed ones. A sealed
//! [`Segment`] doesn't change any more, and is shared: whoever sealed it can write it out while entries go on being added.
#![tactic(auto)]

mod journal;

pub use journal::Journal;
pub use ob_entries::Segment;
