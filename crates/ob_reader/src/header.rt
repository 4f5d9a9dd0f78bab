//! The content of a header.

/// The content of a header of a journal. Only its form is judged. (this profile)
#[derive(Clone, Copy, PartialEq, Eq, Debug)]
pub enum Header {
    /// Of a journal of version 1, which has no other header.
    Whole {
        /// How many seats the journal has: 1 to 1,024.
        seats: u32,
    },
    /// Of a segment of a journal of version 2.
    Segment {
        /// How many seats the journal has: 1 to 1,024.
        seats: u32,
        /// The segment's number: any number below 2^64.
        segment: u64,
        /// The number of the segment's first entry: any number below 2^64.
        first: u64,
    },
}
