//! The report of a check of a journal.

/// The report of a journal that is that of a run. (this profile)
#[derive(Clone, Copy, PartialEq, Eq, Debug, Drop)]
pub struct Report {
    /// How many entries it has, in all segments: at most 1,048,576 in each, and in a journal of version 1.
    pub entries: usize,
    /// How many objects there are at its end: at most 1,048,576.
    pub objects: usize,
    /// How many handles there are at its end, of all processes: at most 65,535 of each.
    pub handles: usize,
}

/// Why a line of a journal is refused, in the order in which the causes are judged. (this profile)
#[derive(Clone, Copy, PartialEq, Eq, Debug, Drop)]
pub enum Cause {
    /// The first line is no header, of version 1 or of segment 1 with entry 1 in version 2, for 1 to 1,024 seats; or there is no line at
    /// all. In version 2 also a further line with the key `journal` that isn't the header of the next segment, or where the segment
    /// before has no entry.
    Header,
    /// A further line is no entry of the form that a journal of its version has.
    Syntax,
    /// The number isn't the next one, or the segment has 1,048,576 entries already. A journal of version 1 is one segment.
    Number,
    /// The seat isn't below the number of seats that the headers say.
    Seat,
    /// No open is pending under the ticket of a resume or an abandon.
    Ticket,
    /// The step doesn't give this reply.
    Reply,
}

/// Why a journal isn't accepted. (this profile)
#[derive(Clone, Copy, PartialEq, Eq, Debug, Drop)]
pub enum CheckFault {
    /// A line is the first one that is refused.
    Refused {
        /// Its number, from 1; headers count.
        line: usize,
        /// Why.
        cause: Cause,
    },
    /// Memory ran out.
    Memory,
}
