//! The position of a line in a journal.

ghost use Rattle.std.specs.Prelude.{◌≡◌, ◌↔◌, ◌+◌, ◌≤◌, ◌==◌, IfNone, IfSome, IsTrue, Some};
ghost use Rattle.ob_journal.specs.Journal.{after_first, after_header as position_after, begins_journal, first_of, has_room, next_header, seats_of, segment_of};

use ob_reader::Header;

/// The most entries of a segment, and of a journal of version 1. (this profile)
const MOST_ENTRIES: u64 = 1_048_576;

/// The position of a line in a journal: the header of its segment, and how many entries are before it in all segments.
/// A journal of version 1 is a single segment. (this profile)
#[derive(Clone, Copy, PartialEq, Eq, Debug)]
pub(crate) struct Position {
    /// The header that the segment begins with.
    pub(crate) header: Header,
    /// How many entries are before the line.
    pub(crate) count: u64,
}

impl Position {
    /// The position after the first line.
    pub(crate) fn after_first(header: Header) -> Position
        ensures { result ≡ after_first header }
    {
        Position { header, count: 0 }
    }

    /// The position after a header, where it is that of the next segment and the segment before has an entry.
    pub(crate) fn after_header(self, found: Option<Header>) -> Option<Position>
        ensures next { IfSome result (λ next. (found ≡ Some (next_header self))
            × (first_of self.header ≤ self.count) × (next ≡ position_after self)) }
        ensures none { IfNone result (found ≡ Some (next_header self)
            → first_of self.header ≤ self.count → ⊥) }
    {
        let header = found?;
        if self.is_next(header) && first(self.header) <= self.count {
            Some(Position {
                header,
                count: self.count,
            })
        } else {
            None
        }
    }

    // Whether a header is that of the next segment.
    fn is_next(self, header: Header) -> bool
        ensures { IsTrue result ↔ (header ≡ next_header self) }
    {
        match header {
            Header::Whole { seats: _ } => false,
            Header::Segment {
                seats: those,
                segment: number,
                first: entry,
            } => {
                those == seats(self.header)
                    && follows(number, segment(self.header))
                    && follows(entry, self.count)
            }
        }
    }

    /// Whether the segment has room for one more entry.
    pub(crate) fn has_room(self) -> bool
        ensures { result ≡ has_room self }
    {
        let first = first(self.header);
        self.count < first || self.count - first < MOST_ENTRIES - 1
    }
}

/// Whether a header may be the first line of a journal: in version 2 it begins segment 1 with entry 1. (this profile)
pub(crate) fn begins(header: Header) -> bool
    ensures { result ≡ begins_journal header }
{
    match header {
        Header::Whole { seats: _ } => true,
        Header::Segment {
            seats: _,
            segment,
            first,
        } => segment == 1 && first == 1,
    }
}

/// How many seats the journal has. (this profile)
pub(crate) fn seats(header: Header) -> u32
    ensures { result ≡ seats_of header }
{
    match header {
        Header::Whole { seats } => seats,
        Header::Segment {
            seats,
            segment: _,
            first: _,
        } => seats,
    }
}

// The number of the segment that begins.
fn segment(header: Header) -> u64
    ensures { result ≡ segment_of header }
{
    match header {
        Header::Whole { seats: _ } => 1,
        Header::Segment {
            seats: _,
            segment,
            first: _,
        } => segment,
    }
}

// The number of its first entry.
fn first(header: Header) -> u64
    ensures { result ≡ first_of header }
{
    match header {
        Header::Whole { seats: _ } => 1,
        Header::Segment {
            seats: _,
            segment: _,
            first,
        } => first,
    }
}

/// Whether a number is the next one after another.
pub(crate) fn follows(number: u64, before: u64) -> bool
    ensures { result ≡ (number == before + 1) }
{
    before < number && number - before == 1
}
