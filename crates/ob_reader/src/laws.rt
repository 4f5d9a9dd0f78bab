//! Laws of reading.

ghost use Rattle.ob_reader.specs.Laws.{EntryLinesAreRead, HeaderLinesAreRead};

/// The law that the lines that are written are read back: what [`crate::read_segment_line`] reads of the line of an entry, without its
/// LF, is the entry's number, seat and event, and what a line says of its answer; [`crate::read_line`] reads the same where version 1
/// has the event, and else nothing; and what [`crate::read_header`] reads of the line of a header is its number of seats. Of an entry the numbers must fit, names and texts must be bytes, a resume must
/// bring a parse that was run, and a page must have types' names and one of its four statuses. The call does nothing; a caller
/// makes it to have the facts.
pub fn written_lines_are_read()
    ensures entries { EntryLinesAreRead }
    ensures headers { HeaderLinesAreRead }
{}
