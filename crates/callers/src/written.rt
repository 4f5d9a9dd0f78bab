//! The output: marks, numbers, and the lines of journals.

use ob_device::{DeviceKind, DeviceSet};
use ob_entries::{Segment, write_header, write_line};
use ob_shared::Journal;
use std::alloc::{AllocError, Global};
use std::io::Write;
use std::sync::Arc;

/// Writes a mark. So requests for memory between two marks are those of what was done between them.
pub(crate) fn mark<W: Write>(writer: &mut W, text: &str) {
    let _ = writer.write_all(text.as_bytes());
}

/// Puts numbers after a text, each after its name.
pub(crate) fn put_numbers(
    text: &mut String,
    names: &[&str],
    numbers: &[u64],
) -> Result<(), AllocError> {
    for (name, number) in names.iter().zip(numbers.iter()) {
        write!(text, ", {name}")?;
        write!(text, " {number}")?;
    }
    Ok(())
}

/// Puts the lines of a segment of a journal of so many seats after others: its header, and a line for each entry.
pub(crate) fn put_segment(
    alloc: Global,
    lines: &mut Vec<u8>,
    seats: u32,
    segment: &Segment<DeviceKind>,
) -> Result<(), AllocError> {
    let header = write_header(alloc, seats, segment.number, segment.first)?;
    lines.extend_from_slice(header.as_slice())?;
    for entry in segment.entries.as_slice() {
        lines.extend_from_slice(write_line::<DeviceSet>(alloc, entry)?.as_slice())?;
    }
    Ok(())
}

/// Puts the lines of a journal of so many seats after others: those of its sealed segments, and those of the open one.
pub(crate) fn put_journal(
    alloc: Global,
    lines: &mut Vec<u8>,
    seats: u32,
    sealed: &[Arc<Segment<DeviceKind>>],
    open: &Segment<DeviceKind>,
) -> Result<(), AllocError> {
    for segment in sealed {
        put_segment(alloc, lines, seats, &**segment)?;
    }
    put_segment(alloc, lines, seats, open)
}

/// Puts the lines of a journal of so many seats after others, all in one segment.
pub(crate) fn put_entries(
    alloc: Global,
    lines: &mut Vec<u8>,
    seats: u32,
    (journal, count): (&Journal<DeviceKind>, usize),
) -> Result<(), AllocError> {
    lines.extend_from_slice(write_header(alloc, seats, 1, 1)?.as_slice())?;
    for place in 0..count {
        if let Some(entry) = journal.get(place as u64 + 1) {
            lines.extend_from_slice(write_line::<DeviceSet>(alloc, entry)?.as_slice())?;
        }
    }
    Ok(())
}
