//! Lines, read back.

ghost use Rattle.std.specs.Prelude.{◌≡◌, option_map, IfOk};
ghost use Rattle.serde_json.specs.View.{view};
ghost use Rattle.ob_reader.specs.Reading.{value_for, seats_in, whole_in, segment_in, header_in, is_in_version_1, line_in, header_for, line_for, segment_line_for};

use crate::header::Header;
use crate::line::{Line, SegmentLine};
use crate::members::{has_key, has_members, u64_at};
use crate::replies::read_reply;
use crate::steps::read_step;
use ob_model::{Command, Event};
use ob_standard::StandardKind;
use serde_json::Value;
use std::alloc::{AllocError, Global};

/// The header that a line is, without its LF, of either version; none where it isn't of the form of a header. Whether a segment's number
/// and that of its first entry are the next isn't judged here. The only error is out of memory. (RFC 8259; the keys: this profile)
#[tactic(auto, unfolding(crate::specs::Reading::header_for))]
pub fn read_header(alloc: Global, line: &[u8]) -> Result<Option<Header>, AllocError>
    ensures { IfOk result (λ header. header ≡ header_for line.now) }
{
    let Some(header) = read_value(alloc, line)? else {
        return Ok(None);
    };
    Ok(header_in(&header))
}

/// Reads an entry from a line of a journal of version 1, without its LF: none where the line isn't of the form of an
/// entry, and where it is the create of a directory with a shadow, which version 1 doesn't have. Whether the number is
/// the next, the seat is one of the journal's and the step gives the reply isn't judged here. The only error is out of
/// memory. (RFC 8259; the keys: this profile)
#[tactic(auto, unfolding(crate::specs::Reading::line_for))]
pub fn read_line(alloc: Global, line: &[u8]) -> Result<Option<Line>, AllocError>
    ensures { IfOk result (λ found. found ≡ line_for line.now) }
{
    let Some(entry) = read_value(alloc, line)? else {
        return Ok(None);
    };
    let Some(entry) = read_entry(alloc, &entry)? else {
        return Ok(None);
    };
    if is_in_version_1(&entry.step) {
        Ok(Some(entry))
    } else {
        Ok(None)
    }
}

/// Reads a line of a journal of version 2, other than its first, without its LF: an object with the key `journal` is a
/// header, or of no form; any other line is an entry, or of no form. The only error is out of memory. (RFC 8259; the
/// keys: this profile)
#[tactic(auto, unfolding(crate::specs::Reading::segment_line_for, crate::specs::Reading::is_header, crate::specs::Reading::header_for, crate::specs::Reading::entry_for))]
pub fn read_segment_line(alloc: Global, line: &[u8]) -> Result<SegmentLine, AllocError>
    ensures { IfOk result (λ found. found ≡ segment_line_for line.now) }
{
    let Some(value) = read_value(alloc, line)? else {
        return Ok(SegmentLine::Entry(None));
    };
    if has_key(&value, "journal") {
        Ok(SegmentLine::Header(header_in(&value)))
    } else {
        Ok(SegmentLine::Entry(read_entry(alloc, &value)?))
    }
}

// The value that a line is.
#[tactic(auto, unfolding(crate::specs::Reading::value_for))]
fn read_value(alloc: Global, line: &[u8]) -> Result<Option<Value>, AllocError>
    ensures { IfOk result (λ value. option_map view value ≡ value_for line.now) }
{
    match Value::from_slice(alloc, line) {
        Ok(value) => Ok(Some(value)),
        Err(error) => {
            if error.is_memory() {
                Err(AllocError)
            } else {
                Ok(None)
            }
        }
    }
}

// The header that a value is.
#[tactic(auto, unfolding(crate::specs::Reading::header_in))]
fn header_in(value: &Value) -> Option<Header>
    ensures { result ≡ header_in (view value.now) }
{
    if has_members(value, 2) {
        whole_in(value)
    } else {
        segment_in(value)
    }
}

// The header of version 1 that a value is.
#[tactic(auto, unfolding(crate::specs::Reading::whole_in))]
fn whole_in(value: &Value) -> Option<Header>
    ensures { result ≡ whole_in (view value.now) }
{
    let version = u64_at(value, "journal")?;
    let seats = seats_in(value)?;
    if version == 1 {
        Some(Header::Whole { seats })
    } else {
        None
    }
}

// The header of version 2 that a value is.
#[tactic(auto, unfolding(crate::specs::Reading::segment_in))]
fn segment_in(value: &Value) -> Option<Header>
    ensures { result ≡ segment_in (view value.now) }
{
    if !has_members(value, 4) {
        return None;
    }
    let version = u64_at(value, "journal")?;
    let seats = seats_in(value)?;
    let segment = u64_at(value, "segment")?;
    let first = u64_at(value, "first")?;
    if version == 2 {
        Some(Header::Segment {
            seats,
            segment,
            first,
        })
    } else {
        None
    }
}

// The number of seats that a header says.
#[tactic(auto, unfolding(crate::specs::Reading::seats_in))]
fn seats_in(header: &Value) -> Option<u32>
    ensures { result ≡ seats_in (view header.now) }
{
    let seats = u64_at(header, "seats")?;
    if 1 <= seats && seats <= 1024 {
        Some(seats as u32)
    } else {
        None
    }
}

// Whether version 1 has an event.
fn is_in_version_1(event: &Event<StandardKind>) -> bool
    ensures { result ≡ is_in_version_1 event.now }
{
    !matches!(
        event,
        Event::Start {
            command: Command::CreateShadowed { .. },
            ..
        }
    )
}

// Reads an entry.
#[tactic(auto, unfolding(crate::specs::Reading::line_in))]
fn read_entry(alloc: Global, entry: &Value) -> Result<Option<Line>, AllocError>
    ensures { IfOk result (λ found. found ≡ line_in (view entry.now)) }
{
    if !has_members(entry, 4) {
        return Ok(None);
    }
    let Some(number) = u64_at(entry, "n") else {
        return Ok(None);
    };
    let Some(seat) = u64_at(entry, "seat") else {
        return Ok(None);
    };
    let Some(step) = entry.get("step") else {
        return Ok(None);
    };
    let Some(step) = read_step(alloc, step)? else {
        return Ok(None);
    };
    let Some(reply) = entry.get("reply") else {
        return Ok(None);
    };
    let Some(reply) = read_reply(alloc, reply)? else {
        return Ok(None);
    };
    Ok(Some(Line {
        number,
        seat,
        step,
        reply,
    }))
}
