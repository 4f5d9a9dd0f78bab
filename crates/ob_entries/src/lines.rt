//! The lines of a journal.

ghost use Rattle.std.specs.Prelude.{◌≡◌, codes, false, IfOk};
ghost use Rattle.serde_json.specs.Data.{put as with_member};
ghost use Rattle.serde_json.specs.View.{view, members_view};
ghost use Rattle.serde_json.specs.Written.{has_float};
ghost use Rattle.ob_entries.specs.Lines.{header_value, header_line, entry_value, entry_line, step_value, line_of};

use crate::entry::Entry;
use crate::members::with_value;
use crate::replies::make_answer;
use crate::steps::make_step;
use ob_model::Event;
use ob_types::TypeSet;
use serde_json::{Map, Value};
use std::alloc::{AllocError, Global};

/// The header of a segment, in version 2: `{"first":F,"journal":2,"seats":S,"segment":K}` and LF, where S is the number of seats, K
/// that of the segment, from 1, and F that of its first entry. None of these is judged here: a journal has 1 to 1,024 seats and at
/// most 4,096 segments. The only error is out of memory. (RFC 8259; the keys: this profile)
pub fn write_header(
    alloc: Global,
    seats: u32,
    segment: u64,
    first: u64,
) -> Result<Vec<u8>, AllocError>
    ensures { IfOk result (λ line. line.items ≡ header_line seats segment first) }
{
    let header = make_header(alloc, seats, segment, first)?;
    write_value(alloc, &header)
}

/// The line of an entry: a compact JSON object with its keys in rising order, and LF. The number and the seat are written as they
/// are, and so is what was asked. The only error is out of memory. (RFC 8259; the keys: this profile)
pub fn write_line<T: TypeSet>(alloc: Global, entry: &Entry<T::Kind>) -> Result<Vec<u8>, AllocError>
    ensures { IfOk result (λ line. line.items ≡ entry_line (T.procedures).type_name entry.now) }
{
    let value = make_entry::<T>(alloc, entry)?;
    write_value(alloc, &value)
}

// The value of a header.
fn make_header(alloc: Global, seats: u32, segment: u64, first: u64) -> Result<Value, AllocError>
    ensures { IfOk result (λ header. view header ≡ header_value seats segment first) }
{
    let header = with_value(alloc, Map::new(alloc), "first", Value::from(first))?;
    let header = with_value(alloc, header, "journal", Value::from(2u32))?;
    let header = with_value(alloc, header, "seats", Value::from(seats))?;
    let header = with_value(alloc, header, "segment", Value::from(segment))?;
    Ok(Value::Object(header))
}

// The value of an entry.
fn make_entry<T: TypeSet>(alloc: Global, entry: &Entry<T::Kind>) -> Result<Value, AllocError>
    ensures { IfOk result (λ value. view value ≡ entry_value (T.procedures).type_name entry.now) }
{
    let reply = make_answer(alloc, &entry.reply)?;
    let line = with_value(alloc, Map::new(alloc), "reply", reply)?;
    let line = with_value(alloc, line, "n", Value::from(entry.number))?;
    let line = with_value(alloc, line, "seat", Value::from(entry.seat))?;
    let line = with_step::<T>(alloc, line, &entry.step)?;
    Ok(Value::Object(line))
}

// These members and the value of an event.
fn with_step<T: TypeSet>(
    alloc: Global,
    members: Map<String, Value>,
    event: &Event<T::Kind>,
) -> Result<Map<String, Value>, AllocError>
    ensures { IfOk result (λ more. members_view more.entries
        ≡ with_member (codes "step") (step_value (T.procedures).type_name event.now)
        (members_view members.entries)) }
{
    let step = make_step::<T>(alloc, event)?;
    with_value(alloc, members, "step", step)
}

// The line of a value, which has no floats.
fn write_value(alloc: Global, value: &Value) -> Result<Vec<u8>, AllocError>
    ensures { IfOk result (λ line. has_float (view value.now) ≡ false → line.items
        ≡ line_of (view value.now)) }
{
    let mut line = value.to_vec(alloc)?;
    line.push(b'\n')?;
    Ok(line)
}
