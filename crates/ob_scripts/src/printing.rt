//! Writing what became of a line.

ghost use Rattle.std.specs.Prelude.{◌≡◌, ◌≤◌, ◌++◌, length, vec_capacity, OnOk, OnErr};
ghost use Rattle.ob_output.specs.Gathering.{Gathers};
ghost use Rattle.ob_output.specs.Writing.{AppendsFront};
ghost use Rattle.ob_output.specs.Printed.{output_line, printed_bytes, entry_text, entries_text, given_text, reply_text};
ghost use Rattle.ob_scripts.specs.Running.{outcome_text};
ghost use Rattle.ob_model.specs.declared.reply.Given.TheVariants.{Text};

use ob_effects::LineOutcome;
use ob_model::{Given, Listed, Reply};
use ob_output::{
    LINE_ROOM, Unwritten, gather, make_room, push_counts_line, push_entry, push_printed,
    push_status_front, push_text_line,
};
use std::io::Write;

// How many bytes of a text are printed at once.
const PART: usize = 64;

// How many bytes the names of an entry have at most that is written at once.
const SHORT: usize = 32;

/// Writes the outcome of the line of this number, a line of output or none, through a block with room for at least 192 bytes: the block is
/// written and emptied where it has no room left, and keeps the rest. The fault is that of a write, after which a beginning of block and line was
/// written. (this profile)
pub fn write_outcome<W: Write>(
    writer: &mut W,
    block: &mut Vec<u8>,
    number: u64,
    outcome: &LineOutcome,
) -> Result<(), Unwritten>
    requires { 192 ≤ vec_capacity block.old }
    ensures ok { OnOk result (Gathers (W.contents writer.old)
        (W.contents writer.new) block.old.items (outcome_text number outcome.now) block.new.items) }
    ensures front { OnErr result (AppendsFront (W.contents writer.old) (W.contents writer.new)
        (block.old.items ++ outcome_text number outcome.now)) }
    ensures capacity { vec_capacity block.old ≤ vec_capacity block.new }
{
    match outcome {
        LineOutcome::Idle => Ok(()),
        LineOutcome::Counted(counts) => {
            make_room(writer, block, LINE_ROOM)?;
            push_counts_line(block, number, *counts);
            Ok(())
        }
        LineOutcome::Replied(reply) => write_reply(writer, block, number, reply),
        LineOutcome::Pending => write_text_line(writer, block, number, b"PENDING"),
        LineOutcome::Told(notice) => write_text_line(writer, block, number, notice.text()),
        LineOutcome::NoLine => write_text_line(writer, block, number, b"not a script line"),
        LineOutcome::NoMemory => write_text_line(writer, block, number, b"want of memory"),
    }
}

// Writes the line of a number and a text of at most 22 bytes, by way of the block.
fn write_text_line<W: Write>(
    writer: &mut W,
    block: &mut Vec<u8>,
    number: u64,
    text: &[u8],
) -> Result<(), Unwritten>
    requires text { length text.now ≤ 22 }
    requires room { 192 ≤ vec_capacity block.old }
    ensures ok { OnOk result (Gathers (W.contents writer.old)
        (W.contents writer.new) block.old.items (output_line number text.now) block.new.items) }
    ensures front { OnErr result (AppendsFront (W.contents writer.old) (W.contents writer.new)
        (block.old.items ++ output_line number text.now)) }
    ensures capacity { vec_capacity block.old ≤ vec_capacity block.new }
{
    make_room(writer, block, LINE_ROOM)?;
    push_text_line(block, number, text);
    Ok(())
}

// Writes the line of a number and a reply, by way of the block.
fn write_reply<W: Write>(
    writer: &mut W,
    block: &mut Vec<u8>,
    number: u64,
    reply: &Reply,
) -> Result<(), Unwritten>
    requires { 192 ≤ vec_capacity block.old }
    ensures ok { OnOk result (Gathers (W.contents writer.old)
        (W.contents writer.new) block.old.items (output_line number
        (reply_text reply.now)) block.new.items) }
    ensures front { OnErr result (AppendsFront (W.contents writer.old) (W.contents writer.new)
        (block.old.items ++ output_line number (reply_text reply.now))) }
    ensures capacity { vec_capacity block.old ≤ vec_capacity block.new }
{
    make_room(writer, block, LINE_ROOM)?;
    push_status_front(block, number, reply.status);
    write_given(writer, block, &reply.given)?;
    gather(writer, block, b"\n")
}

// Writes what follows the status of a reply, by way of the block.
fn write_given<W: Write>(
    writer: &mut W,
    block: &mut Vec<u8>,
    given: &Given,
) -> Result<(), Unwritten>
    requires { 192 ≤ vec_capacity block.old }
    ensures ok { OnOk result (Gathers (W.contents writer.old)
        (W.contents writer.new) block.old.items (given_text given.now) block.new.items) }
    ensures front { OnErr result (AppendsFront (W.contents writer.old) (W.contents writer.new)
        (block.old.items ++ given_text given.now)) }
    ensures capacity { vec_capacity block.old ≤ vec_capacity block.new }
{
    match given {
        Given::Nothing | Given::Handle(_) | Given::Process(..) => Ok(()),
        Given::Page { entries, .. } => write_entries(writer, block, entries.as_slice()),
        Given::Text(text) => write_text(writer, block, text.as_slice()),
    }
}

// Writes a text that is given, between double quotes after a space, by way of the block.
fn write_text<W: Write>(writer: &mut W, block: &mut Vec<u8>, text: &[u8]) -> Result<(), Unwritten>
    requires { 192 ≤ vec_capacity block.old }
    ensures ok { OnOk result (Gathers (W.contents writer.old)
        (W.contents writer.new) block.old.items (given_text (Text text.now)) block.new.items) }
    ensures front { OnErr result (AppendsFront (W.contents writer.old) (W.contents writer.new)
        (block.old.items ++ given_text (Text text.now))) }
    ensures capacity { vec_capacity block.old ≤ vec_capacity block.new }
{
    gather(writer, block, b" \"")?;
    write_printed(writer, block, text)?;
    gather(writer, block, b"\"")
}

// Writes the entries of a page, by way of the block.
fn write_entries<W: Write>(
    writer: &mut W,
    block: &mut Vec<u8>,
    entries: &[Listed],
) -> Result<(), Unwritten>
    requires { 192 ≤ vec_capacity block.old }
    ensures ok { OnOk result (Gathers (W.contents writer.old)
        (W.contents writer.new) block.old.items (entries_text entries.now) block.new.items) }
    ensures front { OnErr result (AppendsFront (W.contents writer.old) (W.contents writer.new)
        (block.old.items ++ entries_text entries.now)) }
    ensures capacity { vec_capacity block.old ≤ vec_capacity block.new }
{
    for entry in entries {
        write_entry(writer, block, entry)?;
    }
    Ok(())
}

// Writes an entry of a page, by way of the block.
fn write_entry<W: Write>(
    writer: &mut W,
    block: &mut Vec<u8>,
    entry: &Listed,
) -> Result<(), Unwritten>
    requires { 192 ≤ vec_capacity block.old }
    ensures ok { OnOk result (Gathers (W.contents writer.old)
        (W.contents writer.new) block.old.items (entry_text entry.now) block.new.items) }
    ensures front { OnErr result (AppendsFront (W.contents writer.old) (W.contents writer.new)
        (block.old.items ++ entry_text entry.now)) }
    ensures capacity { vec_capacity block.old ≤ vec_capacity block.new }
{
    let (name, type_name) = (entry.name.as_slice(), entry.type_name.as_str().as_bytes());
    if name.len() <= SHORT && type_name.len() <= SHORT {
        make_room(writer, block, LINE_ROOM)?;
        push_entry(block, entry);
        Ok(())
    } else {
        write_long_entry(writer, block, entry)
    }
}

// Writes an entry of a page part by part, by way of the block.
fn write_long_entry<W: Write>(
    writer: &mut W,
    block: &mut Vec<u8>,
    entry: &Listed,
) -> Result<(), Unwritten>
    requires { 192 ≤ vec_capacity block.old }
    ensures ok { OnOk result (Gathers (W.contents writer.old)
        (W.contents writer.new) block.old.items (entry_text entry.now) block.new.items) }
    ensures front { OnErr result (AppendsFront (W.contents writer.old) (W.contents writer.new)
        (block.old.items ++ entry_text entry.now)) }
    ensures capacity { vec_capacity block.old ≤ vec_capacity block.new }
{
    gather(writer, block, b" \"")?;
    write_printed(writer, block, entry.name.as_slice())?;
    gather(writer, block, b"\" ")?;
    write_plain(writer, block, entry.type_name.as_str().as_bytes())
}

// Writes the bytes of a text, as they are printed, by way of the block.
fn write_printed<W: Write>(
    writer: &mut W,
    block: &mut Vec<u8>,
    text: &[u8],
) -> Result<(), Unwritten>
    requires { 192 ≤ vec_capacity block.old }
    ensures ok { OnOk result (Gathers (W.contents writer.old)
        (W.contents writer.new) block.old.items (printed_bytes text.now) block.new.items) }
    ensures front { OnErr result (AppendsFront (W.contents writer.old) (W.contents writer.new)
        (block.old.items ++ printed_bytes text.now)) }
    ensures capacity { vec_capacity block.old ≤ vec_capacity block.new }
{
    let mut rest = text;
    while !rest.is_empty() {
        let count = rest.len().min(PART);
        match write_printed_part(writer, block, &rest[..count]) {
            Ok(()) => rest = &rest[count..],
            Err(unwritten) => return Err(unwritten),
        }
    }
    Ok(())
}

// Writes a part of a text of at most 64 bytes, as it is printed, by way of the block.
fn write_printed_part<W: Write>(
    writer: &mut W,
    block: &mut Vec<u8>,
    part: &[u8],
) -> Result<(), Unwritten>
    requires part { length part.now ≤ 64 }
    requires room { 192 ≤ vec_capacity block.old }
    ensures ok { OnOk result (Gathers (W.contents writer.old)
        (W.contents writer.new) block.old.items (printed_bytes part.now) block.new.items) }
    ensures front { OnErr result (AppendsFront (W.contents writer.old) (W.contents writer.new)
        (block.old.items ++ printed_bytes part.now)) }
    ensures capacity { vec_capacity block.old ≤ vec_capacity block.new }
{
    make_room(writer, block, 3 * part.len())?;
    push_printed(block, part);
    Ok(())
}

// Writes the bytes of a text as they are, by way of the block.
fn write_plain<W: Write>(writer: &mut W, block: &mut Vec<u8>, text: &[u8]) -> Result<(), Unwritten>
    requires { 192 ≤ vec_capacity block.old }
    ensures ok { OnOk result (Gathers (W.contents writer.old)
        (W.contents writer.new) block.old.items text.now block.new.items) }
    ensures front { OnErr result (AppendsFront (W.contents writer.old) (W.contents writer.new)
        (block.old.items ++ text.now)) }
    ensures capacity { vec_capacity block.old ≤ vec_capacity block.new }
{
    let mut rest = text;
    while !rest.is_empty() {
        let count = rest.len().min(PART);
        gather(writer, block, &rest[..count])?;
        rest = &rest[count..];
    }
    Ok(())
}
