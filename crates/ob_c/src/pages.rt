//! Pages of a directory, as a caller in C reads them.

ghost use Rattle.std.specs.Prelude.{◌≡◌, ◌+◌, ◌<◌, ◌≤◌, ◌++◌, false, drop, length, take};
ghost use Rattle.ob_model.specs.declared.command.Command.TheVariants.{QueryDirectory};
ghost use Rattle.ob_c_state.specs.Calls.{Does};
ghost use Rattle.ob_c.specs.Pages.{PagesFit, ReportsEntries, ReportsPage, entry_bytes, page_bytes, room_left, room_within};
ghost use Rattle.ob_numbers.specs.Texts.{zero_ended};

use crate::queries::LARGEST_ROOM;
use ob_base::{Handle, Status};
use ob_c_state::{Ntns, call, fill_nothing};
use ob_core::{Command, Given, Reply};
use ob_model::Listed;
use std::alloc::Global;

/// Writes a page of the directory of a handle of a process into a buffer, and reports how many bytes it has: of each entry its
/// name and the name of its type, a byte 0 after each. The entries are those after a context, which is 0 at first, and becomes
/// that of the last one written: as many as fit if each takes 4 bytes more than its two names, in a room of 1,048,576 bytes at
/// most. The status is `MoreEntries` if others follow them.
///
/// The other statuses are those of the command `QueryDirectory`, in its order: `NoMoreEntries` if no entry is left, and
/// `BufferTooSmall` if the first doesn't fit; `InvalidParameter` if the namespace is closed, and `NoMemory` if out of memory.
/// With these nothing is written, the context stays, and the length is 0. Source: ZwQueryDirectoryObject (Windows Driver Kit).
#[unsafe(no_mangle)]
pub extern "C" fn ntns_next_page_raw(
    ns: &mut Ntns,
    alloc: Global,
    process: u32,
    handle: u32,
    context: &mut u64,
    buffer: &mut [u8],
    reported: &mut usize,
) -> u32
    ensures { Does process
        (QueryDirectory handle context.old (room_within (length buffer.old)) false false)
        ns.old.core ns.new.core
        (ReportsPage result context.old context.new buffer.old buffer.new reported.new) }
{
    let query = Command::QueryDirectory {
        handle: Handle(handle),
        context: *context,
        room: room_within(buffer.len()),
        single: false,
        restart: false,
    };
    report_page(
        &call(ns, alloc, process, &Ok(query)),
        context,
        buffer,
        reported,
    )
}

// The room of a page for a buffer of so many bytes.
fn room_within(capacity: usize) -> u32
    ensures { result ≡ room_within capacity }
{
    match u32::try_from(capacity) {
        Ok(room) => room.min(LARGEST_ROOM),
        Err(_) => LARGEST_ROOM,
    }
}

/// A page that is asked for with the room of a buffer fits the buffer, so that no entry is lost. (this profile)
pub fn pages_fit()
    ensures { PagesFit }
{}

/// Writes the entries of the page that a call gives, and reports how many bytes of a buffer they take: of each its name and
/// the name of its type, a byte 0 after each. If they don't fit, nothing is written, and the status is `BufferTooSmall`.
pub(crate) fn report_page(
    ended: &Result<Reply, Status>,
    context: &mut u64,
    buffer: &mut [u8],
    reported: &mut usize,
) -> u32
    ensures { ReportsPage result context.old context.new buffer.old buffer.new reported.new ended.now }
{
    match ended {
        Ok(reply) => match &reply.given {
            Given::Page {
                entries,
                context: behind,
            } => report_entries(
                reply.status,
                entries.as_slice(),
                *behind,
                context,
                buffer,
                reported,
            ),
            _ => fill_nothing(reply.status, reported),
        },
        Err(status) => fill_nothing(*status, reported),
    }
}

// Writes these entries, after which this context is.
fn report_entries(
    status: Status,
    entries: &[Listed],
    behind: u64,
    context: &mut u64,
    buffer: &mut [u8],
    reported: &mut usize,
) -> u32
    ensures { ReportsEntries result status entries.now behind context.old context.new buffer.old
        buffer.new reported.new }
{
    let Some(left) = room_behind(entries, buffer.len()) else {
        return fill_nothing(Status::BufferTooSmall, reported);
    };
    *reported = buffer.len() - left;
    *context = behind;
    write_entries(entries, buffer);
    status.code()
}

// The rest of a room after entries; `None` if they don't fit.
fn room_behind(entries: &[Listed], room: usize) -> Option<usize>
    ensures { result ≡ room_left room (length (page_bytes entries.now)) }
{
    let mut left = room;
    for entry in entries {
        left = room_behind_entry(entry, left)?;
    }
    Some(left)
}

// The rest of a room after an entry; `None` if it doesn't fit.
fn room_behind_entry(entry: &Listed, room: usize) -> Option<usize>
    ensures { result ≡ room_left room (length (entry_bytes entry.now)) }
{
    let behind_name = room.checked_sub(entry.name.as_slice().len())?;
    let behind_type = behind_name.checked_sub(entry.type_name.as_str().len())?;
    behind_type.checked_sub(2)
}

// Writes entries to the beginning of a buffer.
fn write_entries(entries: &[Listed], buffer: &mut [u8])
    requires { length (page_bytes entries.now) ≤ length buffer.old }
    ensures { buffer.new
        ≡ page_bytes entries.now ++ drop (length (page_bytes entries.now)) buffer.old }
{
    let mut place = 0;
    for entry in entries {
        let behind_name = write_text(entry.name.as_slice(), buffer, place);
        place = write_text(entry.type_name.as_str().as_bytes(), buffer, behind_name);
    }
}

// Writes a text, and a byte 0 after it, at a place of a buffer; returns the place after that.
fn write_text(text: &[u8], buffer: &mut [u8], place: usize) -> usize
    requires { place + length text.now < length buffer.old }
    ensures place { result ≡ place + length text.now + 1 }
    ensures bytes { buffer.new
        ≡ take place buffer.old ++ zero_ended text.now
        ++ drop (place + length text.now + 1) buffer.old }
{
    let end = place + text.len();
    buffer[place..end].copy_from_slice(text);
    buffer[end] = 0;
    end + 1
}
