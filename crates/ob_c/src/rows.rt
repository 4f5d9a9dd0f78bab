//! Rows of a directory's listing, as a caller in C reads them.

ghost use Rattle.std.specs.Prelude.{◌≡◌, ◌≤◌, ◌<◌, ◌+◌, ◌++◌, ◌∷◌, MatchBool, drop, length, take};
ghost use Rattle.std.specs.Option.{option_map};
ghost use Rattle.ob_c.specs.Rows.{Asks, FillsRows, Leaves, Takes, ReportsProgress, ReportsRows, entry_in, names_room, none_left, rows_status, status_of};

use crate::queries::LARGEST_ROOM;
use ob_base::{Handle, Status};
use ob_c_state::{HostCore, Ntns};
use ob_core::{Command, Given, Reply};
use ob_model::Listed;
use ob_numbers::type_named;
use std::alloc::Global;

/// A row of a directory's listing, as a caller in C reads it. (this profile)
#[repr(C)]
#[derive(Clone, Copy)]
pub struct PageRow {
    /// The context after the entry.
    pub context: u64,
    /// The number of its object's type.
    pub number: u32,
    /// The place in the buffer where its name begins.
    pub name: u32,
    /// The bytes of its name.
    pub length: u32,
}

// How far a listing was read: rows filled, bytes of names, and the context after them.
#[derive(Clone, Copy)]
pub(crate) struct Progress {
    pub(crate) filled: usize,
    pub(crate) place: usize,
    pub(crate) context: u64,
}

/// Fills rows with the entries of the directory of a handle of a process that follow a context, which is 0 at first and becomes
/// that of the last row, and writes their names to a buffer, one after another. `filled` receives how many rows were filled. It
/// stops when no entry follows, when the rows are full, and at a name that doesn't fit. Of a buffer the first 4,294,967,295
/// bytes are used. The status is `MoreEntries` if other entries follow.
///
/// The other statuses are those of the command `QueryDirectory`, in its order: `NoMoreEntries` if no entry follows the context;
/// `BufferTooSmall` if there is no row or the first name doesn't fit; `InvalidParameter` if the namespace is closed, and
/// `NoMemory` if out of memory. With these the context stays, and no row is filled. Source: ZwQueryDirectoryObject (Windows
/// Driver Kit); rows are this profile.
#[unsafe(no_mangle)]
pub extern "C" fn ntns_next_rows_raw(
    ns: &mut Ntns,
    alloc: Global,
    process: u32,
    handle: u32,
    context: &mut u64,
    rows: &mut [PageRow],
    buffer: &mut [u8],
    filled: &mut usize,
) -> u32
    ensures { ReportsRows process handle ns.old.core ns.new.core result context.old context.new
        rows.old rows.new buffer.old buffer.new filled.new }
{
    *filled = 0;
    let Some(mut core) = ns.take(alloc) else {
        return Status::InvalidParameter.code();
    };
    let status = fill_rows(
        &mut core, alloc, process, handle, context, rows, buffer, filled,
    );
    ns.put(core);
    status
}

// Fills rows from the state of an open namespace on.
fn fill_rows(
    core: &mut HostCore,
    alloc: Global,
    process: u32,
    handle: u32,
    context: &mut u64,
    rows: &mut [PageRow],
    buffer: &mut [u8],
    filled: &mut usize,
) -> u32
    ensures { FillsRows process handle core.old core.new result context.old context.new rows.old
        rows.new buffer.old buffer.new filled.new }
{
    let mut progress = Progress {
        filled: 0,
        place: 0,
        context: *context,
    };
    let room = names_room(buffer.len());
    let mut ended = ask(core, alloc, process, handle, *context);
    while take_row(&ended, room, &mut progress, rows, buffer) {
        ended = ask(core, alloc, process, handle, progress.context);
    }
    report_progress(
        rows_status(&ended, progress.filled),
        &progress,
        context,
        filled,
    )
}

// Asks for the first entry after a context.
fn ask(
    core: &mut HostCore,
    alloc: Global,
    process: u32,
    handle: u32,
    context: u64,
) -> Result<Reply, Status>
    ensures { Asks process handle context core.old result core.new }
{
    let query = Command::QueryDirectory {
        handle: Handle(handle),
        context,
        room: LARGEST_ROOM,
        single: true,
        restart: false,
    };
    core.run(alloc, process, &Ok(query))
}

// The bytes of a buffer that names are written to.
fn names_room(capacity: usize) -> usize
    ensures { result ≡ names_room capacity }
{
    capacity.min(u32::MAX as usize)
}

// The entry that a query gave, and the context after it.
fn entry_in(ended: &Result<Reply, Status>) -> Option<(&Listed, u64)>
    ensures { option_map (λ entry. (entry.0.now, entry.1)) result ≡ entry_in ended.now }
{
    let Ok(reply) = ended else {
        return None;
    };
    match &reply.given {
        Given::Page { entries, context } => {
            let entry = entries.as_slice().first()?;
            Some((entry, *context))
        }
        _ => None,
    }
}

// Writes the entry that a query gave to the next row and to the buffer, if there is one and both have room; returns whether
// it did.
fn take_row(
    ended: &Result<Reply, Status>,
    room: usize,
    progress: &mut Progress,
    rows: &mut [PageRow],
    buffer: &mut [u8],
) -> bool
    requires within { progress.old.place ≤ room }
    requires room { room ≡ names_room (length buffer.old) }
    requires rows { progress.old.filled ≤ length rows.old }
    ensures { MatchBool result
        (Takes (entry_in ended.now) room progress.old progress.new rows.old rows.new buffer.old
        buffer.new)
        (Leaves (entry_in ended.now) room progress.old progress.new rows.old rows.new buffer.old
        buffer.new) }
{
    let Some((entry, context)) = entry_in(ended) else {
        return false;
    };
    let name = entry.name.as_slice();
    if progress.filled == rows.len() || name.len() > room - progress.place {
        return false;
    }
    let row = PageRow {
        context,
        number: type_named(entry.type_name.as_str()),
        name: progress.place as u32,
        length: name.len() as u32,
    };
    put_row(row, rows, progress.filled);
    let end = put_name(name, buffer, progress.place);
    *progress = Progress {
        filled: progress.filled + 1,
        place: end,
        context,
    };
    true
}

// Writes a row at a place of the rows.
fn put_row(row: PageRow, rows: &mut [PageRow], place: usize)
    requires { place < length rows.old }
    ensures { rows.new ≡ take place rows.old ++ row ∷ drop (place + 1) rows.old }
{
    rows[place] = row;
}

// Writes a name at a place of a buffer; the place after it.
fn put_name(name: &[u8], buffer: &mut [u8], place: usize) -> usize
    requires { place + length name.now ≤ length buffer.old }
    ensures place { result ≡ place + length name.now }
    ensures bytes { buffer.new
        ≡ take place buffer.old ++ name.now ++ drop (place + length name.now) buffer.old }
{
    let end = place + name.len();
    buffer[place..end].copy_from_slice(name);
    end
}

// The status that a query ended with.
fn status_of(ended: &Result<Reply, Status>) -> Status
    ensures { result ≡ status_of ended.now }
{
    match ended {
        Ok(reply) => reply.status,
        Err(status) => *status,
    }
}

// The status of a call that filled this many rows before a query ended: other entries follow, or none; an error if it is
// refused.
fn rows_status(ended: &Result<Reply, Status>, filled: usize) -> Result<Status, Status>
    ensures { result ≡ rows_status (entry_in ended.now) filled (status_of ended.now) }
{
    match (entry_in(ended), filled) {
        (Some(_), 0) => Err(Status::BufferTooSmall),
        (Some(_), _) => Ok(Status::MoreEntries),
        (None, 0) => Err(status_of(ended)),
        (None, _) => none_left(status_of(ended)),
    }
}

// The status of a call that filled rows before a query ended without an entry.
fn none_left(status: Status) -> Result<Status, Status>
    ensures { result ≡ none_left status }
{
    match status {
        Status::NoMoreEntries => Ok(Status::Success),
        _ => Err(status),
    }
}

// Reports how many rows were filled and the context after them, or that the call is refused.
fn report_progress(
    is: Result<Status, Status>,
    progress: &Progress,
    context: &mut u64,
    filled: &mut usize,
) -> u32
    ensures { ReportsProgress is progress.now result context.old context.new filled.new }
{
    match is {
        Ok(status) => {
            *context = progress.context;
            *filled = progress.filled;
            status.code()
        }
        Err(status) => {
            *filled = 0;
            status.code()
        }
    }
}
