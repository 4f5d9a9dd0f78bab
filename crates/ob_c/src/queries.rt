//! Exports that ask, and change nothing except a buffer.

ghost use Rattle.std.specs.Prelude.{true, false};
ghost use Rattle.ob_model.specs.Enumeration.{largest_room};
ghost use Rattle.ob_model.specs.declared.command.Command.TheVariants.{QueryDirectory, QueryLink, QueryName};
ghost use Rattle.ob_c_state.specs.Calls.{Does};
ghost use Rattle.ob_c_state.specs.Reports.{ReportsEntry, ReportsText};

use ob_base::Handle;
use ob_c_state::{Ntns, call, report_entry, report_text};
use ob_core::Command;
use std::alloc::Global;

/// The greatest room that a page may be asked for, in bytes: each entry fits.
pub(crate) const LARGEST_ROOM: u32 = 1_048_576;

/// Writes the target of the symbolic link of a handle of a process into a buffer, and reports its length. If it doesn't
/// fit, nothing is written, and the status is `BufferTooSmall`.
///
/// The other statuses are those of the command `QueryLink`, in its order; `InvalidParameter` if the namespace is closed,
/// and `NoMemory` if out of memory. With these nothing is written, and the length is 0. Source: ZwQuerySymbolicLinkObject
/// (Windows Driver Kit).
#[unsafe(no_mangle)]
pub extern "C" fn ntns_query_link_raw(
    ns: &mut Ntns,
    alloc: Global,
    process: u32,
    handle: u32,
    buffer: &mut [u8],
    length: &mut usize,
) -> u32
    ensures { Does process (QueryLink handle) ns.old.core ns.new.core
        (ReportsText result buffer.old buffer.new length.new) }
{
    let query = Command::QueryLink {
        handle: Handle(handle),
    };
    report_text(&call(ns, alloc, process, &Ok(query)), buffer, length)
}

/// Writes the path of the object of a handle of a process into a buffer, and reports its length; it is empty if no path
/// leads to the object. If it doesn't fit, nothing is written, and the status is `BufferTooSmall`.
///
/// The other statuses are those of the command `QueryName`, in its order; `InvalidParameter` if the namespace is closed,
/// and `NoMemory` if out of memory. With these nothing is written, and the length is 0. Source: ObQueryNameString (Windows
/// Driver Kit).
#[unsafe(no_mangle)]
pub extern "C" fn ntns_query_name_raw(
    ns: &mut Ntns,
    alloc: Global,
    process: u32,
    handle: u32,
    buffer: &mut [u8],
    length: &mut usize,
) -> u32
    ensures { Does process (QueryName handle) ns.old.core ns.new.core
        (ReportsText result buffer.old buffer.new length.new) }
{
    let query = Command::QueryName {
        handle: Handle(handle),
    };
    report_text(&call(ns, alloc, process, &Ok(query)), buffer, length)
}

/// Writes the name of the next entry of the directory of a handle of a process into a buffer, and reports its length and the
/// number of its object's type. The entry is the first after a context, which is 0 at first, and becomes that of the entry.
/// If the name doesn't fit, nothing is written, the context stays, and the status is `BufferTooSmall`.
///
/// The other statuses are those of the command `QueryDirectory`, in its order, `NoMoreEntries` if no entry is left;
/// `InvalidParameter` if the namespace is closed, and `NoMemory` if out of memory. With these nothing is written, the context
/// stays, and length and type are 0. Source: ZwQueryDirectoryObject (Windows Driver Kit).
#[unsafe(no_mangle)]
pub extern "C" fn ntns_next_entry_raw(
    ns: &mut Ntns,
    alloc: Global,
    process: u32,
    handle: u32,
    context: &mut u64,
    buffer: &mut [u8],
    length: &mut usize,
    number: &mut u32,
) -> u32
    ensures { Does process (QueryDirectory handle context.old largest_room true false)
        ns.old.core ns.new.core
        (ReportsEntry result context.old context.new buffer.old buffer.new length.new number.new) }
{
    let query = Command::QueryDirectory {
        handle: Handle(handle),
        context: *context,
        room: LARGEST_ROOM,
        single: true,
        restart: false,
    };
    let ended = call(ns, alloc, process, &Ok(query));
    report_entry(&ended, context, buffer, length, number)
}
