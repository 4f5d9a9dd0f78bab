//! Exports that report the object of a handle.

ghost use Rattle.std.specs.Prelude.{◌≡◌};
ghost use Rattle.ob_core.specs.Referent.{referent_at};
ghost use Rattle.ob_c.specs.Objects.{has_text, ReportsFile, ReportsObject, ReportsReferent, ReportsReferentText};

use crate::referents::{id_of, type_of, user_data_of};
use ob_base::Status;
use ob_c_state::{HostCore, Ntns, fill, fill_nothing};
use ob_core::Referent;
use ob_host::Kind;
use std::alloc::Global;

/// Reports the type's number, the user data and the id of the object of a process's handle. The user data of a directory and of
/// a symbolic link is 0, and their ids begin at 2^63; those of the caller's objects are 1, 2, 3 and so on, in the order of
/// their first opens. It takes no memory, and changes nothing.
///
/// `InvalidParameter` if the namespace is closed, and `InvalidHandle` if the process, which may be gone, has no such
/// handle: all three are 0 then. Source: ObReferenceObjectByHandle (Windows Driver Kit); user data and ids are this
/// profile.
#[unsafe(no_mangle)]
pub extern "C" fn ntns_query_object(
    ns: &mut Ntns,
    alloc: Global,
    process: u32,
    handle: u32,
    number: &mut u32,
    user_data: &mut u64,
    id: &mut u64,
) -> u32
    ensures reported { ReportsObject ns.old.core process handle result number.new user_data.new id.new }
    ensures same { ns.new.core ≡ ns.old.core }
{
    *number = 0;
    *user_data = 0;
    *id = 0;
    let Some(core) = ns.take(alloc) else {
        return Status::InvalidParameter.code();
    };
    let status = report_object(&core, process, handle, number, user_data, id);
    ns.put(core);
    status
}

// Reports the object of a process's handle; three zeros if it has no such handle.
fn report_object(
    core: &HostCore,
    process: u32,
    handle: u32,
    number: &mut u32,
    user_data: &mut u64,
    id: &mut u64,
) -> u32
    ensures { ReportsReferent (referent_at core.now process handle) result number.new user_data.new
        id.new }
{
    let Some((object, referent)) = core.referent(process, handle) else {
        *number = 0;
        *user_data = 0;
        *id = 0;
        return Status::InvalidHandle.code();
    };
    *number = type_of(&referent);
    *user_data = user_data_of(&referent);
    *id = id_of(object, &referent);
    Status::Success.code()
}

/// Writes the text of the file or the key of a handle of a process into a buffer, and reports its length: if a parse made
/// it, the rest of the name that the parse took, else the empty text. If it doesn't fit, nothing is written, and the
/// status is `BufferTooSmall`. It takes no memory, and changes nothing.
///
/// `InvalidParameter` if the namespace is closed, `InvalidHandle` if the process, which may be gone, has no such handle, and
/// `ObjectTypeMismatch` of any other object: nothing is written then, and the length is 0. (this profile)
#[unsafe(no_mangle)]
pub extern "C" fn ntns_query_file_raw(
    ns: &mut Ntns,
    alloc: Global,
    process: u32,
    handle: u32,
    buffer: &mut [u8],
    length: &mut usize,
) -> u32
    ensures reported { ReportsFile ns.old.core process handle result buffer.old buffer.new length.new }
    ensures same { ns.new.core ≡ ns.old.core }
{
    let Some(core) = ns.take(alloc) else {
        return fill_nothing(Status::InvalidParameter, length);
    };
    let status = report_file(&core, process, handle, buffer, length);
    ns.put(core);
    status
}

// Reports the text of the object of a process's handle.
fn report_file(
    core: &HostCore,
    process: u32,
    handle: u32,
    buffer: &mut [u8],
    length: &mut usize,
) -> u32
    ensures { ReportsReferentText (referent_at core.now process handle) result buffer.old buffer.new
        length.new }
{
    match core.referent(process, handle) {
        None => fill_nothing(Status::InvalidHandle, length),
        Some((_, Referent::Other { face, .. })) if has_text(face.kind) => {
            fill(face.text.as_slice(), Status::Success, buffer, length)
        }
        Some(_) => fill_nothing(Status::ObjectTypeMismatch, length),
    }
}

// Whether an object of this kind has a text: a file or a key.
fn has_text(kind: Kind) -> bool
    ensures { result ≡ has_text kind }
{
    kind == Kind::File || kind == Kind::Key
}
