//! Exports that open what a name leads to.

ghost use Rattle.ob_model.specs.declared.command.Command.TheVariants.{OpenDirectory, OpenLink, OpenObject};
ghost use Rattle.ob_c_state.specs.Calls.{Does, DoesOfAnyType, root_of};
ghost use Rattle.ob_c_state.specs.Reports.{ReportsHandle};

use ob_base::Status;
use ob_c_state::{Ntns, call, open_directory, open_link, open_object, report_handle};
use ob_host::Kind;
use ob_numbers::kind_of;
use std::alloc::Global;

/// Opens a handle to the directory that a name leads to. `root` is the handle that the name is relative to, 0 for none.
/// `handle` receives the new handle, 0 if none is given.
///
/// The statuses are those of the command `OpenDirectory`, in its order; `InvalidParameter` if the namespace is closed,
/// and `NoMemory` if out of memory. Source: ZwOpenDirectoryObject (Windows Driver Kit).
#[unsafe(no_mangle)]
pub extern "C" fn ntns_open_directory_raw(
    ns: &mut Ntns,
    alloc: Global,
    process: u32,
    root: u32,
    name: &[u8],
    attributes: u32,
    handle: &mut u32,
) -> u32
    ensures { Does process (OpenDirectory (root_of root) name.now attributes)
        ns.old.core ns.new.core (ReportsHandle result handle.new) }
{
    let made = open_directory(alloc, root, name, attributes);
    report_handle(&call(ns, alloc, process, &made), handle)
}

/// Opens a handle to the symbolic link that a name leads to, which is not followed. `root` is the handle that the name is
/// relative to, 0 for none. `handle` receives the new handle, 0 if none is given.
///
/// The statuses are those of the command `OpenLink`, in its order; `InvalidParameter` if the namespace is closed,
/// and `NoMemory` if out of memory. Source: ZwOpenSymbolicLinkObject (Windows Driver Kit).
#[unsafe(no_mangle)]
pub extern "C" fn ntns_open_link_raw(
    ns: &mut Ntns,
    alloc: Global,
    process: u32,
    root: u32,
    name: &[u8],
    attributes: u32,
    handle: &mut u32,
) -> u32
    ensures { Does process (OpenLink (root_of root) name.now attributes)
        ns.old.core ns.new.core (ReportsHandle result handle.new) }
{
    let made = open_link(alloc, root, name, attributes);
    report_handle(&call(ns, alloc, process, &made), handle)
}

/// Opens a handle to the object that a name leads to, of the kind of a type's number, or of any type if that is 0. Each
/// parse that the open waits for is run, one after another, until the open has its reply. `root` is the handle that the
/// name is relative to, 0 for none. `handle` receives the new handle, 0 if none is given.
///
/// The statuses are those of the command `OpenObject`, in its order; `InvalidParameter` if the namespace is closed or no
/// kind has the number, and `NoMemory` if out of memory: an open that is pending is then abandoned. Source: ZwOpenEvent
/// and its like (Windows Driver Kit); Windows Internals, Object Manager (parse methods).
#[unsafe(no_mangle)]
pub extern "C" fn ntns_open_object_raw(
    ns: &mut Ntns,
    alloc: Global,
    process: u32,
    root: u32,
    name: &[u8],
    attributes: u32,
    number: u32,
    handle: &mut u32,
) -> u32
    ensures { DoesOfAnyType number process
        (λ want. OpenObject (root_of root) name.now attributes want)
        ns.old.core ns.new.core (ReportsHandle result handle.new) }
{
    if number == 0 {
        return open_wanted(ns, alloc, process, root, name, attributes, None, handle);
    }
    let Some(kind) = kind_of(number) else {
        *handle = 0;
        return Status::InvalidParameter.code();
    };
    open_wanted(
        ns,
        alloc,
        process,
        root,
        name,
        attributes,
        Some(kind),
        handle,
    )
}

// Opens a handle to the object that a name leads to, of a kind if one is given.
fn open_wanted(
    ns: &mut Ntns,
    alloc: Global,
    process: u32,
    root: u32,
    name: &[u8],
    attributes: u32,
    want: Option<Kind>,
    handle: &mut u32,
) -> u32
    ensures { Does process (OpenObject (root_of root) name.now attributes want)
        ns.old.core ns.new.core (ReportsHandle result handle.new) }
{
    let made = open_object(alloc, root, name, attributes, want);
    report_handle(&call(ns, alloc, process, &made), handle)
}
