//! Exports that create the object of a name.

ghost use Rattle.ob_model.specs.declared.command.Command.TheVariants.{CreateDirectory, CreateShadowed, CreateLink, CreateObject};
ghost use Rattle.ob_c_state.specs.Calls.{Does, DoesOfType, arguments_of, place_of};
ghost use Rattle.ob_c_state.specs.Reports.{ReportsHandle};

use ob_base::Status;
use ob_c_state::{
    Ntns, call, create_directory, create_link, create_object, create_shadowed, report_handle,
};
use ob_numbers::kind_of;
use std::alloc::Global;

/// Creates a directory at a name, or without one if `named` is false, and opens a handle to it. `root` is the handle that
/// the name is relative to, 0 for none. `handle` receives the new handle, 0 if none is given.
///
/// The statuses are those of the command `CreateDirectory`, in its order; `InvalidParameter` if the namespace is closed, and
/// `NoMemory` if out of memory; nothing has changed then. Source: ZwCreateDirectoryObject (Windows Driver Kit).
#[unsafe(no_mangle)]
pub extern "C" fn ntns_create_directory_raw(
    ns: &mut Ntns,
    alloc: Global,
    process: u32,
    root: u32,
    named: bool,
    name: &[u8],
    attributes: u32,
    handle: &mut u32,
) -> u32
    ensures { Does process (CreateDirectory (place_of named root name.now) attributes)
        ns.old.core ns.new.core (ReportsHandle result handle.new) }
{
    let made = create_directory(alloc, root, named, name, attributes);
    report_handle(&call(ns, alloc, process, &made), handle)
}

/// Creates a directory with a shadow, at a name, or without one if `named` is false, and opens a handle to it. `root` is
/// the handle that the name is relative to, 0 for none. `shadow` is a handle to the shadow: a directory without a shadow, in
/// which a name is looked up where the new directory has no entry of it. `handle` receives the new handle, 0 if none is given.
///
/// The statuses are those of the command `CreateShadowed`, in its order; `InvalidParameter` if the namespace is closed, and
/// `NoMemory` if out of memory; nothing has changed then. Source: NtCreateDirectoryObjectEx with a shadow directory (Windows);
/// that a shadow has no shadow, and the order of refusals, are this profile.
#[unsafe(no_mangle)]
pub extern "C" fn ntns_create_shadowed_raw(
    ns: &mut Ntns,
    alloc: Global,
    process: u32,
    root: u32,
    named: bool,
    name: &[u8],
    attributes: u32,
    shadow: u32,
    handle: &mut u32,
) -> u32
    ensures { Does process (CreateShadowed (place_of named root name.now) attributes shadow)
        ns.old.core ns.new.core (ReportsHandle result handle.new) }
{
    let made = create_shadowed(alloc, root, named, name, attributes, shadow);
    report_handle(&call(ns, alloc, process, &made), handle)
}

/// Creates a symbolic link to a target, at a name, or without one if `named` is false, and opens a handle to it. `root` is
/// the handle that the name is relative to, 0 for none. `handle` receives the new handle, 0 if none is given.
///
/// The statuses are those of the command `CreateLink`, in its order; `InvalidParameter` if the namespace is closed, and
/// `NoMemory` if out of memory; nothing has changed then. Source: ZwCreateSymbolicLinkObject (Windows Driver Kit).
#[unsafe(no_mangle)]
pub extern "C" fn ntns_create_link_raw(
    ns: &mut Ntns,
    alloc: Global,
    process: u32,
    root: u32,
    named: bool,
    name: &[u8],
    attributes: u32,
    target: &[u8],
    handle: &mut u32,
) -> u32
    ensures { Does process (CreateLink (place_of named root name.now) attributes target.now)
        ns.old.core ns.new.core (ReportsHandle result handle.new) }
{
    let made = create_link(alloc, root, named, name, attributes, target);
    report_handle(&call(ns, alloc, process, &made), handle)
}

/// Creates an object of the kind of a type's number, with user data of the caller's, at a name, or without one if `named` is
/// false, and opens a handle to it. `root` is the handle that the name is relative to, 0 for none. `handle` receives the new
/// handle, 0 if none is given.
///
/// The statuses are those of the command `CreateObject`, in its order; `InvalidParameter` if the namespace is closed or no
/// kind has the number, and `NoMemory` if out of memory; nothing has changed then. Source: ZwCreateEvent and its like
/// (Windows Driver Kit); user data is this profile.
#[unsafe(no_mangle)]
pub extern "C" fn ntns_create_object_raw(
    ns: &mut Ntns,
    alloc: Global,
    process: u32,
    root: u32,
    named: bool,
    name: &[u8],
    attributes: u32,
    number: u32,
    user_data: u64,
    handle: &mut u32,
) -> u32
    ensures { DoesOfType number process (λ kind.
        CreateObject (place_of named root name.now) attributes kind (arguments_of user_data))
        ns.old.core ns.new.core (ReportsHandle result handle.new) }
{
    let Some(kind) = kind_of(number) else {
        *handle = 0;
        return Status::InvalidParameter.code();
    };
    let made = create_object(alloc, root, named, name, attributes, kind, user_data);
    report_handle(&call(ns, alloc, process, &made), handle)
}
