//! Exports that change handles, and the permanence of what they lead to.

ghost use Rattle.ob_model.specs.declared.command.Command.TheVariants.{Close, Duplicate, MakePermanent, MakeTemporary, SetDeviceMap};
ghost use Rattle.std.specs.Prelude.{◌≡◌};
ghost use Rattle.ob_base.specs.Status.{code_of};
ghost use Rattle.ob_c_state.specs.Calls.{Does};
ghost use Rattle.ob_c_state.specs.Inherit.{SetsInheritIn};
ghost use Rattle.ob_c_state.specs.Reports.{ReportsHandle, ReportsStatus};

use ob_base::{Handle, Proc, Status};
use ob_c_state::{Ntns, call, report_handle, status_in};
use ob_core::Command;
use std::alloc::Global;

/// Closes a handle of a process. The low two bits of its value are ignored, here and in each call below. It takes no
/// memory.
///
/// The statuses are those of the command `Close`, in its order; `InvalidParameter` if the namespace is closed. Source:
/// ZwClose (Windows Driver Kit).
#[unsafe(no_mangle)]
pub extern "C" fn ntns_close_handle(ns: &mut Ntns, alloc: Global, process: u32, handle: u32) -> u32
    ensures { Does process (Close handle) ns.old.core ns.new.core (ReportsStatus result) }
{
    let close = Command::Close {
        handle: Handle(handle),
    };
    status_in(&call(ns, alloc, process, &Ok(close)))
}

/// Duplicates a handle of a process into another, or the same, whose children inherit the copy if `inherit` is true. `copy`
/// receives its value, 0 if none is given.
///
/// The statuses are those of the command `Duplicate`, in its order; `InvalidParameter` if the namespace is closed, and
/// `NoMemory` if out of memory; nothing has changed then. Source: ZwDuplicateObject (Windows Driver Kit).
#[unsafe(no_mangle)]
pub extern "C" fn ntns_duplicate(
    ns: &mut Ntns,
    alloc: Global,
    process: u32,
    handle: u32,
    to: u32,
    inherit: bool,
    copy: &mut u32,
) -> u32
    ensures { Does process (Duplicate handle to inherit)
        ns.old.core ns.new.core (ReportsHandle result copy.new) }
{
    let duplicate = Command::Duplicate {
        handle: Handle(handle),
        to: Proc(to),
        inherit,
    };
    report_handle(&call(ns, alloc, process, &Ok(duplicate)), copy)
}

/// Sets whether the children of a process inherit one of its handles, which keeps its value and comes last in the order of
/// opening. If the flag is as asked already, nothing is done.
///
/// The statuses are those of the command `Duplicate` into the process itself, in its order; `InvalidParameter` if the namespace
/// is closed, and `NoMemory` if the flag differs and memory runs out; nothing has changed then. Source:
/// ZwSetInformationObject with ObjectHandleFlagInformation (Windows Driver Kit).
#[unsafe(no_mangle)]
pub extern "C" fn ntns_set_inherit(
    ns: &mut Ntns,
    alloc: Global,
    process: u32,
    handle: u32,
    inherit: bool,
) -> u32
    ensures { SetsInheritIn process handle inherit ns.old.core ns.new.core (λ status.
        result ≡ code_of status) }
{
    let Some(mut core) = ns.take(alloc) else {
        return Status::InvalidParameter.code();
    };
    let status = core.set_inherit(alloc, process, handle, inherit);
    ns.put(core);
    status.code()
}

/// Makes the object of a process's handle temporary: its name is removed when it has no handle. It takes no
/// memory.
///
/// The statuses are those of the command `MakeTemporary`, in its order; `InvalidParameter` if the namespace is closed.
/// Source: ZwMakeTemporaryObject (Windows Driver Kit).
#[unsafe(no_mangle)]
pub extern "C" fn ntns_make_temporary(
    ns: &mut Ntns,
    alloc: Global,
    process: u32,
    handle: u32,
) -> u32
    ensures { Does process (MakeTemporary handle) ns.old.core ns.new.core (ReportsStatus result) }
{
    let turn = Command::MakeTemporary {
        handle: Handle(handle),
    };
    status_in(&call(ns, alloc, process, &Ok(turn)))
}

/// Makes the object of a process's handle permanent, if it has a name: the name then remains without a handle. It takes no
/// memory.
///
/// The statuses are those of the command `MakePermanent`, in its order; `InvalidParameter` if the namespace is closed.
/// Source: ZwMakePermanentObject (Windows Driver Kit).
#[unsafe(no_mangle)]
pub extern "C" fn ntns_make_permanent(
    ns: &mut Ntns,
    alloc: Global,
    process: u32,
    handle: u32,
) -> u32
    ensures { Does process (MakePermanent handle) ns.old.core ns.new.core (ReportsStatus result) }
{
    let turn = Command::MakePermanent {
        handle: Handle(handle),
    };
    status_in(&call(ns, alloc, process, &Ok(turn)))
}

/// Makes the directory of a handle of a process the local directory of its device map.
///
/// The statuses are those of the command `SetDeviceMap`, in its order; `InvalidParameter` if the namespace is closed, and
/// `NoMemory` if out of memory; nothing has changed then. Source: NtSetInformationProcess (ProcessDeviceMap).
#[unsafe(no_mangle)]
pub extern "C" fn ntns_set_device_map(
    ns: &mut Ntns,
    alloc: Global,
    process: u32,
    handle: u32,
) -> u32
    ensures { Does process (SetDeviceMap handle) ns.old.core ns.new.core (ReportsStatus result) }
{
    let map = Command::SetDeviceMap {
        handle: Handle(handle),
    };
    status_in(&call(ns, alloc, process, &Ok(map)))
}
