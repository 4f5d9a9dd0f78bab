//! Exports that report handles and processes, one after another.

ghost use Rattle.std.specs.Prelude.{◌≡◌, IsSome, Some};
ghost use Rattle.std.specs.Option.{option_and_then};
ghost use Rattle.ob_base.specs.Handle.{key_of};
ghost use Rattle.ob_base.specs.declared.status.Status.TheVariants.{InvalidHandle, NoMoreEntries};
ghost use Rattle.ob_core.specs.Listed.{handle_after};
ghost use Rattle.ob_host.specs.Kept.{Kept};
ghost use Rattle.ob_host.specs.declared.object.HostObject.{HostObject};
ghost use Rattle.ob_model.specs.State.{body_of, held_of};
ghost use Rattle.ob_model.specs.declared.state.Body.{Body};
ghost use Rattle.ob_c.specs.Handles.{ReportsHandleOf, ReportsHeld, ReportsNextHandle, ReportsNextIn, ReportsNextProcess, context_after, count_reported, flag_reported, handle_reported, no_handle};

use crate::referents::{id_of, type_of, user_data_of};
use ob_base::{Handle, Proc, Status};
use ob_c_state::{HostCore, Ntns};
use ob_core::{Core, SlabTable};
use ob_host::HostSet;
use ob_model::Held;
use std::alloc::Global;

/// A handle of a process, as a caller in C reads it. (this profile)
#[repr(C)]
#[derive(Clone, Copy)]
pub struct HandleRow {
    /// The handle's value.
    pub value: u32,
    /// The number of its object's type.
    pub number: u32,
    /// The object's user data: 0 of a directory and of a symbolic link.
    pub user_data: u64,
    /// The object's id, as a query of the object gives it.
    pub id: u64,
    /// 1 if children of the process inherit the handle, else 0.
    pub inherit: u8,
    /// 1 if the object is permanent, else 0.
    pub permanent: u8,
    /// 1 if the object is exclusive, else 0.
    pub exclusive: u8,
    /// How many handles there are to the object, of all processes.
    pub handles: u32,
}

/// Reports the live process of the least number above `process`, which becomes that number: a caller that begins with 0
/// lists the live processes, each that stays live once, whichever begin and end between the calls. It takes no memory, and
/// changes nothing else.
///
/// `NoMoreEntries` if there is none, and `InvalidParameter` if the namespace is closed: `process` stays then. Source:
/// NtQuerySystemInformation (Windows); the numbers are this profile.
#[unsafe(no_mangle)]
pub extern "C" fn ntns_next_process(ns: &mut Ntns, alloc: Global, process: &mut u32) -> u32
    ensures reported { ReportsNextProcess ns.old.core process.old process.new result }
    ensures same { ns.new.core ≡ ns.old.core }
{
    let Some(core) = ns.take(alloc) else {
        return Status::InvalidParameter.code();
    };
    let status = report_next_process(&core, process);
    ns.put(core);
    status
}

// Reports the live process of the least number above another.
fn report_next_process(core: &HostCore, process: &mut u32) -> u32
    ensures { ReportsNextIn core.now process.old process.new result }
{
    let Some(next) = core.read().process_after(Proc(*process)) else {
        return Status::NoMoreEntries.code();
    };
    *process = next.0;
    Status::Success.code()
}

/// Reports the first handle of a process that was opened after a context, which is 0 at first, and becomes that of the
/// handle: so the handles are listed in the order in which they were opened, each that stays open once, whatever is opened
/// and closed between the calls. It takes no memory, and changes nothing else.
///
/// `NoMoreEntries` if there is none, or the process is gone, and `InvalidParameter` if the namespace is closed: each field
/// is 0 then, and the context stays. Source: NtQuerySystemInformation (Windows); the contexts are this profile.
#[unsafe(no_mangle)]
pub extern "C" fn ntns_next_handle(
    ns: &mut Ntns,
    alloc: Global,
    process: u32,
    context: &mut u64,
    handle: &mut HandleRow,
) -> u32
    ensures reported { ReportsNextHandle ns.old.core process context.old context.new result handle.new }
    ensures same { ns.new.core ≡ ns.old.core }
{
    *handle = no_handle();
    let Some(core) = ns.take(alloc) else {
        return Status::InvalidParameter.code();
    };
    let status = report_next_handle(&core, process, context, handle);
    ns.put(core);
    status
}

// Reports the first handle of a process that was opened after a context.
fn report_next_handle(
    core: &HostCore,
    process: u32,
    context: &mut u64,
    handle: &mut HandleRow,
) -> u32
    ensures reported { ReportsHeld core.now (handle_after core.now process context.old) NoMoreEntries result
        handle.new }
    ensures context { context.new
        ≡ context_after context.old (handle_after core.now process context.old) }
{
    let space = core.read();
    space.state_is_sound();
    let Some(held) = space.handle_after(Proc(process), *context) else {
        *handle = no_handle();
        return Status::NoMoreEntries.code();
    };
    *context = held.order;
    *handle = handle_reported(space, held);
    Status::Success.code()
}

/// Reports a handle of a process. The low two bits of its value are ignored. It takes no memory, and changes nothing.
///
/// `InvalidHandle` if the process, which may be gone, has no such handle, and `InvalidParameter` if the namespace is
/// closed: each field is 0 then. Source: NtQueryObject with ObjectBasicInformation (Windows); user data and ids are this
/// profile.
#[unsafe(no_mangle)]
pub extern "C" fn ntns_query_handle(
    ns: &mut Ntns,
    alloc: Global,
    process: u32,
    value: u32,
    handle: &mut HandleRow,
) -> u32
    ensures reported { ReportsHandleOf ns.old.core process value result handle.new }
    ensures same { ns.new.core ≡ ns.old.core }
{
    *handle = no_handle();
    let Some(core) = ns.take(alloc) else {
        return Status::InvalidParameter.code();
    };
    let status = report_handle_of(&core, process, value, handle);
    ns.put(core);
    status
}

// Reports the handle of a value.
fn report_handle_of(core: &HostCore, process: u32, value: u32, handle: &mut HandleRow) -> u32
    ensures { ReportsHeld core.now (option_and_then (held_of core.now process) (key_of value))
        InvalidHandle result handle.new }
{
    let space = core.read();
    space.state_is_sound();
    let Some(held) = space.handle(Proc(process), Handle(value)) else {
        *handle = no_handle();
        return Status::InvalidHandle.code();
    };
    *handle = handle_reported(space, held);
    Status::Success.code()
}

// A handle as a caller in C reads it. Its object is there.
fn handle_reported(core: &Core<HostSet, SlabTable>, held: Held) -> HandleRow
    requires { IsSome (body_of core.now held.object) }
    ensures { (body : Body HostObject Kept) × (body_of core.now held.object ≡ Some body)
        × (result ≡ handle_reported core.now held body) }
{
    let object = held.object;
    let Some(referent) = core.object(object) else {
        unreachable!();
    };
    HandleRow {
        value: held.value.0,
        number: type_of(&referent),
        user_data: user_data_of(&referent),
        id: id_of(object, &referent),
        inherit: flag_reported(held.inherit),
        permanent: flag_reported(core.is_permanent(object)),
        exclusive: flag_reported(core.is_exclusive(object)),
        handles: count_reported(core.count_of(object)),
    }
}

// A count as a caller in C reads it: at most the greatest u32.
fn count_reported(count: usize) -> u32
    ensures { result ≡ count_reported count }
{
    if count > 4_294_967_295 {
        return 4_294_967_295;
    }
    count as u32
}

// A flag as a caller in C reads it.
fn flag_reported(flag: bool) -> u8
    ensures { result ≡ flag_reported flag }
{
    if flag { 1 } else { 0 }
}

// The fields where there is no handle: zeros.
fn no_handle() -> HandleRow
    ensures { result ≡ no_handle }
{
    HandleRow {
        value: 0,
        number: 0,
        user_data: 0,
        id: 0,
        inherit: 0,
        permanent: 0,
        exclusive: 0,
        handles: 0,
    }
}
