//! Exports that open in two phases.

ghost use Rattle.std.specs.Prelude.{◌≡◌, ℕ, IsSome, IfOk, Some};
ghost use Rattle.std.specs.Option.{option_map};
ghost use Rattle.ob_base.specs.Status.{code_of};
ghost use Rattle.ob_base.specs.declared.status.Status.TheVariants.{InvalidParameter};
ghost use Rattle.ob_host.specs.Kept.{Kept};
ghost use Rattle.ob_host.specs.declared.object.HostObject.{HostObject};
ghost use Rattle.ob_model.specs.PendingOpens.{pending_of};
ghost use Rattle.ob_model.specs.State.{body_of};
ghost use Rattle.ob_model.specs.declared.command.Command.TheVariants.{OpenObject};
ghost use Rattle.ob_model.specs.declared.state.Body.{Body};
ghost use Rattle.ob_runner.specs.Begun.{IfWaits};
ghost use Rattle.ob_c_state.specs.Calls.{root_of};
ghost use Rattle.ob_c_state.specs.Pending.{CancelsOpen, EndsOpen};
ghost use Rattle.ob_c.specs.Pending.{CopiesRest, ReportsBegin, ReportsBeginOfAnyType, ReportsBegun, ReportsPending, no_pending, pending_reported};
ghost use Rattle.ob_c_state.specs.Reports.{ReportsHandle};

use crate::referents::{id_of, type_of, user_data_of};
use ob_base::Status;
use ob_c_state::{HostCore, Ntns, open_object, report_handle};
use ob_core::Reply;
use ob_host::Kind;
use ob_numbers::kind_of;
use ob_runner::Begun;
use std::alloc::Global;

/// The number of `STATUS_PENDING`, which is no status of the machine's.
pub(crate) const PENDING: u32 = 259;

/// A pending open, as a caller in C reads it. (this profile)
#[repr(C)]
#[derive(Clone, Copy)]
pub struct BegunOpen {
    /// The ticket by which it is ended or cancelled.
    pub ticket: u64,
    /// The id of the object at which it is pending, as a query of the object gives it; 0 if no handle to it was ever given.
    pub id: u64,
    /// That object's user data.
    pub user_data: u64,
    /// The number of its type: a device or a key.
    pub number: u32,
}

/// Begins an open of the object that a name leads to, of the kind of a type's number, or of any type if that is 0. `root` is the
/// handle that the name is relative to, 0 for none. If no object that the name leads through parses, it is the whole open: `handle`
/// receives the new handle. Else the open is pending, with the status `STATUS_PENDING`: `pending` receives its ticket and the object
/// that it met, which remains as long as the open is pending, and `rest` the part of the name after that object, of `length`
/// bytes. If the rest doesn't fit, nothing is written, no open is pending, and the status is `BufferTooSmall`.
///
/// The other statuses are those of the command `OpenObject`, in its order; `InvalidParameter` if the namespace is closed or no
/// kind has the number, and `NoMemory` if out of memory. Unless a status says otherwise above, `handle`, `length` and each field of
/// `pending` are 0. Source: ZwOpenFile and its like (Windows Driver Kit); Windows Internals, Object Manager (parse methods).
#[unsafe(no_mangle)]
pub extern "C" fn ntns_begin_open_raw(
    ns: &mut Ntns,
    alloc: Global,
    process: u32,
    root: u32,
    name: &[u8],
    attributes: u32,
    number: u32,
    handle: &mut u32,
    pending: &mut BegunOpen,
    rest: &mut [u8],
    length: &mut usize,
) -> u32
    ensures { ReportsBeginOfAnyType number process
        (λ want. OpenObject (root_of root) name.now attributes want)
        ns.old.core ns.new.core result handle.new pending.new rest.old rest.new length.new }
{
    if number == 0 {
        return begin_wanted(
            ns, alloc, process, root, name, attributes, None, handle, pending, rest, length,
        );
    }
    let Some(kind) = kind_of(number) else {
        return refuse(handle, pending, length);
    };
    begin_wanted(
        ns,
        alloc,
        process,
        root,
        name,
        attributes,
        Some(kind),
        handle,
        pending,
        rest,
        length,
    )
}

// Begins an open of the object that a name leads to, of a kind if one is given.
fn begin_wanted(
    ns: &mut Ntns,
    alloc: Global,
    process: u32,
    root: u32,
    name: &[u8],
    attributes: u32,
    want: Option<Kind>,
    handle: &mut u32,
    pending: &mut BegunOpen,
    rest: &mut [u8],
    length: &mut usize,
) -> u32
    ensures { ReportsBegin process (OpenObject (root_of root) name.now attributes want)
        ns.old.core ns.new.core result handle.new pending.new rest.old rest.new length.new }
{
    let made = open_object(alloc, root, name, attributes, want);
    let Some(mut core) = ns.take(alloc) else {
        return refuse(handle, pending, length);
    };
    let begun = core.begin(process, &made);
    let status = report_begun(&mut core, begun, handle, pending, rest, length);
    ns.put(core);
    status
}

// Refuses an open that isn't begun.
fn refuse(handle: &mut u32, pending: &mut BegunOpen, length: &mut usize) -> u32
    ensures status { result ≡ code_of InvalidParameter }
    ensures handle { handle.new ≡ 0 }
    ensures pending { pending.new ≡ no_pending }
    ensures length { length.new ≡ 0 }
{
    *handle = 0;
    *pending = no_pending();
    *length = 0;
    Status::InvalidParameter.code()
}

// Reports an open that was begun.
fn report_begun(
    core: &mut HostCore,
    begun: Result<Begun, Status>,
    handle: &mut u32,
    pending: &mut BegunOpen,
    rest: &mut [u8],
    length: &mut usize,
) -> u32
    requires { IfOk begun (λ begun. IfWaits begun (λ ticket.
        IsSome (pending_of core.old ticket))) }
    ensures { ReportsBegun begun core.old core.new result handle.new pending.new rest.old rest.new
        length.new }
{
    match begun {
        Ok(Begun::Waits(ticket)) => {
            *handle = 0;
            report_pending(core, ticket, pending, rest, length)
        }
        Ok(Begun::Replied(reply)) => report_not_pending(Ok(reply), handle, pending, length),
        Err(status) => report_not_pending(Err(status), handle, pending, length),
    }
}

// Reports an open that isn't pending.
fn report_not_pending(
    ended: Result<Reply, Status>,
    handle: &mut u32,
    pending: &mut BegunOpen,
    length: &mut usize,
) -> u32
    ensures handle { ReportsHandle result handle.new ended }
    ensures pending { pending.new ≡ no_pending }
    ensures length { length.new ≡ 0 }
{
    *pending = no_pending();
    *length = 0;
    report_handle(&ended, handle)
}

// Reports a pending open; if its rest doesn't fit, it is abandoned.
fn report_pending(
    core: &mut HostCore,
    ticket: u64,
    pending: &mut BegunOpen,
    rest: &mut [u8],
    length: &mut usize,
) -> u32
    requires { IsSome (pending_of core.old ticket) }
    ensures { ReportsPending core.old ticket core.new result pending.new rest.old rest.new
        length.new }
{
    *pending = no_pending();
    let met = pending_reported(core, ticket);
    if !copy_rest(core, ticket, rest, length) {
        core.cancel(ticket);
        return Status::BufferTooSmall.code();
    }
    *pending = met;
    PENDING
}

// Writes the rest of a pending open's name to the beginning of a buffer, and reports its length; whether it fits. If it doesn't,
// nothing is written.
fn copy_rest(core: &HostCore, ticket: u64, buffer: &mut [u8], length: &mut usize) -> bool
    requires { IsSome (pending_of core.now ticket) }
    ensures { CopiesRest (pending_of core.now ticket) result buffer.old buffer.new length.new }
{
    let Some(rest) = core.rest(ticket) else {
        unreachable!();
    };
    *length = rest.len();
    if rest.len() > buffer.len() {
        return false;
    }
    buffer[..rest.len()].copy_from_slice(rest);
    true
}

// A pending open as a caller in C reads it. The object at which it is pending is there.
fn pending_reported(core: &HostCore, ticket: u64) -> BegunOpen
    requires { IsSome (pending_of core.now ticket) }
    ensures { (object : ℕ) × (body : Body HostObject Kept)
        × (option_map (λ pending. pending.object) (pending_of core.now ticket) ≡ Some object)
        × (body_of core.now object ≡ Some body)
        × (result ≡ pending_reported ticket object body) }
{
    let space = core.read();
    space.state_is_sound();
    let Some(object) = space.pinned(ticket) else {
        unreachable!();
    };
    let Some(referent) = space.object(object) else {
        unreachable!();
    };
    BegunOpen {
        ticket,
        id: id_of(object, &referent),
        user_data: user_data_of(&referent),
        number: type_of(&referent),
    }
}

// The fields where no open is pending: zeros.
fn no_pending() -> BegunOpen
    ensures { result ≡ no_pending }
{
    BegunOpen {
        ticket: 0,
        id: 0,
        user_data: 0,
        number: 0,
    }
}

/// Ends a pending open: the parse of the object that it met is run, and the open resumed with it. `handle` receives the new handle,
/// 0 if none is given. The state is judged as it is now.
///
/// The statuses are those of a resume, in its order; `InvalidParameter` if the namespace is closed or no open is pending under the
/// ticket, and then nothing changes; and `NoMemory` if out of memory. With any other status, and with `NoMemory`, the open
/// is pending no longer. Source: Windows Internals, Object Manager (parse methods); tickets are this profile.
#[unsafe(no_mangle)]
pub extern "C" fn ntns_end_open(ns: &mut Ntns, alloc: Global, ticket: u64, handle: &mut u32) -> u32
    ensures { EndsOpen ticket ns.old.core ns.new.core (ReportsHandle result handle.new) }
{
    let Some(mut core) = ns.take(alloc) else {
        return report_handle(&Err(Status::InvalidParameter), handle);
    };
    let ended = core.end(alloc, ticket);
    ns.put(core);
    report_handle(&ended, handle)
}

/// Cancels a pending open: no parse is run, the object that it met is released, and no handle is given. It takes no memory.
///
/// `Success`; `InvalidParameter` if the namespace is closed or no open is pending under the ticket, and then nothing changes.
/// Source: Windows Internals, Object Manager (parse methods); tickets are this profile.
#[unsafe(no_mangle)]
pub extern "C" fn ntns_cancel_open(ns: &mut Ntns, alloc: Global, ticket: u64) -> u32
    ensures { CancelsOpen ticket ns.old.core ns.new.core (λ status. result ≡ code_of status) }
{
    let Some(mut core) = ns.take(alloc) else {
        return Status::InvalidParameter.code();
    };
    let status = core.cancel(ticket);
    ns.put(core);
    status.code()
}
