//! Granting a handle to an object that is there.

ghost use Rattle.std.specs.Prelude.{◌≡◌, true, IsOk, IfOk, IfErr, OnErr};
ghost use Rattle.ob_model.specs.State.{is_live};
ghost use Rattle.ob_model.specs.Grants.{Grants, is_exclusive};
ghost use Rattle.ob_space.specs.Found.{is_grant_refused, refusal_before_room};
ghost use Rattle.ob_space.specs.Orderly.{IsOrderly};

use crate::space::{Space, is_orderless};
use ob_base::{Fault, Handle, ObjId, Proc, Status};
use ob_handles::HandleTable;
use ob_model::GrantOptions;
use ob_types::{Reason, TypeSet};
use std::alloc::AllocError;

/// Grants a live process a handle to an object that is there: under a free value, with the next order
/// of opening, once the set has opened the object for this reason. Nothing settles yet: a handle more
/// releases nothing. That the object is there is the caller's to see.
///
/// Refusals, in their order: `InvalidParameter` where an exclusive object is asked for and it isn't
/// one, or where children are to inherit the handle and it is; `AccessDenied` where another process
/// has a handle to an exclusive object; `InsufficientResources` where the table has 65,535 handles or
/// no order of opening is left; and `TypeRefused` with the set's number where the set refuses. A
/// refusal leaves all as it was, and so does out of memory, the only fault: the handle is in its
/// table before the set is called, and is taken back where the set refuses. A refusal before that
/// takes no memory.
///
/// Source: OBJECT_ATTRIBUTES structure (OBJ_INHERIT, OBJ_EXCLUSIVE) and ZwDuplicateObject (Windows
/// Driver Kit); Windows Internals, Object Manager (open methods). The order of refusals is this
/// profile.
pub fn grant<T: TypeSet, H: HandleTable>(
    space: &mut Space<T, H>,
    process: Proc,
    object: ObjId,
    options: GrantOptions,
    reason: Reason,
) -> Result<Result<Handle, Status>, AllocError>
    requires orderly { IsOrderly T.idle space.old }
    requires live { is_live space.old process ≡ true }
    ensures orderly { IsOrderly T.idle space.new }
    ensures granted { IfOk result (λ answer.
        Grants T.procedures space.old process object options reason answer space.new) }
    ensures early { is_grant_refused space.old process object options ≡ true → IsOk result }
    ensures err { OnErr result (space.new ≡ space.old) }
{
    let exclusive = is_exclusive(space, object);
    grant_known(space, process, object, exclusive, options, reason)
}

/// Grants a handle as [`grant`] does, to an object of which it is known whether it is exclusive.
pub(crate) fn grant_known<T: TypeSet, H: HandleTable>(
    space: &mut Space<T, H>,
    process: Proc,
    object: ObjId,
    exclusive: bool,
    options: GrantOptions,
    reason: Reason,
) -> Result<Result<Handle, Status>, AllocError>
    requires orderly { IsOrderly T.idle space.old }
    requires live { is_live space.old process ≡ true }
    requires known { exclusive ≡ is_exclusive space.old object }
    ensures orderly { IsOrderly T.idle space.new }
    ensures granted { IfOk result (λ answer.
        Grants T.procedures space.old process object options reason answer space.new) }
    ensures early { is_grant_refused space.old process object options ≡ true → IsOk result }
    ensures err { OnErr result (space.new ≡ space.old) }
{
    if let Some(status) = early_refusal(space, process, object, exclusive, options) {
        return Ok(Err(status));
    }
    let order = space.next_order;
    let value = match space
        .processes
        .grant(process, object, options.inherit, order)
    {
        Ok(value) => value,
        Err(Fault::Refused(status)) => return Ok(Err(status)),
        Err(Fault::Memory) => return Err(AllocError),
    };
    if let Err(code) = space.store.open(object, &mut space.set, reason) {
        space.processes.take(process, value);
        return Ok(Err(Status::TypeRefused(code)));
    }
    space.next_order = order + 1;
    Ok(Ok(value))
}

/// Whether an object is there and is exclusive.
pub(crate) fn is_exclusive<T: TypeSet, H: HandleTable>(space: &Space<T, H>, object: ObjId) -> bool
    ensures { result ≡ is_exclusive space.now object }
{
    space.store.is_exclusive(object)
}

/// The first refusal of a grant of those that come before the set's procedure, except for the one of a process with
/// 65,535 handles.
fn early_refusal<T: TypeSet, H: HandleTable>(
    space: &Space<T, H>,
    process: Proc,
    object: ObjId,
    exclusive: bool,
    options: GrantOptions,
) -> Option<Status>
    requires known { exclusive ≡ is_exclusive space.now object }
    ensures { result ≡ refusal_before_room space.now process object options }
{
    if options.exclusive && !exclusive {
        return Some(Status::InvalidParameter);
    }
    if options.inherit && exclusive {
        return Some(Status::InvalidParameter);
    }
    if exclusive && space.processes.has_other_holder(process, object) {
        return Some(Status::AccessDenied);
    }
    if is_orderless(space) {
        return Some(Status::InsufficientResources);
    }
    None
}
