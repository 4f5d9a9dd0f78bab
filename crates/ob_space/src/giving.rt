//! An object that was found is opened: the handle that is given for it.

ghost use Rattle.std.specs.Prelude.{◌≡◌, true, IsOk, IfOk, IfErr, OnErr};
ghost use Rattle.ob_model.specs.declared.reply.Answer.TheVariants.{Done};
ghost use Rattle.ob_model.specs.Grants.{is_exclusive};
ghost use Rattle.ob_model.specs.Opens.{GivesHandle, OpensAt, options_by};
ghost use Rattle.ob_model.specs.Settle.{IsSettled};
ghost use Rattle.ob_model.specs.State.{is_live};
ghost use Rattle.ob_space.specs.Found.{is_grant_refused, is_refused_at};
ghost use Rattle.ob_space.specs.Orderly.{IsOrderly};

use crate::Space;
use crate::granting::{grant_known, is_exclusive};
use crate::replies::{status_alone, with_handle};
use crate::wanted::judge_object;
use ob_base::{Attrs, ObjId, Proc, Status};
use ob_handles::HandleTable;
use ob_model::{GrantOptions, Reply, Wanted};
use ob_types::{Reason, TypeSet};
use std::alloc::AllocError;

/// Opens an object that was found, where it is of the type that is asked for. The handle is given
/// with this status. All that is there stays: a handle more releases nothing. A refusal before the set
/// is asked takes no memory.
pub fn open_at<T: TypeSet, H: HandleTable>(
    space: &mut Space<T, H>,
    process: Proc,
    object: ObjId,
    attrs: Attrs,
    wanted: Wanted<T::Kind>,
    status: Status,
) -> Result<Reply, AllocError>
    requires orderly { IsOrderly T.idle space.old }
    requires settled { IsSettled space.old }
    requires live { is_live space.old process ≡ true }
    ensures orderly { IsOrderly T.idle space.new }
    ensures step { IfOk result (λ reply.
        OpensAt T.procedures space.old process attrs wanted status object (Done reply) space.new) }
    ensures early { is_refused_at T.procedures space.old process (options_by attrs) wanted object
        ≡ true → IsOk result }
    ensures err { OnErr result (space.new ≡ space.old) }
{
    let (fits, exclusive) = judge_object(space, object, wanted);
    if !fits {
        return Ok(status_alone(Status::ObjectTypeMismatch));
    }
    let options = GrantOptions::by(attrs);
    give_known(
        space,
        process,
        object,
        exclusive,
        options,
        Reason::Opened,
        status,
    )
}

/// Grants a live process a handle to an object that is there, and gives it with this status, or
/// replies why it is refused. All that is there stays: a handle more releases nothing. A refusal before
/// the set is asked takes no memory.
pub fn give_handle<T: TypeSet, H: HandleTable>(
    space: &mut Space<T, H>,
    process: Proc,
    object: ObjId,
    options: GrantOptions,
    reason: Reason,
    status: Status,
) -> Result<Reply, AllocError>
    requires orderly { IsOrderly T.idle space.old }
    requires settled { IsSettled space.old }
    requires live { is_live space.old process ≡ true }
    ensures orderly { IsOrderly T.idle space.new }
    ensures step { IfOk result (λ reply.
        GivesHandle T.procedures space.old process object options reason status (Done reply)
        space.new) }
    ensures early { is_grant_refused space.old process object options ≡ true → IsOk result }
    ensures err { OnErr result (space.new ≡ space.old) }
{
    let exclusive = is_exclusive(space, object);
    give_known(space, process, object, exclusive, options, reason, status)
}

/// Gives a handle as [`give_handle`] does, to an object of which it is known whether it is exclusive.
fn give_known<T: TypeSet, H: HandleTable>(
    space: &mut Space<T, H>,
    process: Proc,
    object: ObjId,
    exclusive: bool,
    options: GrantOptions,
    reason: Reason,
    status: Status,
) -> Result<Reply, AllocError>
    requires orderly { IsOrderly T.idle space.old }
    requires settled { IsSettled space.old }
    requires live { is_live space.old process ≡ true }
    requires known { exclusive ≡ is_exclusive space.old object }
    ensures orderly { IsOrderly T.idle space.new }
    ensures step { IfOk result (λ reply.
        GivesHandle T.procedures space.old process object options reason status (Done reply)
        space.new) }
    ensures early { is_grant_refused space.old process object options ≡ true → IsOk result }
    ensures err { OnErr result (space.new ≡ space.old) }
{
    match grant_known(space, process, object, exclusive, options, reason)? {
        Ok(value) => Ok(with_handle(status, value)),
        Err(refusal) => Ok(status_alone(refusal)),
    }
}
