//! An open whose parse ended with something to open.

ghost use Rattle.std.specs.Prelude.{◌≡◌, Some, true, IsSome, IsOk, IfOk, IfErr, OnErr, MatchOption};
ghost use Rattle.ob_model.specs.declared.reply.Answer.TheVariants.{Done};
ghost use Rattle.ob_model.specs.Opens.{options_by};
ghost use Rattle.ob_model.specs.Parses.{Resumes};
ghost use Rattle.ob_model.specs.PendingOpens.{pending_of, without_pending};
ghost use Rattle.ob_model.specs.Procedures.{EndsItself};
ghost use Rattle.ob_model.specs.Refusals.{answers};
ghost use Rattle.ob_life.specs.Settling.{AreShadowsFit};
ghost use Rattle.ob_model.specs.Settle.{IsSettled, settle};
ghost use Rattle.ob_opens.specs.Refusing.{IsBroughtRefused};
ghost use Rattle.ob_space.specs.Orderly.{IsOrderly};

use crate::unpin::end_parse;
use ob_base::{Attrs, Status};
use ob_handles::HandleTable;
use ob_model::{GrantOptions, Reply};
use ob_space::{Space, grant, is_live, is_wanted_at, status_alone, with_handle};
use ob_types::{Reason, TypeSet};
use std::alloc::AllocError;

/// Answers an open whose parse ended with the object that it reached: with a handle to that object. The
/// open is pending no longer, and where no handle is given what it alone held goes.
///
/// It asks that an open is pending under this ticket, and that the state is orderly, sound and settled, and leaves it
/// so. The only fault is out of memory, and then nothing has changed: the open is still pending.
///
/// Refusals, in their order: `ProcessGone` where the process that asked is live no longer;
/// `ObjectTypeMismatch` where the object isn't of the type that was asked for; and those of a grant. Those before the
/// set is asked take no memory.
///
/// Source: Windows Internals, Object Manager (parse methods); that the open is judged in the state as it is when
/// its parse has ended, and the order of refusals, are this profile.
pub(crate) fn open_pinned<T: TypeSet, H: HandleTable>(
    space: &mut Space<T, H>,
    ticket: u64,
) -> Result<Reply, AllocError>
    requires orderly { IsOrderly T.idle space.old }
    requires shadows { AreShadowsFit space.old }
    requires settled { IsSettled space.old }
    requires pending { IsSome (pending_of space.old ticket) }
    ensures orderly { IsOrderly T.idle space.new }
    ensures resumed { IfOk result (λ reply. MatchOption (pending_of space.old ticket) ⊥ (λ x.
        Resumes T.procedures space.old x (Some EndsItself) (Done reply) space.new)) }
    ensures early { IsBroughtRefused T.procedures space.old ticket (Some EndsItself) → IsOk result }
    ensures err { OnErr result (space.new ≡ space.old) }
{
    // The contract of the length gives the invariant of all pending opens.
    let _ = space.pending.len();
    let Some(pending) = space.pending.get(ticket) else {
        unreachable!();
    };
    let (process, object) = (pending.process, pending.object);
    let (wanted, options) = (pending.wanted, options_by(pending.attrs));
    if !is_live(space, process) {
        return Ok(refuse(space, ticket, Status::ProcessGone));
    }
    if !is_wanted_at(space, object, wanted) {
        return Ok(refuse(space, ticket, Status::ObjectTypeMismatch));
    }
    match grant(space, process, object, options, Reason::Opened)? {
        Ok(value) => {
            space.pending.take(ticket);
            Ok(with_handle(Status::Success, value))
        }
        Err(status) => Ok(refuse(space, ticket, status)),
    }
}

/// The options that the flags of a pending open ask of its handle.
pub(crate) fn options_by(attrs: u32) -> GrantOptions
    ensures { result ≡ options_by attrs }
{
    GrantOptions {
        inherit: attrs & Attrs::INHERIT == Attrs::INHERIT,
        exclusive: attrs & Attrs::EXCLUSIVE == Attrs::EXCLUSIVE,
    }
}

/// Ends the open of a ticket with a refusal, and gives its answer: what the open alone held goes.
pub(crate) fn refuse<T: TypeSet, H: HandleTable>(
    space: &mut Space<T, H>,
    ticket: u64,
    status: Status,
) -> Reply
    requires orderly { IsOrderly T.idle space.old }
    requires shadows { AreShadowsFit space.old }
    requires settled { IsSettled space.old }
    ensures orderly { IsOrderly T.idle space.new }
    ensures answer { Done result ≡ answers status }
    ensures ended { space.new ≡ settle T.procedures (without_pending space.old ticket) }
{
    end_parse(space, ticket);
    status_alone(status)
}
