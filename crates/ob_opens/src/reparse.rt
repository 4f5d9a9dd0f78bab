//! An open whose parse ended with a name that was looked up again.

ghost use Rattle.std.specs.Prelude.{◌≡◌, true, false, IsSome, IsOk, IfOk, IfErr, OnErr, MatchOption};
ghost use Rattle.ob_model.specs.declared.reply.Answer.TheVariants.{Done, Ticket};
ghost use Rattle.ob_model.specs.Looks.{At, Parse, Refused};
ghost use Rattle.ob_model.specs.Opens.{open_mode, options_by};
ghost use Rattle.ob_model.specs.PendingOpens.{face_of, pending_of, without_pending};
ghost use Rattle.ob_model.specs.Refusals.{answers};
ghost use Rattle.ob_model.specs.Sound.{IsSound};
ghost use Rattle.ob_life.specs.Settling.{AreShadowsFit};
ghost use Rattle.ob_model.specs.Settle.{IsSettled, settle};
ghost use Rattle.ob_model.specs.State.{is_live, is_store_full};
ghost use Rattle.ob_space.specs.Found.{is_refused_at};
ghost use Rattle.ob_space.specs.Orderly.{IsBetweenSteps, IsOrderly};
ghost use Rattle.ob_opens.specs.Again.{OpensAgain};

use crate::pinned::{options_by, refuse};
use crate::unpin::end_parse;
use ob_base::{Attrs, ObjId, Status};
use ob_handles::HandleTable;
use ob_model::{Bytes, Mode, PendingOpen, Reply, Wanted};
use ob_space::{Space, grant, is_wanted_at, with_handle};
use ob_types::{Reason, TypeSet};
use std::alloc::AllocError;

/// How the name of a pending open is looked up: with the case of letters minded or not by its flags, given as raw
/// bits, and through a link that its last component names unless a link is asked for, or the flag `OPENLINK` is
/// set.
///
/// Source: OBJECT_ATTRIBUTES structure (OBJ_CASE_INSENSITIVE, OBJ_OPENLINK; Windows Driver Kit).
pub(crate) fn mode_of_open<K: Copy>(wanted: Wanted<K>, attrs: u32) -> Mode
    ensures { result ≡ open_mode wanted attrs }
{
    let opens_link = attrs & Attrs::OPENLINK == Attrs::OPENLINK;
    Mode {
        create: false,
        fold: attrs & Attrs::CASE_INSENSITIVE == Attrs::CASE_INSENSITIVE,
        follow: !matches!(wanted, Wanted::Link) && !opens_link,
    }
}

/// Ends an open whose parse ended with a name that leads nowhere: it is answered with this refusal of the lookup,
/// and is pending no longer, and what it alone held goes. No memory is taken.
///
/// It asks that an open is pending under this ticket, and that the state is orderly and settled, and leaves it
/// orderly.
///
/// Source: Windows Internals, Object Manager (parse methods; object retention); that the name is looked up in the
/// state as it is when the parse has ended is this profile.
pub(crate) fn refuse_open<T: TypeSet, H: HandleTable>(
    space: &mut Space<T, H>,
    ticket: u64,
    status: Status,
) -> Reply
    requires orderly { IsOrderly T.idle space.old }
    requires shadows { AreShadowsFit space.old }
    requires settled { IsSettled space.old }
    requires pending { IsSome (pending_of space.old ticket) }
    ensures orderly { IsOrderly T.idle space.new }
    ensures opened { OpensAgain T.procedures space.old ticket (Refused status)
        (Done result) space.new }
    ensures answer { Done result ≡ answers status }
    ensures ended { space.new ≡ settle T.procedures (without_pending space.old ticket) }
{
    refuse(space, ticket, status)
}

/// Answers an open whose parse ended with a name that leads to an object: with a handle to that object. The
/// open is pending no longer, and what it alone held goes, which may be the object that it pinned.
///
/// It asks that an open is pending under this ticket, that the process that asked is live, and that the state is
/// orderly, sound and settled, and leaves it orderly. The only fault is out of memory, and then nothing has changed: the
/// open is still pending.
///
/// Refusals, in their order: `ObjectTypeMismatch` where the object isn't of the type that was asked for; and those
/// of a grant. Those before the set is asked take no memory.
///
/// Source: Windows Internals, Object Manager (parse methods; object retention); that the open is judged in the
/// state as it is when its parse has ended, and the order of refusals, are this profile.
pub(crate) fn open_found<T: TypeSet, H: HandleTable>(
    space: &mut Space<T, H>,
    ticket: u64,
    object: ObjId,
) -> Result<Reply, AllocError>
    requires orderly { IsOrderly T.idle space.old }
    requires sound { IsSound space.old }
    requires settled { IsSettled space.old }
    requires pending { IsSome (pending_of space.old ticket) }
    requires live { MatchOption (pending_of space.old ticket) ⊥ (λ x.
        is_live space.old x.process ≡ true) }
    ensures orderly { IsOrderly T.idle space.new }
    ensures opened { IfOk result (λ reply.
        OpensAgain T.procedures space.old ticket (At object) (Done reply) space.new) }
    ensures early { MatchOption (pending_of space.old ticket) ⊥ (λ x.
        is_refused_at T.procedures space.old x.process (options_by x.attrs) x.wanted object ≡ true)
        → IsOk result }
    ensures err { OnErr result (space.new ≡ space.old) }
{
    let Some(pending) = space.pending.get(ticket) else {
        unreachable!();
    };
    let (process, wanted) = (pending.process, pending.wanted);
    let options = options_by(pending.attrs);
    if !is_wanted_at(space, object, wanted) {
        return Ok(refuse(space, ticket, Status::ObjectTypeMismatch));
    }
    match grant(space, process, object, options, Reason::Opened)? {
        Ok(value) => {
            end_parse(space, ticket);
            Ok(with_handle(Status::Success, value))
        }
        Err(status) => Ok(refuse(space, ticket, status)),
    }
}

/// An open whose parse ended with a name that leads to an object which is to parse waits again, with what follows
/// that object in the name and so many reparses left: under a new ticket, which is the next number, and is handed
/// back. The open of the old ticket is pending no longer, and what it alone held goes. All that it held and the new
/// one pins stays as it is.
///
/// It asks that an open is pending under this ticket, that one more fits beside the objects and the other pending opens
/// and a number is left, and that the state is orderly, sound and settled, and leaves it orderly. The only fault is out of
/// memory, and then nothing has changed: the open is still pending.
///
/// Source: Windows Internals, Object Manager (parse methods; object retention). That a parse has a ticket of its
/// own, and that the old open takes no room, are this profile.
pub(crate) fn begin_again<T: TypeSet, H: HandleTable>(
    space: &mut Space<T, H>,
    ticket: u64,
    object: ObjId,
    rest: Bytes,
    left: u32,
) -> Result<u64, AllocError>
    requires between { IsBetweenSteps T.idle space.old }
    requires pending { IsSome (pending_of space.old ticket) }
    requires room { is_store_full (without_pending space.old ticket) ≡ false }
    ensures orderly { IsOrderly T.idle space.new }
    ensures opened { IfOk result (λ next.
        OpensAgain T.procedures space.old ticket (Parse object rest left) (Ticket next)
        space.new) }

    // Its parse can be run: it is the one that the new ticket waits for.
    ensures pins { IfOk result (λ next. MatchOption (pending_of space.new next) ⊥ (λ x.
        (x.rest ≡ rest) × (x.object ≡ object))
        × (face_of space.new object ≡ face_of space.old object)) }
    ensures unchanged { OnErr result (space.new ≡ space.old) }
{
    let Some(pending) = space.pending.get(ticket) else {
        unreachable!();
    };
    let next = space.next_id;
    let again = PendingOpen {
        ticket: next,
        process: pending.process,
        object,
        rest,
        left,
        attrs: pending.attrs,
        wanted: pending.wanted,
    };
    space.pending.insert(again)?;
    space.next_id = next + 1;
    end_parse(space, ticket);
    Ok(next)
}
