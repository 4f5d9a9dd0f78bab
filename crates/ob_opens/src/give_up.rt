//! The instance that a parse made, where it isn't opened.

ghost use Rattle.std.specs.Prelude.{◌≡◌, Some, IsSome, MatchOption};
ghost use Rattle.ob_model.specs.declared.reply.Answer.TheVariants.{Done};
ghost use Rattle.ob_model.specs.Parses.{Abandons, parsed_state};
ghost use Rattle.ob_model.specs.PendingOpens.{pending_of};
ghost use Rattle.ob_model.specs.Procedures.{EndsMade};
ghost use Rattle.ob_model.specs.Settle.{settle};
ghost use Rattle.ob_space.specs.Orderly.{IsBetweenSteps, IsOrderly};

use crate::unpin::end_parse;
use ob_base::Status;
use ob_handles::HandleTable;
use ob_model::Reply;
use ob_space::{Space, status_alone};
use ob_types::TypeSet;

/// Gives up an open whose parse made an instance, and answers with success: the open is pending no longer, the
/// instance is deleted, and then what the open alone held goes. No memory is taken.
///
/// It asks that an open is pending under this ticket, that the instance counts no open handle, and that the
/// state is orderly, sound and settled; it leaves it orderly.
///
/// Source: Windows Internals, Object Manager (parse methods; object retention); that an open is given up by its
/// ticket, and the order of the deletes, are this profile.
pub(crate) fn give_up_made<T: TypeSet, H: HandleTable>(
    space: &mut Space<T, H>,
    ticket: u64,
    inner: T::Inner,
) -> Reply
    requires between { IsBetweenSteps T.idle space.old }
    requires pending { IsSome (pending_of space.old ticket) }
    requires idle { T.idle inner }
    ensures orderly { IsOrderly T.idle space.new }
    ensures abandoned { (face : T.Face) → MatchOption (pending_of space.old ticket) ⊥ (λ x.
        Abandons T.procedures space.old x (Some (EndsMade face inner)) (Done result) space.new) }
{
    end_made(space, ticket, inner);
    status_alone(Status::Success)
}

/// Ends the open of a ticket whose parse made an instance that isn't opened: the instance is deleted, and then
/// what the open alone held goes, whose number is less.
pub(crate) fn end_made<T: TypeSet, H: HandleTable>(
    space: &mut Space<T, H>,
    ticket: u64,
    inner: T::Inner,
)
    requires between { IsBetweenSteps T.idle space.old }
    requires pending { IsSome (pending_of space.old ticket) }
    requires idle { T.idle inner }
    ensures orderly { IsOrderly T.idle space.new }
    ensures ended { (face : T.Face) → space.new
        ≡ settle T.procedures (parsed_state space.old ticket (Some (EndsMade face inner))) }
{
    space.set.on_delete(inner);
    end_parse(space, ticket);
}
