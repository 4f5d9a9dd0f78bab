//! Closes.

ghost use Rattle.std.specs.Prelude.{◌≡◌};
ghost use Rattle.ob_model.specs.declared.reply.Answer.TheVariants.{Done};
ghost use Rattle.ob_model.specs.Step.{Closes};
ghost use Rattle.ob_space.specs.Orderly.{IsBetweenSteps, IsOrderly};

use ob_base::{Handle, Proc, Status};
use ob_handles::HandleTable;
use ob_life::{close_handle, settle_after_loss};
use ob_model::Reply;
use ob_space::{Space, held_of, is_live, status_alone};
use ob_types::TypeSet;

/// Closes a handle of the caller: the set's close is called for its object, with how many handles to it are left
/// in the process and in all. The object goes where nothing else holds it, and what it alone held goes with it. No
/// memory is taken.
///
/// Refusals, in their order, which change nothing: `ProcessGone` for a process that isn't live, and
/// `InvalidHandle` where the process has no such handle.
///
/// It asks that the state is orderly, settled and sound, and leaves it orderly.
///
/// Source: ZwClose (Windows Driver Kit); Windows Internals, Object Manager (close methods; object retention). The
/// order of refusals is this profile.
pub fn close<T: TypeSet, H: HandleTable>(
    space: &mut Space<T, H>,
    process: Proc,
    handle: Handle,
) -> Reply
    requires between { IsBetweenSteps T.idle space.old }
    ensures orderly { IsOrderly T.idle space.new }
    ensures step { Closes T.procedures space.old process handle (Done result) space.new }
{
    if !is_live(space, process) {
        return status_alone(Status::ProcessGone);
    }
    let Some(held) = held_of(space, process, handle) else {
        return status_alone(Status::InvalidHandle);
    };
    let object = held.object;
    close_handle(space, held);
    settle_after_loss(space, object);
    status_alone(Status::Success)
}
