//! Objects that are made temporary or permanent.

ghost use Rattle.std.specs.Prelude.{◌≡◌};
ghost use Rattle.ob_model.specs.declared.reply.Answer.TheVariants.{Done};
ghost use Rattle.ob_model.specs.Settle.{IsSettled, has_name};
ghost use Rattle.ob_model.specs.Step.{Turns};
ghost use Rattle.ob_space.specs.Orderly.{IsOrderly};

use ob_base::{Handle, ObjId, Proc, Status};
use ob_handles::HandleTable;
use ob_model::Reply;
use ob_space::{Space, held_of, is_live, status_alone};
use ob_types::TypeSet;

/// Makes the object of a handle of the caller permanent, or temporary. One without a name isn't made
/// permanent: it goes with its last handle, and the command succeeds all the same. Nothing goes while
/// the handle is open. No memory is taken.
///
/// Refusals, in their order, which change nothing: `ProcessGone` for a process that isn't live, and
/// `InvalidHandle` where the process has no such handle.
///
/// It asks that the state is orderly and settled, and leaves it orderly.
///
/// Source: ZwMakeTemporaryObject and ZwMakePermanentObject (Windows Driver Kit); Windows Internals,
/// Object Manager (temporary and permanent objects). That an object without a name can't become
/// permanent is this profile.
pub fn set_permanence<T: TypeSet, H: HandleTable>(
    space: &mut Space<T, H>,
    process: Proc,
    handle: Handle,
    permanent: bool,
) -> Reply
    requires orderly { IsOrderly T.idle space.old }
    requires settled { IsSettled space.old }
    ensures orderly { IsOrderly T.idle space.new }
    ensures step { Turns T.procedures space.old process handle permanent (Done result) space.new }
{
    if !is_live(space, process) {
        return status_alone(Status::ProcessGone);
    }
    let Some(held) = held_of(space, process, handle) else {
        return status_alone(Status::InvalidHandle);
    };
    let object = held.object;
    if permanent && !is_named(space, object) {
        return status_alone(Status::Success);
    }
    space.store.set_permanent(object, permanent);
    status_alone(Status::Success)
}

/// Whether an object has a name. Takes no memory.
fn is_named<T: TypeSet, H: HandleTable>(space: &Space<T, H>, object: ObjId) -> bool
    ensures { result ≡ has_name space.now object }
{
    space.store.name_of(object).is_some()
}
