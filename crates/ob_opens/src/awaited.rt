//! Which parses are brought back to an open that waits for them.

ghost use Rattle.std.specs.Prelude.{◌≡◌, ◌↔◌, IsTrue, IsSome};
ghost use Rattle.ob_model.specs.declared.reply.Event.TheVariants.{Abandon};
ghost use Rattle.ob_model.specs.Parses.{IsBrought};
ghost use Rattle.ob_model.specs.PendingOpens.{pending_of};
ghost use Rattle.ob_types.specs.Pending.{run_of, brought as end_of};
ghost use Rattle.ob_types.specs.Parse.{asked_of};
ghost use Rattle.ob_opens.specs.Waiting.{IsAwaited};

use ob_handles::HandleTable;
use ob_objects::StoredBody;
use ob_space::Space;
use ob_types::{Pending, TypeSet};

/// Whether an open waits for a parse: one is pending under its ticket, over its rest, and the object that it pins
/// has a face that is found the same. Else the parse is a stranger's. (this profile)
pub fn is_awaited<T: TypeSet, H: HandleTable>(space: &Space<T, H>, brought: &Pending<T>) -> bool
    ensures exact { IsTrue result
        ↔ IsAwaited T.procedures space.now (asked_of (end_of brought.now)) }
    ensures taken { IsTrue result
        → IsBrought T.procedures space.now (Abandon (end_of brought.now).ticket
        (run_of brought.now))
        (end_of brought.now).outcome }
    ensures pending { IsTrue result → IsSome (pending_of space.now (end_of brought.now).ticket) }
{
    let Some(pending) = space.pending.get(brought.ticket()) else {
        return false;
    };
    let Some(stored) = space.store.get(pending.object) else {
        return false;
    };
    let StoredBody::Other { face, .. } = &stored.body else {
        return false;
    };
    brought.is_for(pending, face)
}
