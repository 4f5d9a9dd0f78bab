//! An open that is given up while it waits for a parse.

ghost use Rattle.std.specs.Prelude.{◌≡◌, ◌↔◌, false, IsTrue};
ghost use Rattle.ob_base.specs.declared.status.Status.TheVariants.{Success};
ghost use Rattle.ob_model.specs.declared.reply.Event.TheVariants.{Abandon};
ghost use Rattle.ob_model.specs.Refusals.{answers};
ghost use Rattle.ob_model.specs.Step.{Step};
ghost use Rattle.ob_types.specs.Pending.{run_of, brought as end_of};
ghost use Rattle.ob_types.specs.Parse.{asked_of};
ghost use Rattle.ob_space.specs.Orderly.{IsBetweenSteps, IsOrderly};
ghost use Rattle.ob_types.specs.Parsing.{outcome_of};
ghost use Rattle.ob_opens.specs.Waiting.{IsAwaited, made_in};

use crate::awaited::is_awaited;
use crate::give_up::give_up_made;
use crate::unpin::end_parse;
use ob_handles::HandleTable;
use ob_space::Space;
use ob_types::{Outcome, Pending, TypeSet};

/// Gives up the open that waits for a parse, and says whether one does: what the parse made is deleted, and what
/// the open alone held goes. A stranger's parse is dropped, and nothing changes. No memory is taken.
///
/// It asks that the state is orderly, sound and settled, and leaves it orderly.
///
/// Source: Windows Internals, Object Manager (parse methods; object retention); that an open is given up by its
/// ticket is this profile.
pub fn abandon<T: TypeSet, H: HandleTable>(space: &mut Space<T, H>, brought: Pending<T>) -> bool
    requires between { IsBetweenSteps T.idle space.old }
    ensures orderly { IsOrderly T.idle space.new }
    ensures exact { IsTrue result ↔ IsAwaited T.procedures space.old (asked_of (end_of brought)) }
    ensures step { IsTrue result
        → Step T.procedures space.old (Abandon (end_of brought).ticket (run_of brought))
        (answers Success)
        space.new }
    ensures stranger { result ≡ false → space.new ≡ space.old }
{
    let ticket = brought.ticket();
    let awaited = is_awaited(space, &brought);
    let (_, _, _, outcome) = brought.into_parsed().into_parts();
    if !awaited {
        return false;
    }
    match inner_made(outcome) {
        Some(inner) => {
            give_up_made(space, ticket, inner);
        }
        None => {
            end_parse(space, ticket);
        }
    }
    true
}

/// The inner value of the instance that a parse made, where it made one.
fn inner_made<F: Drop, I: Drop>(outcome: Outcome<F, I>) -> Option<I>
    ensures { result ≡ made_in (outcome_of outcome) }
{
    match outcome {
        Outcome::Made(_, inner) => Some(inner),
        Outcome::Itself | Outcome::Reparse(_) | Outcome::Refused(_) | Outcome::NoMemory => None,
    }
}
