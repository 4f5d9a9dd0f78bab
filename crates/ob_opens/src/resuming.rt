//! An open that goes on when its parse is brought.

ghost use Rattle.std.specs.Prelude.{◌≡◌, true, IsOk, IfOk, IfErr, OnErr, IsSome, MatchOption};
ghost use Rattle.ob_base.specs.declared.fault.Fault.TheVariants.{Memory};
ghost use Rattle.ob_model.specs.declared.reply.Event.TheVariants.{Resume};
ghost use Rattle.ob_model.specs.Parses.{Resumes};
ghost use Rattle.ob_model.specs.PendingOpens.{pending_of};
ghost use Rattle.ob_life.specs.Settling.{AreShadowsFit};
ghost use Rattle.ob_model.specs.Settle.{IsSettled};
ghost use Rattle.ob_model.specs.Step.{Step};
ghost use Rattle.ob_opens.specs.Refused.{refusal_of};
ghost use Rattle.ob_opens.specs.Refusing.{IsBroughtRefused};
ghost use Rattle.ob_types.specs.Pending.{run_of_end};
ghost use Rattle.ob_types.specs.Parse.{asked_of, IfMadeNew};
ghost use Rattle.ob_space.specs.Orderly.{IsBetweenSteps, IsOrderly};
ghost use Rattle.ob_types.specs.Parsing.{outcome_of};
ghost use Rattle.ob_opens.specs.Waiting.{answer_of, IfParsing, IsParseOf, IsAwaited, IsNotTaken, opens_nothing};

use crate::awaited::is_awaited;
use crate::look_again::look_again;
use crate::made::open_made;
use crate::pinned::open_pinned;
use crate::started::Started;
use crate::unpin::refuse_parse;
use ob_base::{Fault, Status};
use ob_handles::HandleTable;
use ob_space::Space;
use ob_types::{Outcome, Parsed, Pending, TypeSet};

/// Brings a parse to the open that waits for it, in the state as it is now. That open is pending no longer:
///
/// - `ProcessGone` is the reply where the process that asked is live no longer, whatever the parse ended with;
/// - `NoMemory` where the parse found no memory, and `TypeRefused` with the type's number where it was refused;
/// - the pinned object is opened, or the instance that the parse made, under the ticket as its number: with a handle,
///   or refused with `ObjectTypeMismatch` or as a grant is;
/// - a text is looked up again, with one reparse less: what it leads to is opened, or refused as a lookup is, or the
///   open is pending again, under another ticket, and another parse is to be run.
///
/// An instance that isn't opened is deleted, and what the open alone held goes.
///
/// It asks that the state is orderly, sound and settled, and leaves it orderly. The faults hand the parse back, and then
/// nothing has changed: `Refused` with `InvalidParameter` exactly where the parse is a stranger's, whose ticket
/// isn't that of a pending open, or whose face or rest isn't that of the open; and `Memory` where memory ran out.
/// None is where the parse opens nothing, where the process that asked is gone, nor where what it ended with is refused
/// before the set is asked, and no name is copied.
///
/// Source: Windows Internals, Object Manager (parse methods; object retention); that a parse is judged when it is
/// brought, and the order of refusals, are this profile.
pub fn resume<T: TypeSet, H: HandleTable>(
    space: &mut Space<T, H>,
    parsed: Parsed<T>,
) -> Result<Started<T>, (Fault, Parsed<T>)>
    requires between { IsBetweenSteps T.idle space.old }
    ensures orderly { IsOrderly T.idle space.new }
    ensures step { IfOk result (λ started.
        Step T.procedures space.old (Resume parsed.ticket (run_of_end parsed.outcome))
        (answer_of started)
        space.new) }
    ensures awaited { IfOk result (λ _. IsAwaited T.procedures space.old (asked_of parsed)) }
    ensures parse { IfOk result (λ started. IfParsing started (IsParseOf space.new)) }
    ensures without_memory { opens_nothing parsed.outcome ≡ true
        → IsAwaited T.procedures space.old (asked_of parsed)
        → IsOk result }
    ensures early { IsBroughtRefused T.procedures space.old parsed.ticket parsed.outcome
        → IsAwaited T.procedures space.old (asked_of parsed)
        → IsOk result }
    ensures err { OnErr result (space.new ≡ space.old) }
    ensures fault { IfErr result (λ back.
        IsNotTaken T.procedures space.old (asked_of parsed) (back.0)) }
    ensures back { IfErr result (λ back. back.1 ≡ parsed) }
{
    let brought = Pending::Run(parsed);
    let awaited = is_awaited(space, &brought);
    let (ticket, face, rest, outcome) = brought.into_parsed().into_parts();
    if !awaited {
        let stranger = Fault::Refused(Status::InvalidParameter);
        return Err((stranger, Parsed::from_parts(ticket, face, rest, outcome)));
    }
    match conclude(space, ticket, outcome) {
        Ok(started) => Ok(started),
        Err(outcome) => Err((
            Fault::Memory,
            Parsed::from_parts(ticket, face, rest, outcome),
        )),
    }
}

/// Ends the open of a ticket with what its parse ended with. Out of memory, that is handed back.
fn conclude<T: TypeSet, H: HandleTable>(
    space: &mut Space<T, H>,
    ticket: u64,
    outcome: Outcome<T::Face, T::Inner>,
) -> Result<Started<T>, Outcome<T::Face, T::Inner>>
    requires between { IsBetweenSteps T.idle space.old }
    requires pending { IsSome (pending_of space.old ticket) }
    requires idle { IfMadeNew (outcome_of outcome) (λ _ inner. T.idle inner) }
    ensures orderly { IsOrderly T.idle space.new }
    ensures resumed { IfOk result (λ started. MatchOption (pending_of space.old ticket) ⊥ (λ x.
        Resumes T.procedures space.old x (outcome_of outcome) (answer_of started) space.new)) }
    ensures parse { IfOk result (λ started. IfParsing started (IsParseOf space.new)) }
    ensures without_memory { opens_nothing (outcome_of outcome) ≡ true → IsOk result }
    ensures early { IsBroughtRefused T.procedures space.old ticket (outcome_of outcome)
        → IsOk result }
    ensures err { OnErr result (space.new ≡ space.old) }
    ensures back { IfErr result (λ back. outcome_of back ≡ outcome_of outcome) }
{
    match outcome {
        Outcome::NoMemory => Ok(refused(space, ticket, None)),
        Outcome::Refused(code) => Ok(refused(space, ticket, Some(code))),
        Outcome::Itself => match open_pinned(space, ticket) {
            Ok(reply) => Ok(Started::Done(reply)),
            Err(_) => Err(Outcome::Itself),
        },
        Outcome::Made(face, inner) => match open_made(space, ticket, face, inner) {
            Ok(reply) => Ok(Started::Done(reply)),
            Err(left) => Err(Outcome::Made(left.face, left.inner)),
        },
        Outcome::Reparse(text) => match look_again(space, ticket, text.as_name()) {
            Ok(started) => Ok(started),
            Err(_) => Err(Outcome::Reparse(text)),
        },
    }
}

/// Ends the open of a ticket whose parse was refused with this number, or found no memory, and answers so.
fn refused<T: TypeSet, H: HandleTable>(
    space: &mut Space<T, H>,
    ticket: u64,
    code: Option<u16>,
) -> Started<T>
    requires orderly { IsOrderly T.idle space.old }
    requires shadows { AreShadowsFit space.old }
    requires settled { IsSettled space.old }
    requires pending { IsSome (pending_of space.old ticket) }
    ensures orderly { IsOrderly T.idle space.new }
    ensures resumed { MatchOption (pending_of space.old ticket) ⊥ (λ x.
        Resumes T.procedures space.old x (refusal_of code) (answer_of result) space.new) }
    ensures parse { IfParsing result (IsParseOf space.new) }
{
    let Some(reply) = refuse_parse(space, ticket, code) else {
        unreachable!();
    };
    Started::Done(reply)
}
