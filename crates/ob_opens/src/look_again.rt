//! An open whose parse ended with a text that is to be looked up.

ghost use Rattle.std.specs.Prelude.{◌≡◌, true, Some, IsOk, IfOk, IfErr, OnErr, IsSome, MatchOption};
ghost use Rattle.ob_model.specs.Parses.{Resumes};
ghost use Rattle.ob_model.specs.PendingOpens.{pending_of, without_pending};
ghost use Rattle.ob_model.specs.Procedures.{EndsReparse};
ghost use Rattle.ob_model.specs.State.{is_store_full};
ghost use Rattle.ob_opens.specs.Again.{OpensAgain};
ghost use Rattle.ob_model.specs.Looks as machine;
ghost use Rattle.ob_space.specs.Looking.{IsParsing};
ghost use Rattle.ob_space.specs.Orderly.{IsBetweenSteps, IsOrderly};
ghost use Rattle.ob_opens.specs.Refusing.{IsBroughtRefused};
ghost use Rattle.ob_opens.specs.Waiting.{answer_of, IfParsing, IsParseOf};

use crate::begin::parts_of_parse;
use crate::reparse::{begin_again, mode_of_open, open_found, refuse_open};
use crate::started::Started;
use crate::unpin::end_parse;
use ob_base::{ObjId, Status};
use ob_handles::HandleTable;
use ob_lookup::{Look, Remainder};
use ob_names::Name;
use ob_space::{Space, is_full_without, is_live, look_up_again, status_alone};
use ob_types::{Parsing, TypeSet};
use std::alloc::AllocError;

/// Looks up the text that the parse of a pending open ended with, in the state as it is now, and does what that leads
/// to: the object that it names is opened, the refusal is answered, or another parse is waited for. A refusal before
/// the set is asked takes no memory where the lookup follows no link.
pub(crate) fn look_again<T: TypeSet, H: HandleTable>(
    space: &mut Space<T, H>,
    ticket: u64,
    text: Name<'_>,
) -> Result<Started<T>, AllocError>
    requires between { IsBetweenSteps T.idle space.old }
    requires pending { IsSome (pending_of space.old ticket) }
    ensures orderly { IsOrderly T.idle space.new }
    ensures resumed { IfOk result (λ started. MatchOption (pending_of space.old ticket) ⊥ (λ x.
        Resumes T.procedures space.old x (Some (EndsReparse text.entry))
        (answer_of started) space.new)) }
    ensures early { IsBroughtRefused T.procedures space.old ticket (Some (EndsReparse text.entry))
        → IsOk result }
    ensures parse { IfOk result (λ started. IfParsing started (IsParseOf space.new)) }
    ensures err { OnErr result (space.new ≡ space.old) }
{
    let Some(pending) = space.pending.get(ticket) else {
        unreachable!();
    };
    let (process, left) = (pending.process, pending.left);
    let mode = mode_of_open(pending.wanted, pending.attrs);
    if !is_live(space, process) {
        end_parse(space, ticket);
        return Ok(Started::Done(status_alone(Status::ProcessGone)));
    }
    match look_up_again(space, process, text, mode, left)? {
        Look::Refused(status) => Ok(Started::Done(refuse_open(space, ticket, status))),
        Look::At(object) => Ok(Started::Done(open_found(space, ticket, object)?)),
        Look::Vacant { .. } => unreachable!(),
        Look::Parse { object, rest, left } => {
            let begun = begin_anew(space, ticket, object, rest, left)?;
            Ok(begun)
        }
    }
}

/// The open of a ticket is pending again, under another one: its caller is to run the parse of this object over this
/// rest, with so many reparses left. Refused with `InsufficientResources` where there are 1,048,576 objects and other
/// pending opens, or no number is left; then the open ends, and no memory was taken.
fn begin_anew<T: TypeSet, H: HandleTable>(
    space: &mut Space<T, H>,
    ticket: u64,
    object: ObjId,
    rest: Remainder<'_>,
    left: u32,
) -> Result<Started<T>, AllocError>
    requires between { IsBetweenSteps T.idle space.old }
    requires pending { IsSome (pending_of space.old ticket) }
    requires parses { IsParsing T.procedures space.old object }
    ensures orderly { IsOrderly T.idle space.new }
    ensures begun { IfOk result (λ started.
        OpensAgain T.procedures space.old ticket (machine.Parse object rest.entry left)
        (answer_of started) space.new) }
    ensures parse { IfOk result (λ started. IfParsing started (IsParseOf space.new)) }
    ensures full { is_store_full (without_pending space.old ticket) ≡ true → IsOk result }
    ensures unchanged { OnErr result (space.new ≡ space.old) }
{
    if is_full_without(space, ticket) {
        drop(rest);
        let status = Status::InsufficientResources;
        return Ok(Started::Done(refuse_open(space, ticket, status)));
    }
    let parts = parts_of_parse(space, object, &rest);
    drop(rest);
    let (face, asked, kept) = parts?;
    match begin_again(space, ticket, object, kept, left) {
        Ok(next) => Ok(Started::Parsing(Parsing::new(next, face, asked))),
        Err(fault) => {
            drop(face);
            drop(asked);
            Err(fault)
        }
    }
}
