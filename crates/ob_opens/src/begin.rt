//! An open that begins to wait for a parse.

ghost use Rattle.std.specs.Prelude.{◌≡◌, true, Some, IsOk, IfOk, OnErr};
ghost use Rattle.std.specs.Arc.{arc_value};
ghost use Rattle.ob_model.specs.Opens.{Begins};
ghost use Rattle.ob_model.specs.PendingOpens.{face_of};
ghost use Rattle.ob_model.specs.State.{is_store_full};
ghost use Rattle.ob_space.specs.Looking.{IsParsing};
ghost use Rattle.ob_space.specs.Orderly.{IsBetweenSteps, IsOrderly};
ghost use Rattle.ob_opens.specs.Waiting.{answer_of, IfParsing, IsParseOf};

use crate::pin::{OpenRequest, begin_parse};
use crate::started::Started;
use ob_base::{ObjId, Status};
use ob_handles::HandleTable;
use ob_lookup::Remainder;
use ob_model::Bytes;
use ob_objects::StoredBody;
use ob_space::{Space, is_store_full, status_alone};
use ob_types::{Parsing, TypeSet};
use std::alloc::{AllocError, Global};
use std::sync::Arc;

/// An open that reached an object whose kind parses is pending from now on, and its caller is to run the parse of
/// that object over what follows it in the name, with so many reparses left. Refused with `InsufficientResources`
/// where there are 1,048,576 objects and pending opens, or no number is left; then nothing has changed, and no memory
/// was taken. The only fault is out of memory, and then nothing has changed.
///
/// It asks that the state is orderly, sound and settled, and that the object is one whose kind parses; it leaves the
/// state orderly.
///
/// Source: Windows Internals, Object Manager (parse methods); that the parse is run between two steps is this
/// profile.
pub(crate) fn begin<T: TypeSet, H: HandleTable>(
    space: &mut Space<T, H>,
    request: OpenRequest<T::Kind>,
    object: ObjId,
    rest: Remainder<'_>,
    left: u32,
) -> Result<Started<T>, AllocError>
    requires between { IsBetweenSteps T.idle space.old }
    requires parses { IsParsing T.procedures space.old object }
    ensures orderly { IsOrderly T.idle space.new }
    ensures begun { IfOk result (λ started.
        Begins T.procedures space.old request.process request.attrs request.wanted object rest.entry
        left (answer_of started) space.new) }
    ensures parse { IfOk result (λ started. IfParsing started (IsParseOf space.new)) }
    ensures full { is_store_full space.old ≡ true → IsOk result }
    ensures unchanged { OnErr result (space.new ≡ space.old) }
{
    if is_store_full(space) {
        drop(rest);
        return Ok(Started::Done(status_alone(Status::InsufficientResources)));
    }
    let parts = parts_of_parse(space, object, &rest);
    drop(rest);
    let (face, asked, kept) = parts?;
    match begin_parse(space, request, object, kept, left) {
        Ok(ticket) => Ok(Started::Parsing(Parsing::new(ticket, face, asked))),
        Err(fault) => {
            drop(face);
            drop(asked);
            Err(fault)
        }
    }
}

/// The parts for a parse that is waited for: the face of the object, and what follows the object in the name, once
/// for the parse and once for the open that waits.
pub(crate) fn parts_of_parse<T: TypeSet, H: HandleTable>(
    space: &Space<T, H>,
    object: ObjId,
    rest: &Remainder<'_>,
) -> Result<(Arc<T::Face, Global>, Bytes, Bytes), AllocError>
    requires parses { IsParsing T.procedures space.now object }
    ensures face { IfOk result (λ parts. face_of space.now object ≡ Some (arc_value parts.0)) }
    ensures asked { IfOk result (λ parts. parts.1 ≡ rest.now) }
    ensures kept { IfOk result (λ parts. parts.2 ≡ rest.now) }
{
    let face = face_at(space, object)?;
    let asked = text_of(space.alloc, rest)?;
    let kept = text_of(space.alloc, rest)?;
    Ok((face, asked, kept))
}

/// A copy of what follows an object in a name.
fn text_of(alloc: Global, rest: &Remainder<'_>) -> Result<Bytes, AllocError>
    ensures { IfOk result (λ text. text ≡ rest.now) }
{
    Bytes::from_slice(alloc, rest.as_slice())
}

/// The face of an object whose kind parses, shared with the store.
fn face_at<T: TypeSet, H: HandleTable>(
    space: &Space<T, H>,
    object: ObjId,
) -> Result<Arc<T::Face, Global>, AllocError>
    requires parses { IsParsing T.procedures space.now object }
    ensures face { IfOk result (λ face. face_of space.now object ≡ Some (arc_value face)) }
{
    let Some(stored) = space.store.get(object) else {
        unreachable!();
    };
    let StoredBody::Other { face, .. } = &stored.body else {
        unreachable!();
    };
    Arc::clone(face)
}
