//! Making an object: what is made, and the making itself.

ghost use Rattle.std.specs.Prelude.{◌≡◌, ◌&&◌, ◌||◌, ℕ, true, false, [], Option, None, Some, IsOk, IfOk, IfErr, OnErr};
ghost use Rattle.std.specs.Option.{is_some};
ghost use Rattle.ob_base.specs.Attrs.{has_flag, permanent_flag, exclusive_flag};
ghost use Rattle.ob_types.specs.Told.{IsTold};
ghost use Rattle.ob_model.specs.declared.reply.Answer.TheVariants.{Done};
ghost use Rattle.ob_model.specs.Grants.{is_table_full};
ghost use Rattle.ob_model.specs.State.{is_live, is_store_full};
ghost use Rattle.ob_model.specs.Settle.{IsSettled};
ghost use Rattle.ob_model.specs.Creates as machine;
ghost use Rattle.ob_model.specs.Creates.{is_stampless};
ghost use Rattle.ob_objects.specs.Store.{body_of_stored, entries_in};
ghost use Rattle.ob_space.specs.Placing.{spot_of, IsVacantSpot, IsVacant};
ghost use Rattle.ob_commands.specs.Making.{making_of};
ghost use Rattle.ob_space.specs.Orderly.{IsOrderly, IsIdleBody};

use ob_base::{Attrs, ObjId, Proc, Status};
use ob_handles::HandleTable;
use ob_lookup::Remainder;
use ob_model::{Bytes, Reply, Wanted};
use ob_names::{Name, NameBuf};
use ob_objects::{StoredBody, StoredObject};
use ob_space::{
    Space, Spot, is_full, is_stampless, place_new, status_alone, try_room, with_handle,
};
use ob_types::{Refusal, TypeSet, laws};
use std::alloc::{AllocError, Global};
use std::sync::Arc;

/// The object that a create is to make.
///
/// Source: ZwCreateDirectoryObject, ZwCreateSymbolicLinkObject and ZwCreateEvent (Windows Driver Kit).
#[derive(Clone, Copy)]
pub enum Making<'a, K> {
    /// A directory.
    Directory,
    /// A link to a target.
    Link { target: &'a [u8] },
    /// An object of a kind of the set, with these arguments.
    Object { kind: K, args: &'a [u8] },
}

/// A link to a target, as it is handed in: any bytes, which a create judges. Source: this profile.
pub fn link_to<K>(target: &Bytes) -> Making<'_, K>
    ensures { making_of result ≡ (λ shadow. machine.MakesLink target.now) }
{
    Making::Link {
        target: target.as_slice(),
    }
}

/// An object of a kind, with arguments as they are handed in: any bytes, which the set judges. Source: this profile.
pub fn object_of<K>(kind: K, args: &Bytes) -> Making<'_, K>
    ensures { making_of result ≡ (λ shadow. machine.MakesObject kind args.now) }
{
    Making::Object {
        kind,
        args: args.as_slice(),
    }
}

/// The type of what a create makes.
pub(crate) fn type_made<K: Copy>(making: Making<'_, K>) -> Wanted<K>
    ensures { (shadow : Option ℕ) → result ≡ machine.type_made (making_of making.entry shadow) }
{
    match making {
        Making::Directory => Wanted::Directory,
        Making::Link { .. } => Wanted::Link,
        Making::Object { kind, .. } => Wanted::Kind(kind),
    }
}

/// Whether a create's parameters are fit: a link's target has 1 to 32,767 bytes of the profile.
pub(crate) fn is_fit<K>(making: &Making<'_, K>) -> bool
    ensures { result ≡ machine.is_fit (making_of making.now None) }
{
    match making {
        Making::Link { target } => Name::read(target).is_ok() && !target.is_empty(),
        Making::Directory | Making::Object { .. } => true,
    }
}

/// Makes an object at a component that is free in a directory, and opens a handle to it. A directory gets this shadow, where one
/// is given.
pub(crate) fn make_named<T: TypeSet, H: HandleTable>(
    space: &mut Space<T, H>,
    process: Proc,
    directory: ObjId,
    component: Remainder<'_>,
    attrs: Attrs,
    shadow: Option<ObjId>,
    making: Making<'_, T::Kind>,
) -> Result<Reply, AllocError>
    requires orderly { IsOrderly T.idle space.old }
    requires settled { IsSettled space.old }
    requires live { is_live space.old process ≡ true }
    requires fit { machine.is_fit (making_of making None) ≡ true }
    requires vacant { IsVacant space.old directory component }
    ensures orderly { IsOrderly T.idle space.new }
    ensures step { IfOk result (λ reply.
        machine.Makes T.procedures space.old process attrs (making_of making.entry shadow) (Some
        (directory, component.entry))
        (Done reply) space.new) }
    ensures full { (is_table_full space.old process || is_store_full space.old
        || is_stampless space.old) ≡ true → IsOk result }
    ensures err { OnErr result (space.new ≡ space.old) }
{
    if is_full(space, process) || is_stampless(space) {
        return Ok(status_alone(Status::InsufficientResources));
    }
    let name = component.into_name(space.alloc)?;
    let spot = Spot { directory, name };
    make_in_room(space, process, Some(spot), attrs, shadow, making)
}

/// Makes an object without a name, and opens a handle to it. A directory gets this shadow, where one is given.
pub(crate) fn make_unnamed<T: TypeSet, H: HandleTable>(
    space: &mut Space<T, H>,
    process: Proc,
    attrs: Attrs,
    shadow: Option<ObjId>,
    making: Making<'_, T::Kind>,
) -> Result<Reply, AllocError>
    requires orderly { IsOrderly T.idle space.old }
    requires settled { IsSettled space.old }
    requires live { is_live space.old process ≡ true }
    requires fit { machine.is_fit (making_of making None) ≡ true }
    ensures orderly { IsOrderly T.idle space.new }
    ensures step { IfOk result (λ reply.
        machine.Makes T.procedures space.old process attrs (making_of making.entry shadow) None
        (Done reply) space.new) }
    ensures full { (is_table_full space.old process || is_store_full space.old) ≡ true
        → IsOk result }
    ensures err { OnErr result (space.new ≡ space.old) }
{
    if is_full(space, process) {
        return Ok(status_alone(Status::InsufficientResources));
    }
    make_in_room(space, process, None, attrs, shadow, making)
}

/// Makes an object for which there is room, at a spot, where one is given, and opens a handle to it.
/// All growths come before the first procedure of the set that changes it, and are judged before the set's refusal of
/// the arguments. All that is there stays: an object more, with its handle, releases nothing.
fn make_in_room<T: TypeSet, H: HandleTable>(
    space: &mut Space<T, H>,
    process: Proc,
    spot: Option<Spot>,
    attrs: Attrs,
    shadow: Option<ObjId>,
    making: Making<'_, T::Kind>,
) -> Result<Reply, AllocError>
    requires orderly { IsOrderly T.idle space.old }
    requires settled { IsSettled space.old }
    requires live { is_live space.old process ≡ true }
    requires fit { machine.is_fit (making_of making None) ≡ true }
    requires room { (is_table_full space.old process || is_store_full space.old) ≡ false }
    requires stamp { is_some spot ≡ true → is_stampless space.old ≡ false }
    requires vacant { IsVacantSpot space.old spot }
    ensures orderly { IsOrderly T.idle space.new }
    ensures step { IfOk result (λ reply.
        machine.MakesInRoom T.procedures space.old process attrs (making_of making.entry shadow)
        (spot_of spot) (Done reply)
        space.new) }
    ensures err { OnErr result (space.new ≡ space.old) }
{
    let body = match make_body::<T>(space.alloc, shadow, making) {
        Ok(body) => body,
        Err(Refusal::Code(code)) => {
            try_room(space, process, spot)?;
            return Ok(status_alone(Status::TypeRefused(code)));
        }
        Err(Refusal::Memory) => return Err(AllocError),
    };
    let object = object_made(body, attrs, spot.is_some());
    match place_new(space, process, spot, object, attrs.is_inherit())? {
        Ok(value) => Ok(with_handle(Status::Success, value)),
        Err(code) => Ok(status_alone(Status::TypeRefused(code))),
    }
}

/// The body of what is made.
fn make_body<T: TypeSet>(
    alloc: Global,
    shadow: Option<ObjId>,
    making: Making<'_, T::Kind>,
) -> Result<StoredBody<T::Face, T::Inner>, Refusal>
    requires fit { machine.is_fit (making_of making None) ≡ true }
    ensures accepted { IfOk result (λ _. machine.make_refusal T.procedures (making_of making.entry shadow)
        ≡ None) }
    ensures made { IfOk result (λ body. body_of_stored body
        ≡ machine.body_made T.procedures (making_of making.entry shadow)) }
    ensures empty { IfOk result (λ body. entries_in body ≡ []) }
    ensures idle { IfOk result (λ body. IsIdleBody T.idle (body_of_stored body)) }
    ensures refused { IfErr result (λ refusal.
        IsTold refusal (machine.make_refusal T.procedures (making_of making.entry shadow))) }
{
    match making {
        Making::Directory => Ok(StoredBody::directory(alloc, shadow)),
        Making::Link { target } => {
            let target = NameBuf::from_name(alloc, Name::new(target))?;
            Ok(StoredBody::Link(target))
        }
        Making::Object { kind, args } => {
            laws::made_idle::<T>();
            let (face, inner) = T::make(alloc, kind, args)?;
            let Ok(face) = Arc::new(alloc, face) else {
                return Err(Refusal::Memory);
            };
            Ok(StoredBody::Other { face, inner })
        }
    }
}

/// A new object that is at a name or nowhere: it is permanent only where it has a name.
fn object_made<F, I>(body: StoredBody<F, I>, attrs: Attrs, named: bool) -> StoredObject<F, I>
    ensures { result ≡ record {
      permanent = named && has_flag permanent_flag attrs;
      exclusive = has_flag exclusive_flag attrs;
      body = body;
    } }
{
    StoredObject {
        permanent: named && attrs.is_permanent(),
        exclusive: attrs.is_exclusive(),
        body,
    }
}
