//! An open whose parse made an instance, which becomes an object.

ghost use Rattle.std.specs.Prelude.{◌≡◌, ◌≢◌, ◌<◌, ◌==◌, ◌||◌, ◌∷◌, [], None, Some, Ok, true, All, IsSome, IsOk, IfOk, IfErr, OnOk, OnErr, MatchOption};
ghost use Rattle.ob_base.specs.declared.status.Status.TheVariants.{InvalidParameter, InsufficientResources};
ghost use Rattle.std.specs.Arc.{arc_value};
ghost use Rattle.std.specs.List.{find};
ghost use Rattle.std.specs.Option.{option_and_then, option_map};
ghost use Rattle.ob_model.specs.declared.reply.Answer.TheVariants.{Done};
ghost use Rattle.ob_model.specs.declared.Body.TheVariants.{Other};
ghost use Rattle.ob_model.specs.Grants.{Grants, first_refusal, grant_refusal, is_table_full};
ghost use Rattle.ob_model.specs.Parses.{Resumes, parsed_state};
ghost use Rattle.ob_model.specs.PendingOpens.{face_in, pending_of, with_instance};
ghost use Rattle.ob_model.specs.Procedures.{EndsMade};
ghost use Rattle.ob_model.specs.Refusals.{answers};
ghost use Rattle.ob_model.specs.Settle.{settle};
ghost use Rattle.ob_model.specs.Sound.{IsSound};
ghost use Rattle.ob_model.specs.State.{is_live, insert_object};
ghost use Rattle.ob_model.specs.Types.{is_wanted};
ghost use Rattle.ob_objects.specs.Changes.{without_object};
ghost use Rattle.ob_objects.specs.Store.{objects_of, rows_of};
ghost use Rattle.ob_opens.specs.Instance.{instance_object};
ghost use Rattle.ob_opens.specs.Refusing.{IsBroughtRefused};
ghost use Rattle.ob_space.specs.Orderly.{IsBetweenSteps, IsOrderly};

use crate::give_up::end_made;
use crate::pinned::options_by;
use crate::unpin::end_parse;
use ob_base::{Handle, ObjId, Proc, Status};
use ob_handles::HandleTable;
use ob_lookup::CachedStore;
use ob_model::{GrantOptions, Reply, Wanted};
use ob_objects::{StoredBody, StoredObject};
use ob_space::{Space, grant, is_live, is_table_full, status_alone, with_handle};
use ob_types::{Reason, TypeSet, is_one_kind};
use std::alloc::Global;
use std::sync::Arc;

/// An instance that a parse made and that is no object yet, since its open found no memory: it is handed back, so that
/// the open may be tried again. `F` is its face and `I` its inner value.
#[derive(Drop)]
pub(crate) struct NotOpened<F, I> {
    /// The face of the instance. Contracts see it by `arc_value`.
    pub face: Arc<F, Global>,
    /// Its inner value.
    pub inner: I,
}

/// An instance that a parse made, which a store held under a ticket.
#[derive(Drop)]
struct Instance<F, I> {
    face: Arc<F, Global>,
    inner: I,
}

/// Why an instance is given no handle, and its inner value, which is to be deleted.
#[derive(Drop)]
struct Refused<I> {
    status: Status,
    inner: I,
}

/// Answers an open whose parse made an instance: with a handle to that instance, which is an object from now on,
/// under the ticket as its number, without a name, temporary and not exclusive. The open is pending no longer, and what
/// it alone held goes. Where no handle is given, the instance is deleted first.
///
/// It asks that an open is pending under this ticket, that the instance counts no open handle, and that the state
/// is orderly, sound and settled; it leaves it orderly. The only fault is out of memory, and then nothing has changed:
/// the open is still pending, and the instance is handed back.
///
/// Refusals, in their order: `ProcessGone` where the process that asked is live no longer; `ObjectTypeMismatch` where
/// the instance isn't of the type that was asked for; and those of a grant. Those before the set is asked take no memory.
///
/// Source: Windows Internals, Object Manager (parse methods); that the open is judged in the state as it is when its
/// parse has ended, the number of the instance, and the order of refusals, are this profile.
pub(crate) fn open_made<T: TypeSet, H: HandleTable>(
    space: &mut Space<T, H>,
    ticket: u64,
    face: Arc<T::Face, Global>,
    inner: T::Inner,
) -> Result<Reply, NotOpened<T::Face, T::Inner>>
    requires between { IsBetweenSteps T.idle space.old }
    requires pending { IsSome (pending_of space.old ticket) }
    requires idle { T.idle inner }
    ensures orderly { IsOrderly T.idle space.new }
    ensures resumed { IfOk result (λ reply. MatchOption (pending_of space.old ticket) ⊥ (λ x.
        Resumes T.procedures space.old x (Some (EndsMade (arc_value face) inner))
        (Done reply) space.new)) }
    ensures early { IsBroughtRefused T.procedures space.old ticket
        (Some (EndsMade (arc_value face) inner)) → IsOk result }
    ensures err { OnErr result (space.new ≡ space.old) }
    ensures face { IfErr result (λ left. arc_value left.face ≡ arc_value face) }
    ensures inner { IfErr result (λ left. left.inner ≡ inner) }
{
    let Some(pending) = space.pending.get(ticket) else {
        unreachable!();
    };
    let (process, wanted, options) = (pending.process, pending.wanted, options_by(pending.attrs));
    if !is_live(space, process) {
        drop(face);
        return Ok(refuse_made(space, ticket, inner, Status::ProcessGone));
    }
    if !is_made_wanted::<T>(&face, wanted) {
        drop(face);
        return Ok(refuse_made(space, ticket, inner, Status::ObjectTypeMismatch));
    }
    match grant_made(space, process, ticket, options, face, inner) {
        Ok(Ok(value)) => {
            end_parse(space, ticket);
            Ok(with_handle(Status::Success, value))
        }
        Ok(Err(refused)) => Ok(refuse_made(space, ticket, refused.inner, refused.status)),
        Err(left) => Err(left),
    }
}

/// Whether an instance with this face is of the type that is asked for.
fn is_made_wanted<T: TypeSet>(face: &T::Face, wanted: Wanted<T::Kind>) -> bool
    ensures { (inner : T.Inner) → result ≡ is_wanted T.procedures wanted (Other face.now inner) }
{
    match wanted {
        Wanted::Anything => true,
        Wanted::Directory => false,
        Wanted::Link => false,
        Wanted::Kind(kind) => is_one_kind::<T>(T::kind_of(face), kind),
    }
}

/// Ends the open of a ticket with a refusal, and gives its answer: the instance that its parse made is deleted, and then
/// what the open alone held goes.
fn refuse_made<T: TypeSet, H: HandleTable>(
    space: &mut Space<T, H>,
    ticket: u64,
    inner: T::Inner,
    status: Status,
) -> Reply
    requires between { IsBetweenSteps T.idle space.old }
    requires pending { IsSome (pending_of space.old ticket) }
    requires idle { T.idle inner }
    ensures orderly { IsOrderly T.idle space.new }
    ensures answer { Done result ≡ answers status }
    ensures ended { (face : T.Face) → space.new
        ≡ settle T.procedures (parsed_state space.old ticket (Some (EndsMade face inner))) }
{
    end_made(space, ticket, inner);
    status_alone(status)
}

/// Puts an instance under its ticket, and grants a live process a handle to it, unless the grant is refused before the set
/// is asked. Where the set refuses, the instance is taken out again, and so it is where memory runs out: then all is as
/// it was.
fn grant_made<T: TypeSet, H: HandleTable>(
    space: &mut Space<T, H>,
    process: Proc,
    ticket: u64,
    options: GrantOptions,
    face: Arc<T::Face, Global>,
    inner: T::Inner,
) -> Result<Result<Handle, Refused<T::Inner>>, NotOpened<T::Face, T::Inner>>
    requires orderly { IsOrderly T.idle space.old }
    requires sound { IsSound space.old }
    requires live { is_live space.old process ≡ true }
    requires free { All (λ x. x.id ≢ ticket) space.old.objects }
    requires drawn { ticket < space.old.next_id }
    requires idle { T.idle inner }
    ensures orderly { IsOrderly T.idle space.new }
    ensures granted { IfOk result (λ told. IfOk told (λ value.
        Grants T.procedures (with_instance space.old ticket
        (arc_value face) inner) process ticket options Reason.Opened (Ok value) space.new)) }
    ensures refused { IfOk result (λ told. IfErr told (λ refused.
        grant_refusal T.procedures (with_instance space.old ticket
        (arc_value face) inner) process ticket options Reason.Opened ≡ Some refused.status)) }
    ensures early { (options.exclusive || is_table_full space.old process) ≡ true → IsOk result }
    ensures same { IfOk result (λ told. OnErr told (space.new ≡ space.old)) }
    ensures given { IfOk result (λ told. IfErr told (λ refused. refused.inner ≡ inner)) }
    ensures err { OnErr result (space.new ≡ space.old) }
    ensures face { IfErr result (λ left. arc_value left.face ≡ arc_value face) }
    ensures inner { IfErr result (λ left. left.inner ≡ inner) }
{
    if let Some(status) = early_refusal(space, process, options) {
        drop(face);
        return Ok(Err(Refused { status, inner }));
    }
    put_instance(&mut space.store, ObjId(ticket), face, inner)?;
    match grant(space, process, ObjId(ticket), options, Reason::Opened) {
        Ok(Ok(value)) => Ok(Ok(value)),
        Ok(Err(status)) => {
            let Instance { inner, .. } = take_instance(&mut space.store, ObjId(ticket));
            Ok(Err(Refused { status, inner }))
        }
        Err(_) => {
            let Instance { face, inner } = take_instance(&mut space.store, ObjId(ticket));
            Err(NotOpened { face, inner })
        }
    }
}

/// The first refusal of a grant of an instance of those that come before the set's procedure: it isn't exclusive.
fn early_refusal<T: TypeSet, H: HandleTable>(
    space: &Space<T, H>,
    process: Proc,
    options: GrantOptions,
) -> Option<Status>
    ensures { result ≡ first_refusal (
        (options.exclusive, InvalidParameter)
        ∷ (is_table_full space.now process, InsufficientResources) ∷ []) }
{
    if options.exclusive {
        Some(Status::InvalidParameter)
    } else if is_table_full(space, process) {
        Some(Status::InsufficientResources)
    } else {
        None
    }
}

/// Puts an instance into a store under an id that no object has. The only fault is out of memory: then the store is as
/// it was, and the instance is handed back.
fn put_instance<T: TypeSet>(
    store: &mut CachedStore<T>,
    id: ObjId,
    face: Arc<T::Face, Global>,
    inner: T::Inner,
) -> Result<(), NotOpened<T::Face, T::Inner>>
    requires free { All (λ x. x.id ≢ id) (objects_of store.old) }
    ensures object { OnOk result (objects_of store.new
        ≡ insert_object (instance_object id (arc_value face) inner) (objects_of store.old)) }
    ensures rows { OnOk result (rows_of store.new ≡ rows_of store.old) }
    ensures err { OnErr result (store.new ≡ store.old) }
    ensures face { IfErr result (λ left. arc_value left.face ≡ arc_value face) }
    ensures inner { IfErr result (λ left. left.inner ≡ inner) }
{
    let object = StoredObject {
        permanent: false,
        exclusive: false,
        body: StoredBody::Other { face, inner },
    };
    let Err(back) = store.try_insert(id, object) else {
        return Ok(());
    };
    let StoredBody::Other { face, inner } = back.body else {
        unreachable!();
    };
    Err(NotOpened { face, inner })
}

/// Takes an object of the set out of a store, and gives its face and its inner value.
fn take_instance<T: TypeSet>(store: &mut CachedStore<T>, id: ObjId) -> Instance<T::Face, T::Inner>
    requires there { IsSome (option_and_then face_in (option_map (λ x.
        x.body) (find (λ x. x.id == id) (objects_of store.old)))) }
    ensures body { option_map (λ x. x.body) (find (λ x. x.id == id) (objects_of store.old))
        ≡ Some (Other (arc_value result.face) result.inner) }
    ensures gone { store.new ≡ without_object store.old id }
{
    let Some(stored) = store.remove(id) else {
        unreachable!();
    };
    let StoredBody::Other { face, inner } = stored.body else {
        unreachable!();
    };
    Instance { face, inner }
}
