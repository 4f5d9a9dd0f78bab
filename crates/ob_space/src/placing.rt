//! Placing a new object: its creator gets a handle, and it is put into the store, named, and opened by
//! the set, or taken back.

ghost use Rattle.std.specs.Prelude.{◌≡◌, ◌≢◌, ◌<◌, ◌||◌, [], None, Some, true, false, All};
ghost use Rattle.std.specs.Prelude.{IfOk, IfErr, OnErr};
ghost use Rattle.std.specs.Option.{option_map, is_some};
ghost use Rattle.ob_model.specs.State.{is_live, is_store_full};
ghost use Rattle.ob_model.specs.Creates.{is_stampless, dropped};
ghost use Rattle.ob_model.specs.Settle.{deleted_one};
ghost use Rattle.ob_model.specs.Grants.{is_table_full, IsFreeValue, open_refusal_of};
ghost use Rattle.ob_objects.specs.Store.{IsStore, rows_of, entries_in, body_of_stored, stored_at};
ghost use Rattle.ob_objects.specs.Changes.{without_object};
ghost use Rattle.ob_space.specs.Placing.{spot_of, IsVacantSpot, IsFreeSpot, with_placed, without_name_in, IsOpened, IsTakenBack, placed};
ghost use Rattle.ob_space.specs.Orderly.{IsOrderly, IsIdleBody};

use crate::space::Space;
use ob_base::{Handle, ObjId, Proc};
use ob_handles::HandleTable;
use ob_lookup::CachedStore;
use ob_names::NameBuf;
use ob_objects::{StoredBody, StoredObject};
use ob_types::{Reason, TypeSet};
use std::alloc::AllocError;

/// Where a new object is to be: at a name in a directory.
#[derive(Drop)]
pub struct Spot {
    /// The directory's id.
    pub directory: ObjId,
    /// The name of the entry, one component of a path.
    pub name: NameBuf,
}

/// Makes a new object part of the namespace: its creator gets a handle to it, it is put into the store
/// under the next id, and its name, where a spot is given, into the spot's directory under the next
/// stamp; then the set opens it. It gives the handle.
///
/// It asks that the process is live and has room, that an id and, where a spot is given, a stamp are
/// left, that the spot is vacant, that the object, if it is a directory, is empty, and that its inner
/// value counts no open handle.
///
/// Where the set refuses, with its number, handle, name and object are taken back, the object is
/// deleted, and its id stays drawn; all else is as it was. The only fault is out of memory, and then
/// nothing has changed and the set wasn't asked.
///
/// Source: Windows Internals, Object Manager (open methods); the numbers are this profile.
pub fn place_new<T: TypeSet, H: HandleTable>(
    space: &mut Space<T, H>,
    process: Proc,
    spot: Option<Spot>,
    object: StoredObject<T::Face, T::Inner>,
    inherit: bool,
) -> Result<Result<Handle, u16>, AllocError>
    requires orderly { IsOrderly T.idle space.old }
    requires live { is_live space.old process ≡ true }
    requires room { (is_table_full space.old process || is_store_full space.old) ≡ false }
    requires stamp { is_some spot ≡ true → is_stampless space.old ≡ false }
    requires vacant { IsVacantSpot space.old spot }
    requires empty { entries_in object.body ≡ [] }
    requires idle { IsIdleBody T.idle (body_of_stored object.body) }
    ensures orderly { IsOrderly T.idle space.new }
    ensures accepted { IfOk result (λ told. IfOk told (λ value.
        (open_refusal_of T.procedures space.old.set (body_of_stored object.body) Reason.Created
        ≡ None)
        × IsFreeValue space.old process value
        × (space.new
        ≡ placed T.procedures space.old process (spot_of spot) object value inherit))) }
    ensures refused { IfOk result (λ told. IfErr told (λ code.
        (open_refusal_of T.procedures space.old.set (body_of_stored object.body) Reason.Created
        ≡ Some code)
        × (space.new ≡ dropped T.procedures space.old (body_of_stored object.body)))) }
    ensures err { OnErr result (space.new ≡ space.old) }
{
    let (id, stamp, order) = (ObjId(space.next_id), space.next_stamp, space.next_order);
    let named = spot.is_some();
    // The contract of the length gives the invariant of every store.
    let _ = space.store.len();
    // There is room, so that memory alone can lack.
    let Ok(value) = space.processes.grant(process, id, inherit, order) else {
        drop(spot);
        drop(object);
        return Err(AllocError);
    };
    match put_and_open(&mut space.store, &mut space.set, id, stamp, spot, object) {
        Ok(Ok(())) => {
            space.next_id += 1;
            space.next_stamp += named as u64;
            space.next_order += 1;
            Ok(Ok(value))
        }
        Ok(Err(code)) => {
            space.processes.take(process, value);
            space.next_id += 1;
            Ok(Err(code))
        }
        Err(fault) => {
            space.processes.take(process, value);
            Err(fault)
        }
    }
}

/// Puts an object into a store, and its name, where a spot is given, into the spot's directory; then
/// the set opens it. Where the set refuses, name and object are taken back, and the object is deleted.
/// The only fault is out of memory, and then nothing has changed.
fn put_and_open<T: TypeSet>(
    store: &mut CachedStore<T>,
    set: &mut T,
    id: ObjId,
    stamp: u64,
    spot: Option<Spot>,
    object: StoredObject<T::Face, T::Inner>,
) -> Result<Result<(), u16>, AllocError>
    requires store { IsStore store.old }
    requires id { stored_at store.old id ≡ None }
    requires free { IsFreeSpot store.old stamp spot }
    requires newest { All (λ row. row.stamp < stamp) (rows_of store.old) }
    requires unnamed { All (λ row. row.object ≢ id) (rows_of store.old) }
    requires empty { entries_in object.body ≡ [] }
    requires idle { IsIdleBody T.idle (body_of_stored object.body) }
    ensures opened { IfOk result (λ told. IfOk told (λ _.
        IsOpened T.procedures set.old store.old id stamp spot object set.new store.new)) }
    ensures refused { IfOk result (λ told. IfErr told (λ code.
        IsTakenBack T.procedures set.old store.old object code set.new store.new)) }
    ensures err { OnErr result (store.new ≡ store.old) }
    ensures set { OnErr result (set.new ≡ set.old) }
{
    let directory = directory_of(&spot);
    put_in(store, id, stamp, spot, object)?;
    let Err(code) = store.open(id, set, Reason::Created) else {
        return Ok(Ok(()));
    };
    let Some(stored) = take_back(store, id, stamp, directory) else {
        unreachable!();
    };
    delete_body(set, stored.body);
    Ok(Err(code))
}

/// The directory of a spot, where one is given.
pub(crate) fn directory_of(spot: &Option<Spot>) -> Option<ObjId>
    ensures { result ≡ option_map (λ at. at.directory) spot.now }
{
    spot.as_ref().map(|spot| spot.directory)
}

/// Puts an object into a store, and its name, where a spot is given, into the spot's directory. The
/// only fault is out of memory, and then nothing has changed.
pub(crate) fn put_in<T: TypeSet>(
    store: &mut CachedStore<T>,
    id: ObjId,
    stamp: u64,
    spot: Option<Spot>,
    object: StoredObject<T::Face, T::Inner>,
) -> Result<(), AllocError>
    requires id { stored_at store.old id ≡ None }
    requires free { IsFreeSpot store.old stamp spot }
    requires unnamed { All (λ row. row.object ≢ id) (rows_of store.old) }
    requires empty { entries_in object.body ≡ [] }
    ensures put { IfOk result (λ _. store.new ≡ with_placed store.old id stamp spot object) }
    ensures err { OnErr result (store.new ≡ store.old) }
{
    store.insert(id, object)?;
    let Some(spot) = spot else {
        return Ok(());
    };
    if let Err(fault) = store.insert_name(spot.directory, stamp, spot.name, id) {
        drop(store.remove(id));
        return Err(fault);
    }
    Ok(())
}

/// Takes an object back out of a store, with the name of a stamp in a directory, where one is given.
pub(crate) fn take_back<T: TypeSet>(
    store: &mut CachedStore<T>,
    id: ObjId,
    stamp: u64,
    directory: Option<ObjId>,
) -> Option<StoredObject<T::Face, T::Inner>>
    ensures there { result ≡ stored_at (without_name_in store.old directory stamp) id }
    ensures others { store.new ≡ without_object (without_name_in store.old directory stamp) id }
{
    if let Some(directory) = directory {
        store.remove_name(directory, stamp);
    }
    store.remove(id)
}

/// Deletes an object that counts no open handle. Directories and links have no procedures.
pub fn delete_body<T: TypeSet>(set: &mut T, body: StoredBody<T::Face, T::Inner>)
    requires { IsIdleBody T.idle (body_of_stored body) }
    ensures { set.new ≡ deleted_one T.procedures (body_of_stored body) set.old }
{
    match body {
        StoredBody::Other { inner, .. } => set.on_delete(inner),
        StoredBody::Directory(..) | StoredBody::Link(_) => {}
    }
}
