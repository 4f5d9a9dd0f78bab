//! The opening state's objects and names.

ghost use Rattle.std.specs.Prelude.{◌≡◌, ◌≢◌, ◌<◌, [], All, IsSome, IsTrue, IfOk, IfErr};
ghost use Rattle.ob_model.specs.Names.{is_name};
ghost use Rattle.ob_model.specs.State.{root_id};
ghost use Rattle.ob_objects.specs.Store.{directory_at, entries_at, rows_of};
ghost use Rattle.ob_objects.specs.Changes.{with_name};
ghost use Rattle.ob_space.specs.FirstStore.{standing, opening_objects, opening_entries};

use crate::space::ROOT;
use ob_base::ObjId;
use ob_lookup::{Cache, CachedStore};
use ob_names::{Name, NameBuf};
use ob_objects::{StoredBody, StoredObject};
use ob_types::TypeSet;
use std::alloc::{AllocError, Global};

/// The store of the opening state: the root directory, `\GLOBAL??`, `\DosDevices` (a link to `\??`),
/// `\Device`, `\BaseNamedObjects` and `\Sessions`, with the ids 1 to 6, all permanent, and their names
/// in the root with the stamps 1 to 5. So the next id is 7, and the next stamp 6. Names are looked up in it by this
/// cache, which is emptied first. The only fault is out of memory, and then the cache is dropped.
///
/// Source: Windows Internals, Object Manager (object directories, session namespace); which objects
/// there are at first is this profile.
pub fn opening_store<T: TypeSet>(alloc: Global, cache: Cache) -> Result<CachedStore<T>, AllocError>
    ensures store { IfOk result (λ store. store ≡ opening_entries) }
{
    let mut store = CachedStore::new(alloc, cache);
    match put_opening(alloc, &mut store) {
        Ok(()) => Ok(store),
        Err(fault) => {
            drop(store);
            Err(fault)
        }
    }
}

/// Puts the objects and names of the opening state into a store that has none.
fn put_opening<T: TypeSet>(alloc: Global, store: &mut CachedStore<T>) -> Result<(), AllocError>
    requires { store.old ≡ [] }
    ensures { IfOk result (λ _. store.new ≡ opening_entries) }
{
    put_objects(alloc, store)?;
    name_in_root(alloc, store, 1, b"GLOBAL??", 2)?;
    name_in_root(alloc, store, 2, b"DosDevices", 3)?;
    name_in_root(alloc, store, 3, b"Device", 4)?;
    name_in_root(alloc, store, 4, b"BaseNamedObjects", 5)?;
    name_in_root(alloc, store, 5, b"Sessions", 6)
}

/// Puts the objects of the opening state, without their names, into a store that has none.
fn put_objects<T: TypeSet>(alloc: Global, store: &mut CachedStore<T>) -> Result<(), AllocError>
    requires { store.old ≡ [] }
    ensures { IfOk result (λ _. store.new ≡ opening_objects) }
{
    store.insert(ObjId(1), standing(StoredBody::directory(alloc, None)))?;
    store.insert(ObjId(2), standing(StoredBody::directory(alloc, None)))?;
    let view = NameBuf::from_name(alloc, Name::new(b"\\??"))?;
    store.insert(ObjId(3), standing(StoredBody::Link(view)))?;
    store.insert(ObjId(4), standing(StoredBody::directory(alloc, None)))?;
    store.insert(ObjId(5), standing(StoredBody::directory(alloc, None)))?;
    store.insert(ObjId(6), standing(StoredBody::directory(alloc, None)))
}

/// An object of the opening state: permanent, and not exclusive.
fn standing<F, I>(body: StoredBody<F, I>) -> StoredObject<F, I>
    ensures { result ≡ standing body }
{
    StoredObject {
        permanent: true,
        exclusive: false,
        body,
    }
}

/// Puts a name into the root directory, in which that spelling must be free and all stamps lower.
fn name_in_root<T: TypeSet>(
    alloc: Global,
    store: &mut CachedStore<T>,
    stamp: u64,
    name: &[u8],
    object: u64,
) -> Result<(), AllocError>
    requires name { IsTrue (is_name name.now) }
    requires there { IsSome (directory_at store.old root_id) }
    requires free { All (λ entry. entry.name ≢ name.now) (entries_at store.old root_id) }
    requires newest { All (λ entry. entry.stamp < stamp) (entries_at store.old root_id) }
    requires unnamed { All (λ row. row.object ≢ object) (rows_of store.old) }
    ensures put { IfOk result (λ _. store.new
        ≡ with_name store.old root_id
        (record { stamp = stamp; name = name.now; object = object })) }
{
    let name = NameBuf::from_name(alloc, Name::new(name))?;
    store.insert_name(ROOT, stamp, name, ObjId(object))
}
