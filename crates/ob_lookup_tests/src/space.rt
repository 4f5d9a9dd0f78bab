//! Small namespaces, over any set of types.

ghost use Rattle.std.specs.Prelude.{◌≡◌, ◌≢◌, ◌<◌, ◌+◌, ◌^◌, ◌-◌, [], All, IfSome, IsSome, IsTrue};
ghost use Rattle.std.specs.Option.{option_copied};
ghost use Rattle.ob_objects.specs.Store.{directory_at, entries_at, entries_in, IsStore};
ghost use Rattle.ob_lookup.specs.Closed.{IsClosed, IsViewThere};
ghost use Rattle.ob_lookup_tests.specs.Space.{IsSpace};

use ob_base::{Fault, ObjId};
use ob_devmap::View;
use ob_dirs::Dir;
use ob_names::{Name, NameBuf};
use ob_objects::{Store, StoredBody, StoredObject};
use ob_types::TypeSet;
use std::alloc::Global;
use std::marker::Model;
use std::sync::Arc;

/// The kind of an object.
#[derive(Clone, Copy)]
pub(crate) enum Kind<'a> {
    /// A directory.
    Directory,
    /// A link to a name.
    Link(&'a [u8]),
    /// A file.
    File,
}

/// A store in which each name leads to an object, and the number that the next object gets, which is
/// the stamp of its name too. The first one is the root. Files are of this kind of the set.
#[derive(Drop)]
pub(crate) struct Space<T: TypeSet> {
    store: Store<T>,
    next: u64,
    alloc: Global,
    files: T::Kind,
}

impl<T: TypeSet> Model for Space<T> {
    ghost use Rattle.ob_objects.specs.Store.{Entries};
    ghost use Rattle.ob_lookup_tests.specs.Space.{IsSpace};

    ghost Value = { Entries T.Face T.Inner };

    ghost view = { λ space. space.store };

    ghost invariant = { λ space. IsSpace space.store space.next };
}

impl<T: TypeSet> Space<T> {
    /// A namespace of a root directory alone.
    pub(crate) fn new(alloc: Global, files: T::Kind) -> Option<Space<T>> {
        let mut store = Store::new(alloc);
        let root = temporary(StoredBody::directory(alloc, None));
        store.insert(ObjId(1), root).ok()?;
        Some(Space {
            store,
            next: 2,
            alloc,
            files,
        })
    }

    /// The store.
    pub(crate) fn store(&self) -> &Store<T>
        ensures { IsClosed result.now }
    {
        &self.store
    }

    /// Adds an object of a kind under a name in a directory; not where the directory has no place for it, or memory
    /// runs out.
    pub(crate) fn add(&mut self, directory: ObjId, name: &[u8], kind: Kind<'_>) -> bool {
        let Some(name) = name_of(self.alloc, name) else {
            return false;
        };
        let id = self.next;
        if id == u64::MAX || !is_free(&self.store, directory, name.as_slice()) {
            return false;
        }
        let Some(body) = self.body(kind) else {
            return false;
        };
        self.next += 1;
        put(&mut self.store, directory, id, name, temporary(body)).is_ok()
    }

    // The body of an object of a kind; a directory is empty. There is none where memory runs out.
    fn body(&self, kind: Kind<'_>) -> Option<StoredBody<T::Face, T::Inner>>
        ensures { IfSome result (λ body. entries_in body ≡ []) }
    {
        match kind {
            Kind::Directory => Some(StoredBody::directory(self.alloc, None)),
            Kind::Link(target) => Some(StoredBody::Link(name_of(self.alloc, target)?)),
            Kind::File => self.file(),
        }
    }

    // The body of a file. There is none where memory runs out.
    fn file(&self) -> Option<StoredBody<T::Face, T::Inner>>
        ensures { IfSome result (λ body. entries_in body ≡ []) }
    {
        let Ok((face, inner)) = T::make(self.alloc, self.files, b"") else {
            return None;
        };
        match Arc::new(self.alloc, face) {
            Ok(face) => Some(StoredBody::Other { face, inner }),
            Err(_) => None,
        }
    }
}

// A name with a copy of these bytes; there is none where they make none, or memory runs out.
fn name_of(alloc: Global, bytes: &[u8]) -> Option<NameBuf> {
    let Ok(name) = Name::read(bytes) else {
        return None;
    };
    match NameBuf::from_name(alloc, name) {
        Ok(name) => Some(name),
        Err(_) => None,
    }
}

// A temporary object, not exclusive.
fn temporary<F, I>(body: StoredBody<F, I>) -> StoredObject<F, I>
    ensures { result.body ≡ body }
{
    StoredObject {
        permanent: false,
        exclusive: false,
        body,
    }
}

/// Whether the directories of a view are there, and its global one is object 2.
pub(crate) fn has_view<T: TypeSet>(store: &Store<T>, view: &View) -> bool
    ensures { IsTrue result → IsViewThere store.now view.now }
{
    let has_local = match view.local {
        Some(local) => dir_of(store, local).is_some(),
        None => true,
    };
    has_local && view.global == ObjId(2) && dir_of(store, view.global).is_some()
}

// Whether a directory is there and has no entry of this spelling.
fn is_free<T: TypeSet>(store: &Store<T>, directory: ObjId, name: &[u8]) -> bool
    ensures there { IsTrue result → IsSome (directory_at store.now directory) }
    ensures free { IsTrue result
        → All (λ entry. entry.name ≢ name.now) (entries_at store.now directory) }
{
    let Some(dir) = dir_of(store, directory) else {
        return false;
    };
    dir.find(name, false).is_none()
}

// The entries of a directory, where it is one.
fn dir_of<T: TypeSet>(store: &Store<T>, id: ObjId) -> Option<&Dir>
    ensures { option_copied result ≡ directory_at store.now id }
{
    match store.get(id) {
        Some(
            StoredObject {
                body: StoredBody::Directory(dir, _),
                ..
            },
        ) => Some(dir),
        _ => None,
    }
}

// Puts an object and a name for it into a store, both with this number.
fn put<T: TypeSet>(
    store: &mut Store<T>,
    directory: ObjId,
    id: u64,
    name: NameBuf,
    object: StoredObject<T::Face, T::Inner>,
) -> Result<(), Fault>
    requires space { IsSpace store.old id }
    requires there { IsSome (directory_at store.old directory) }
    requires free { All (λ entry. entry.name ≢ name) (entries_at store.old directory) }
    requires empty { entries_in object.body ≡ [] }
    ensures { IsSpace store.new (id + 1) }
{
    store.insert(ObjId(id), object)?;
    let _ = store.len();
    store.insert_name(directory, id, name, ObjId(id))?;
    Ok(())
}
