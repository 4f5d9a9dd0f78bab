//! Stored objects.

ghost use Rattle.std.specs.Prelude.{◌≡◌, [], IfOk};
ghost use Rattle.ob_model.specs.State.{shadow_in};
ghost use Rattle.ob_objects.specs.Copied.{shown};
ghost use Rattle.ob_objects.specs.Store.{body_of_stored, entries_in};

use ob_base::ObjId;
use ob_dirs::Dir;
use ob_names::NameBuf;
use ob_types::Copied;
use std::alloc::{AllocError, Global};
use std::sync::Arc;

/// The body of a stored object. `F` is the face and `I` the inner value of an object whose type belongs
/// to the set of types; directories and symbolic links are the namespace's own.
///
/// Source: Windows Internals, Object Manager: object headers and bodies.
#[derive(Drop)]
pub enum StoredBody<F, I> {
    /// An object directory, with its entries and its shadow, if it has one.
    Directory(Dir, Option<ObjId>),
    /// A symbolic link, with its target: at most 32,767 bytes from 0x20 to 0x7E.
    Link(NameBuf),
    /// An object of a type of the set.
    Other {
        /// The part of it that never changes. It is shared, so that a parse procedure can see it while the
        /// store is used elsewhere. Contracts see the face by `arc_value`.
        face: Arc<F, Global>,
        /// The part that its open, close and delete procedures change.
        inner: I,
    },
}

impl<F, I> StoredBody<F, I> {
    /// A new object directory without an entry, with this shadow or none. It takes no memory.
    ///
    /// Sources: ZwCreateDirectoryObject (Windows Driver Kit); Windows Internals, Object Manager (shadow directories).
    pub fn directory(alloc: Global, shadow: Option<ObjId>) -> Self
        ensures { result ≡ StoredBody.Directory [] shadow }
    {
        StoredBody::Directory(Dir::new(alloc), shadow)
    }

    /// The shadow of a directory; `None` for one that has none, and for a body of another kind. It takes no memory.
    ///
    /// Source: Windows Internals, Object Manager (shadow directories).
    pub fn shadow(&self) -> Option<ObjId>
        ensures { result ≡ shadow_in (body_of_stored self.now) }
    {
        match self {
            StoredBody::Directory(_, shadow) => *shadow,
            _ => None,
        }
    }
}

impl<F: Drop, I: Copied> StoredBody<F, I> {
    /// Another body that is the same, and has the face in common. The only error is out of memory.
    fn copy(&self) -> Result<StoredBody<F, I>, AllocError>
        ensures body { IfOk result (λ copy. body_of_stored copy ≡ body_of_stored self.now) }
        ensures entries { IfOk result (λ copy. entries_in copy ≡ entries_in self.now) }
    {
        match self {
            StoredBody::Directory(dir, shadow) => Ok(StoredBody::Directory(dir.copy()?, *shadow)),
            StoredBody::Link(target) => Ok(StoredBody::Link(target.copy()?)),
            StoredBody::Other { face, inner } => Ok(StoredBody::Other {
                face: Arc::try_clone(face)?,
                inner: inner.copied()?,
            }),
        }
    }
}

/// One object as a store keeps it, under its id.
///
/// Source: Windows Internals, Object Manager: object headers and bodies.
#[derive(Drop)]
pub struct StoredObject<F, I> {
    /// Whether it keeps its name and its life without a handle.
    pub permanent: bool,
    /// Whether one process alone may hold handles to it.
    pub exclusive: bool,
    /// Its body.
    pub body: StoredBody<F, I>,
}

impl<F: Drop, I: Copied> StoredObject<F, I> {
    /// Another object that is the same, and has the face in common. The only error is out of memory.
    pub(crate) fn copy(&self) -> Result<StoredObject<F, I>, AllocError>
        ensures { IfOk result (λ copy. shown copy ≡ shown self.now) }
    {
        Ok(StoredObject {
            permanent: self.permanent,
            exclusive: self.exclusive,
            body: self.body.copy()?,
        })
    }
}
