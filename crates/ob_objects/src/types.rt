//! The types of stored objects.

ghost use Rattle.std.specs.Prelude.{◌≡◌};
ghost use Rattle.ob_objects.specs.Types.{type_of_body, name_of_type};

use crate::StoredBody;
use ob_base::ObjId;
use ob_types::TypeSet;
use std::alloc::AllocError;

/// Which type an object is of: one of the namespace's own, or the type of a kind of the set.
///
/// Source: Windows Internals, Object Manager: object types, and the type index of an object header.
#[derive(Copy)]
pub(crate) enum StoredType<K> {
    /// An object directory, with its shadow, if it has one.
    Directory(Option<ObjId>),
    /// A symbolic link.
    Link,
    /// An object of this kind.
    Other(K),
}

/// By hand, since a derived one says of a kind no more than that it is a clone.
impl<K: Copy> Clone for StoredType<K> {
    ghost is_clone = { λ of copy. copy ≡ of };

    fn clone(&self) -> Result<StoredType<K>, AllocError> {
        Ok(*self)
    }
}

/// The type of what a body is. No change of an object changes it.
pub(crate) fn type_of<T: TypeSet>(body: &StoredBody<T::Face, T::Inner>) -> StoredType<T::Kind>
    ensures { result ≡ type_of_body T.procedures body.now }
{
    match body {
        StoredBody::Directory(_, shadow) => StoredType::Directory(*shadow),
        StoredBody::Link(_) => StoredType::Link,
        StoredBody::Other { face, .. } => StoredType::Other(T::kind_of(face)),
    }
}

/// The name of a type.
pub(crate) fn name_of<T: TypeSet>(of: StoredType<T::Kind>) -> &'static str
    ensures { result.now ≡ name_of_type T.procedures of }
{
    match of {
        StoredType::Directory(_) => "Directory",
        StoredType::Link => "SymbolicLink",
        StoredType::Other(kind) => T::type_name(kind),
    }
}
