//! The object that a handle leads to.

ghost use Rattle.std.specs.Prelude.{◌≡◌};
ghost use Rattle.std.specs.Option.{option_map};
ghost use Rattle.ob_model.specs.State.{body_of};
ghost use Rattle.ob_objects.specs.Store.{body_of_stored};
ghost use Rattle.ob_core.specs.Referent.{body_lent};

use ob_base::ObjId;
use ob_handles::HandleTable;
use ob_objects::{StoredBody, stored_is_the_object};
use ob_space::Space;
use ob_types::TypeSet;

/// An object that a handle leads to, lent by the namespace. `F` is the face and `I` the inner value of an object
/// of the set of types.
///
/// Source: ObReferenceObjectByHandle (Windows Driver Kit).
#[derive(Drop)]
pub enum Referent<'a, F, I> {
    /// An object directory, with its shadow, where it has one.
    Directory(&'a Option<ObjId>),
    /// A symbolic link, with the bytes of its target.
    Link(&'a [u8]),
    /// An object of the set.
    Other {
        /// The part of it that never changes.
        face: &'a F,
        /// The part that its procedures change.
        inner: &'a I,
    },
}

/// The object of an id; none where it isn't there.
pub(crate) fn referent_of<T: TypeSet, H: HandleTable>(
    space: &Space<T, H>,
    object: ObjId,
) -> Option<Referent<'_, T::Face, T::Inner>>
    ensures { option_map body_lent result ≡ body_of space.now object }
{
    stored_is_the_object::<T::Kind, T, T::Face, T::Inner>();
    let stored = space.store.get(object)?;
    Some(lent(&stored.body))
}

/// The object of a stored body.
fn lent<F, I>(body: &StoredBody<F, I>) -> Referent<'_, F, I>
    ensures { body_lent result ≡ body_of_stored body.now }
{
    match body {
        StoredBody::Directory(_, shadow) => Referent::Directory(shadow),
        StoredBody::Link(target) => Referent::Link(target.as_slice()),
        StoredBody::Other { face, inner } => Referent::Other { face, inner },
    }
}
