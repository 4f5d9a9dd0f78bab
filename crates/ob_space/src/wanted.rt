//! Whether an object is of the type that a command asks for.

ghost use Rattle.std.specs.Prelude.{◌≡◌};
ghost use Rattle.ob_model.specs.Grants.{is_exclusive};
ghost use Rattle.ob_model.specs.Types.{is_wanted, is_wanted_at};
ghost use Rattle.ob_objects.specs.Store.{body_of_stored};

use crate::space::Space;
use ob_base::ObjId;
use ob_handles::HandleTable;
use ob_model::Wanted;
use ob_objects::{StoredBody, stored_is_the_object};
use ob_types::{TypeSet, is_one_kind};

/// Whether a body is that of the type that is asked for.
fn is_wanted<T: TypeSet>(body: &StoredBody<T::Face, T::Inner>, wanted: Wanted<T::Kind>) -> bool
    ensures { result ≡ is_wanted T.procedures wanted (body_of_stored body.now) }
{
    match (wanted, body) {
        (Wanted::Anything, _) => true,
        (Wanted::Directory, StoredBody::Directory(..)) => true,
        (Wanted::Link, StoredBody::Link(_)) => true,
        (Wanted::Kind(kind), StoredBody::Other { face, .. }) => {
            is_one_kind::<T>(T::kind_of(face), kind)
        }
        _ => false,
    }
}

/// Whether an object is there and is of the type that is asked for: a directory, a link, an object of
/// a kind of the set, or anything.
pub fn is_wanted_at<T: TypeSet, H: HandleTable>(
    space: &Space<T, H>,
    id: ObjId,
    wanted: Wanted<T::Kind>,
) -> bool
    ensures { result ≡ is_wanted_at T.procedures space.now id wanted }
{
    stored_is_the_object::<T::Kind, T, T::Face, T::Inner>();
    match space.store.get(id) {
        Some(stored) => is_wanted::<T>(&stored.body, wanted),
        None => false,
    }
}

/// Whether an object is there and is of the type that is asked for, and whether it is there and is exclusive.
pub(crate) fn judge_object<T: TypeSet, H: HandleTable>(
    space: &Space<T, H>,
    id: ObjId,
    wanted: Wanted<T::Kind>,
) -> (bool, bool)
    ensures wanted { result.0 ≡ is_wanted_at T.procedures space.now id wanted }
    ensures exclusive { result.1 ≡ is_exclusive space.now id }
{
    stored_is_the_object::<T::Kind, T, T::Face, T::Inner>();
    match space.store.get(id) {
        Some(stored) => (is_wanted::<T>(&stored.body, wanted), stored.exclusive),
        None => (false, false),
    }
}
