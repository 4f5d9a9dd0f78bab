//! The object of a handle, as a caller in C reads it.

ghost use Rattle.std.specs.Prelude.{◌≡◌};
ghost use Rattle.ob_c.specs.Referents.{id_of_body, own_id, type_of_body, user_data_of_body};
ghost use Rattle.ob_core.specs.Referent.{body_lent};

use ob_base::ObjId;
use ob_core::Referent;
use ob_host::{HostInner, HostObject};
use ob_numbers::{DIRECTORY, LINK, type_of_kind};

/// The number of the object's type. (this profile)
pub(crate) fn type_of(referent: &Referent<'_, HostObject, HostInner>) -> u32
    ensures { result ≡ type_of_body (body_lent referent.now) }
{
    match referent {
        Referent::Directory(_) => DIRECTORY,
        Referent::Link(_) => LINK,
        Referent::Other { face, .. } => type_of_kind(face.kind),
    }
}

/// The object's user data: 0 of a directory and of a symbolic link. (this profile)
pub(crate) fn user_data_of(referent: &Referent<'_, HostObject, HostInner>) -> u64
    ensures { result ≡ user_data_of_body (body_lent referent.now) }
{
    match referent {
        Referent::Directory(_) => 0,
        Referent::Link(_) => 0,
        Referent::Other { face, .. } => face.user_data,
    }
}

/// The object's id: of an object of the caller's the serial that its first open drew, and of a directory and of a symbolic link
/// the namespace's own id, counted from 2^63. (this profile)
pub(crate) fn id_of(object: ObjId, referent: &Referent<'_, HostObject, HostInner>) -> u64
    ensures { result ≡ id_of_body object (body_lent referent.now) }
{
    match referent {
        Referent::Directory(_) => own_id(object),
        Referent::Link(_) => own_id(object),
        Referent::Other { inner, .. } => inner.serial(),
    }
}

// The id of a directory or a symbolic link.
fn own_id(object: ObjId) -> u64
    ensures { result ≡ own_id object }
{
    object.0.wrapping_add(1 << 63)
}
