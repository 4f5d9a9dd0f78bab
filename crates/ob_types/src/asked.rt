//! The terms of a pending open.

ghost use Rattle.std.specs.Prelude.{◌↔◌, IsTrue};
ghost use Rattle.ob_types.specs.Parse.{IsFor};

use crate::TypeSet;
use ob_model::PendingOpen;

/// Whether a parse under this ticket, of this face over this rest, is the one that a pending open waits for,
/// where the object that it pins has the face `pinned`.
pub(crate) fn is_asked<T: TypeSet>(
    ticket: u64,
    face: &T::Face,
    rest: &[u8],
    pending: &PendingOpen<T::Kind>,
    pinned: &T::Face,
) -> bool
    ensures { IsTrue result
        ↔ IsFor T.procedures
        (record { ticket = ticket; face = face.now; rest = rest.now }) pending.now pinned.now }
{
    ticket == pending.ticket && rest == pending.rest.as_slice() && T::same(face, pinned)
}
