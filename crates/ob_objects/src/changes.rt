//! The changes of one object, and what can be asked of it.

ghost use Rattle.std.specs.Prelude.{◌≡◌, ◌≢◌, ◌<◌, ◌==◌, None, Some};
ghost use Rattle.std.specs.Prelude.{not, length, All, IsSome, IfOk, IfErr, OnErr};
ghost use Rattle.std.specs.List.{find};
ghost use Rattle.ob_model.specs.State.{is_directory_body};
ghost use Rattle.ob_model.specs.Grants.{open_refusal_of, opened_set};
ghost use Rattle.ob_model.specs.Closing.{closed_set};
ghost use Rattle.ob_objects.specs.Store.{directory_of, entries_in, body_of_stored};
ghost use Rattle.ob_objects.specs.Changes.{body_with_name, body_without_name};
ghost use Rattle.ob_objects.specs.Changes.{stored_opened, stored_closed};

use crate::{StoredBody, StoredObject};
use ob_base::ObjId;
use ob_dirs::DirEntry;
use ob_names::NameBuf;
use ob_types::{Reason, TypeSet, laws};
use std::alloc::AllocError;

/// Whether an object is a directory.
pub(crate) fn is_directory<F, I>(stored: &StoredObject<F, I>) -> bool
    ensures { result ≡ is_directory_body (body_of_stored stored.now.body) }
{
    matches!(stored.body, StoredBody::Directory(..))
}

/// Whether an entry lies in an object.
pub(crate) fn holds_names<F, I>(stored: &StoredObject<F, I>) -> bool
    ensures { result ≡ not (length (entries_in stored.now.body) == 0) }
{
    match &stored.body {
        StoredBody::Directory(dir, _) => !dir.is_empty(),
        _ => false,
    }
}

/// Puts an entry after those of a directory.
pub(crate) fn insert_name<F, I>(
    stored: &mut StoredObject<F, I>,
    stamp: u64,
    name: NameBuf,
    object: ObjId,
) -> Result<(), AllocError>
    requires there { IsSome (directory_of stored.old.body) }
    requires free { All (λ entry. entry.name ≢ name) (entries_in stored.old.body) }
    requires newest { All (λ entry. entry.stamp < stamp) (entries_in stored.old.body) }
    ensures last { IfOk result (λ _. stored.new
        ≡ record stored.old {
          body = body_with_name
              (record { stamp = stamp; name = name; object = object }) stored.old.body;
        }) }
    ensures unchanged { OnErr result (stored.new ≡ stored.old) }
{
    let StoredBody::Directory(dir, _) = &mut stored.body else {
        unreachable!();
    };
    dir.insert(stamp, name, object)
}

/// Takes the entry of a stamp out of a directory and hands it back; from any other object nothing is
/// taken.
pub(crate) fn remove_name<F, I>(stored: &mut StoredObject<F, I>, stamp: u64) -> Option<DirEntry>
    ensures there { result ≡ find (λ entry. entry.stamp == stamp) (entries_in stored.old.body) }
    ensures others { stored.new
        ≡ record stored.old { body = body_without_name stamp stored.old.body } }
{
    match &mut stored.body {
        StoredBody::Directory(dir, _) => dir.remove(stamp),
        _ => None,
    }
}

/// Calls the set's open procedure for an object of the set. Where it refuses, it leaves all as it
/// was.
pub(crate) fn open<T: TypeSet>(
    stored: &mut StoredObject<T::Face, T::Inner>,
    set: &mut T,
    reason: Reason,
) -> Result<(), u16>
    ensures accepted { IfOk result (λ _.
        open_refusal_of T.procedures set.old (body_of_stored stored.old.body) reason ≡ None) }
    ensures refused { IfErr result (λ code.
        open_refusal_of T.procedures set.old (body_of_stored stored.old.body) reason ≡ Some code) }
    ensures opened { stored.new
        ≡ record stored.old { body = stored_opened T.procedures set.old reason stored.old.body } }
    ensures set { set.new
        ≡ opened_set T.procedures set.old (body_of_stored stored.old.body) reason }
    ensures unchanged { OnErr result (stored.new ≡ stored.old) }
    ensures set_unchanged { OnErr result (set.new ≡ set.old) }
{
    laws::refused_open::<T>();
    match &mut stored.body {
        StoredBody::Other { inner, .. } => set.on_open(inner, reason),
        _ => Ok(()),
    }
}

/// Calls the set's close procedure for an object of the set.
pub(crate) fn close<T: TypeSet>(
    stored: &mut StoredObject<T::Face, T::Inner>,
    set: &mut T,
    process_left: u32,
    system_left: u32,
)
    ensures closed { stored.new
        ≡ record stored.old {
          body = stored_closed T.procedures set.old process_left system_left
              stored.old.body;
        } }
    ensures set { set.new
        ≡ closed_set T.procedures set.old process_left system_left
        (body_of_stored stored.old.body) }
{
    if let StoredBody::Other { inner, .. } = &mut stored.body {
        set.on_close(inner, process_left, system_left);
    }
}
