//! Queries of an object: its path, and the target of a link.

ghost use Rattle.std.specs.Prelude.{◌≡◌, ℕ, List, ◌<◌, not, true, map, All, IsOk, IfOk, MatchOption};
ghost use Rattle.std.specs.Option.{option_map};
ghost use Rattle.ob_model.specs.declared.reply.Answer.TheVariants.{Done};
ghost use Rattle.ob_model.specs.Naming.{row_of, IsWayUp, path_text};
ghost use Rattle.ob_model.specs.Step.{QueriesName, QueriesLink};
ghost use Rattle.ob_objects.specs.Named.{row_of_named};
ghost use Rattle.ob_objects.specs.Store.{rows_of};
ghost use Rattle.ob_space.specs.Namespace.{rows_alone};
ghost use Rattle.ob_model.specs.declared.state.Wanted.TheVariants as wanted;
ghost use Rattle.ob_model.specs.Types.{is_wanted_at};
ghost use Rattle.ob_space.specs.Early.{is_use_refused};
ghost use Rattle.ob_space.specs.Found.{at_handle};

use crate::replies::with_text;
use ob_base::{Handle, ObjId, Proc, Status};
use ob_handles::HandleTable;
use ob_lookup::CachedStore;
use ob_model::{Bytes, Reply};
use ob_names::LONGEST_NAME;
use ob_objects::{StoredBody, stored_is_the_object};
use ob_space::{ROOT, Space, held_of, is_live, status_alone};
use ob_types::TypeSet;
use std::alloc::{AllocError, Global};

/// Gives the path of the object of a handle of the caller: the names on the way from the root to it,
/// each after a `\`, or `\` alone for the root. An object has the empty text where it, or a directory
/// above it, has no name. Nothing is changed.
///
/// Refusals, in their order: `ProcessGone` for a process that isn't live, `InvalidHandle` where the
/// process has no such handle, and `NameTooLong` where the path has more than 32,767 bytes. The only
/// fault is out of memory, which the first two refusals don't take.
///
/// It asks that each name lies in a directory of a lesser id than that of its object, as in every orderly state.
///
/// Source: ObQueryNameString (Windows Driver Kit); the empty text and the limit are this profile.
pub fn query_name<T: TypeSet, H: HandleTable>(
    space: &Space<T, H>,
    process: Proc,
    handle: Handle,
) -> Result<Reply, AllocError>
    requires { All (λ r. r.directory < r.object) space.now.rows }
    ensures step { IfOk result (λ reply.
        QueriesName space.now process handle (Done reply) space.now) }
    ensures early { is_use_refused space.now process handle ≡ true → IsOk result }
{
    if !is_live(space, process) {
        return Ok(status_alone(Status::ProcessGone));
    }
    let Some(held) = held_of(space, process, handle) else {
        return Ok(status_alone(Status::InvalidHandle));
    };
    let Some(way) = way_up(space.alloc, &space.store, held.object)? else {
        return Ok(with_text(Bytes::new(Vec::new(space.alloc))));
    };
    let text = path_text(space.alloc, &way)?;
    if text.len() > LONGEST_NAME {
        return Ok(status_alone(Status::NameTooLong));
    }
    Ok(with_text(Bytes::new(text)))
}

/// The names on the way up from an object to the root, its own first; none where a directory on the
/// way has no name.
fn way_up<T: TypeSet>(
    alloc: Global,
    store: &CachedStore<T>,
    object: ObjId,
) -> Result<Option<Vec<&[u8]>>, AllocError>
    requires { All (λ r. r.directory < r.object) (rows_of store.now) }
    ensures { IfOk result (λ way. MatchOption way
        ((names : List (List ℕ)) → IsWayUp (rows_alone (rows_of store.now)) object names → ⊥)
        (λ way. IsWayUp (rows_alone (rows_of store.now)) object (map (λ name.
        name.now) way.items))) }
{
    let mut way = Vec::new(alloc);
    let mut current = object;
    while current != ROOT {
        let Some(named) = store.name_of(current) else {
            return Ok(None);
        };
        way.push(named.name())?;
        current = named.directory;
    }
    Ok(Some(way))
}

/// The path that a way up says.
fn path_text(alloc: Global, way: &[&[u8]]) -> Result<Vec<u8>, AllocError>
    ensures { IfOk result (λ text. text.items ≡ path_text (map (λ name. name.now) way.now)) }
{
    if way.is_empty() {
        return b"\\".to_vec(alloc);
    }
    let mut text = Vec::new(alloc);
    for name in way.iter().rev() {
        text.push(b'\\')?;
        text.extend_from_slice(name)?;
    }
    Ok(text)
}

/// Gives the target of the symbolic link of a handle of the caller, as it was stored. Nothing is
/// changed.
///
/// Refusals, in their order: `ProcessGone` for a process that isn't live, `InvalidHandle` where the
/// process has no such handle, and `ObjectTypeMismatch` where its object is no link. The only fault is
/// out of memory, which the refusals don't take.
///
/// Source: ZwQuerySymbolicLinkObject (Windows Driver Kit).
pub fn query_link<T: TypeSet, H: HandleTable>(
    space: &Space<T, H>,
    process: Proc,
    handle: Handle,
) -> Result<Reply, AllocError>
    ensures step { IfOk result (λ reply.
        QueriesLink space.now process handle (Done reply) space.now) }
    ensures early { is_use_refused space.now process handle ≡ true → IsOk result }
    ensures found { at_handle space.now process handle (λ h.
        not (is_wanted_at T.procedures space.now h.object wanted.Link)) ≡ true → IsOk result }
{
    if !is_live(space, process) {
        return Ok(status_alone(Status::ProcessGone));
    }
    let Some(held) = held_of(space, process, handle) else {
        return Ok(status_alone(Status::InvalidHandle));
    };
    stored_is_the_object::<T::Kind, T, T::Face, T::Inner>();
    let Some(stored) = space.store.get(held.object) else {
        return Ok(status_alone(Status::ObjectTypeMismatch));
    };
    let StoredBody::Link(target) = &stored.body else {
        return Ok(status_alone(Status::ObjectTypeMismatch));
    };
    let target = Bytes::from_slice(space.alloc, target.as_slice())?;
    Ok(with_text(target))
}
