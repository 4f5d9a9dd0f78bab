//! The shadow of a directory that is made.

ghost use Rattle.std.specs.Prelude.{◌≡◌, None, Some, MatchResult};
ghost use Rattle.ob_space.specs.Roots.{root_of};
ghost use Rattle.ob_commands.specs.Shadows.{shadow_refusal};

use ob_base::{Handle, ObjId, Proc, Status};
use ob_handles::HandleTable;
use ob_space::{Space, root_object};
use ob_types::TypeSet;

/// The object of a handle to a shadow, where one is given.
///
/// Refusals, in their order: `InvalidHandle` where the process has no such handle, `ObjectTypeMismatch` where its object is no
/// directory, and `InvalidParameter` where that has a shadow itself.
pub(crate) fn shadow_object<T: TypeSet, H: HandleTable>(
    space: &Space<T, H>,
    process: Proc,
    shadow: Option<Handle>,
) -> Result<Option<ObjId>, Status>
    ensures { MatchResult result
        (λ object. (root_of space.now process shadow ≡ Some object)
        × (shadow_refusal space.now process shadow ≡ None))
        (λ status. shadow_refusal space.now process shadow ≡ Some status) }
{
    let Some(object) = root_object(space, process, shadow)? else {
        return Ok(None);
    };
    if !space.store.is_directory(object) {
        return Err(Status::ObjectTypeMismatch);
    }
    if space.store.shadow_of(object).is_some() {
        return Err(Status::InvalidParameter);
    }
    Ok(Some(object))
}
