//! Root handles: the objects that names are relative to.

ghost use Rattle.std.specs.Prelude.{◌≡◌, Some, None, MatchResult};
ghost use Rattle.ob_base.specs.declared.Status.TheVariants.{InvalidHandle};
ghost use Rattle.ob_space.specs.Roots.{root_of};

use crate::space::{Space, held_of};
use ob_base::{Handle, ObjId, Proc, Status};
use ob_handles::HandleTable;
use ob_types::TypeSet;

/// The object that a name is relative to: that of the root handle, whose low two bits are ignored, and
/// none where no handle is given. The error is `InvalidHandle`, where the process has no such handle.
///
/// Source: OBJECT_ATTRIBUTES structure (Windows Driver Kit).
pub fn root_object<T: TypeSet, H: HandleTable>(
    space: &Space<T, H>,
    process: Proc,
    root: Option<Handle>,
) -> Result<Option<ObjId>, Status>
    ensures { MatchResult result
        (λ object. root_of space.now process root ≡ Some object)
        (λ status. (status ≡ InvalidHandle) × (root_of space.now process root ≡ None)) }
{
    let Some(handle) = root else {
        return Ok(None);
    };
    match held_of(space, process, handle) {
        Some(held) => Ok(Some(held.object)),
        None => Err(Status::InvalidHandle),
    }
}
