//! How many directories have each object as their shadow.

ghost use Rattle.std.specs.Prelude.{◌≤◌, ℕ, IfSome, OnErr, OnOk};
ghost use Rattle.std.specs.Prelude.{◌≡◌};
ghost use Rattle.ob_model.specs.State.{greatest_number, shadow_in};
ghost use Rattle.ob_handles.specs.Counts.{count_of};
ghost use Rattle.ob_objects.specs.Store.{body_of_stored};
ghost use Rattle.ob_objects.specs.Shadows.{CountsMore, CountsLess};

use crate::StoredBody;
use ob_handles::Counts;
use std::alloc::AllocError;

/// Counts the shadow of a directory once more, if it has one. The only fault is out of memory, and then nothing has changed.
pub(crate) fn count<F, I>(shadows: &mut Counts, body: &StoredBody<F, I>) -> Result<(), AllocError>
    requires { IfSome (shadow_in (body_of_stored body.now))
        (λ o. count_of shadows.old o ≤ greatest_number) }
    ensures counted { OnOk result
        (CountsMore (shadow_in (body_of_stored body.now)) shadows.old shadows.new) }
    ensures unchanged { OnErr result (shadows.new ≡ shadows.old) }
{
    match body.shadow() {
        Some(shadow) => shadows.add(shadow),
        None => Ok(()),
    }
}

/// Counts the shadow of a directory once less, if it has one. It takes no memory.
pub(crate) fn discount<F, I>(shadows: &mut Counts, body: &StoredBody<F, I>)
    ensures { CountsLess (shadow_in (body_of_stored body.now)) shadows.old shadows.new }
{
    if let Some(shadow) = body.shadow() {
        shadows.lower(shadow);
    }
}
