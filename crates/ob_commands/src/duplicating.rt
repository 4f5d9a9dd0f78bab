//! Duplicates of handles.

ghost use Rattle.std.specs.Prelude.{◌≡◌, true, false, IsOk, IfOk, IfErr, OnErr};
ghost use Rattle.ob_model.specs.declared.reply.Answer.TheVariants.{Done};
ghost use Rattle.ob_model.specs.Processes.{Duplicates};
ghost use Rattle.ob_model.specs.Settle.{IsSettled};
ghost use Rattle.ob_space.specs.Early.{is_duplicate_refused};
ghost use Rattle.ob_space.specs.Found.{at_handle, is_grant_refused};
ghost use Rattle.ob_space.specs.Orderly.{IsOrderly};

use ob_base::{Handle, Proc, Status};
use ob_handles::HandleTable;
use ob_model::{GrantOptions, Reply};
use ob_space::{Space, give_handle, held_of, is_live, status_alone};
use ob_types::{Reason, TypeSet};
use std::alloc::AllocError;

/// Duplicates a handle of the caller into a process, which may be the caller itself: the new handle
/// leads to the same object, and is one that children inherit where that is asked, whatever the first
/// one is.
///
/// Refusals, in their order, which change nothing: `ProcessGone` where the caller or the other process
/// isn't live, `InvalidHandle` where the caller has no such handle, and those of a grant. The only fault is out of
/// memory, and then nothing has changed; the refusals before the set is asked take none.
///
/// It asks that the state is orderly and settled, and leaves it orderly.
///
/// Source: ZwDuplicateObject (Windows Driver Kit); the order of refusals is this profile.
pub fn duplicate<T: TypeSet, H: HandleTable>(
    space: &mut Space<T, H>,
    process: Proc,
    handle: Handle,
    to: Proc,
    inherit: bool,
) -> Result<Reply, AllocError>
    requires orderly { IsOrderly T.idle space.old }
    requires settled { IsSettled space.old }
    ensures orderly { IsOrderly T.idle space.new }
    ensures step { IfOk result (λ reply.
        Duplicates T.procedures space.old process handle to inherit (Done reply) space.new) }
    ensures early { is_duplicate_refused space.old process handle to ≡ true → IsOk result }
    ensures found { at_handle space.old process handle (λ h. is_grant_refused space.old to h.object
        (record { inherit = inherit; exclusive = false })) ≡ true → IsOk result }
    ensures err { OnErr result (space.new ≡ space.old) }
{
    if !is_live(space, process) || !is_live(space, to) {
        return Ok(status_alone(Status::ProcessGone));
    }
    let Some(held) = held_of(space, process, handle) else {
        return Ok(status_alone(Status::InvalidHandle));
    };
    let asked = GrantOptions {
        inherit,
        exclusive: false,
    };
    let (reason, status) = (Reason::Duplicated, Status::Success);
    give_handle(space, to, held.object, asked, reason, status)
}
