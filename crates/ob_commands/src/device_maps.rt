//! Device maps of processes.

ghost use Rattle.std.specs.Prelude.{◌≡◌, true, IsOk, IfOk, IfErr, OnErr};
ghost use Rattle.ob_model.specs.declared.reply.Answer.TheVariants.{Done};
ghost use Rattle.ob_model.specs.Step.{SetsMap};
ghost use Rattle.ob_space.specs.Early.{is_use_refused, lacks_directory};
ghost use Rattle.ob_space.specs.Orderly.{IsBetweenSteps, IsOrderly};

use ob_base::{Handle, Proc, Status};
use ob_handles::HandleTable;
use ob_life::settle_after_loss;
use ob_model::Reply;
use ob_space::{Space, held_of, is_live, status_alone};
use ob_types::TypeSet;
use std::alloc::AllocError;

/// Makes the directory of a handle of the caller its device map, in place of the one that it had:
/// `\??` then means that directory, and after it `\GLOBAL??`. The directory of the old map goes
/// where nothing else holds it.
///
/// Refusals, in their order, which change nothing: `ProcessGone` for a process that isn't live,
/// `InvalidHandle` where the process has no such handle, and `ObjectTypeMismatch` where its object is no
/// directory. The only fault is out of memory, and then nothing has changed; the refusals take none.
///
/// It asks that the state is orderly, settled and sound, and leaves it orderly.
///
/// Source: Windows Internals, Object Manager (session namespace: device maps); NtSetInformationProcess
/// (ProcessDeviceMap). The order of refusals is this profile.
pub fn set_device_map<T: TypeSet, H: HandleTable>(
    space: &mut Space<T, H>,
    process: Proc,
    handle: Handle,
) -> Result<Reply, AllocError>
    requires between { IsBetweenSteps T.idle space.old }
    ensures orderly { IsOrderly T.idle space.new }
    ensures step { IfOk result (λ reply.
        SetsMap T.procedures space.old process handle (Done reply) space.new) }
    ensures early { is_use_refused space.old process handle ≡ true → IsOk result }
    ensures found { lacks_directory space.old process handle ≡ true → IsOk result }
    ensures err { OnErr result (space.new ≡ space.old) }
{
    if !is_live(space, process) {
        return Ok(status_alone(Status::ProcessGone));
    }
    let Some(held) = held_of(space, process, handle) else {
        return Ok(status_alone(Status::InvalidHandle));
    };
    let directory = held.object;
    if !space.store.is_directory(directory) {
        return Ok(status_alone(Status::ObjectTypeMismatch));
    }
    let old = space.processes.view(process).local;
    space.processes.set_map(process, directory)?;
    if let Some(old) = old {
        settle_after_loss(space, old);
    }
    Ok(status_alone(Status::Success))
}
