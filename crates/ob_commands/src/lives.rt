//! New processes, and the ends of processes.

ghost use Rattle.std.specs.Prelude.{◌≡◌, true, IsOk, IfOk, OnErr};
ghost use Rattle.ob_model.specs.declared.reply.Answer.TheVariants.{Done};
ghost use Rattle.ob_model.specs.Processes.{MakesChild, Exits};
ghost use Rattle.ob_space.specs.Early.{is_child_refused};
ghost use Rattle.ob_space.specs.Orderly.{IsBetweenSteps, IsOrderly};

use crate::replies::with_process;
use ob_base::{Proc, Status};
use ob_handles::HandleTable;
use ob_life::{begin_child, end_process, settle_after_end};
use ob_model::Reply;
use ob_space::{Space, is_live, status_alone};
use ob_types::TypeSet;
use std::alloc::AllocError;

/// Makes a child of the caller, which inherits handles or none, and gives its number and the values
/// that it inherited. All that is there stays: what a child gets releases nothing.
///
/// Refusals, in their order, which change nothing: `ProcessGone` where the caller isn't live, and
/// `InsufficientResources` where 1,024 processes live, or no number or too few orders of opening are left. The
/// only fault is out of memory, and then nothing has changed; none is taken where no process more may live, or no
/// number is left for one.
///
/// It asks that the state is orderly, settled and sound, and leaves it orderly.
///
/// Source: Windows Internals, Processes (inheritance); the limits are this profile.
pub fn new_process<T: TypeSet, H: HandleTable>(
    space: &mut Space<T, H>,
    process: Proc,
    inherit: bool,
) -> Result<Reply, AllocError>
    requires between { IsBetweenSteps T.idle space.old }
    ensures orderly { IsOrderly T.idle space.new }
    ensures step { IfOk result (λ reply.
        MakesChild T.procedures space.old process inherit (Done reply) space.new) }
    ensures early { is_child_refused space.old process ≡ true → IsOk result }
    ensures err { OnErr result (space.new ≡ space.old) }
{
    if !is_live(space, process) {
        return Ok(status_alone(Status::ProcessGone));
    }
    match begin_child(space, process, inherit)? {
        Some(child) => Ok(with_process(child)),
        None => Ok(status_alone(Status::InsufficientResources)),
    }
}

/// Ends the caller: its handles are closed in the order in which they were opened, it is live no
/// longer, and what doesn't stay goes. The one refusal is `ProcessGone`, where it isn't live. No memory
/// is taken, and a time that grows with the handles of the process, times the logarithm of all.
///
/// It asks that the state is orderly, settled and sound, and leaves it orderly.
///
/// Source: Windows Internals, Processes (what the end of a process closes); the order of the closes is
/// this profile.
pub fn exit_process<T: TypeSet, H: HandleTable>(space: &mut Space<T, H>, process: Proc) -> Reply
    requires between { IsBetweenSteps T.idle space.old }
    ensures orderly { IsOrderly T.idle space.new }
    ensures step { Exits T.procedures space.old process (Done result) space.new }
{
    let Some(ended) = end_process(space, process) else {
        return status_alone(Status::ProcessGone);
    };
    settle_after_end(space, &ended.touched, ended.map);
    status_alone(Status::Success)
}
