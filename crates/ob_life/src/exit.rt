//! The end of a process.

ghost use Rattle.std.specs.Prelude.{◌≡◌, true, false, IfSome, MatchOption};
ghost use Rattle.ob_handles.specs.Counts.{is_listed};
ghost use Rattle.ob_model.specs.State.{is_live};
ghost use Rattle.ob_model.specs.Processes.{ended};
ghost use Rattle.ob_space.specs.Orderly.{IsBetweenSteps, IsOrderly};
ghost use Rattle.ob_life.specs.Settling.{StaysBut};

use ob_base::{ObjId, Proc};
use ob_handles::{HandleTable, Touched};
use ob_space::Space;
use ob_types::TypeSet;

/// The objects that a process that has ended leaves to be settled.
#[derive(Drop)]
pub struct EndedProcess {
    /// The objects that its handles led to.
    pub touched: Touched,
    /// The directory of its device map, where it had one.
    pub map: Option<ObjId>,
}

/// Closes all handles of a process, in the order in which they were opened, each with the counts of
/// those that are left after it; the process is live no longer. It gives what can go now; `None` where
/// the process isn't live, and then nothing changes. Nothing settles yet. No memory is taken.
///
/// It asks that the state is orderly, sound and settled, and leaves an orderly state, in which nothing
/// but what it gives can go, and directories by the names that they hold. It takes a time that grows
/// with the handles of the process, times the logarithm of all.
///
/// Source: Windows Internals, Processes (what the end of a process closes); the order of the closes is
/// this profile.
pub fn end_process<T: TypeSet, H: HandleTable>(
    space: &mut Space<T, H>,
    process: Proc,
) -> Option<EndedProcess>
    requires between { IsBetweenSteps T.idle space.old }
    ensures orderly { IsOrderly T.idle space.new }
    ensures ended { space.new ≡ ended T.procedures space.old process }
    ensures live { MatchOption result ((is_live space.old process ≡ false)
        × (space.new ≡ space.old))
        (λ _. is_live space.old process ≡ true) }
    ensures left { IfSome result (λ left. StaysBut space.new (is_listed left.touched) left.map) }
{
    ob_types::laws::closed_idle::<T>();
    let map = space.processes.view(process).local;
    let mut ending = space.processes.end(process)?;
    while let Some(held) = ending.next() {
        let process_left = ending.count_of(held.object);
        let system_left = process_left + space.processes.count_of(held.object);
        space.store.close(
            held.object,
            &mut space.set,
            process_left as u32,
            system_left as u32,
        );
    }
    let touched = ending.into_touched();
    Some(EndedProcess { touched, map })
}
