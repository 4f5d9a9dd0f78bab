//! Closing a handle, before anything settles.

ghost use Rattle.std.specs.Prelude.{◌≡◌, Some};
ghost use Rattle.ob_model.specs.State.{held_of};
ghost use Rattle.ob_model.specs.Closing.{closed_handle};
ghost use Rattle.ob_model.specs.Sound.{IsSound};
ghost use Rattle.ob_space.specs.Orderly.{IsOrderly};

use ob_handles::HandleTable;
use ob_model::Held;
use ob_space::Space;
use ob_types::TypeSet;

/// Closes a handle that its process holds: it goes, and the set's close is called for its object, and
/// given how many handles to it are left in the process and in all. Nothing settles yet. No memory is
/// taken.
///
/// It asks that the state is orderly, and sound, so that no two handles of a process have one value
/// and each is of a live process. It leaves an orderly state.
///
/// Source: ZwClose (Windows Driver Kit); Windows Internals, Object Manager (close methods).
pub fn close_handle<T: TypeSet, H: HandleTable>(space: &mut Space<T, H>, held: Held)
    requires orderly { IsOrderly T.idle space.old }
    requires sound { IsSound space.old }
    requires held { held_of space.old held.process held.value ≡ Some held }
    ensures orderly { IsOrderly T.idle space.new }
    ensures closed { space.new ≡ closed_handle T.procedures space.old held }
{
    let Held {
        process,
        value,
        object,
        ..
    } = held;
    space.processes.take(process, value);
    let process_left = space.processes.count_in(process, object) as u32;
    let system_left = space.processes.count_of(object) as u32;
    ob_types::laws::closed_idle::<T>();
    let (set, store) = (&mut space.set, &mut space.store);
    store.close(object, set, process_left, system_left);
}
