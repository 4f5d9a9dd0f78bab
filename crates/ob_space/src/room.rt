//! Whether memory is there for a new object.

ghost use Rattle.std.specs.Prelude.{◌≡◌, ◌≢◌, ◌<◌, ◌||◌, [], None, true, false, All};
ghost use Rattle.std.specs.Option.{is_some};
ghost use Rattle.ob_model.specs.State.{is_live, is_store_full};
ghost use Rattle.ob_model.specs.Creates.{is_stampless};
ghost use Rattle.ob_model.specs.Grants.{is_table_full};
ghost use Rattle.ob_objects.specs.Store.{IsStore, rows_of, stored_at};
ghost use Rattle.ob_space.specs.Placing.{IsVacantSpot, IsFreeSpot};
ghost use Rattle.ob_space.specs.Orderly.{IsOrderly};

use crate::placing::{Spot, directory_of, put_in, take_back};
use crate::space::Space;
use ob_base::{ObjId, Proc};
use ob_handles::HandleTable;
use ob_lookup::CachedStore;
use ob_objects::{StoredBody, StoredObject};
use ob_types::TypeSet;
use std::alloc::{AllocError, Global};

/// Takes the memory that a new object of a process takes, at a spot or without a name, and drops it again. So a
/// create whose arguments the set refuses is answered out of memory before that refusal, where the object would have
/// found none. All stays as it was, whether the memory is there or not, which is the only error.
///
/// It asks for the same as `place_new`: that the process is live and has room, that an id and, where a spot is given, a
/// stamp are left, and that the spot is vacant.
///
/// Source: that out of memory comes before the set's refusal is this profile.
pub fn try_room<T: TypeSet, H: HandleTable>(
    space: &mut Space<T, H>,
    process: Proc,
    spot: Option<Spot>,
) -> Result<(), AllocError>
    requires orderly { IsOrderly T.idle space.old }
    requires live { is_live space.old process ≡ true }
    requires room { (is_table_full space.old process || is_store_full space.old) ≡ false }
    requires stamp { is_some spot ≡ true → is_stampless space.old ≡ false }
    requires vacant { IsVacantSpot space.old spot }
    ensures { space.new ≡ space.old }
{
    let (id, stamp, order) = (ObjId(space.next_id), space.next_stamp, space.next_order);
    // The contract of the length gives the invariant of every store.
    let _ = space.store.len();
    // There is room, so that memory alone can lack.
    let Ok(value) = space.processes.grant(process, id, false, order) else {
        drop(spot);
        return Err(AllocError);
    };
    let told = try_place(&mut space.store, space.alloc, id, stamp, spot);
    space.processes.take(process, value);
    told
}

/// Puts an object into a store, with its name, where a spot is given, and takes both back. The store stays as it was,
/// whether memory is there or not, which is the only error.
fn try_place<T: TypeSet>(
    store: &mut CachedStore<T>,
    alloc: Global,
    id: ObjId,
    stamp: u64,
    spot: Option<Spot>,
) -> Result<(), AllocError>
    requires store { IsStore store.old }
    requires id { stored_at store.old id ≡ None }
    requires free { IsFreeSpot store.old stamp spot }
    requires newest { All (λ row. row.stamp < stamp) (rows_of store.old) }
    requires unnamed { All (λ row. row.object ≢ id) (rows_of store.old) }
    ensures { store.new ≡ store.old }
{
    let directory = directory_of(&spot);
    let object = StoredObject {
        permanent: false,
        exclusive: false,
        body: StoredBody::directory(alloc, None),
    };
    put_in(store, id, stamp, spot, object)?;
    drop(take_back(store, id, stamp, directory));
    Ok(())
}
