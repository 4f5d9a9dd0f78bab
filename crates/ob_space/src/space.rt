//! The parts of a namespace, and what can be read off them.

ghost use Rattle.std.specs.Prelude.{◌≡◌, ◌||◌, nat_lt, length, IfOk};
ghost use Rattle.std.specs.Option.{option_and_then};
ghost use Rattle.ob_base.specs.Handle.{key_of};
ghost use Rattle.ob_model.specs.State.{is_live, held_of, is_store_full, greatest_number};
ghost use Rattle.ob_model.specs.PendingOpens.{without_pending};
ghost use Rattle.ob_model.specs.Grants.{is_table_full};
ghost use Rattle.ob_model.specs.Creates.{is_stampless};
ghost use Rattle.ob_space.specs.Namespace.{state_of};

use ob_base::{Handle, ObjId, Proc};
use ob_handles::{HandleTable, MOST_HANDLES};
use ob_lookup::CachedStore;
use ob_model::Held;
use ob_processes::{PendingOpens, Processes};
use ob_types::{Copied, TypeSet};
use std::alloc::{AllocError, Global};
use std::marker::Model;

/// The id of the root directory, which `\` names. It is there in every orderly state.
pub const ROOT: ObjId = ObjId(1);

/// The id of the directory `\GLOBAL??`.
pub const GLOBAL: ObjId = ObjId(2);

/// The most objects and pending opens together.
const MOST_OBJECTS: usize = 1_048_576;

/// The greatest id, stamp and order of opening.
const GREATEST_NUMBER: u64 = u64::MAX - 1;

/// A namespace: the value of its set of types, the store of its objects and of their names, its live processes with
/// their handles, its pending opens, and the numbers that the next ones get. `T` is the set, and `H` the handle table
/// that each process has.
///
/// Contracts see the state of the abstract machine that these parts represent. Nothing is kept true of them by the
/// struct itself: a change says by `IsOrderly` what it asks and what it leaves.
#[derive(Drop)]
pub struct Space<T: TypeSet, H: HandleTable> {
    /// Where memory is taken from.
    pub alloc: Global,
    /// The value of the set of types, as the calls of its procedures have left it.
    pub set: T,
    /// The objects by their ids, and the entries of their directories, with the cache by which names are looked up.
    pub store: CachedStore<T>,
    /// The live processes by their numbers, each with its handles: at most 1,024 processes, and 65,535
    /// handles of each.
    pub processes: Processes<H>,
    /// The pending opens by their tickets.
    pub pending: PendingOpens<T::Kind>,
    /// The id that the next object gets: above every id that was drawn, and at most 2^64 - 1, with
    /// which none is left.
    pub next_id: u64,
    /// The stamp that the next name gets, in the same way.
    pub next_stamp: u64,
    /// The number that the next process gets: above every number that was drawn, and at most 2^32 - 1,
    /// with which none is left.
    pub next_process: u32,
    /// The order of opening that the next handle gets: above every order that was drawn, and at most
    /// 2^64 - 1, with which none is left.
    pub next_order: u64,
}

impl<T: TypeSet, H: HandleTable> Model for Space<T, H> {
    ghost use Rattle.ob_model.specs.State.{State};
    ghost use Rattle.ob_objects.specs.Store.{objects_of, rows_of};

    ghost Value = { State T.Kind T T.Face T.Inner };

    ghost view = { λ a. record {
      objects = objects_of a.store;
      rows = rows_of a.store;
      handles = a.processes.handles;
      processes = a.processes.processes;
      pending = a.pending;
      set = a.set;
      next_id = a.next_id;
      next_stamp = a.next_stamp;
      next_process = a.next_process;
      next_order = a.next_order;
    } };
}

impl<T: TypeSet + Copied, H: HandleTable> Space<T, H>
where
    T::Inner: Copied,
{
    /// Another namespace in the same state. It takes a time that grows with all that is in it. The only error is out of
    /// memory. (this profile)
    pub fn copy(&self) -> Result<Space<T, H>, AllocError>
        ensures { IfOk result (λ copy. copy ≡ self.now) }
    {
        Ok(Space {
            alloc: self.alloc,
            set: self.set.copied()?,
            store: self.store.copy(self.alloc)?,
            processes: self.processes.copy()?,
            pending: self.pending.copy(self.alloc)?,
            next_id: self.next_id,
            next_stamp: self.next_stamp,
            next_process: self.next_process,
            next_order: self.next_order,
        })
    }
}

/// Whether a process is live.
pub fn is_live<T: TypeSet, H: HandleTable>(space: &Space<T, H>, process: Proc) -> bool
    ensures { result ≡ is_live space.now process }
{
    space.processes.is_live(process)
}

/// The handle that a process names by a value, whose low two bits are ignored; none where the process
/// has no such handle, or the value is 0 to 3. Takes no memory.
///
/// Source: Windows Internals on handles.
pub fn held_of<T: TypeSet, H: HandleTable>(
    space: &Space<T, H>,
    process: Proc,
    handle: Handle,
) -> Option<Held>
    ensures { result ≡ option_and_then (held_of space.now process) (key_of handle) }
{
    match handle.key() {
        Some(key) => space.processes.get(process, Handle(key)),
        None => None,
    }
}

/// Whether no handle more fits into a process's table, or no order of opening is left.
pub fn is_table_full<T: TypeSet, H: HandleTable>(space: &Space<T, H>, process: Proc) -> bool
    ensures { result ≡ is_table_full space.now process }
{
    space.processes.len_of(process) >= MOST_HANDLES || is_orderless(space)
}

/// Whether no order of opening is left.
pub(crate) fn is_orderless<T: TypeSet, H: HandleTable>(space: &Space<T, H>) -> bool
    ensures { result ≡ nat_lt greatest_number space.now.next_order }
{
    space.next_order > GREATEST_NUMBER
}

/// Whether no object and no pending open more fits, or no id is left.
pub fn is_store_full<T: TypeSet, H: HandleTable>(space: &Space<T, H>) -> bool
    ensures { result ≡ is_store_full space.now }
{
    let there = space.store.len().saturating_add(space.pending.len());
    there >= MOST_OBJECTS || space.next_id > GREATEST_NUMBER
}

/// Whether no object and no pending open more fits, or no id is left, once no open is pending under a ticket: the
/// one that is, where there is one, takes no room.
///
/// Source: this profile.
pub fn is_full_without<T: TypeSet, H: HandleTable>(space: &Space<T, H>, ticket: u64) -> bool
    ensures { result ≡ is_store_full (without_pending space.now ticket) }
{
    let opens = opens_without(space, ticket);
    let there_then = space.store.len().saturating_add(opens);
    there_then >= MOST_OBJECTS || space.next_id > GREATEST_NUMBER
}

/// How many opens are pending under other tickets.
fn opens_without<T: TypeSet, H: HandleTable>(space: &Space<T, H>, ticket: u64) -> usize
    ensures { result ≡ length (without_pending space.now ticket).pending }
{
    let opens = space.pending.len();
    match space.pending.get(ticket) {
        Some(_) => opens - 1,
        None => opens,
    }
}

/// Whether a process can be given no handle to a new object: its table is full, with 65,535 handles,
/// there are 1,048,576 objects and pending opens, or no id or order of opening is left.
pub fn is_full<T: TypeSet, H: HandleTable>(space: &Space<T, H>, process: Proc) -> bool
    ensures { result ≡ (is_table_full space.now process || is_store_full space.now) }
{
    is_table_full(space, process) || is_store_full(space)
}

/// Whether no stamp is left for a new name.
pub fn is_stampless<T: TypeSet, H: HandleTable>(space: &Space<T, H>) -> bool
    ensures { result ≡ is_stampless space.now }
{
    space.next_stamp > GREATEST_NUMBER
}
