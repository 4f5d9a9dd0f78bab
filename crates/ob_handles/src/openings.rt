//! The openings of a table's handles, in their order, beside the rows in which the handles lie.

ghost use Rattle.std.specs.Prelude.{◌≡◌, ◌+◌, ◌*◌, ◌≤◌, filter, is_some, length, nat_lt};
ghost use Rattle.std.specs.List.{find};
ghost use Rattle.slab.specs.Slab.{get};
ghost use Rattle.ob_handles.specs.Openings.{held_by, handles_of, AreRising, LeadsToFirst, NoneIsNewer, OnlyStaleGo};

use ob_model::Held;
use slab::Slab;
use std::collections::VecDeque;

/// An opening of a handle: its order, and the key of the row that the handle was put in. It is stale
/// once the handle was taken: then the row is empty, or has a handle of another order. (this profile)
#[derive(Clone, Copy)]
pub(crate) struct Opening {
    pub(crate) order: u64,
    pub(crate) key: usize,
}

/// The handle that an opening leads to; `None` exactly where it is stale. Takes no memory.
pub(crate) fn held_by(rows: &Slab<Held>, opening: Opening) -> Option<Held>
    ensures { result ≡ held_by (get rows.now) opening }
{
    let held = rows.get(opening.key)?;
    (held.order == opening.order).then_some(*held)
}

/// The first handle that was opened after an order; `None` exactly where there is none. Takes no memory.
///
/// It searches for the first opening after that order, and passes those that are stale.
pub(crate) fn held_after(opened: &VecDeque<Opening>, rows: &Slab<Held>, order: u64) -> Option<Held>
    requires { AreRising opened.now.items }
    ensures { result ≡ find (λ h. nat_lt order h.order) (handles_of (get rows.now) opened.now.items) }
{
    let before = opened.partition_point(|opening| opening.order <= order);
    let mut handles = opened.range(before..).filter_map(|o| held_by(rows, *o));
    handles.next()
}

/// Drops stale openings, so that the first and the last that are left lead to handles, and that there
/// are at most two for each of so many handles, and one more. Takes no memory.
pub(crate) fn drop_stale(opened: &mut VecDeque<Opening>, rows: &Slab<Held>, handles: usize)
    requires { AreRising opened.old.items }
    ensures stale { OnlyStaleGo (get rows.now) opened.old.items opened.new.items }
    ensures first { LeadsToFirst (get rows.now) opened.new.items }
    ensures newest { NoneIsNewer (get rows.now) opened.new.items }
    ensures few { length (handles_of (get rows.now) opened.old.items) ≤ handles
        → length opened.new.items ≤ 2 * handles + 1 }
{
    drop_newest(opened, rows);
    drop_oldest(opened, rows);
    if opened.len() / 2 <= handles {
        return;
    }
    drop_all(opened, rows);
}

// Drops the stale openings after all others.
fn drop_newest(opened: &mut VecDeque<Opening>, rows: &Slab<Held>)
    requires { AreRising opened.old.items }
    ensures stale { OnlyStaleGo (get rows.now) opened.old.items opened.new.items }
    ensures newest { NoneIsNewer (get rows.now) opened.new.items }
{
    while let Some(newest) = opened.back() {
        if held_by(rows, *newest).is_some() {
            return;
        }
        opened.pop_back();
    }
}

// Drops the stale openings before all others.
fn drop_oldest(opened: &mut VecDeque<Opening>, rows: &Slab<Held>)
    ensures stale { OnlyStaleGo (get rows.now) opened.old.items opened.new.items }
    ensures first { LeadsToFirst (get rows.now) opened.new.items }
{
    while let Some(oldest) = opened.front() {
        if held_by(rows, *oldest).is_some() {
            return;
        }
        opened.pop_front();
    }
}

// Drops all stale openings.
fn drop_all(opened: &mut VecDeque<Opening>, rows: &Slab<Held>)
    ensures { opened.new.items ≡ filter (λ o. is_some (held_by (get rows.now) o)) opened.old.items }
{
    opened.retain(|opening| held_by(rows, *opening).is_some());
}
