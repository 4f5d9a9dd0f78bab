//! Handle values: those of the rows, the rows that values lead to, and unused ones.

ghost use Rattle.std.specs.Prelude.{◌≡◌, ◌+◌, ◌*◌, ◌<◌, ◌==◌, Some, None, nat_eq, nat_lt, if◌then◌else◌, OnOk, OnErr};
ghost use Rattle.ob_model.specs.State.{most_handles};
ghost use Rattle.ob_model.specs.Grants.{IsHandleValue};
ghost use Rattle.indexmap.specs.IndexMap.{get};
ghost use Rattle.slab.specs.Slab.{get as row, slab_len};
ghost use Rattle.ob_handles.specs.Kept.{LeadToHandles};
ghost use Rattle.ob_handles.specs.Values.{IsNextUnused, Turns, row_of, key_in};

use indexmap::IndexMap;
use ob_model::Held;
use slab::Slab;
use std::alloc::AllocError;

/// How many handle values there are: the multiples of four from 4 to 262,140. (this profile)
const VALUES: u32 = 65_535;

/// The handle value of a row, by its key: 4 for key 0, and so on; `None` after the greatest.
pub(crate) fn value_of_row(key: usize) -> Option<u32>
    ensures { result ≡ (if nat_lt key most_handles then Some (4 * (key + 1)) else None) }
{
    if key < VALUES as usize {
        Some(4 * (key as u32 + 1))
    } else {
        None
    }
}

/// The key of the row whose value this is: 0 for 4, and so on; any key for a number that is none.
pub(crate) fn row_of_value(value: u32) -> usize
    ensures { result ≡ row_of value }
{
    (value as usize / 4).saturating_sub(1)
}

/// The key of the row that a value leads to: its own, if that has a handle of this value, and else the one
/// that the map has for it, if any. Takes no memory.
#[inline(always)]
pub(crate) fn key_of(rows: &Slab<Held>, foreign: &IndexMap<u32, usize>, value: u32) -> Option<usize>
    ensures { result ≡ key_in (row rows.now) (get nat_eq foreign.now) value }
{
    let own = row_of_value(value);
    if let Some(held) = rows.get(own)
        && held.value.0 == value
    {
        return Some(own);
    }
    foreign_key_of(foreign, value)
}

/// The key of the row that the map has for a value, if any. Takes no memory.
#[inline(never)]
fn foreign_key_of(foreign: &IndexMap<u32, usize>, value: u32) -> Option<usize>
    ensures { result ≡ get nat_eq foreign.now value }
{
    if foreign.is_empty() {
        return None;
    }
    foreign.get(&value).copied()
}

/// Notes in the map that a value leads to a row, unless the row is the value's own. Where memory runs out
/// nothing has changed.
pub(crate) fn note(
    foreign: &mut IndexMap<u32, usize>,
    value: u32,
    key: usize,
) -> Result<(), AllocError>
    ensures noted { OnOk result (Turns (get nat_eq foreign.old) (get nat_eq foreign.new) value
        (if key == row_of value then get nat_eq foreign.old value else Some key)) }
    ensures unchanged { OnErr result (foreign.new.entries ≡ foreign.old.entries) }
{
    if key == row_of_value(value) {
        return Ok(());
    }
    foreign.insert(value, key)?;
    Ok(())
}

/// Forgets in the map that a value leads to a row, unless the row is the value's own. Takes no memory.
pub(crate) fn forget(foreign: &mut IndexMap<u32, usize>, value: u32, key: usize)
    ensures { Turns (get nat_eq foreign.old) (get nat_eq foreign.new) value
        (if key == row_of value then get nat_eq foreign.old value else None) }
{
    if key != row_of_value(value) {
        foreign.swap_remove(&value);
    }
}

/// A handle value that leads to no row: the first unused of those after the value of this fourth, in a
/// circle. There must be fewer than 65,535 handles, and each value that leads to a row must be that of its
/// handle. Takes no memory. (this profile)
pub(crate) fn next_unused(rows: &Slab<Held>, foreign: &IndexMap<u32, usize>, fourth: u16) -> u32
    requires room { slab_len rows.now < most_handles }
    requires lead { LeadToHandles (row rows.now) (key_in (row rows.now) (get nat_eq foreign.now)) }
    ensures value { IsHandleValue result }
    ensures next { IsNextUnused (key_in (row rows.now) (get nat_eq foreign.now)) fourth result }
{
    for step in 0..VALUES {
        let value = 4 * ((u32::from(fourth) + step) % VALUES + 1);
        if key_of(rows, foreign, value).is_none() {
            return value;
        }
    }
    unreachable!()
}
