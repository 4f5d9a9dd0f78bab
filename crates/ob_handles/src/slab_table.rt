//! A handle table over a slab.

ghost use Rattle.std.specs.Prelude.{◌≡◌, ◌<◌, length};
ghost use Rattle.ob_model.specs.State.{most_handles};
ghost use Rattle.ob_handles.specs.Table.{IsUnused};

use crate::openings::{Opening, drop_stale, held_after, held_by};
use crate::table::{HandleTable, MOST_HANDLES};
use crate::values::{forget, key_of, next_unused, note, value_of_row};
use indexmap::IndexMap;
use ob_base::{Handle, ObjId, Proc};
use ob_model::Held;
use slab::Slab;
use std::alloc::{AllocError, Global};
use std::collections::VecDeque;
use std::marker::Model;

/// A handle table whose handles lie in the rows of a slab, beside a queue of their openings, and a hash table
/// from the values of those handles whose value isn't that of their row to the rows' keys. A handle that is
/// taken leaves a stale opening, until no other is before it, or no other is after it, or there are more
/// than two openings for each handle.
///
/// A new handle gets the value of its row, four times the key and one; or, where another handle has that
/// one, since a child inherited it, the first unused after the value that was searched for last, in a
/// circle.
///
/// `get`, `len` and `oldest` take a time that doesn't grow with the handles. So do `grant`, `put` and
/// `take`, taken together over many calls, except for a grant that searches: it passes values in use, each once
/// in a circle. None of these hashes where each handle, a new one too, has the value of its row.
/// `opened_after` takes a time that grows with their logarithm, and passes the stale openings before the handle
/// that it gives. `inheritable` passes at most two openings for each handle, and one more. (this profile)
#[derive(Drop)]
pub struct SlabTable {
    rows: Slab<Held>,
    // The rows' keys of handles whose value isn't their row's own.
    foreign: IndexMap<u32, usize>,
    opened: VecDeque<Opening>,
    // A fourth of the value that was searched for last; 0 at first.
    searched: u16,
}

impl Model for SlabTable {
    ghost use Rattle.std.specs.Prelude.{List, nat_eq};
    ghost use Rattle.slab.specs.Slab.{get as row, slab_len};
    ghost use Rattle.indexmap.specs.IndexMap.{get as key_of};
    ghost use Rattle.ob_model.specs.declared.state.Held.{Held as AHandle};
    ghost use Rattle.ob_handles.specs.Openings.{handles_of};
    ghost use Rattle.ob_handles.specs.Kept.{IsInRows};

    ghost Value = { List AHandle };

    ghost view = { λ table. handles_of (row table.rows) table.opened.items };

    ghost invariant = { λ table. IsInRows (row table.rows) (key_of nat_eq table.foreign)
        table.opened.items (slab_len table.rows) };
}

impl HandleTable for SlabTable {
    ghost handles = { λ table. table };

    fn new(alloc: Global) -> SlabTable {
        SlabTable {
            rows: Slab::new(alloc),
            foreign: IndexMap::new(alloc),
            opened: VecDeque::new(alloc),
            searched: 0,
        }
    }

    fn copy(&self) -> Result<SlabTable, AllocError> {
        Ok(SlabTable {
            rows: self.rows.clone()?,
            foreign: self.foreign.clone()?,
            opened: self.opened.clone()?,
            searched: self.searched,
        })
    }

    fn reserve(&mut self, more: usize) -> Result<(), AllocError> {
        self.rows.reserve(more)?;
        self.opened.reserve(more)
    }

    #[inline(always)]
    fn unused(&mut self) -> Handle {
        if let Some(value) = value_of_row(self.rows.vacant_key())
            && key_of(&self.rows, &self.foreign, value).is_none()
        {
            return Handle(value);
        }
        let value = next_unused(&self.rows, &self.foreign, self.searched);
        self.searched = (value / 4) as u16;
        Handle(value)
    }

    #[inline(always)]
    fn put(&mut self, held: Held) -> Result<(), AllocError> {
        let (value, order) = (held.value, held.order);
        self.rows.reserve(1)?;
        self.opened.reserve(1)?;
        let key = self.rows.vacant_key();
        note(&mut self.foreign, value.0, key)?;
        self.rows.insert_reserved(held);
        self.opened.push_back_reserved(Opening { order, key });
        Ok(())
    }

    #[inline(always)]
    fn get(&self, value: Handle) -> Option<Held> {
        let key = key_of(&self.rows, &self.foreign, value.0)?;
        self.rows.get(key).copied()
    }

    #[inline(always)]
    fn take(&mut self, value: Handle) -> Option<Held> {
        let number = value.0;
        let key = key_of(&self.rows, &self.foreign, number)?;
        forget(&mut self.foreign, number, key);
        let held = self.rows.try_remove(key);
        drop_stale(&mut self.opened, &self.rows, self.rows.len());
        held
    }

    fn len(&self) -> usize {
        self.rows.len()
    }

    fn oldest(&self) -> Option<Held> {
        let oldest = self.opened.front()?;
        held_by(&self.rows, *oldest)
    }

    fn opened_after(&self, order: u64) -> Option<Held> {
        held_after(&self.opened, &self.rows, order)
    }

    fn inheritable(&self, alloc: Global) -> Result<Vec<Held>, AllocError> {
        let rows = &self.rows;
        let handles = self.opened.iter().filter_map(|o| held_by(rows, *o));
        handles.filter(|held| held.inherit).collect(alloc)
    }
}
