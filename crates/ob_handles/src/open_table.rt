//! A handle table over ordered maps.

ghost use Rattle.std.specs.Prelude.{◌≡◌, ◌<◌, length};
ghost use Rattle.ob_model.specs.State.{most_handles};
ghost use Rattle.ob_handles.specs.Table.{IsUnused};
ghost use Rattle.ob_handles.specs.declared.open_table.OpenTable.{OpenTable};

use crate::HandleTable;
use crate::free::unused_value;
use ob_base::{Handle, ObjId, Proc};
use ob_model::Held;
use std::alloc::{AllocError, Global};
use std::collections::BTreeMap;
use std::marker::Model;
use std::ops::Bound;

/// A handle table whose handles lie in a map by their orders of opening, beside a map from their values
/// to these orders. A new handle gets the value after the greatest one in use, or, where there is none
/// after it, the least that is unused. Each call takes a time that grows with the logarithm of the
/// handles, except for a grant where no value is after the greatest: that one passes values in use. (this
/// profile)
#[derive(Drop)]
pub struct OpenTable {
    by_order: BTreeMap<u64, Held>,
    by_value: BTreeMap<u32, u64>,
}

impl Model for OpenTable {
    ghost use Rattle.std.specs.Prelude.{List, map};
    ghost use Rattle.ob_model.specs.declared.state.Held.{Held as AHandle};
    ghost use Rattle.ob_handles.specs.Indexed.{IsIndexed};

    ghost Value = { List AHandle };

    ghost view = { λ table. map (λ e. e.1) table.by_order.entries };

    ghost invariant = { λ table. IsIndexed table.by_order.entries table.by_value.entries };
}

impl HandleTable for OpenTable {
    ghost handles = { λ table. table };

    fn new(alloc: Global) -> OpenTable {
        OpenTable {
            by_order: BTreeMap::new(alloc),
            by_value: BTreeMap::new(alloc),
        }
    }

    fn copy(&self) -> Result<OpenTable, AllocError> {
        Ok(OpenTable {
            by_order: self.by_order.clone()?,
            by_value: self.by_value.clone()?,
        })
    }

    // An ordered map can't make room.
    fn reserve(&mut self, _more: usize) -> Result<(), AllocError> {
        Ok(())
    }

    fn unused(&mut self) -> Handle {
        Handle(unused_value(&self.by_value))
    }

    fn put(&mut self, held: Held) -> Result<(), AllocError> {
        let (value, order) = (held.value, held.order);
        self.by_order.insert(order, held)?;
        if let Err(want) = self.by_value.insert(value.0, order) {
            self.by_order.remove(&order);
            return Err(AllocError::from(want));
        }
        Ok(())
    }

    fn get(&self, value: Handle) -> Option<Held> {
        let order = self.by_value.get(&value.0)?;
        self.by_order.get(order).copied()
    }

    fn take(&mut self, value: Handle) -> Option<Held> {
        let order = self.by_value.remove(&value.0)?;
        self.by_order.remove(&order)
    }

    fn len(&self) -> usize {
        self.by_order.len()
    }

    fn oldest(&self) -> Option<Held> {
        let (_, held) = self.by_order.first_key_value()?;
        Some(*held)
    }

    fn opened_after(&self, order: u64) -> Option<Held> {
        let after = (Bound::Excluded(order), Bound::Unbounded);
        let (_, held) = self.by_order.range(after).next()?;
        Some(*held)
    }

    fn inheritable(&self, alloc: Global) -> Result<Vec<Held>, AllocError> {
        let handles = self.by_order.values().copied();
        handles.filter(|held| held.inherit).collect(alloc)
    }
}
