//! Rows by their stamps.

ghost use Rattle.std.specs.Prelude.{◌≡◌, ◌<◌, ◌==◌, [], ◌∷◌, ◌++◌, length, filter, not};
ghost use Rattle.std.specs.Prelude.{All, Contains, IfOk, OnErr};
ghost use Rattle.std.specs.List.{find};
ghost use Rattle.std.specs.Option.{option_copied};
ghost use Rattle.ob_rows.specs.Rows.{AreByStamp};

use indexmap::IndexMap;
use ob_model::Row;
use std::alloc::{AllocError, Global};
use std::marker::Model;

/// Rows, each found by its stamp in a time that doesn't grow with their number. A contract sees them as the list
/// of the rows, by rising stamps.
#[derive(Debug, Drop)]
pub(crate) struct StampedRows {
    map: IndexMap<u64, Row>,
}

impl Model for StampedRows {
    ghost use Rattle.std.specs.Prelude.{List};
    ghost use Rattle.ob_model.specs.declared.state.Row.{Row};
    ghost use Rattle.ob_rows.specs.Stamped.{rows_of, AreStamped};

    ghost Value = { List Row };

    ghost view = { λ rows. rows_of rows.map.entries };

    ghost invariant = { λ rows. AreStamped rows.map.entries };
}

impl StampedRows {
    /// No row. Takes no memory.
    pub(crate) fn new(alloc: Global) -> StampedRows
        ensures { result ≡ [] }
    {
        StampedRows {
            map: IndexMap::new(alloc),
        }
    }

    /// How many rows there are.
    pub(crate) fn len(&self) -> usize
        ensures count { result ≡ length self.now }

        // An invariant of all rows.
        ensures rising { AreByStamp self.now }
    {
        self.map.len()
    }

    /// The row of a stamp; `None` exactly where no row has it.
    pub(crate) fn get(&self, stamp: u64) -> Option<&Row>
        ensures { option_copied result ≡ find (λ row. row.stamp == stamp) self.now }
    {
        self.map.get(&stamp)
    }

    /// The stamps of all rows, in any order. The only error is out of memory.
    pub(crate) fn stamps(&self, alloc: Global) -> Result<Vec<u64>, AllocError>
        ensures { IfOk result (λ stamps. All (λ row. Contains stamps.items row.stamp) self.now) }
    {
        self.map.values().map(|row| row.stamp).collect(alloc)
    }

    /// Puts a row after the others, whose stamps must be below its own. Where memory runs out nothing has changed.
    pub(crate) fn push(&mut self, row: Row) -> Result<(), AllocError>
        requires newest { All (λ r. r.stamp < row.stamp) self.old }
        ensures last { IfOk result (λ _. self.new ≡ self.old ++ row ∷ []) }
        ensures unchanged { OnErr result (self.new ≡ self.old) }
    {
        match self.map.insert(row.stamp, row) {
            Ok(_) => Ok(()),
            Err(_) => Err(AllocError),
        }
    }

    /// Takes away the row of a stamp and hands it back; where no row has it nothing changes. Takes no memory.
    pub(crate) fn remove(&mut self, stamp: u64) -> Option<Row>
        ensures there { result ≡ find (λ row. row.stamp == stamp) self.old }
        ensures others { self.new ≡ filter (λ row. not (row.stamp == stamp)) self.old }
    {
        self.map.swap_remove(&stamp)
    }
}
