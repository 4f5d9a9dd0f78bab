//! The rows of a namespace.

ghost use Rattle.std.specs.Prelude.{◌≡◌, ◌<◌, ◌==◌, [], ◌∷◌, ◌++◌, length, filter, not};
ghost use Rattle.std.specs.Prelude.{All, Contains, IfOk, IsOk, IsTrue, OnOk, OnErr};
ghost use Rattle.std.specs.List.{find};
ghost use Rattle.std.specs.Option.{is_some, option_copied, option_map};
ghost use Rattle.ob_rows.specs.Changes.{changed_by, is_gone, Fits};
ghost use Rattle.ob_rows.specs.Index.{first_named, row_at, row_named};
ghost use Rattle.ob_rows.specs.Rows.{AreByStamp, TableFindsWhatTheStateFinds, found_among};

use crate::RowChange;
use crate::index::{NameIndex, row_hash};
use crate::stamped::StampedRows;
use ob_base::ObjId;
use ob_model::{Bytes, Row};
use ob_names::same;
use std::alloc::{AllocError, Global};
use std::marker::Model;

/// The rows of a namespace. A contract sees a `RowTable` as the list of its rows, whose stamps rise strictly.
///
/// A row is found by its stamp, and by its directory and name, with regard to case or without, in a time that
/// doesn't grow with the rows.
///
/// Source: Windows Internals, Object Manager: object directories; the stamps are this profile.
#[derive(Debug, Drop)]
pub struct RowTable {
    rows: StampedRows,
    names: NameIndex,
    // The stamp of the row that was added last, whether it is still there or not.
    newest: Option<u64>,
    alloc: Global,
}

impl Model for RowTable {
    ghost use Rattle.std.specs.Prelude.{List};
    ghost use Rattle.ob_model.specs.declared.state.Row.{Row};
    ghost use Rattle.ob_rows.specs.Index.{IsTable};

    ghost Value = { List Row };

    ghost view = { λ table. table.rows };

    ghost invariant = { λ table. IsTable table.rows table.names table.newest };
}

impl RowTable {
    /// A table with no row. Takes no memory.
    pub fn new(alloc: Global) -> RowTable
        ensures { result ≡ [] }
    {
        RowTable {
            rows: StampedRows::new(alloc),
            names: NameIndex::new(alloc),
            newest: None,
            alloc,
        }
    }

    /// How many rows there are. Takes no memory.
    pub fn len(&self) -> usize
        ensures count { result ≡ length self.now }

        // An invariant of every table.
        ensures rising { AreByStamp self.now }
    {
        self.rows.len()
    }

    /// Whether there is no row. Takes no memory.
    pub fn is_empty(&self) -> bool
        ensures { result ≡ (length self.now == 0) }
    {
        self.rows.len() == 0
    }

    /// Finds a component, of any length and with any bytes, in a directory: of the rows in it whose names are
    /// equal to the component, with `fold` for equality without regard to case, the one of least stamp; its stamp and
    /// its object. `None` exactly where no such row is there. Takes no memory.
    ///
    /// Source: Windows Internals, Object Manager: object directories; OBJECT_ATTRIBUTES structure
    /// (Windows Driver Kit), OBJ_CASE_INSENSITIVE. Which of several matches is found is this profile.
    pub fn find(&self, directory: ObjId, component: &[u8], fold: bool) -> Option<(u64, ObjId)>
        ensures { result
            ≡ option_map (λ row. (row.stamp, row.object))
            (found_among self.now directory component.now fold) }
    {
        let stamps = self.names.stamps_under(row_hash(directory, component));
        let named = first_named(&self.rows, stamps, directory, component, fold);
        named.map(|row| (row.stamp, row.object))
    }

    /// The row of a stamp, which may be any number; `None` exactly where no row has it. Takes no memory.
    ///
    /// Source: the stamps are this profile.
    pub fn row_of(&self, stamp: u64) -> Option<&Row>
        ensures { option_copied result ≡ find (λ row. row.stamp == stamp) self.now }
    {
        self.rows.get(stamp)
    }

    /// Whether a row has the stamp, which may be any number. Takes no memory.
    ///
    /// Source: the stamps are this profile.
    pub fn has(&self, stamp: u64) -> bool
        ensures { result ≡ is_some (find (λ row. row.stamp == stamp) self.now) }
    {
        self.row_of(stamp).is_some()
    }

    /// The stamps of all rows, in any order.
    ///
    /// The only error is out of memory.
    ///
    /// Source: the stamps are this profile.
    pub fn stamps(&self, alloc: Global) -> Result<Vec<u64>, AllocError>
        ensures { IfOk result (λ stamps. All (λ row. Contains stamps.items row.stamp) self.now) }
    {
        self.rows.stamps(alloc)
    }

    /// Whether a row of this stamp may be added: whether the stamp, which may be any number, is above those of all rows
    /// that the table has had. Takes no memory.
    ///
    /// Source: the stamps are this profile.
    pub fn accepts(&self, stamp: u64) -> bool
        ensures { IsTrue result → All (λ row. row.stamp < stamp) self.now }
    {
        match self.newest {
            Some(newest) => newest < stamp,
            None => true,
        }
    }

    /// Puts a row after all others, whose stamps must be below its own. Its directory and its name may be those of
    /// another row.
    ///
    /// The only error is out of memory, and then nothing has changed.
    ///
    /// Source: Windows Internals, Object Manager: object directories; the stamps are this profile.
    pub fn add(&mut self, row: Row) -> Result<(), AllocError>
        requires newest { All (λ r. r.stamp < row.stamp) self.old }
        ensures last { IfOk result (λ _. self.new ≡ self.old ++ row ∷ []) }
        ensures unchanged { OnErr result (self.new ≡ self.old) }
    {
        let stamp = row.stamp;
        let hash = row_hash(row.directory, row.name.as_slice());
        self.names.add(hash, stamp)?;
        if self.rows.push(row).is_err() {
            self.names.take(hash, stamp);
            return Err(AllocError);
        }
        self.newest = Some(stamp);
        Ok(())
    }

    /// Takes away the row of a stamp, which may be any number, and hands it back; where no row has it, nothing
    /// changes and it gives `None`. The other rows stay, in their order. Takes no memory.
    ///
    /// Source: Windows Internals, Object Manager: object directories; the stamps are this profile.
    pub fn remove(&mut self, stamp: u64) -> Option<Row>
        ensures there { result ≡ find (λ row. row.stamp == stamp) self.old }
        ensures others { self.new ≡ filter (λ row. not (row.stamp == stamp)) self.old }
    {
        let row = self.rows.remove(stamp)?;
        let hash = row_hash(row.directory, row.name.as_slice());
        self.names.take(hash, stamp);
        Some(row)
    }

    /// Makes a change of the rows; a row that is added must have a stamp above those of all others.
    ///
    /// The only error is out of memory, and then nothing has changed. To take a stamp away is always `Ok`.
    ///
    /// Source: this profile.
    pub fn apply(&mut self, change: &RowChange) -> Result<(), AllocError>
        requires newest { Fits self.old change.now }
        ensures changed { OnOk result (self.new ≡ changed_by self.old (change.now ∷ [])) }
        ensures gone { IsTrue (is_gone change.now) → IsOk result }
        ensures unchanged { OnErr result (self.new ≡ self.old) }
    {
        match change {
            RowChange::Added(row) => {
                let copy = copy_of(self.alloc, row)?;
                self.add(copy)
            }
            RowChange::Gone(stamp) => {
                self.remove(*stamp);
                Ok(())
            }
        }
    }
}

// A copy of a row.
fn copy_of(alloc: Global, row: &Row) -> Result<Row, AllocError>
    ensures { IfOk result (λ copy. copy ≡ row.now) }
{
    Ok(Row {
        stamp: row.stamp,
        directory: row.directory,
        name: Bytes::from_slice(alloc, row.name.as_slice())?,
        object: row.object,
    })
}

// Of the rows that have these stamps, the first that a component finds in a directory; none where none is found.
fn first_named<'a>(
    rows: &'a StampedRows,
    stamps: &[u64],
    directory: ObjId,
    component: &[u8],
    fold: bool,
) -> Option<&'a Row>
    ensures { option_copied result
        ≡ first_named (row_at rows.now) directory component.now fold stamps.now }
{
    for stamp in stamps {
        if let Some(row) = row_named(rows, *stamp, directory, component, fold) {
            return Some(row);
        }
    }
    None
}

// The row of a stamp, where a component finds it in a directory.
fn row_named<'a>(
    rows: &'a StampedRows,
    stamp: u64,
    directory: ObjId,
    component: &[u8],
    fold: bool,
) -> Option<&'a Row>
    ensures { option_copied result
        ≡ row_named directory component.now fold (row_at rows.now stamp) }
{
    let row = rows.get(stamp)?;
    if row.directory == directory && same(row.name.as_slice(), component, fold) {
        Some(row)
    } else {
        None
    }
}

/// The law that a table finds what the state finds: where a state's rows are those of the table, what the state
/// finds under a component in a directory, with or without `fold`, is the row that the table finds. Takes nothing
/// and does nothing.
pub fn table_finds_what_the_state_finds<K, T, F, I>()
    ensures { TableFindsWhatTheStateFinds K T F I }
{}
