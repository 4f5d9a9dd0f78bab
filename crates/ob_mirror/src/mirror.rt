//! A copy of all rows, which catches up with a core.

ghost use Rattle.std.specs.Prelude.{◌≡◌, ◌+◌, ◌<◌, ◌++◌, ◌∷◌, [], All, Contains, IfOk, IsTrue, OnErr, Some};
ghost use Rattle.ob_mirror.specs.Mirrored.{AreInOrder, Follows, LeadsOn};
ghost use Rattle.ob_objects.specs.Named.{IsFirstFrom, row_of_named};
ghost use Rattle.ob_rows.specs.Rows.{AreByStamp};

use ob_base::ObjId;
use ob_core::{Core, HandleTable, Named};
use ob_model::{Bytes, Row};
use ob_rows::{RowChange, RowTable};
use ob_types::TypeSet;
use std::alloc::{AllocError, Global};
use std::collections::VecDeque;
use std::marker::Model;
use std::mem;

/// A copy of the rows of a namespace, with the changes that were made of it since they were taken last. A contract sees it as
/// its rows, the id from which on it has not looked at objects, and these changes. (this profile)
#[derive(Drop)]
pub struct Mirror {
    rows: RowTable,
    next: u64,
    pending: VecDeque<RowChange>,
    alloc: Global,
}

impl Model for Mirror {
    ghost use Rattle.ob_mirror.specs.Mirrored.{Mirrored};

    ghost Value = { Mirrored };

    ghost view = { λ m. record { rows = m.rows; next = m.next; pending = m.pending.items } };
}

impl Mirror {
    /// A copy of no row. Takes no memory. (this profile)
    pub fn new(alloc: Global) -> Mirror
        ensures { result ≡ record { rows = []; next = 0; pending = [] } }
    {
        Mirror {
            rows: RowTable::new(alloc),
            next: 0,
            pending: VecDeque::new(alloc),
            alloc,
        }
    }

    /// The rows. (this profile)
    pub fn rows(&self) -> &RowTable
        ensures { result.now ≡ self.now.rows }
    {
        &self.rows
    }

    /// The rows by themselves. Takes no memory. (this profile)
    pub fn into_rows(self) -> RowTable
        ensures { result ≡ self.rows }
    {
        let Mirror {
            rows,
            next: _,
            pending: _pending,
            alloc: _,
        } = self;
        rows
    }

    /// Takes the changes that were made since they were taken last, and leaves none. Takes no memory. (this profile)
    pub fn take_changes(&mut self) -> VecDeque<RowChange>
        ensures taken { result.items ≡ self.old.pending }
        ensures left { self.new ≡ record self.old { pending = [] } }
    {
        mem::replace(&mut self.pending, VecDeque::new(self.alloc))
    }

    /// Gives changes back that were taken and are still to be shown, where none were made since. Takes no memory.
    /// (this profile)
    pub fn give_back(&mut self, changes: VecDeque<RowChange>)
        requires none { self.old.pending ≡ [] }
        ensures { self.new ≡ record self.old { pending = changes.items } }
    {
        self.pending = changes;
    }

    /// Makes the rows those of a core: those that are missing are added, and those that went are taken away. The changes
    /// that this takes are listed after those that are listed already.
    ///
    /// The only error is out of memory: then some are made, and the next call goes on from there. (this profile)
    pub fn follow<T: TypeSet, H: HandleTable>(
        &mut self,
        core: &Core<T, H>,
    ) -> Result<(), AllocError>
        requires order { AreInOrder core.now }
        requires follows { Follows self.old.rows self.old.next core.now }
        ensures follows { Follows self.new.rows self.new.next core.now }
        ensures listed { LeadsOn self.old self.new }
        ensures all { IfOk result (λ _. self.new.rows ≡ core.now.rows) }
    {
        self.add_new(core)?;
        if self.has_all(core) {
            return Ok(());
        }
        self.take_gone(core)
    }

    // Whether the rows are as many as the core's names. Then they are the core's, where no object is left to look at.
    fn has_all<T: TypeSet, H: HandleTable>(&self, core: &Core<T, H>) -> bool
        requires order { AreInOrder core.now }
        requires follows { Follows self.now.rows self.now.next core.now }
        requires all { All (λ row. row.object < self.now.next) core.now.rows }
        ensures { IsTrue result → self.now.rows ≡ core.now.rows }
    {
        core.state_is_sound();
        self.rows.len() == core.names()
    }

    // Adds the rows of the objects that were not looked at yet.
    fn add_new<T: TypeSet, H: HandleTable>(&mut self, core: &Core<T, H>) -> Result<(), AllocError>
        requires order { AreInOrder core.now }
        requires follows { Follows self.old.rows self.old.next core.now }
        ensures follows { Follows self.new.rows self.new.next core.now }
        ensures listed { LeadsOn self.old self.new }
        ensures all { IfOk result (λ _. All (λ row. row.object < self.new.next) core.now.rows) }
    {
        core.state_is_sound();
        while let Some(id) = self.next_object(core) {
            self.look_at(core, id)?;
        }
        Ok(())
    }

    // The next object to look at, if one is left.
    fn next_object<T: TypeSet, H: HandleTable>(&self, core: &Core<T, H>) -> Option<ObjId>
        ensures { IsFirstFrom self.now.next core.now.objects result }
    {
        core.first_from(ObjId(self.next))
    }

    // Adds the row of the next object, if it has one.
    fn look_at<T: TypeSet, H: HandleTable>(
        &mut self,
        core: &Core<T, H>,
        id: ObjId,
    ) -> Result<(), AllocError>
        requires order { AreInOrder core.now }
        requires follows { Follows self.old.rows self.old.next core.now }
        requires first { IsFirstFrom self.old.next core.now.objects (Some id) }
        ensures follows { Follows self.new.rows self.new.next core.now }
        ensures listed { LeadsOn self.old self.new }
        ensures onward { IfOk result (λ _. self.new.next ≡ id + 1) }
    {
        core.state_is_sound();
        let next = one_above(id)?;
        let Some(name) = core.name_of(id) else {
            self.next = next;
            return Ok(());
        };
        self.copy(&name, id)?;
        self.next = next;
        Ok(())
    }

    // Adds the row of a name of an object.
    fn copy(&mut self, name: &Named<'_>, object: ObjId) -> Result<(), AllocError>
        requires object { (row_of_named name.now).object ≡ object }
        requires newest { All (λ row. row.stamp < (row_of_named name.now).stamp) self.old.rows }
        ensures rows { IfOk result (λ _. self.new.rows ≡ self.old.rows ++ row_of_named name.now ∷ []) }
        ensures listed { LeadsOn self.old self.new }
        ensures next { self.new.next ≡ self.old.next }
        ensures unchanged { OnErr result (self.new ≡ self.old) }
    {
        let row = self.row_of(name, object)?;
        let listed = self.row_of(name, object)?;
        self.pending.reserve(1)?;
        self.rows.add(row)?;
        self.pending.push_back_reserved(RowChange::Added(listed));
        Ok(())
    }

    // The row of a name of an object, with a copy of the name.
    fn row_of(&self, name: &Named<'_>, object: ObjId) -> Result<Row, AllocError>
        requires { (row_of_named name.now).object ≡ object }
        ensures { IfOk result (λ row. row ≡ row_of_named name.now) }
    {
        let bytes = Bytes::from_slice(self.alloc, name.name())?;
        Ok(Row {
            stamp: name.stamp(),
            directory: name.directory,
            name: bytes,
            object,
        })
    }

    // Takes away the rows whose objects have no name any more: those that the core lists as removed, and where that leaves others,
    // all.
    fn take_gone<T: TypeSet, H: HandleTable>(&mut self, core: &Core<T, H>) -> Result<(), AllocError>
        requires order { AreInOrder core.now }
        requires follows { Follows self.old.rows self.old.next core.now }
        requires all { All (λ row. row.object < self.old.next) core.now.rows }
        ensures follows { Follows self.new.rows self.new.next core.now }
        ensures listed { LeadsOn self.old self.new }
        ensures all { IfOk result (λ _. self.new.rows ≡ core.now.rows) }
    {
        self.take_hinted(core)?;
        if self.has_all(core) {
            return Ok(());
        }
        self.take_lost(core)
    }

    // Takes away the rows that the core lists as removed, where their objects have no name any more. The list is a hint: it may
    // lack rows, and list others.
    fn take_hinted<T: TypeSet, H: HandleTable>(
        &mut self,
        core: &Core<T, H>,
    ) -> Result<(), AllocError>
        requires order { AreInOrder core.now }
        requires follows { Follows self.old.rows self.old.next core.now }
        ensures follows { Follows self.new.rows self.new.next core.now }
        ensures listed { LeadsOn self.old self.new }
        ensures next { self.new.next ≡ self.old.next }
    {
        for removed in core.removed() {
            self.take_if_lost(core, removed.stamp)?;
        }
        Ok(())
    }

    // Takes away the rows whose objects have no name any more.
    fn take_lost<T: TypeSet, H: HandleTable>(&mut self, core: &Core<T, H>) -> Result<(), AllocError>
        requires order { AreInOrder core.now }
        requires follows { Follows self.old.rows self.old.next core.now }
        requires all { All (λ row. row.object < self.old.next) core.now.rows }
        ensures follows { Follows self.new.rows self.new.next core.now }
        ensures listed { LeadsOn self.old self.new }
        ensures all { IfOk result (λ _. self.new.rows ≡ core.now.rows) }
    {
        core.state_is_sound();
        let stamps = self.rows.stamps(self.alloc)?;
        self.take_each_lost(core, stamps.as_slice())?;
        self.rows_rise();
        Ok(())
    }

    // Takes away the rows whose objects have no name any more; these are the stamps of all rows.
    fn take_each_lost<T: TypeSet, H: HandleTable>(
        &mut self,
        core: &Core<T, H>,
        stamps: &[u64],
    ) -> Result<(), AllocError>
        requires order { AreInOrder core.now }
        requires follows { Follows self.old.rows self.old.next core.now }
        requires stamps { All (λ row. Contains stamps.now row.stamp) self.old.rows }
        ensures follows { Follows self.new.rows self.new.next core.now }
        ensures listed { LeadsOn self.old self.new }
        ensures next { self.new.next ≡ self.old.next }
        ensures own { IfOk result (λ _. All (Contains core.now.rows) self.new.rows) }
    {
        for stamp in stamps {
            self.take_if_lost(core, *stamp)?;
        }
        Ok(())
    }

    // Takes away the row of a stamp, if its object has no name any more.
    fn take_if_lost<T: TypeSet, H: HandleTable>(
        &mut self,
        core: &Core<T, H>,
        stamp: u64,
    ) -> Result<(), AllocError>
        requires order { AreInOrder core.now }
        requires follows { Follows self.old.rows self.old.next core.now }
        ensures follows { Follows self.new.rows self.new.next core.now }
        ensures listed { LeadsOn self.old self.new }
        ensures next { self.new.next ≡ self.old.next }
        ensures fewer { All (Contains self.old.rows) self.new.rows }
        ensures own { IfOk result (λ _. All (λ row. row.stamp ≡ stamp → Contains core.now.rows row) self.new.rows) }
    {
        core.state_is_sound();
        // The contract of the length says that the stamps rise.
        let _ = self.rows.len();
        let Some(row) = self.rows.row_of(stamp) else {
            return Ok(());
        };
        if core.name_of(row.object).is_some() {
            return Ok(());
        }
        self.pending.push_back(RowChange::Gone(stamp))?;
        self.rows.remove(stamp);
        Ok(())
    }

    // An invariant of all rows: they rise by stamps. The call does nothing.
    fn rows_rise(&self)
        ensures { AreByStamp self.now.rows }
    {
        let _ = self.rows.len();
    }
}

// The number above an id. The only error is that there is none.
fn one_above(id: ObjId) -> Result<u64, AllocError>
    ensures { IfOk result (λ next. next ≡ id + 1) }
{
    id.0.checked_add(1).ok_or(AllocError)
}
