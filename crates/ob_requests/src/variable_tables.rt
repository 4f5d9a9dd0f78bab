//! The variables of each process, and what is kept for them.

ghost use Rattle.std.specs.Prelude.{◌≡◌, ◌⊎◌, ℕ, [], false, List, OnOk, IfOk};
ghost use Rattle.ob_requests.specs.Rows.{no_row, written};
ghost use Rattle.ob_requests.specs.Tables.{numbers_among, row_in, rows_in, HasRoom, HasTable, KeepsRoom};
ghost use Rattle.ob_requests.specs.Variables.{with_own, with_number_of};
ghost use Rattle.ob_requests.specs.declared.variable.Write.TheVariants.{Value, Ticket, Alone};

use crate::table::{
    Table, add_tickets, clear_tickets, copy_of, has_ticket, number_of, room_for, write as write_in,
    write_all,
};
use crate::variable::{Variable, Write, no_row};
use std::alloc::{AllocError, Global};
use std::collections::BTreeMap;

/// The handle variables of each process, and what is kept for each. (this profile)
#[derive(Drop)]
pub struct VariableTables {
    /// The variables of each process, by its number. A process without a table has no variable that was set.
    pub tables: BTreeMap<u32, Table<Variable>>,
    /// The slot of the variable that was written last, or given room, in the table of its process. A variable is looked for there first,
    /// so that any number gives the same variables.
    pub recent: usize,
}

impl VariableTables {
    // No variable was set.
    pub(crate) fn new(alloc: Global) -> VariableTables
        ensures { result.tables.entries ≡ [] }
    {
        VariableTables {
            tables: BTreeMap::new(alloc),
            recent: 0,
        }
    }

    // The row of a variable of a process.
    #[inline(always)]
    pub(crate) fn row_of(&self, process: u32, variable: &[u8]) -> Variable
        ensures { result ≡ rows_in self.now process variable.now }
    {
        match self.tables.get(&process) {
            Some(table) => number_of(table, self.recent, variable, no_row()),
            None => no_row(),
        }
    }

    // Makes room for the variables of a process, which stay as they are.
    pub(crate) fn room_for_variables(
        &mut self,
        alloc: Global,
        process: u32,
    ) -> Result<(), AllocError>
        ensures same { rows_in self.new ≡ rows_in self.old }
        ensures room { OnOk result (HasTable self.new process) }
        ensures stays { KeepsRoom self.old self.new }
    {
        if !self.tables.contains_key(&process) {
            let table = Table::new(alloc);
            self.tables.insert(process, table)?;
        }
        Ok(())
    }

    // Makes room for a variable of a process, for which the same is kept as before.
    pub(crate) fn room_for(
        &mut self,
        alloc: Global,
        process: u32,
        variable: &[u8],
    ) -> Result<(), AllocError>
        ensures same { rows_in self.new ≡ rows_in self.old }
        ensures room { OnOk result (HasRoom self.new process variable.now) }
        ensures stays { KeepsRoom self.old self.new }
    {
        self.room_for_variables(alloc, process)?;
        let Some(table) = self.tables.get_mut(&process) else {
            unreachable!();
        };
        self.recent = room_for(alloc, table, self.recent, variable, no_row())?;
        Ok(())
    }

    // Writes what is kept for a variable of a process. There is room for the variable, or it is written as one that was never set has
    // it. Takes no memory.
    #[inline(always)]
    pub(crate) fn write(&mut self, process: u32, variable: &[u8], write: Write)
        requires room { HasRoom self.old process variable.now ⊎ (written no_row write ≡ no_row) }
        ensures { rows_in self.new ≡ with_number_of (rows_in self.old) process variable.now
            (written (rows_in self.old process variable.now) write) }
    {
        if let Some(table) = self.tables.get_mut(&process) {
            self.recent = write_in(table, self.recent, variable, write);
        }
    }

    // All variables of a process have the value 0 from now on, and no context. Where no open waits under one, its table goes. Takes
    // no memory.
    pub(crate) fn give_all_up(&mut self, process: u32)
        ensures { rows_in self.new ≡ with_own (rows_in self.old) process
            (λ variable. written (rows_in self.old process variable) (Value 0)) }
    {
        if self.has_ticket(process) {
            self.clear_values(process);
        } else {
            self.remove(process);
        }
    }

    // Whether an open may wait under a variable of a process.
    fn has_ticket(&self, process: u32) -> bool
        ensures { result ≡ false → (variable : List ℕ) → (rows_in self.now process variable).ticket ≡ 0 }
    {
        match self.tables.get(&process) {
            Some(table) => has_ticket(table),
            None => false,
        }
    }

    // All variables of a process have the value 0 from now on, and no context. Takes no memory.
    fn clear_values(&mut self, process: u32)
        ensures { rows_in self.new ≡ with_own (rows_in self.old) process
            (λ variable. written (rows_in self.old process variable) (Value 0)) }
    {
        if let Some(table) = self.tables.get_mut(&process) {
            write_all(table, Write::Value(0));
        }
    }

    // No variable of a process is set from now on. Takes no memory.
    fn remove(&mut self, process: u32)
        ensures { rows_in self.new ≡ with_own (rows_in self.old) process (λ variable. no_row) }
    {
        self.tables.remove(&process);
    }

    // The variables of a process and their values, without contexts and tickets.
    pub(crate) fn copy_of(&self, alloc: Global, process: u32) -> Result<Table<Variable>, AllocError>
        ensures { IfOk result (λ copy. (variable : List ℕ) → row_in copy variable
            ≡ written (rows_in self.now process variable) Alone) }
    {
        match self.tables.get(&process) {
            Some(table) => copy_of(table),
            None => Ok(Table::new(alloc)),
        }
    }

    // Gives the variables of a table, of which none has a ticket, those of a process.
    pub(crate) fn add_tickets(
        &self,
        alloc: Global,
        process: u32,
        table: &mut Table<Variable>,
    ) -> Result<(), AllocError>
        requires none { (variable : List ℕ) → (row_in table.old variable).ticket ≡ 0 }
        ensures { OnOk result ((variable : List ℕ) → row_in table.new variable
            ≡ written (row_in table.old variable) (Ticket (rows_in self.now process variable).ticket)) }
    {
        match self.tables.get(&process) {
            Some(own) => add_tickets(alloc, table, own),
            None => Ok(()),
        }
    }

    /// A copy, where no open waits under a variable. The only fault is out of memory. (this profile)
    pub fn without_tickets(&self) -> Result<VariableTables, AllocError>
        ensures { IfOk result (λ copy. (process : ℕ) (variable : List ℕ) → rows_in copy process variable
            ≡ written (rows_in self.now process variable) (Ticket 0)) }
    {
        let mut tables = self.tables.clone()?;
        clear_all_tickets(&mut tables);
        Ok(VariableTables {
            tables,
            recent: self.recent,
        })
    }

    // The variables of a process are these from now on. There must be room for them. Takes no memory.
    pub(crate) fn replace(&mut self, process: u32, table: Table<Variable>)
        requires room { HasTable self.old process }
        ensures { rows_in self.new ≡ with_own (rows_in self.old) process (row_in table) }
    {
        if let Some(own) = self.tables.get_mut(&process) {
            *own = table;
        }
    }
}

// No open waits under the variables of all tables from now on. Takes no memory.
fn clear_all_tickets(tables: &mut BTreeMap<u32, Table<Variable>>)
    ensures { (process : ℕ) (variable : List ℕ)
        → numbers_among no_row tables.new.entries process variable
        ≡ written (numbers_among no_row tables.old.entries process variable) (Ticket 0) }
{
    tables.retain(|_, table| {
        clear_tickets(table);
        true
    });
}
