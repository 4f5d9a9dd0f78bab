//! The variables of a script.

ghost use Rattle.std.specs.Prelude.{◌≡◌, ℕ, true, List, IfOk, OnOk, if◌then◌else◌};
ghost use Rattle.ob_requests.specs.Rows.{value_alone};
ghost use Rattle.ob_requests.specs.Tables.{variables_in, row_in, value_in, has_variable, CanBegin, HasRoom, HasTable, KeepsRoom};
ghost use Rattle.ob_requests.specs.Variables.{first_variables, with_process, with_variable, without_variables, with_variables, with_context, with_ticket};

use crate::table::{Table, number_of, room_for, set};
use crate::variable::{Variable, Write};
use crate::variable_name::VariableName;
use crate::variable_tables::VariableTables;
use ob_base::{Handle, Proc};
use std::alloc::{AllocError, Global};

/// The variables of a script: the number of each process variable, and for each process what is kept for its
/// handle variables. A variable that was never set stands for 0, which is no process and no handle.
///
/// A contract sees them by `variables_in`. Room for a variable is made before the step whose reply sets it, so
/// that no reply is lost for lack of memory. A handle variable has room for its value, its context and its ticket at once. Room
/// stays where room for another variable is made.
///
/// Source: this profile.
#[derive(Drop)]
pub struct Variables {
    /// Where memory is taken from.
    pub alloc: Global,
    /// The process variables.
    pub processes: Table<u32>,
    /// The rows of the handle variables of each process.
    pub handles: VariableTables,
    /// The slot of the process variable that was set last, or given room. A process variable is looked for there first, so that
    /// any number gives the same variables.
    pub recent: usize,
}

impl Variables {
    /// The variables at first: `p1` is process 1. The only fault is out of memory.
    pub fn new(alloc: Global) -> Result<Variables, AllocError>
        ensures { IfOk result (λ variables. variables_in variables ≡ first_variables) }
    {
        let mut processes = Table::new(alloc);
        let first = VariableName::from_slice(alloc, b"p1")?;
        processes.insert(first, 1)?;
        Ok(Variables {
            alloc,
            processes,
            handles: VariableTables::new(alloc),
            recent: 0,
        })
    }

    /// The process of a process variable. Takes no memory.
    #[inline(always)]
    pub fn process_of(&self, variable: &[u8]) -> Proc
        ensures { result ≡ (variables_in self.now).processes variable.now }
    {
        Proc(number_of(&self.processes, self.recent, variable, 0))
    }

    /// The value of a handle variable of a process. Takes no memory.
    #[inline(always)]
    pub fn value_of(&self, process: Proc, variable: &[u8]) -> Handle
        ensures { result ≡ (variables_in self.now).values process variable.now }
    {
        Handle(self.handles.row_of(process.0, variable).value)
    }

    /// The context that is kept for a handle variable of a process: where the next page of a directory begins,
    /// and 0 at its beginning. Takes no memory.
    pub(crate) fn context_of(&self, process: Proc, variable: &[u8]) -> u64
        ensures { result ≡ (variables_in self.now).contexts process variable.now }
    {
        self.handles.row_of(process.0, variable).context
    }

    /// The ticket of the open that waits under a handle variable of a process: 0 where none does. Takes no
    /// memory.
    pub fn ticket_of(&self, process: Proc, variable: &[u8]) -> u64
        ensures { result ≡ (variables_in self.now).tickets process variable.now }
    {
        self.handles.row_of(process.0, variable).ticket
    }

    /// Makes room for a process variable, which keeps its number. The only fault is out of memory.
    pub(crate) fn room_for_process(&mut self, variable: &[u8]) -> Result<(), AllocError>
        ensures same { variables_in self.new ≡ variables_in self.old }
        ensures handles { self.new.handles ≡ self.old.handles }
        ensures room { OnOk result (has_variable self.new.processes variable.now ≡ true) }
    {
        self.recent = room_for(self.alloc, &mut self.processes, self.recent, variable, 0)?;
        Ok(())
    }

    /// Sets a process variable, for which there is room. Takes no memory.
    pub(crate) fn set_process(&mut self, variable: &[u8], process: Proc)
        requires room { has_variable self.old.processes variable.now ≡ true }
        ensures set { variables_in self.new ≡ with_process (variables_in self.old) variable.now process }
        ensures handles { self.new.handles ≡ self.old.handles }
    {
        self.recent = set(&mut self.processes, self.recent, variable, process.0);
    }

    /// Makes room for the variables of a process, which stay as they are. The only fault is out of memory.
    pub fn room_for_variables(&mut self, process: Proc) -> Result<(), AllocError>
        ensures same { variables_in self.new ≡ variables_in self.old }
        ensures processes { self.new.processes ≡ self.old.processes }
        ensures stays { KeepsRoom self.old.handles self.new.handles }
        ensures room { OnOk result (HasTable self.new.handles process) }
    {
        self.handles.room_for_variables(self.alloc, process.0)
    }

    /// Makes room for a handle variable of a process, which keeps its value, its context and its ticket: there is room for each of
    /// them. The only fault is out of memory. (this profile)
    #[inline(always)]
    pub fn room_for_variable(&mut self, process: Proc, variable: &[u8]) -> Result<(), AllocError>
        ensures same { variables_in self.new ≡ variables_in self.old }
        ensures processes { self.new.processes ≡ self.old.processes }
        ensures stays { KeepsRoom self.old.handles self.new.handles }
        ensures room { OnOk result (HasRoom self.new.handles process variable.now) }
    {
        self.handles.room_for(self.alloc, process.0, variable)
    }

    /// Sets a handle variable of a process, for which there is room. It has no context from now on. Takes no
    /// memory.
    #[inline(always)]
    pub fn set_handle(&mut self, process: Proc, variable: &[u8], handle: Handle)
        requires room { HasRoom self.old.handles process variable.now }
        ensures { variables_in self.new ≡ with_variable (variables_in self.old) process variable.now handle }
    {
        self.handles
            .write(process.0, variable, Write::Value(handle.0));
    }

    /// Keeps a context for a handle variable of a process, for which there is room. Takes no memory.
    pub(crate) fn set_context(&mut self, process: Proc, variable: &[u8], context: u64)
        requires room { HasRoom self.old.handles process variable.now }
        ensures { variables_in self.new ≡ with_context (variables_in self.old) process variable.now context }
    {
        self.handles
            .write(process.0, variable, Write::Context(context));
    }

    /// Keeps the ticket of an open that waits under a handle variable of a process, for which there is room.
    /// Takes no memory.
    pub fn set_ticket(&mut self, process: Proc, variable: &[u8], ticket: u64)
        requires room { HasRoom self.old.handles process variable.now }
        ensures { variables_in self.new ≡ with_ticket (variables_in self.old) process variable.now ticket }
    {
        self.handles
            .write(process.0, variable, Write::Ticket(ticket));
    }

    /// No open waits under a handle variable of a process from now on. Takes no memory.
    pub fn clear_ticket(&mut self, process: Proc, variable: &[u8])
        ensures { variables_in self.new ≡ with_ticket (variables_in self.old) process variable.now 0 }
    {
        self.handles.write(process.0, variable, Write::Ticket(0));
    }

    /// A handle variable of a process stands for 0 from now on, and has no context. Takes no memory.
    #[inline(always)]
    pub fn give_up(&mut self, process: Proc, variable: &[u8])
        ensures { variables_in self.new ≡ with_variable (variables_in self.old) process variable.now 0 }
    {
        self.handles.write(process.0, variable, Write::Value(0));
    }

    /// All handle variables of a process stand for 0 from now on, and have no context. Takes no memory.
    pub(crate) fn give_all_up(&mut self, process: Proc)
        ensures { variables_in self.new ≡ without_variables (variables_in self.old) process }
    {
        self.handles.give_all_up(process.0);
    }

    /// The variables that a child can [begin](Variables::begin) with: those of its parent with their values where it inherits, and
    /// else none. They have no context, and the tickets of the child's own variables. The only fault is out of memory. (this profile)
    pub fn variables_for_child(
        &self,
        parent: Proc,
        child: Proc,
        inherit: bool,
    ) -> Result<Table<Variable>, AllocError>
        ensures values { IfOk result (λ table. value_in table
            ≡ (λ variable. if inherit then (variables_in self.now).values parent variable else 0)) }
        ensures begins { IfOk result (CanBegin (variables_in self.now) child) }
    {
        let mut table = self.values_to_inherit(parent, inherit)?;
        self.handles.add_tickets(self.alloc, child.0, &mut table)?;
        Ok(table)
    }

    // The variables of a parent and their values where they are inherited, and else none: without contexts and tickets.
    fn values_to_inherit(&self, parent: Proc, inherit: bool) -> Result<Table<Variable>, AllocError>
        ensures { IfOk result (λ table. (variable : List ℕ) → row_in table variable
            ≡ value_alone (if inherit then (variables_in self.now).values parent variable else 0)) }
    {
        if inherit {
            self.handles.copy_of(self.alloc, parent.0)
        } else {
            Ok(Table::new(self.alloc))
        }
    }

    /// The handle variables of a process are these from now on, where none has a context, and each has the ticket that it has already.
    /// There must be room for them. Takes no memory.
    pub fn begin(&mut self, process: Proc, table: Table<Variable>)
        requires room { HasTable self.old.handles process }
        requires begins { CanBegin (variables_in self.old) process table }
        ensures variables { variables_in self.new
            ≡ with_variables (variables_in self.old) process (value_in table) }
        ensures processes { self.new.processes ≡ self.old.processes }
    {
        self.handles.replace(process.0, table);
    }
}
