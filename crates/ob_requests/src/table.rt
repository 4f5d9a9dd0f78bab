//! Variables, and what is kept for them.

ghost use Rattle.std.specs.Prelude.{◌≡◌, ◌⊎◌, ℕ, true, false, List, OnOk, IfOk, IsTrue};
ghost use Rattle.ob_requests.specs.Rows.{no_row, written};
ghost use Rattle.ob_requests.specs.Tables.{number_or, row_in, value_in, has_variable, DifferInValues, IsIn, IsSlotOf, IsKept};
ghost use Rattle.ob_requests.specs.Variables.{with_number};
ghost use Rattle.ob_requests.specs.declared.variable.Write.TheVariants.{Ticket, Alone};

use crate::variable::{Variable, Write, no_row, written};
use crate::variable_name::{Sought, VariableName};
use indexmap::IndexMap;
use std::alloc::{AllocError, Global};

/// Variables, and what is kept for each: for a process variable its number, and 0 where it has none; for a handle variable its [row](Variable). (this profile)
pub type Table<N> = IndexMap<VariableName, N>;

// The number of a variable: `none` where it was never set. It is looked for first in a slot where it may be.
#[inline(always)]
pub(crate) fn number_of<N: Copy>(table: &Table<N>, guess: usize, variable: &[u8], none: N) -> N
    ensures { result ≡ number_or none table.now variable.now }
{
    if let Some((own, number)) = table.get_index(guess)
        && own.as_slice() == variable
    {
        return *number;
    }
    searched_number(table, variable, none)
}

// The number of a variable, searched for in all slots: `none` where it was never set.
#[inline(never)]
fn searched_number<N: Copy>(table: &Table<N>, variable: &[u8], none: N) -> N
    ensures { result ≡ number_or none table.now variable.now }
{
    table.get(Sought { variable }).copied().unwrap_or(none)
}

// The slot of a variable, where there is room for it. It is looked for first in a slot where it may be.
#[inline(always)]
fn slot_of<N>(table: &Table<N>, guess: usize, variable: &[u8]) -> Option<usize>
    ensures { IsSlotOf table.now variable.now result }
{
    if is_in(table, guess, variable) {
        return Some(guess);
    }
    searched_slot(table, variable)
}

// The slot of a variable, searched for among all, where there is room for it.
#[inline(never)]
fn searched_slot<N>(table: &Table<N>, variable: &[u8]) -> Option<usize>
    ensures { IsSlotOf table.now variable.now result }
{
    table.get_index_of(Sought { variable })
}

// Whether a variable is in a slot.
#[inline(always)]
fn is_in<N>(table: &Table<N>, slot: usize, variable: &[u8]) -> bool
    ensures { IsTrue result → IsIn table.now.entries slot variable.now }
{
    match table.get_index(slot) {
        Some((own, _)) => own.as_slice() == variable,
        None => false,
    }
}

// Makes room for a variable, which keeps its number: `none` where it was never set; gives its slot.
pub(crate) fn room_for<N: Copy>(
    alloc: Global,
    table: &mut Table<N>,
    guess: usize,
    variable: &[u8],
    none: N,
) -> Result<usize, AllocError>
    ensures same { number_or none table.new ≡ number_or none table.old }
    ensures room { OnOk result (has_variable table.new variable.now ≡ true) }
    ensures stays { (own : List ℕ) → has_variable table.old own ≡ true
        → has_variable table.new own ≡ true }
{
    if let Some(slot) = slot_of(table, guess, variable) {
        return Ok(slot);
    }
    let (own, slot) = (VariableName::from_slice(alloc, variable)?, table.len());
    table.insert(own, none)?;
    Ok(slot)
}

// Sets a variable, for which there is room; gives its slot.
#[inline(always)]
pub(crate) fn set<N: Copy>(table: &mut Table<N>, guess: usize, variable: &[u8], number: N) -> usize
    requires room { has_variable table.old variable.now ≡ true }
    ensures { (none : N) → number_or none table.new
        ≡ with_number (number_or none table.old) variable.now number }
{
    match slot_of(table, guess, variable) {
        Some(slot) => {
            set_at(table, slot, number);
            slot
        }
        None => guess,
    }
}

// Sets the variable that has this slot.
fn set_at<N: Copy>(table: &mut Table<N>, slot: usize, number: N)
    ensures { (none : N) (variable : List ℕ) → IsIn table.old.entries slot variable
        → number_or none table.new ≡ with_number (number_or none table.old) variable number }
{
    if let Some(own) = table.get_index_mut(slot) {
        *own = number;
    }
}

// Writes what is kept for a variable; gives its slot. There is room for the variable, or it is written as one that was never set has it.
#[inline(always)]
pub(crate) fn write(
    table: &mut Table<Variable>,
    guess: usize,
    variable: &[u8],
    write: Write,
) -> usize
    requires room { (has_variable table.old variable.now ≡ true) ⊎ (written no_row write ≡ no_row) }
    ensures { row_in table.new
        ≡ with_number (row_in table.old) variable.now (written (row_in table.old variable.now) write) }
{
    match slot_of(table, guess, variable) {
        Some(slot) => {
            write_at(table, slot, write);
            slot
        }
        None => guess,
    }
}

// Writes what is kept for the variable that has this slot.
#[inline(always)]
fn write_at(table: &mut Table<Variable>, slot: usize, write: Write)
    ensures { (variable : List ℕ) → IsIn table.old.entries slot variable → row_in table.new
        ≡ with_number (row_in table.old) variable (written (row_in table.old variable) write) }
{
    if let Some(own) = table.get_index_mut(slot) {
        *own = written(*own, write);
    }
}

// Writes what is kept for each variable, as a variable that was never set has it. Takes no memory.
pub(crate) fn write_all(table: &mut Table<Variable>, write: Write)
    requires { written no_row write ≡ no_row }
    ensures { (variable : List ℕ) → row_in table.new variable ≡ written (row_in table.old variable) write }
{
    for slot in 0..table.len() {
        let row = table[slot];
        table[slot] = written(row, write);
    }
}

// Whether an open may wait under a variable.
pub(crate) fn has_ticket(table: &Table<Variable>) -> bool
    ensures { result ≡ false → (variable : List ℕ) → (row_in table.now variable).ticket ≡ 0 }
{
    for slot in 0..table.len() {
        if table[slot].ticket != 0 {
            return true;
        }
    }
    false
}

// The same variables with the same values, without contexts and tickets.
pub(crate) fn copy_of(table: &Table<Variable>) -> Result<Table<Variable>, AllocError>
    ensures { IfOk result (λ copy. (variable : List ℕ) → row_in copy variable
        ≡ written (row_in table.now variable) Alone) }
{
    let mut copy = table.clone()?;
    write_all(&mut copy, Write::Alone);
    Ok(copy)
}

// Gives variables, of which none has a ticket, those that they have in another table. Takes memory for these alone.
pub(crate) fn add_tickets(
    alloc: Global,
    table: &mut Table<Variable>,
    from: &Table<Variable>,
) -> Result<(), AllocError>
    requires none { (variable : List ℕ) → (row_in table.old variable).ticket ≡ 0 }
    ensures { OnOk result ((variable : List ℕ) → row_in table.new variable
        ≡ written (row_in table.old variable) (Ticket (row_in from.now variable).ticket)) }
{
    for slot in 0..from.len() {
        let Some((variable, row)) = from.get_index(slot) else {
            unreachable!();
        };
        if row.ticket != 0 {
            add_ticket(alloc, table, variable.as_slice(), row.ticket)?;
        }
    }
    Ok(())
}

// Gives a variable a ticket.
fn add_ticket(
    alloc: Global,
    table: &mut Table<Variable>,
    variable: &[u8],
    ticket: u64,
) -> Result<(), AllocError>
    ensures { OnOk result (row_in table.new
        ≡ with_number (row_in table.old) variable.now
        (written (row_in table.old variable.now) (Ticket ticket))) }
{
    let slot = room_for(alloc, table, 0, variable, no_row())?;
    write(table, slot, variable, Write::Ticket(ticket));
    Ok(())
}

// No open waits under the variables of a table from now on. Takes no memory.
pub(crate) fn clear_tickets(table: &mut Table<Variable>)
    ensures { (variable : List ℕ) → row_in table.new variable
        ≡ written (row_in table.old variable) (Ticket 0) }
{
    write_all(table, Write::Ticket(0));
}

/// Keeps the values that pass a test; each variable whose value doesn't has the value 0. Contexts and tickets stay. Takes no memory.
/// Source: this profile.
pub fn keep<P: Fn(u32) -> bool>(table: &mut Table<Variable>, test: P)
    requires { P.IsAlwaysCallable test }
    ensures kept { (variable : List ℕ) → IsKept (λ number passed.
        P.post test number passed) (value_in table.old variable) (value_in table.new variable) }
    ensures others { DifferInValues table.old table.new }
{
    for slot in 0..table.len() {
        let row = table[slot];
        if !test(row.value) {
            table[slot] = Variable {
                value: 0,
                context: row.context,
                ticket: row.ticket,
            };
        }
    }
}
