//! The changes of the variables by a reply.

ghost use Rattle.std.specs.Prelude.{◌≡◌, true, Bool, OnErr, OnOk, IfOk, List, ℕ};
ghost use Rattle.std.specs.BTreeSet.{contains};
ghost use Rattle.std.specs.Ordering.{nat_cmp};
ghost use Rattle.ob_lines.specs.declared.change.Change.TheVariants.{SetsProcess};
ghost use Rattle.ob_lines.specs.Changes.{change_seen};
ghost use Rattle.ob_requests.specs.Commands.{changed, given_process, with_own_variables};
ghost use Rattle.ob_requests.specs.Room.{HasRoomFor};
ghost use Rattle.ob_requests.specs.Tables.{variables_in, value_in, CanBegin, DifferInValues};
ghost use Rattle.ob_requests.specs.Variables.{handed_on, is_among, with_process};

use ob_base::{Handle, Proc};
use ob_lines::Change;
use ob_model::{Given, Handles, Reply};
use ob_requests::{Table, Variable, Variables, keep};
use std::alloc::{AllocError, Global};
use std::collections::BTreeSet;

/// Changes the variables as a reply to a process says. Takes no memory except for the variables of a child.
pub(crate) fn keep_reply(
    variables: &mut Variables,
    process: Proc,
    change: Change<&[u8]>,
    reply: &Reply,
) -> Result<(), AllocError>
    requires room { HasRoomFor variables.old process (change_seen change) }
    ensures changed { OnOk result (variables_in variables.new
        ≡ changed (change_seen change.entry) process reply.now (variables_in variables.old)) }
    ensures kept { OnErr result ((child : List ℕ) × (inherit : Bool)
        × (change_seen change.entry ≡ SetsProcess child inherit)
        × (variables_in variables.new
        ≡ with_process (variables_in variables.old) child (given_process (reply.now.given)))) }
    ensures tickets { (variables_in variables.new).tickets ≡ (variables_in variables.old).tickets }
{
    variables.apply(process, change, reply);
    match change {
        Change::SetsProcess { inherit, .. } => begin_child(
            variables,
            process,
            inherit,
            &reply.given,
        ),
        Change::Nothing => Ok(()),
        Change::Sets(_) => Ok(()),
        Change::SetsFor { .. } => Ok(()),
        Change::GivesUp(_) => Ok(()),
        Change::TurnsPage(_) => Ok(()),
        Change::GivesAllUp => Ok(()),
    }
}

/// Begins the variables of the child that was given, where one was: it has those of its parent that are handed on to it.
fn begin_child(
    variables: &mut Variables,
    parent: Proc,
    inherit: bool,
    given: &Given,
) -> Result<(), AllocError>
    ensures begun { OnOk result (variables_in variables.new
        ≡ with_own_variables (variables_in variables.old) parent inherit given.now) }
    ensures unchanged { OnErr result (variables_in variables.new ≡ variables_in variables.old) }
    ensures tickets { (variables_in variables.new).tickets ≡ (variables_in variables.old).tickets }
{
    match given {
        Given::Process(child, handles) => {
            let own = variables_to_hand_on(variables, parent, *child, inherit, handles)?;
            variables.room_for_variables(*child)?;
            variables.begin(*child, own);
            Ok(())
        }
        Given::Nothing => Ok(()),
        Given::Handle(_) => Ok(()),
        Given::Text(_) => Ok(()),
        Given::Page { .. } => Ok(()),
    }
}

/// The variables that a child of a parent gets: where it inherits, those of its parent's whose values are among these.
fn variables_to_hand_on(
    variables: &Variables,
    parent: Proc,
    child: Proc,
    inherit: bool,
    handles: &Handles,
) -> Result<Table<Variable>, AllocError>
    ensures values { IfOk result (λ own. value_in own
        ≡ handed_on ((variables_in variables.now).values parent) inherit handles.now) }
    ensures begins { IfOk result (CanBegin (variables_in variables.now) child) }
{
    let mut own = variables.variables_for_child(parent, child, inherit)?;
    if !inherit {
        return Ok(own);
    }
    let values = values_of(variables.alloc, handles.as_slice())?;
    keep_among(&mut own, &values);
    Ok(own)
}

/// The values of handles, as a set.
fn values_of(alloc: Global, handles: &[Handle]) -> Result<BTreeSet<u32>, AllocError>
    ensures { IfOk result (λ set. (value : ℕ) → contains nat_cmp set value
        ≡ is_among handles.now value) }
{
    let mut values = BTreeSet::new(alloc);
    for handle in handles {
        values.insert(handle.0)?;
    }
    Ok(values)
}

/// Keeps the variables whose values are in a set; each other variable means 0.
fn keep_among(own: &mut Table<Variable>, values: &BTreeSet<u32>)
    ensures kept { (handles : List ℕ) → ((value : ℕ) → contains nat_cmp values.now value
        ≡ is_among handles value)
        → value_in own.new ≡ handed_on (value_in own.old) true handles }
    ensures others { DifferInValues own.old own.new }
{
    keep(
        own,
        |value: u32| -> bool
            ensures { result ≡ contains nat_cmp values.entry.now value }
        { values.contains(&value) },
    );
}
