//! The beginning of a process: a child, with what it inherits.

ghost use Rattle.std.specs.Prelude.{◌≡◌, ◌≢◌, ◌+◌, ◌<◌, ◌≤◌, ◌++◌, ◌∷◌, [], true, false, not, ◌||◌};
ghost use Rattle.std.specs.Prelude.{length, filter, nat_le, nat_lt, All, AllPairs, IsOk, IfOk, OnErr, MatchOption};
ghost use Rattle.std.specs.Prelude.{vec_len, vec_capacity};
ghost use Rattle.ob_model.specs.State.{greatest_number, greatest_process};
ghost use Rattle.ob_model.specs.Grants.{IsHandleValue, open_refusal, with_open};
ghost use Rattle.ob_model.specs.Closing.{is_handle};
ghost use Rattle.ob_model.specs.Processes.{most_processes, values_in, inherited_from, is_crowded, with_child, inherits, begun};
ghost use Rattle.ob_model.specs.Sound.{IsSound};
ghost use Rattle.ob_space.specs.Orderly.{IsOrderly};

use ob_base::{Handle, Proc};
use ob_handles::HandleTable;
use ob_model::{Handles, Held};
use ob_space::Space;
use ob_types::{Reason, TypeSet};
use std::alloc::AllocError;

/// The most live processes. (this profile)
const MOST_PROCESSES: usize = 1024;

/// The greatest number of a process. (this profile)
const GREATEST_PROCESS: u32 = u32::MAX - 1;

/// A process that has begun as a child of another one.
#[derive(Debug, Drop)]
pub struct Child {
    /// Its number.
    pub process: Proc,
    /// The values of the handles that it inherited, in the order in which its parent opened them.
    pub values: Handles,
}

/// A child of a process begins, with the next number and its parent's device map, and gives its number
/// and the values that it inherited, in the order in which its parent opened them. Where it is to
/// inherit handles it gets those of its parent that can be inherited, each under the same value, and
/// can hand them on; where the set refuses to open an object for it, the child lacks that handle.
/// Nothing settles yet: what comes lets nothing go.
///
/// None where 1,024 processes live, or no number is left for one more, or too few orders of opening
/// for what it inherits: then nothing has changed. The only error is out of memory, and then nothing
/// has changed either: all memory is taken before the set is called. None is taken where no process more
/// may live.
///
/// It asks that the state is orderly and sound, and leaves an orderly state.
///
/// Source: Windows Internals, Processes (inheritance of handles and of the device map); the limits are
/// this profile.
pub fn begin_child<T: TypeSet, H: HandleTable>(
    space: &mut Space<T, H>,
    parent: Proc,
    inherit: bool,
) -> Result<Option<Child>, AllocError>
    requires orderly { IsOrderly T.idle space.old }
    requires sound { IsSound space.old }
    ensures orderly { IsOrderly T.idle space.new }
    ensures begun { let s = space.old in let t = space.new in
        let after = begun T.procedures s parent inherit in
        IfOk result (λ answer. MatchOption answer ((is_crowded s parent inherit ≡ true) × (t ≡ s))
        (λ child. (is_crowded s parent inherit ≡ false)
        × (child ≡ record { process = s.next_process; values = values_in after s.next_process })
        × (t ≡ after))) }
    ensures full { let s = space.old in
        (nat_le most_processes (length s.processes) || nat_lt greatest_process s.next_process)
        ≡ true → IsOk result }
    ensures err { OnErr result (space.new ≡ space.old) }
{
    if is_full(space) {
        return Ok(None);
    }
    let inherited = inherited_from(space, parent, inherit)?;
    if inherited.len() as u64 > u64::MAX - space.next_order {
        return Ok(None);
    }
    let process = Proc(space.next_process);
    let values = Handles::new(begin_with(space, parent, &inherited)?);
    Ok(Some(Child { process, values }))
}

/// Whether no process more may live, or no number is left for one.
fn is_full<T: TypeSet, H: HandleTable>(space: &Space<T, H>) -> bool
    ensures { let s = space.now in
        result ≡ (nat_le most_processes (length s.processes)
        || nat_lt greatest_process s.next_process) }
{
    space.processes.count() >= MOST_PROCESSES || space.next_process > GREATEST_PROCESS
}

/// The handles that a child of a process inherits, where it inherits any.
fn inherited_from<T: TypeSet, H: HandleTable>(
    space: &Space<T, H>,
    parent: Proc,
    inherit: bool,
) -> Result<Vec<Held>, AllocError>
    ensures list { IfOk result (λ list. list.items ≡ inherited_from space.now parent inherit) }
    ensures values { IfOk result (λ list. All (λ h. IsHandleValue h.value) list.items) }
    ensures apart { IfOk result (λ list. AllPairs (λ a b. a.value ≢ b.value) list.items) }
{
    if !inherit {
        return Ok(Vec::new(space.alloc));
    }
    space.processes.inheritable(parent)
}

/// A child of a process begins and inherits these handles, as far as the set lets it, and gives their
/// values. All of them are in its table before the set is called, which takes the memory; what the set
/// refuses is taken out again.
fn begin_with<T: TypeSet, H: HandleTable>(
    space: &mut Space<T, H>,
    parent: Proc,
    inherited: &[Held],
) -> Result<Vec<Handle>, AllocError>
    requires orderly { IsOrderly T.idle space.old }
    requires sound { IsSound space.old }
    requires values { All (λ h. IsHandleValue h.value) inherited.now }
    requires apart { AllPairs (λ a b. a.value ≢ b.value) inherited.now }
    requires number { let s = space.old in s.next_process ≤ greatest_process }
    requires orders { let s = space.old in
        s.next_order + length inherited.now ≤ greatest_number + 1 }
    ensures begun { IfOk result (λ values. let s = space.old in
        space.new ≡ inherits T.procedures (with_child s parent) s.next_process inherited.now) }
    ensures values { IfOk result (λ values. values.items
        ≡ values_in space.new space.old.next_process) }
    ensures err { OnErr result (space.new ≡ space.old) }
{
    let mut values = Vec::with_capacity(space.alloc, inherited.len())?;
    let (child, order) = (Proc(space.next_process), space.next_order);
    let map = space.processes.view(parent).local;
    space.processes.start_with(child, map, inherited, order)?;
    space.next_process += 1;
    space.next_order += inherited.len() as u64;
    for held in inherited {
        if inherit_one(space, child, *held) {
            append(&mut values, held.value);
        }
    }
    Ok(values)
}

/// Opens the object of a handle that a child inherits; where the set refuses, the child loses the
/// handle.
fn inherit_one<T: TypeSet, H: HandleTable>(space: &mut Space<T, H>, child: Proc, held: Held) -> bool
    ensures { let s = space.old in let t = space.new in
        MatchOption (open_refusal T.procedures s held.object Reason.Inherited)
        ((result ≡ true) × (t ≡ with_open T.procedures s held.object Reason.Inherited))
        (λ _. (result ≡ false)
        × (t ≡ record s { handles = filter (λ h. not (is_handle child held.value h)) s.handles })) }
{
    match space
        .store
        .open(held.object, &mut space.set, Reason::Inherited)
    {
        Ok(()) => true,
        Err(_) => {
            space.processes.take(child, held.value);
            false
        }
    }
}

/// Appends to a list that has room for one element more.
fn append<X: Drop>(list: &mut Vec<X>, element: X)
    requires { vec_len list.old < vec_capacity list.old }
    ensures items { list.new.items ≡ list.old.items ++ element ∷ [] }
    ensures len { vec_len list.new ≡ vec_len list.old + 1 }
    ensures room { vec_capacity list.old ≤ vec_capacity list.new }
{
    if list.push(element).is_err() {
        unreachable!();
    }
}
