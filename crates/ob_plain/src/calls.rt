//! The first calls of a set, in a list that takes no memory once it is made.

ghost use Rattle.std.specs.Prelude.{◌≡◌, ℕ, List, length, take, ◌-◌, ◌^◌, min, IfOk, IfErr, IsOk};
ghost use Rattle.ob_plain.specs.declared.calls.Call.{Call as ACall};
ghost use Rattle.ob_plain.specs.Calls.{none_kept, noted, all_noted};

use ob_base::Fault;
use ob_types::Reason;
use std::alloc::Global;
use std::marker::Model;

/// One call of a procedure that may change an object of a set. (this profile)
#[derive(Clone, Copy, PartialEq, Eq, Debug)]
pub struct Call {
    /// The serial of the object that it was made for; 0 where no open of it was accepted before.
    pub serial: u64,
    /// The procedure, and its arguments.
    pub what: CallKind,
}

/// A procedure that was called, and its arguments. (this profile)
#[derive(Clone, Copy, PartialEq, Eq, Debug)]
pub enum CallKind {
    /// An open that was accepted, for this reason.
    Opened(Reason),
    /// A close.
    Closed {
        /// The handles to the object that were left in the process.
        process_left: u32,
        /// The handles to the object that were left in the whole system.
        system_left: u32,
    },
    /// A delete.
    Deleted,
}

/// The first calls of a set, as many as there is room for, and the number of the others.
#[derive(Debug, Drop)]
pub struct CallList {
    kept: Vec<Call>,
    room: usize,
    lost: u64,
}

impl Model for CallList {
    ghost use Rattle.std.specs.Prelude.{◌≤◌, length, vec_capacity};
    ghost use Rattle.ob_plain.specs.Calls.{Kept};

    ghost Value = { Kept };

    ghost view = { λ list. record { calls = list.kept.items; room = list.room; lost = list.lost } };

    ghost invariant = { λ list. (length list.kept.items ≤ list.room)
        × (list.room ≤ vec_capacity list.kept) };
}

impl CallList {
    /// A list with no call, and room for so many.
    pub fn new(alloc: Global, room: usize) -> Result<CallList, Fault>
        ensures empty { IfOk result (λ list. list ≡ none_kept room) }
        ensures no_room { room ≡ 0 → IsOk result }
        ensures memory { IfErr result (λ fault. fault ≡ Fault.Memory) }
    {
        let kept = Vec::with_capacity(alloc, room)?;
        Ok(CallList {
            kept,
            room,
            lost: 0,
        })
    }

    /// The calls that are kept, the first of them first.
    pub fn as_slice(&self) -> &[Call]
        ensures { result.now ≡ self.now.calls }
    {
        self.kept.as_slice()
    }

    /// The number of the calls that there was no room for.
    pub fn lost(&self) -> u64
        ensures { result ≡ self.now.lost }
    {
        self.lost
    }

    /// Keeps a call where there is room, and else counts it.
    pub fn note(&mut self, call: Call)
        ensures { self.new ≡ noted self.old call }
    {
        if self.kept.len() < self.room {
            if self.kept.push(call).is_err() {
                unreachable!();
            }
        } else {
            self.lost = self.lost.saturating_add(1);
        }
    }
}

/// Of all the calls of a set, noted one after another in a list with room for so many, the list has
/// the first that there is room for, in their order, and the number of the others, which stops at the
/// greatest u64. Nothing is done when it runs. (this profile)
pub fn first_calls_are_kept()
    ensures kept { (room : ℕ) (calls : List ACall) → (all_noted (none_kept room) calls).calls
        ≡ take room calls }
    ensures lost { (room : ℕ) (calls : List ACall) → (all_noted (none_kept room) calls).lost
        ≡ min (length calls - room) (2 ^ 64 - 1) }
{}
