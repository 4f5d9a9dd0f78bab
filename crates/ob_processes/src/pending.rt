//! The opens that are pending.

ghost use Rattle.std.specs.Prelude.{◌≡◌, ◌<◌, ◌≤◌, ◌==◌, not, [], ◌∷◌, ◌++◌};
ghost use Rattle.std.specs.Prelude.{length, filter, All, AllPairs, IfOk, OnOk, OnErr};
ghost use Rattle.std.specs.List.{find, list_any};
ghost use Rattle.std.specs.Option.{option_copied};
ghost use Rattle.ob_model.specs.State.{greatest_number};
ghost use Rattle.ob_processes.specs.Pending.{pins_of};

use ob_base::ObjId;
use ob_handles::Counts;
use ob_model::{Bytes, PendingOpen};
use std::alloc::{AllocError, Global};
use std::collections::BTreeMap;
use std::marker::Model;

/// The opens whose parse is still to be run, each under its ticket. `K` is the kind of an object of the
/// set. A contract sees them as the list of pending opens that the abstract state has, by rising tickets.
///
/// How many opens pin an object is kept and not counted: each call takes a time that grows with the
/// logarithm of the opens. (this profile)
///
/// Sources: Windows Internals, Object Manager (parse methods; object retention: what is referred to
/// stays); the tickets are this profile.
#[derive(Drop)]
pub struct PendingOpens<K: Drop> {
    opens: BTreeMap<u64, PendingOpen<K>>,
    pins: Counts,
}

impl<K: Drop> Model for PendingOpens<K> {
    ghost use Rattle.std.specs.Map.{values_of};
    ghost use Rattle.ob_processes.specs.Pending.{Opens, AreKept};

    ghost Value = { Opens K };

    ghost view = { λ pending. values_of pending.opens.entries };

    ghost invariant = { λ pending. AreKept pending.opens.entries pending.pins };
}

impl<K: Drop> PendingOpens<K> {
    /// No open is pending. Takes no memory.
    pub fn new(alloc: Global) -> PendingOpens<K>
        ensures { result ≡ [] }
    {
        PendingOpens {
            opens: BTreeMap::new(alloc),
            pins: Counts::new(alloc),
        }
    }

    /// How many opens are pending. Takes no memory.
    pub fn len(&self) -> usize
        ensures count { result ≡ length self.now }

        // An invariant of all pending opens.
        ensures rising { AllPairs (λ a b. a.ticket < b.ticket) self.now }
    {
        self.opens.len()
    }

    /// Whether no open is pending. Takes no memory.
    pub fn is_empty(&self) -> bool
        ensures { result ≡ (length self.now == 0) }
    {
        self.opens.is_empty()
    }

    /// The pending open of a ticket, and `None` exactly where there is none. Takes no memory.
    pub fn get(&self, ticket: u64) -> Option<&PendingOpen<K>>
        ensures { option_copied result ≡ find (λ x. x.ticket == ticket) self.now }
    {
        self.opens.get(&ticket)
    }

    /// Whether an open is pending at an object, which stays as long as one is. Takes no memory.
    ///
    /// Source: Windows Internals, Object Manager (object retention: what is referred to stays).
    pub fn is_pinned(&self, object: ObjId) -> bool
        ensures { result ≡ list_any (λ p. p.object == object) self.now }
    {
        self.pins.get(object) > 0
    }

    /// How many opens are pending at an object. Takes no memory.
    ///
    /// Source: Windows Internals, Object Manager (object retention: what is referred to stays).
    pub fn pins_of(&self, pinned: ObjId) -> usize
        ensures { result ≡ pins_of self.now pinned }
    {
        self.pins.get(pinned)
    }

    /// An open more is pending, and pins its object. Its ticket must be above those of all that are
    /// pending, and at most 2^64 - 2. Where memory runs out the open is dropped and nothing has changed.
    ///
    /// Source: the tickets are this profile.
    pub fn insert(&mut self, pending: PendingOpen<K>) -> Result<(), AllocError>
        requires newest { All (λ x. x.ticket < pending.ticket) self.old }
        requires drawn { pending.ticket ≤ greatest_number }
        ensures last { OnOk result (self.new ≡ self.old ++ pending ∷ []) }
        ensures unchanged { OnErr result (self.new ≡ self.old) }
    {
        let object = pending.object;
        self.pins.add(object)?;
        if let Err(want) = self.opens.insert(pending.ticket, pending) {
            self.pins.lower(object);
            return Err(AllocError::from(want));
        }
        Ok(())
    }

    /// The open of a ticket is pending no longer, and is given; `None` where there is none, and then
    /// nothing changes. Takes no memory.
    pub fn take(&mut self, ticket: u64) -> Option<PendingOpen<K>>
        ensures there { result ≡ find (λ x. x.ticket == ticket) self.old }
        ensures others { self.new ≡ filter (λ x. not (x.ticket == ticket)) self.old }
    {
        let pending = self.opens.remove(&ticket)?;
        self.pins.lower(pending.object);
        Some(pending)
    }
}

impl<K: Copy> PendingOpens<K> {
    /// Other pending opens, the same under the same tickets. It takes a time that grows with their number. The only error
    /// is out of memory. (this profile)
    pub fn copy(&self, alloc: Global) -> Result<PendingOpens<K>, AllocError>
        ensures { IfOk result (λ copy. copy ≡ self.now) }
    {
        Ok(PendingOpens {
            opens: copied_opens(alloc, &self.opens)?,
            pins: self.pins.copy()?,
        })
    }
}

// The same opens under the same tickets.
fn copied_opens<K: Copy>(
    alloc: Global,
    opens: &BTreeMap<u64, PendingOpen<K>>,
) -> Result<BTreeMap<u64, PendingOpen<K>>, AllocError>
    ensures { IfOk result (λ copy. copy.entries ≡ opens.now.entries) }
{
    let mut copy = BTreeMap::new(alloc);
    for (ticket, pending) in opens.iter() {
        copy.insert(*ticket, copied_open(alloc, pending)?)?;
    }
    Ok(copy)
}

// The same open.
fn copied_open<K: Copy>(
    alloc: Global,
    pending: &PendingOpen<K>,
) -> Result<PendingOpen<K>, AllocError>
    ensures { IfOk result (λ copy. copy ≡ pending.now) }
{
    Ok(PendingOpen {
        ticket: pending.ticket,
        process: pending.process,
        object: pending.object,
        rest: Bytes::from_slice(alloc, pending.rest.as_slice())?,
        left: pending.left,
        attrs: pending.attrs,
        wanted: pending.wanted,
    })
}
