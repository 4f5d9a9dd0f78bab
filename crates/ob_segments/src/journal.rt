//! A journal in segments.

ghost use Rattle.std.specs.Prelude.{◌≡◌, ◌≤◌, ◌<◌, ◌+◌, ◌-◌, [], ◌∷◌, ◌++◌, IfOk, IfErr, OnErr, OnOk, Err, length, map, option_copied, slice_get, take};
ghost use Rattle.std.specs.Arc.{arc_value};
ghost use Rattle.std.specs.Bool.{OnFalse, OnTrue};
ghost use Rattle.ob_base.specs.declared.fault.Fault.TheVariants.{Memory, Refused};
ghost use Rattle.ob_base.specs.declared.status.Status.TheVariants.{InvalidParameter, InsufficientResources};
ghost use Rattle.ob_entries.specs.Segments.{joined, most_entries, most_sealed, AreSealed};
ghost use Rattle.ob_segments.specs.Journal.{open_segment, whole, with_entry, with_seal};

use ob_base::{Fault, Status};
use ob_entries::{Entry, Segment};
use std::alloc::{AllocError, Global};
use std::marker::Model;
use std::mem;
use std::sync::Arc;

/// The most segments that may be sealed.
const MOST_SEALED: usize = 4095;

/// A journal in segments. Contracts see the sealed segments, the entries of the open one, and for how many entries that has memory.
/// Of every value they know that sealed segments have the numbers from 1 on, and each the number of its first entry; that each has an
/// entry and at most 1,048,576; and that there are at most 4,095 of them; see [`Journal::is_sealed_in_order`]. (this profile)
#[derive(Drop)]
pub struct Journal<K> {
    // The segments that were sealed. One more is among them after a seal that found the count of its owners full: the entries of
    // that one still belong to the open segment.
    sealed: Vec<Arc<Segment<K>>>,

    // How many of them were returned, and so count as sealed.
    shown: usize,

    // The entries after all of them.
    tail: Vec<Entry<K>>,

    // How many entries all of them have.
    before: usize,

    // How many entries those have that don't count as sealed.
    apart: usize,

    // For how many entries of the open segment there is memory.
    places: usize,
}

impl<K> Model for Journal<K> {
    ghost use Rattle.std.specs.Prelude.{map};
    ghost use Rattle.std.specs.Arc.{arc_value};
    ghost use Rattle.std.specs.Vec.{vec_capacity};
    ghost use Rattle.ob_segments.specs.Journal as journal;

    ghost Value = { journal.Placed K };

    ghost view = { λ j.
        journal.seen (map arc_value j.sealed.items) j.shown j.tail.items j.places };

    ghost invariant = { λ j.
        journal.IsKept (map arc_value j.sealed.items) j.shown j.before j.apart j.tail.items j.places (vec_capacity j.tail) };
}

impl<K> Journal<K> {
    /// A journal with no entry.
    pub fn new(alloc: Global) -> Journal<K>
        ensures { result.journal ≡ record { sealed = []; unsealed = [] } }
    {
        Journal {
            sealed: Vec::new(alloc),
            shown: 0,
            tail: Vec::new(alloc),
            before: 0,
            apart: 0,
            places: 0,
        }
    }

    /// States what is true of every journal; the call does nothing. Sealed segments have the numbers from 1 on, each with the number
    /// of its first entry, and each has an entry and at most 1,048,576. There are at most 4,095 of them.
    pub fn is_sealed_in_order(&self)
        ensures order { AreSealed 1 1 self.now.journal.sealed }
        ensures few { length self.now.journal.sealed ≤ most_sealed }
        ensures places { length self.now.journal.unsealed ≤ self.now.places }
    {
        let _ = &self.shown;
    }

    /// How many entries there are, those of sealed segments and of the open one.
    pub fn len(&self) -> usize
        requires { length self.now.journal.unsealed ≤ most_entries }
        ensures { result ≡ length (whole self.now.journal) }
    {
        self.before + self.tail.len()
    }

    /// How many entries the open segment has.
    pub fn open_len(&self) -> usize
        ensures { result ≡ length self.now.journal.unsealed }
    {
        self.apart + self.tail.len()
    }

    /// Makes room for so many more entries in the open segment. At `AllocError` nothing has changed.
    pub fn reserve(&mut self, places: usize) -> Result<(), AllocError>
        requires places { places ≤ most_entries }
        requires unsealed { length self.old.journal.unsealed ≤ most_entries }
        ensures same { self.new.journal ≡ self.old.journal }
        ensures places { self.old.places ≤ self.new.places }
        ensures room { OnOk result
            (length self.old.journal.unsealed + places ≤ self.new.places) }
    {
        self.tail.reserve(places)?;
        self.places = self.places.max(self.apart + self.tail.len() + places);
        Ok(())
    }

    /// Adds an entry at the end of the open segment, which needs room for it; see [`Journal::reserve`].
    pub fn push(&mut self, entry: Entry<K>)
        requires room { length self.old.journal.unsealed < self.old.places }
        ensures pushed { self.new.journal ≡ with_entry self.old.journal entry }
        ensures places { self.old.places ≤ self.new.places }
    {
        self.tail.push_reserved(entry);
    }

    /// The entry of this number, from 1, or `None` where there is none; 0 is taken for 1. It takes constant time in the open segment,
    /// and logarithmic time in the number of sealed ones.
    pub fn get(&self, number: u64) -> Option<&Entry<K>>
        ensures { option_copied result ≡ slice_get (whole self.now.journal) (number - 1) }
    {
        let number = number.max(1);
        let before = self.before as u64;
        if before < number {
            return self.tail.get((number - before - 1) as usize);
        }
        let segment = &*self.sealed[place_of(&self.sealed, number)];
        segment.entries.get((number - segment.first) as usize)
    }

    /// Seals the open segment, returns it, and opens an empty one with room for so many entries, and for all that had room before. It is
    /// refused with `InvalidParameter` if the open segment is empty, and then with `InsufficientResources` if 4,095 segments are sealed.
    /// At `Err` nothing has changed.
    pub fn seal(&mut self, alloc: Global, places: usize) -> Result<Arc<Segment<K>>, Fault>
    where
        K: Drop,
        requires { length self.old.journal.unsealed ≤ most_entries }
        ensures sealed { OnOk result (self.new.journal ≡ with_seal self.old.journal) }
        ensures segment { IfOk result
            (λ segment. arc_value segment ≡ open_segment self.old.journal) }
        ensures room { OnOk result (places ≤ self.new.places) }
        ensures unsealed { OnErr result (self.new ≡ self.old) }
        ensures empty { self.old.journal.unsealed ≡ []
            → result ≡ Err (Refused InvalidParameter) }
        ensures full { (self.old.journal.unsealed ≡ [] → ⊥)
            → length self.old.journal.sealed ≡ most_sealed
            → result ≡ Err (Refused InsufficientResources) }
        ensures memory { (self.old.journal.unsealed ≡ [] → ⊥)
            → length self.old.journal.sealed < most_sealed
            → IfErr result (λ fault. fault ≡ Memory) }
    {
        if self.open_len() == 0 {
            return Err(Fault::Refused(Status::InvalidParameter));
        }
        if self.shown == MOST_SEALED {
            return Err(Fault::Refused(Status::InsufficientResources));
        }
        if self.shown < self.sealed.len() {
            return Err(Fault::Memory);
        }
        let count = self.tail.len();
        let places = places.max(self.places - count);
        let number = self.shown as u64 + 1;
        let first = self.before as u64 + 1;
        // The segment is made empty, and filled once all memory is there: from a failed `Arc::new` the entries would come back with no
        // known capacity.
        let mut segment = Arc::new(
            alloc,
            Segment {
                number,
                first,
                entries: Vec::new(alloc),
            },
        )?;
        let room = Vec::with_capacity(alloc, places)?;
        self.sealed.reserve(1)?;
        if !fill(&mut segment, number, first, &mut self.tail, room) {
            return Err(Fault::Memory);
        }
        let shared = Arc::try_clone(&segment);
        self.sealed.push_reserved(segment);
        self.before += count;
        match shared {
            Ok(segment) => {
                self.shown += 1;
                self.places = places;
                Ok(segment)
            }
            // The count of its owners is full.
            Err(_) => {
                self.apart = count;
                Err(Fault::Memory)
            }
        }
    }

    /// The sealed segments in order, and the entries after them.
    pub fn into_parts(self) -> (Vec<Arc<Segment<K>>>, Vec<Entry<K>>)
        ensures order { AreSealed 1 1 (map arc_value (result.0.items)) }
        ensures few { length (result.0.items) ≤ most_sealed }
        ensures whole { joined (map arc_value (result.0.items)) ++ result.1.items ≡ whole self.journal }
    {
        let Journal { sealed, tail, .. } = self;
        (sealed, tail)
    }
}

/// The place of the segment that has the entry of this number, found by halving.
fn place_of<K>(sealed: &[Arc<Segment<K>>], number: u64) -> usize
    requires order { AreSealed 1 1 (map arc_value sealed.now) }
    requires from_one { 1 ≤ number }
    requires within { number ≤ length (joined (map arc_value sealed.now)) }
    ensures place { result < length sealed.now }
    ensures after { length (joined (take result (map arc_value sealed.now))) < number }
    ensures up_to { number ≤ length (joined (take (result + 1) (map arc_value sealed.now))) }
{
    let mut low = 0;
    let mut high = sealed.len();
    while high - low > 1 {
        let middle = low + (high - low) / 2;
        if sealed[middle].first <= number {
            low = middle;
        } else {
            high = middle;
        }
    }
    low
}

/// Moves entries into a segment that has no other owner, and leaves `room` in their place. `false` if it has one: the entries stay.
fn fill<K: Drop>(
    segment: &mut Arc<Segment<K>>,
    number: u64,
    first: u64,
    entries: &mut Vec<Entry<K>>,
    room: Vec<Entry<K>>,
) -> bool
    ensures filled { OnTrue result
        (arc_value segment.new ≡ record { number = number; first = first; entries = entries.old.items }) }
    ensures emptied { OnTrue result (entries.new ≡ room) }
    ensures kept { OnFalse result (entries.new ≡ entries.old) }
{
    match Arc::get_mut(segment) {
        Some(place) => {
            let entries = mem::replace(entries, room);
            *place = Segment {
                number,
                first,
                entries,
            };
            true
        }
        None => false,
    }
}
