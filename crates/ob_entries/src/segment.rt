//! One segment of a journal.

use crate::Entry;
use std::marker::Model;

/// A segment of a journal: a run of its entries that is written under a header of its own. `K` is the kind of an object of the set
/// of types. Contracts see its number, the number of its first entry, and its entries. (this profile)
#[derive(Debug, Drop)]
pub struct Segment<K> {
    /// Its number, from 1.
    pub number: u64,
    /// The number of its first entry, from 1.
    pub first: u64,
    /// Its entries, in their order: at most 1,048,576.
    pub entries: Vec<Entry<K>>,
}

impl<K> Model for Segment<K> {
    ghost use Rattle.ob_entries.specs.Segments as segments;

    ghost Value = { segments.Segment K };

    ghost view = { λ s.
        record { number = s.number; first = s.first; entries = s.entries.items } };
}
