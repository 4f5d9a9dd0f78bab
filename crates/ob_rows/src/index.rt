//! The stamps of rows, by hashes of their directories and names.

ghost use Rattle.std.specs.Prelude.{◌≡◌, ◌==◌, [], ◌∷◌, ◌++◌, ℕ, Some, nat_eq, length, OnOk, OnErr, if◌then◌else◌};
ghost use Rattle.std.specs.List.{position};
ghost use Rattle.std.specs.Set.{remove_key};
ghost use Rattle.indexmap.specs.IndexMap.{get};
ghost use Rattle.ob_rows.specs.Hashes.{row_hash, mixed};
ghost use Rattle.ob_rows.specs.Index.{stamps_under, without_stamp};

use indexmap::IndexMap;
use ob_base::ObjId;
use std::alloc::{AllocError, Global};
use std::slice;

/// The stamps of rows under the hashes of their directories and names, each list in the order in which they were
/// put there. (this profile)
#[derive(Debug, Drop)]
pub(crate) struct NameIndex {
    /// The stamp under a hash that came to have one alone; where a list is kept for it, that counts.
    single: IndexMap<u64, u64>,
    /// The stamps under a hash that came to have several, as long as one is left.
    several: IndexMap<u64, Vec<u64>>,
}

impl NameIndex {
    /// No stamp is under any hash. Takes no memory.
    pub(crate) fn new(alloc: Global) -> NameIndex
        ensures { (hash : ℕ) → stamps_under result hash ≡ [] }
    {
        NameIndex {
            single: IndexMap::new(alloc),
            several: IndexMap::new(alloc),
        }
    }

    /// The stamps under a hash.
    pub(crate) fn stamps_under(&self, hash: u64) -> &[u64]
        ensures { result.now ≡ stamps_under self.now hash }
    {
        if let Some(stamps) = self.several.get(&hash) {
            return stamps.as_slice();
        }
        match self.single.get(&hash) {
            Some(stamp) => slice::from_ref(stamp),
            None => &[],
        }
    }

    /// Puts a stamp under a hash, after those that are there. Where memory runs out nothing has changed.
    pub(crate) fn add(&mut self, hash: u64, stamp: u64) -> Result<(), AllocError>
        ensures last { OnOk result ((h : ℕ) → stamps_under self.new h
            ≡ (if hash == h then stamps_under self.old h ++ stamp ∷ []
            else stamps_under self.old h)) }
        ensures unchanged { OnErr result ((h : ℕ)
            → stamps_under self.new h ≡ stamps_under self.old h) }
    {
        if let Some(stamps) = self.several.get_mut(&hash) {
            stamps.push(stamp)?;
            return Ok(());
        }
        let Some(first) = self.single.get(&hash).copied() else {
            self.single.insert(hash, stamp)?;
            return Ok(());
        };
        let stamps = vec![in *self.single.allocator(); first, stamp]?;
        self.several.insert(hash, stamps)?;
        Ok(())
    }

    /// Takes a stamp away from under a hash, the first where it is there more than once. Takes no memory.
    pub(crate) fn take(&mut self, hash: u64, stamp: u64)
        ensures { (h : ℕ) → stamps_under self.new h
            ≡ (if hash == h then remove_key (λ s. s == stamp) (stamps_under self.old h)
            else stamps_under self.old h) }
    {
        let Some(stamps) = self.several.get_mut(&hash) else {
            take_single(&mut self.single, hash, stamp);
            return;
        };
        if take_from(stamps, stamp) {
            self.several.swap_remove(&hash);
            self.single.swap_remove(&hash);
        }
    }
}

// Takes the stamp of a hash away, where it is this one.
fn take_single(single: &mut IndexMap<u64, u64>, hash: u64, stamp: u64)
    ensures { (h : ℕ) → get nat_eq single.new h
        ≡ (if hash == h then without_stamp stamp (get nat_eq single.old h)
        else get nat_eq single.old h) }
{
    if single.get(&hash).copied() == Some(stamp) {
        single.swap_remove(&hash);
    }
}

// Takes a stamp away from others, the first where it is there more than once; whether none is left.
fn take_from(stamps: &mut Vec<u64>, stamp: u64) -> bool
    ensures others { stamps.new.items ≡ remove_key (λ s. s == stamp) stamps.old.items }
    ensures empty { result ≡ (length stamps.new.items == 0) }
{
    if let Some(place) = place_of(stamps.as_slice(), stamp) {
        stamps.remove(place);
    }
    stamps.is_empty()
}

// The place at which a stamp is first among others.
fn place_of(stamps: &[u64], stamp: u64) -> Option<usize>
    ensures { result ≡ position (λ s. s == stamp) stamps.now }
{
    stamps.iter().position(|other| *other == stamp)
}

/// The hash of a directory and of a name in it, of any length and with any bytes: of its bytes, with `a` to `z` taken
/// to `A` to `Z`. So two names of one directory that are equal, with regard to case or without, have the same. Takes
/// no memory.
///
/// Source: this profile; the bytes are mixed as FNV-1a mixes them.
pub(crate) fn row_hash(directory: ObjId, name: &[u8]) -> u64
    ensures { result ≡ row_hash directory name.now }
{
    let mut hash = mixed(0xcbf2_9ce4_8422_2325, directory.0);
    for byte in name {
        hash = mixed(hash, byte.to_ascii_uppercase() as u64);
    }
    hash
}

// A hash after one number more.
fn mixed(hash: u64, number: u64) -> u64
    ensures { result ≡ mixed hash number }
{
    (hash ^ number).wrapping_mul(0x100_0000_01b3)
}
