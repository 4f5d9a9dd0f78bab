//! The entries and the index of a directory that has had a name.

ghost use Rattle.std.specs.Prelude.{◌≡◌, ◌≢◌, ◌<◌, ◌^◌, ◌==◌, [], ◌∷◌, ◌++◌, length, filter, not};
ghost use Rattle.std.specs.Prelude.{All, IfOk, IfErr, OnErr};
ghost use Rattle.std.specs.List.{find};
ghost use Rattle.std.specs.Option.{option_copied, option_map};
ghost use Rattle.ob_dirs.specs.Dir.{entry_found, IsDir};
ghost use Rattle.ob_dirs.specs.Index.{entry_at, entry_named, first_named};
ghost use Rattle.ob_dirs.specs.Page.{entries_behind};

use crate::index::{NameIndex, name_hash};
use crate::runs::{EntriesBehind, EntryRuns};
use crate::{DirEntries, DirEntry};
use ob_base::ObjId;
use ob_names::{NameBuf, same};
use std::alloc::{AllocError, Global};
use std::marker::Model;

/// The entries of a directory, and the index of their names. A contract sees them as the list of the
/// entries, as it sees a [`Dir`](crate::Dir).
#[derive(Debug, Drop)]
pub(crate) struct NamedEntries {
    entries: EntryRuns,
    names: NameIndex,
}

impl Model for NamedEntries {
    ghost use Rattle.std.specs.Prelude.{List};
    ghost use Rattle.ob_dirs.specs.declared.entry.DirEntry.{DirEntry};
    ghost use Rattle.ob_dirs.specs.Index.{IsHeld};

    ghost Value = { List DirEntry };

    ghost view = { λ held. held.entries };

    ghost invariant = { λ held. IsHeld held.entries held.names };
}

impl NamedEntries {
    /// No entry. Takes no memory.
    pub(crate) fn new(alloc: Global) -> NamedEntries
        ensures { result ≡ [] }
    {
        NamedEntries {
            entries: EntryRuns::new(alloc),
            names: NameIndex::new(alloc),
        }
    }

    /// How many entries there are.
    pub(crate) fn len(&self) -> usize
        ensures count { result ≡ length self.now }

        // The invariant of the entries of every directory.
        ensures entries { IsDir self.now }
    {
        self.entries.len()
    }

    /// Whether there is no entry.
    pub(crate) fn is_empty(&self) -> bool
        ensures { result ≡ (length self.now == 0) }
    {
        self.entries.is_empty()
    }

    /// The entries, by rising stamps.
    pub(crate) fn iter(&self) -> DirEntries<'_>
        ensures all { result ≡ self.now }

        // The invariant of the entries of every directory.
        ensures entries { IsDir self.now }
    {
        DirEntries::new(self.entries.iter(), self.entries.len())
    }

    // The entries of a stamp above a context, by rising stamps.
    pub(crate) fn behind(&self, context: u64) -> EntriesBehind<'_>
        ensures entries { result ≡ entries_behind self.now context }
        ensures counted { length result < 2 ^ 64 }
    {
        self.entries.behind(context)
    }

    /// Finds the entry under a component, as [`Dir::find`](crate::Dir::find) does.
    pub(crate) fn find(&self, component: &[u8], fold: bool) -> Option<(u64, ObjId)>
        ensures { result
            ≡ option_map (λ entry. (entry.stamp, entry.object))
            (entry_found self.now component.now fold) }
    {
        let stamps = self.names.stamps_under(name_hash(component));
        let named = first_named(&self.entries, stamps, component, fold);
        named.map(|entry| (entry.stamp, entry.object))
    }

    /// Puts an entry after all others, as [`Dir::insert`](crate::Dir::insert) has it.
    pub(crate) fn insert(
        &mut self,
        stamp: u64,
        name: NameBuf,
        object: ObjId,
    ) -> Result<(), AllocError>
        requires free { All (λ entry. entry.name ≢ name) self.old }
        requires newest { All (λ entry. entry.stamp < stamp) self.old }
        ensures last { IfOk result (λ _. self.new
            ≡ self.old ++ record { stamp = stamp; name = name; object = object } ∷ []) }
        ensures unchanged { OnErr result (self.new ≡ self.old) }
    {
        let hash = name_hash(name.as_slice());
        self.names.add(hash, stamp)?;
        let entry = DirEntry {
            stamp,
            name,
            object,
        };
        if self.entries.push(entry).is_err() {
            self.names.take(hash, stamp);
            return Err(AllocError);
        }
        Ok(())
    }

    /// The entry of a stamp; `None` exactly where no entry has it.
    pub(crate) fn get(&self, stamp: u64) -> Option<&DirEntry>
        ensures { option_copied result ≡ find (λ entry. entry.stamp == stamp) self.now }
    {
        self.entries.get(stamp)
    }

    /// Takes away the entry of a stamp and hands it back, as [`Dir::remove`](crate::Dir::remove) has it.
    pub(crate) fn remove(&mut self, stamp: u64) -> Option<DirEntry>
        ensures there { result ≡ find (λ entry. entry.stamp == stamp) self.old }
        ensures others { self.new ≡ filter (λ entry. not (entry.stamp == stamp)) self.old }
    {
        let entry = self.entries.remove(stamp)?;
        self.names.take(name_hash(entry.name.as_slice()), stamp);
        Some(entry)
    }
}

// Of the entries that have these stamps, the first whose name is equal to a component; none where no name is.
fn first_named<'a>(
    entries: &'a EntryRuns,
    stamps: &[u64],
    component: &[u8],
    fold: bool,
) -> Option<&'a DirEntry>
    ensures { option_copied result
        ≡ first_named (entry_at entries.now) component.now fold stamps.now }
{
    for stamp in stamps {
        if let Some(entry) = entry_named(entries, *stamp, component, fold) {
            return Some(entry);
        }
    }
    None
}

// The entry of a stamp, where its name is equal to a component.
fn entry_named<'a>(
    entries: &'a EntryRuns,
    stamp: u64,
    component: &[u8],
    fold: bool,
) -> Option<&'a DirEntry>
    ensures { option_copied result
        ≡ entry_named component.now fold (entry_at entries.now stamp) }
{
    let entry = entries.get(stamp)?;
    if same(entry.name.as_slice(), component, fold) {
        Some(entry)
    } else {
        None
    }
}
