//! Entries of a directory, one after another.

ghost use Rattle.std.specs.Prelude.{◌≡◌, ◌≤◌, ◌==◌, length, take};
ghost use Rattle.std.specs.Iterator.{YieldsFirstRef, item_count};

use crate::DirEntry;
use crate::runs::EntriesBehind;
use std::marker::Model;

/// Entries of a directory by rising stamps, each lent: as many as are left of those that were asked
/// for. A contract sees them as the list of the entries that are left. (this profile)
#[derive(Drop)]
pub struct DirEntries<'a> {
    behind: EntriesBehind<'a>,
    shown: usize,
}

impl<'a> Model for DirEntries<'a> {
    ghost use Rattle.std.specs.Prelude.{◌≤◌, List, length, take};
    ghost use Rattle.ob_dirs.specs.declared.entry.DirEntry.{DirEntry};

    ghost Value = { List DirEntry };

    ghost view = { λ entries. take entries.shown entries.behind };

    ghost invariant = { λ entries. entries.shown ≤ length entries.behind };
}

impl<'a> DirEntries<'a> {
    // The first of these entries, so many.
    pub(crate) fn new(behind: EntriesBehind<'a>, shown: usize) -> DirEntries<'a>
        requires { shown ≤ length behind }
        ensures { result ≡ take shown behind.entry }
    {
        DirEntries { behind, shown }
    }

    /// How many entries are left.
    pub fn len(&self) -> usize
        ensures { result ≡ length self.now }
    {
        self.shown
    }

    /// Whether no entry is left.
    pub fn is_empty(&self) -> bool
        ensures { result ≡ (length self.now == 0) }
    {
        self.shown == 0
    }
}

impl<'a> Iterator for DirEntries<'a> {
    type Item = &'a DirEntry;

    ghost next_gives = { YieldsFirstRef (λ s. s) };

    ghost remaining = { item_count (λ s. s) };

    fn next(&mut self) -> Option<&'a DirEntry> {
        if self.shown == 0 {
            return None;
        }
        let entry = self.behind.next()?;
        self.shown -= 1;
        Some(entry)
    }
}
