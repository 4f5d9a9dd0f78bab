//! A directory.

ghost use Rattle.std.specs.Prelude.{◌≡◌, ◌≢◌, ◌<◌, ◌^◌, ◌==◌, [], ◌∷◌, ◌++◌, length, filter, not};
ghost use Rattle.std.specs.Prelude.{All, IfOk, OnErr};
ghost use Rattle.std.specs.List.{find};
ghost use Rattle.std.specs.Option.{option_copied, option_map};
ghost use Rattle.ob_dirs.specs.Dir.{entry_found, IsDir};
ghost use Rattle.ob_dirs.specs.Page.{entries_behind};
ghost use Rattle.ob_dirs.specs.Dir.{DirFindsWhatTheStateFinds, NotFoundIsFree};
ghost use Rattle.ob_dirs.specs.Dir.{
  NoRowIsNoEntry,
  NewRowIsLastEntry,
  RowElsewhereIsNoEntry,
  EntryGoesWithItsRow,
};

use crate::named::NamedEntries;
use crate::runs::EntriesBehind;
use crate::{DirEntries, DirEntry};
use ob_base::ObjId;
use ob_names::NameBuf;
use std::alloc::{AllocError, Global};
use std::marker::Model;

/// One object directory. A contract sees a `Dir` as the list of its entries, whose stamps rise
/// strictly and whose spellings differ from one another; two names that only the case of letters
/// distinguishes may be side by side.
///
/// Most directories of a namespace have no name in them: what holds the entries lies after a pointer, which
/// is made with the first one.
///
/// Source: Windows Internals, Object Manager: object directories; the order is this profile.
#[derive(Debug, Drop)]
pub struct Dir {
    held: Option<Box<NamedEntries>>,
    alloc: Global,
}

impl Model for Dir {
    ghost use Rattle.std.specs.Prelude.{[], List};
    ghost use Rattle.std.specs.Option.{option_map_or};
    ghost use Rattle.ob_dirs.specs.declared.entry.DirEntry.{DirEntry};

    ghost Value = { List DirEntry };

    ghost view = { λ dir. option_map_or (λ held. held.value) dir.held [] };
}

impl Dir {
    /// A directory with no entry. Takes no memory.
    pub fn new(alloc: Global) -> Dir
        ensures { result ≡ [] }
    {
        Dir { held: None, alloc }
    }

    /// Another directory with the same entries. It takes a time that grows with their number. The only error is
    /// out of memory.
    pub fn copy(&self) -> Result<Dir, AllocError>
        ensures { IfOk result (λ copy. copy ≡ self.now) }
    {
        let mut copy = Dir::new(self.alloc);
        for entry in self.iter() {
            let name = entry.name.copy()?;
            copy.insert(entry.stamp, name, entry.object)?;
        }
        Ok(copy)
    }

    /// How many entries there are.
    pub fn len(&self) -> usize
        ensures count { result ≡ length self.now }

        // The invariant of every directory's entries.
        ensures entries { IsDir self.now }
    {
        match &self.held {
            Some(held) => held.len(),
            None => 0,
        }
    }

    /// Whether there is no entry.
    pub fn is_empty(&self) -> bool
        ensures { result ≡ (length self.now == 0) }
    {
        match &self.held {
            Some(held) => held.is_empty(),
            None => true,
        }
    }

    /// The entries, by rising stamps. Takes no memory.
    pub fn iter(&self) -> DirEntries<'_>
        ensures all { result ≡ self.now }

        // The invariant of every directory's entries.
        ensures entries { IsDir self.now }
    {
        match &self.held {
            Some(held) => held.iter(),
            None => DirEntries::new(EntriesBehind::none(), 0),
        }
    }

    // The entries of a stamp above a context, by rising stamps.
    pub(crate) fn behind(&self, context: u64) -> EntriesBehind<'_>
        ensures entries { result ≡ entries_behind self.now context }
        ensures counted { length result < 2 ^ 64 }
    {
        match &self.held {
            Some(held) => held.behind(context),
            None => EntriesBehind::none(),
        }
    }

    /// Finds the entry under a component, of any length and with any bytes: of the entries whose names
    /// are equal to it, with `fold` for equality without regard to case, the one of least stamp; its
    /// stamp and its object. `None` exactly where no name is equal.
    ///
    /// Source: Windows Internals, Object Manager: object directories; OBJECT_ATTRIBUTES structure
    /// (Windows Driver Kit), OBJ_CASE_INSENSITIVE. Which of several matches is found is this
    /// profile.
    pub fn find(&self, component: &[u8], fold: bool) -> Option<(u64, ObjId)>
        ensures { result
            ≡ option_map (λ entry. (entry.stamp, entry.object))
            (entry_found self.now component.now fold) }
    {
        match &self.held {
            Some(held) => held.find(component, fold),
            None => None,
        }
    }

    /// Puts an entry after all others. That spelling must be free: no entry has exactly these
    /// bytes, as where `find` without `fold` gives `None`; a name that differs in the case of
    /// letters alone may be there. The stamp must be above those of all entries.
    ///
    /// The only fault is `Memory`, and then nothing has changed.
    ///
    /// Source: Windows Internals, Object Manager: object directories; the stamps are this profile.
    pub fn insert(&mut self, stamp: u64, name: NameBuf, object: ObjId) -> Result<(), AllocError>
        requires free { All (λ entry. entry.name ≢ name) self.old }
        requires newest { All (λ entry. entry.stamp < stamp) self.old }
        ensures last { IfOk result (λ _. self.new
            ≡ self.old ++ record { stamp = stamp; name = name; object = object } ∷ []) }
        ensures unchanged { OnErr result (self.new ≡ self.old) }
    {
        if let Some(held) = &mut self.held {
            return held.insert(stamp, name, object);
        }
        let mut held = Box::new(self.alloc, NamedEntries::new(self.alloc))?;
        held.insert(stamp, name, object)?;
        self.held = Some(held);
        Ok(())
    }

    /// The entry of a stamp, which may be any number; `None` exactly where no entry has it. Takes no
    /// memory.
    ///
    /// Source: the stamps are this profile.
    pub fn get(&self, stamp: u64) -> Option<&DirEntry>
        ensures { option_copied result ≡ find (λ entry. entry.stamp == stamp) self.now }
    {
        match &self.held {
            Some(held) => held.get(stamp),
            None => None,
        }
    }

    /// Takes away the entry of a stamp, which may be any number, and hands it back; where no entry
    /// has it, nothing changes and it gives `None`. The other entries stay, in their order. Takes
    /// no memory.
    ///
    /// Source: Windows Internals, Object Manager: object directories; the stamps are this profile.
    pub fn remove(&mut self, stamp: u64) -> Option<DirEntry>
        ensures there { result ≡ find (λ entry. entry.stamp == stamp) self.old }
        ensures others { self.new ≡ filter (λ entry. not (entry.stamp == stamp)) self.old }
    {
        match &mut self.held {
            Some(held) => held.remove(stamp),
            None => None,
        }
    }
}

/// The law that a directory finds what the state finds. Where the rows of a state that are in a
/// directory are these entries, in their order, what the state finds there under a component, with
/// or without `fold`, is the row of the entry that is found. Takes nothing and does nothing.
pub fn dir_finds_what_the_state_finds<K, T, F, I>()
    ensures { DirFindsWhatTheStateFinds K T F I }
{}

/// The law that a spelling is free exactly where a search without `fold` finds nothing. Takes
/// nothing and does nothing.
pub fn not_found_is_free()
    ensures { NotFoundIsFree }
{}

/// The laws by which a directory stays that of a state. The rows that are in it are its entries, in
/// their order: where there is no row and no entry, when a row comes after all others as an entry
/// is inserted, when a row of another directory comes, and when the row of a stamp goes as its entry
/// is removed. Takes nothing and does nothing.
pub fn entries_follow_the_rows()
    ensures none { NoRowIsNoEntry }
    ensures inserted { NewRowIsLastEntry }
    ensures elsewhere { RowElsewhereIsNoEntry }
    ensures removed { EntryGoesWithItsRow }
{}
