//! Entries by rising stamps, in runs.

ghost use Rattle.std.specs.Prelude.{◌≡◌, ◌<◌, ◌≤◌, ◌+◌, ◌^◌, ◌==◌, [], ◌∷◌, ◌++◌, length, filter, not};
ghost use Rattle.std.specs.Prelude.{All, IfOk, OnErr, MatchOption, false, take, drop, slice_index_or};
ghost use Rattle.std.specs.List.{find};
ghost use Rattle.std.specs.Option.{option_copied};
ghost use Rattle.std.specs.Iterator.{YieldsFirstRef, item_count};
ghost use Rattle.ob_dirs.specs.Page.{entries_behind};
ghost use Rattle.ob_dirs.specs.Runs.{
  AreBelow,
  AreFilled,
  AreFrom,
  IsInRuns,
  IsPlaceOf,
  Rises,
  before,
  from_on,
  joined,
  last_is_below,
  run_at,
};

use crate::DirEntry;
use std::alloc::{AllocError, Global};
use std::marker::Model;
use std::slice::Iter;

// How many entries a run holds at most.
const RUN: usize = 32;

/// Entries by strictly rising stamps, in runs, one after another. A run is full before the next one
/// begins, so entries that come in order take no more room than they need. A contract sees them as the
/// list of the entries. (this profile)
#[derive(Debug, Drop)]
pub(crate) struct EntryRuns {
    runs: Vec<Vec<DirEntry>>,
    count: usize,
}

impl Model for EntryRuns {
    ghost use Rattle.std.specs.Prelude.{List};
    ghost use Rattle.ob_dirs.specs.declared.entry.DirEntry.{DirEntry};
    ghost use Rattle.ob_dirs.specs.Runs.{AreRuns, joined};

    ghost Value = { List DirEntry };

    ghost view = { λ entries. joined entries.runs.items };

    ghost invariant = { λ entries. AreRuns entries.runs.items entries.count };
}

impl EntryRuns {
    /// No entry. Takes no memory.
    pub(crate) fn new(alloc: Global) -> EntryRuns
        ensures { result ≡ [] }
    {
        EntryRuns {
            runs: Vec::new(alloc),
            count: 0,
        }
    }

    /// How many entries there are.
    pub(crate) fn len(&self) -> usize
        ensures count { result ≡ length self.now }

        // The invariant of all entries.
        ensures rises { Rises self.now }
    {
        self.count
    }

    /// Whether there is no entry.
    pub(crate) fn is_empty(&self) -> bool
        ensures { result ≡ (length self.now == 0) }
    {
        self.count == 0
    }

    /// The entry of a stamp; `None` exactly where no entry has it.
    pub(crate) fn get(&self, stamp: u64) -> Option<&DirEntry>
        ensures { option_copied result ≡ find (λ entry. entry.stamp == stamp) self.now }
    {
        let place = first_from(&self.runs, stamp)?;
        let entry = &self.runs[place.run][place.at];
        if entry.stamp == stamp {
            Some(entry)
        } else {
            None
        }
    }

    /// Puts an entry after the others, whose stamps must be below its own. Where memory runs out nothing
    /// has changed.
    pub(crate) fn push(&mut self, entry: DirEntry) -> Result<(), AllocError>
        requires newest { All (λ e. e.stamp < entry.stamp) self.old }
        ensures last { IfOk result (λ _. self.new ≡ self.old ++ entry ∷ []) }
        ensures unchanged { OnErr result (self.new ≡ self.old) }
    {
        let Some(count) = self.count.checked_add(1) else {
            return Err(AllocError);
        };
        push_last(&mut self.runs, entry)?;
        self.count = count;
        Ok(())
    }

    /// Takes away the entry of a stamp and hands it back; where no entry has it nothing changes. Takes no
    /// memory.
    pub(crate) fn remove(&mut self, stamp: u64) -> Option<DirEntry>
        ensures there { result ≡ find (λ entry. entry.stamp == stamp) self.old }
        ensures others { self.new ≡ filter (λ entry. not (entry.stamp == stamp)) self.old }
    {
        let place = first_from(&self.runs, stamp)?;
        if self.runs[place.run][place.at].stamp != stamp {
            return None;
        }
        let entry = take_at(&mut self.runs, &place);
        self.count -= 1;
        Some(entry)
    }

    /// The entries, by rising stamps.
    pub(crate) fn iter(&self) -> EntriesBehind<'_>
        ensures { result ≡ self.now }
    {
        EntriesBehind::new(&[], &self.runs)
    }

    /// The entries of a stamp above a context, by rising stamps. Where they begin is sought as in a sorted
    /// list.
    pub(crate) fn behind(&self, context: u64) -> EntriesBehind<'_>
        ensures entries { result ≡ entries_behind self.now context }
        ensures counted { length result < 2 ^ 64 }
    {
        let Some(place) = first_from(&self.runs, context) else {
            return EntriesBehind::none();
        };
        let run = &self.runs[place.run];
        let others = &self.runs[place.run + 1..];
        if run[place.at].stamp == context {
            return EntriesBehind::new(&run[place.at + 1..], others);
        }
        EntriesBehind::new(&run[place.at..], others)
    }
}

/// Entries by rising stamps, each lent: the rest of a run, then the runs after it. A contract sees them as
/// the list of the entries that are left. (this profile)
#[derive(Drop)]
pub(crate) struct EntriesBehind<'a> {
    here: Iter<'a, DirEntry>,
    runs: Iter<'a, Vec<DirEntry>>,
}

impl<'a> Model for EntriesBehind<'a> {
    ghost use Rattle.std.specs.Prelude.{List, ◌++◌};
    ghost use Rattle.std.specs.Slice.Iter.{iter_rest};
    ghost use Rattle.ob_dirs.specs.declared.entry.DirEntry.{DirEntry};
    ghost use Rattle.ob_dirs.specs.Runs.{AreFilled, joined};

    ghost Value = { List DirEntry };

    ghost view = { λ entries. iter_rest entries.here ++ joined (iter_rest entries.runs) };

    ghost invariant = { λ entries. AreFilled (iter_rest entries.runs) };
}

impl<'a> EntriesBehind<'a> {
    /// No entry.
    pub(crate) fn none() -> EntriesBehind<'a>
        ensures { result ≡ [] }
    {
        EntriesBehind::new(&[], &[])
    }

    // These entries, and after them those of the runs, of which none may be empty.
    fn new(here: &'a [DirEntry], runs: &'a [Vec<DirEntry>]) -> EntriesBehind<'a>
        requires filled { AreFilled runs.now }
        ensures { result ≡ here.now ++ joined runs.now }
    {
        EntriesBehind {
            here: here.iter(),
            runs: runs.iter(),
        }
    }
}

impl<'a> Iterator for EntriesBehind<'a> {
    type Item = &'a DirEntry;

    ghost next_gives = { YieldsFirstRef (λ s. s) };

    ghost remaining = { item_count (λ s. s) };

    fn next(&mut self) -> Option<&'a DirEntry> {
        if let Some(entry) = self.here.next() {
            return Some(entry);
        }
        let run = self.runs.next()?;
        self.here = run.iter();
        self.here.next()
    }
}

// Where an entry is: in which run, and where in it.
#[derive(Drop)]
struct Place {
    run: usize,
    at: usize,
}

// The place of the first entry whose stamp isn't below one; none where all are.
fn first_from(runs: &[Vec<DirEntry>], stamp: u64) -> Option<Place>
    requires rises { Rises (joined runs.now) }
    requires filled { AreFilled runs.now }
    ensures { MatchOption result (AreBelow stamp (joined runs.now))
        (λ place. IsPlaceOf runs.now stamp place.run place.at) }
{
    let run = runs_below(runs, stamp);
    if run == runs.len() {
        return None;
    }
    let at = entries_below(&runs[run], stamp);
    Some(Place { run, at })
}

// How many of these runs, from the first one on, have only stamps below one.
fn runs_below(runs: &[Vec<DirEntry>], stamp: u64) -> usize
    requires rises { Rises (joined runs.now) }
    requires filled { AreFilled runs.now }
    ensures within { result ≤ length runs.now }
    ensures below { AreBelow stamp (joined (take result runs.now)) }
    ensures next { result < length runs.now
        → last_is_below stamp (run_at runs.now result) ≡ false }
{
    runs.partition_point(|run| last_is_below(run, stamp))
}

// Whether the last of these entries has a stamp below one, or there is none.
fn last_is_below(run: &[DirEntry], stamp: u64) -> bool
    ensures { result ≡ last_is_below stamp run.now }
{
    match run.last() {
        Some(entry) => entry.stamp < stamp,
        None => true,
    }
}

// How many of these entries, from the first one on, have a stamp below one.
fn entries_below(run: &[DirEntry], stamp: u64) -> usize
    requires { Rises run.now }
    ensures within { result ≤ length run.now }
    ensures below { AreBelow stamp (take result run.now) }
    ensures from { AreFrom stamp (drop result run.now) }
{
    run.partition_point(|entry| entry.stamp < stamp)
}

// Puts an entry after those of the runs: into the last one where it has room, else into a new one. The first
// run grows with its entries, and each other one has its whole room from the first entry on.
fn push_last(runs: &mut Vec<Vec<DirEntry>>, entry: DirEntry) -> Result<(), AllocError>
    requires { AreFilled runs.old.items }
    ensures last { IfOk result (λ _. joined runs.new.items ≡ joined runs.old.items ++ entry ∷ []) }
    ensures unchanged { OnErr result (joined runs.new.items ≡ joined runs.old.items) }
    ensures filled { AreFilled runs.new.items }
{
    let count = runs.len();
    if count != 0 {
        let run = &mut runs[count - 1];
        if run.len() < RUN {
            run.push(entry)?;
            return Ok(());
        }
    }
    let room = if count == 0 { 0 } else { RUN };
    let mut run = Vec::with_capacity(*runs.allocator(), room)?;
    run.push(entry)?;
    runs.push(run)?;
    Ok(())
}

// Takes away the entry at a place, and the run with it where it was the last of its run.
fn take_at(runs: &mut Vec<Vec<DirEntry>>, place: &Place) -> DirEntry
    requires here { IsInRuns runs.old.items place.now.run place.now.at }
    requires filled { AreFilled runs.old.items }
    ensures entry { result ≡ slice_index_or (run_at runs.old.items place.now.run) place.now.at result }
    ensures others { joined runs.new.items
        ≡ before runs.old.items place.now.run place.now.at
        ++ from_on runs.old.items place.now.run (place.now.at + 1) }
    ensures filled { AreFilled runs.new.items }
{
    let run = &mut runs[place.run];
    let entry = run.remove(place.at);
    if run.is_empty() {
        runs.remove(place.run);
    }
    entry
}
