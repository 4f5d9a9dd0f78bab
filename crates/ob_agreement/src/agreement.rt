//! Whether passes and journal agree once all callers have ended.

ghost use Rattle.std.specs.Prelude.{◌≡◌, ◌≤◌, [], OnOk, IfErr, length};
ghost use Rattle.ob_entries.specs.Segments.{most_entries};
ghost use Rattle.ob_segments.specs.Journal.{whole};
ghost use Rattle.ob_locked.specs.Opened.{most_seats};
ghost use Rattle.ob_agreement.specs.Agreement.{entries_of, passes_of, IsAbsent, IsLeastWithout, IsLesser, IsMismatch, Agrees};

use crate::compared::{Mismatch, counts_of, entry_at, is_own, told_of};
use ob_core::HandleTable;
use ob_locked::{Locked, Pass};
use ob_segments::Journal;
use ob_types::TypeSet;
use std::sync::ledger::Ledger;

/// Checks the journal against the passes of so many seats, at most 1,024, once their callers have ended. It succeeds if each seat has one
/// pass, and the journal has the receipts of each pass, each once and in their order, and no other entries. Otherwise it reports the
/// least seat at which they differ, and where; that never happens to callers that bring back the passes they were given. It takes no
/// memory. (this profile)
pub fn agree<T: TypeSet, H: HandleTable, L: Ledger>(
    locked: &Locked<T, H, L>,
    seats: u32,
    passes: &[Pass<T::Kind, L>],
) -> Result<(), Mismatch>
    requires { seats ≤ most_seats }
    ensures ok { OnOk result (Agrees (whole locked.now.journal) passes.now seats) }
    ensures err { IfErr result (λ mismatch.
        IsMismatch (whole locked.now.journal) passes.now seats mismatch) }
{
    locked.is_kept();
    let journal = locked.journal();
    let counts = counts_of(journal);
    for seat in 0..seats {
        if !is_own::<T, L>(journal, &*passes, seat, counts[seat as usize]) {
            return Err(told_of::<T, L>(journal, &*passes, seat));
        }
    }
    match least_beyond::<T, L>(journal, &*passes, seats) {
        Some(seat) => Err(told_of::<T, L>(journal, &*passes, seat)),
        None => Ok(()),
    }
}

/// The least seat from this number on that has an entry or a pass.
fn least_beyond<T: TypeSet, L: Ledger>(
    journal: &Journal<T::Kind>,
    passes: &[Pass<T::Kind, L>],
    seats: u32,
) -> Option<u32>
    requires { length journal.now.journal.unsealed ≤ most_entries }
    ensures { IsLeastWithout (IsAbsent (whole journal.now.journal) passes.now) seats result }
{
    let with_entry = beyond_in_journal(journal, seats);
    match beyond_in_passes(passes, seats) {
        Some(with_pass) => lesser(with_entry, with_pass, seats),
        None => with_entry,
    }
}

/// The least seat from this number on that has an entry.
fn beyond_in_journal<K>(journal: &Journal<K>, seats: u32) -> Option<u32>
    requires { length journal.now.journal.unsealed ≤ most_entries }
    ensures { IsLeastWithout (λ seat. entries_of seat (whole journal.now.journal)
        ≡ []) seats result }
{
    let mut least = None;
    for place in 0..journal.len() {
        let entry = entry_at(journal, place);
        least = lesser(least, entry.seat, seats);
    }
    least
}

/// The least seat from this number on that has a pass.
fn beyond_in_passes<K: Copy, L: Ledger>(passes: &[Pass<K, L>], seats: u32) -> Option<u32>
    ensures { IsLeastWithout (λ seat. passes_of seat passes.now ≡ []) seats result }
{
    let mut least = None;
    for pass in passes {
        least = lesser(least, pass.seat(), seats);
    }
    least
}

/// Of the least seat so far and another one the lesser, where the other is at least this number.
fn lesser(so_far: Option<u32>, other: u32, from: u32) -> Option<u32>
    ensures { IsLesser from other so_far result }
{
    if other < from {
        return so_far;
    }
    match so_far {
        Some(least) if least < other => Some(least),
        _ => Some(other),
    }
}
