//! The receipts of a seat, compared with its entries in the journal.

ghost use Rattle.std.specs.Prelude.{◌≡◌, ℕ, ◌↔◌, ◌<◌, ◌≤◌, IsTrue, IfNone, IfSome, Some, length, option_copied, slice_get, slice_index};
ghost use Rattle.std.specs.Option.{option_map_or};
ghost use Rattle.ob_entries.specs.Segments.{most_entries};
ghost use Rattle.ob_segments.specs.Journal.{whole};
ghost use Rattle.ob_locked.specs.Opened.{most_seats};
ghost use Rattle.ob_agreement.specs.Agreement.{entries_of, first_number, only, passes_of, IsAbsent, IsFirstDifference, IsOwn, IsToldOf};

use ob_entries::{Entry, is_same_entry};
use ob_locked::{Pass, has_entry};
use ob_segments::Journal;
use ob_types::TypeSet;
use std::collections::LinkedList;
use std::sync::ledger::Ledger;

/// Where passes and a journal differ: the least seat at which they do, and the numbers of its entries at the first difference,
/// in the journal and in its pass. A number is 0 where there is no such entry. `in_pass` is 0 too where the seat has no pass, or more
/// than one. (this profile)
#[derive(Clone, Copy, PartialEq, Eq, Debug)]
pub struct Mismatch {
    /// The seat.
    pub seat: u32,
    /// The number of the first entry of the seat in the journal that its pass hasn't at that place, from 1, or 0.
    pub in_journal: u64,
    /// The number of the first receipt of its pass that the journal hasn't at that place, from 1, or 0.
    pub in_pass: u64,
}

/// The entry at a place of a journal.
pub(crate) fn entry_at<K>(journal: &Journal<K>, place: usize) -> &Entry<K>
    requires few { length journal.now.journal.unsealed ≤ most_entries }
    requires within { place < length (whole journal.now.journal) }
    ensures { slice_get (whole journal.now.journal) place ≡ Some result.now }
{
    journal.is_sealed_in_order();
    match journal.get(place as u64 + 1) {
        Some(entry) => entry,
        None => unreachable!(),
    }
}

/// How many entries each seat has.
pub(crate) fn counts_of<K>(journal: &Journal<K>) -> [usize; 1024]
    requires { length journal.now.journal.unsealed ≤ most_entries }
    ensures { (seat : ℕ) → seat < most_seats → slice_index result seat
        ≡ length (entries_of seat (whole journal.now.journal)) }
{
    let mut counts = [0; 1024];
    for place in 0..journal.len() {
        let entry = entry_at(journal, place);
        let seat = entry.seat as usize;
        if seat < counts.len() {
            counts[seat] += 1;
        }
    }
    counts
}

/// The only pass of a seat, where there is one and no more.
pub(crate) fn only_pass<K: Copy, L: Ledger>(passes: &[Pass<K, L>], seat: u32) -> Option<&Pass<K, L>>
    ensures { option_copied result ≡ only (passes_of seat passes.now) }
{
    let mut found = None;
    for pass in passes {
        if pass.seat() == seat {
            if found.is_some() {
                return None;
            }
            found = Some(pass);
        }
    }
    found
}

/// Whether the pass of a seat, which has so many entries, is the only one and has them all as its receipts.
pub(crate) fn is_own<T: TypeSet, L: Ledger>(
    journal: &Journal<T::Kind>,
    passes: &[Pass<T::Kind, L>],
    seat: u32,
    count: usize,
) -> bool
    requires few { length journal.now.journal.unsealed ≤ most_entries }
    requires count { count ≡ length (entries_of seat (whole journal.now.journal)) }
    ensures { IsTrue result ↔ IsOwn (whole journal.now.journal) passes.now seat }
{
    match only_pass(passes, seat) {
        Some(pass) => {
            has_all::<T>(journal, seat, count, pass.receipts())
                || difference::<T>(journal, seat, pass.receipts()).is_none()
        }
        None => false,
    }
}

/// Whether these receipts are the entries of a seat, of which there are so many, by a quick test: the journal has each at its number,
/// and the numbers rise.
fn has_all<T: TypeSet>(
    journal: &Journal<T::Kind>,
    seat: u32,
    count: usize,
    receipts: &LinkedList<Entry<T::Kind>>,
) -> bool
    requires { count ≡ length (entries_of seat (whole journal.now.journal)) }
    ensures { IsTrue result → receipts.now ≡ entries_of seat (whole journal.now.journal) }
{
    if receipts.len() != count {
        return false;
    }
    let mut last = 0;
    let mut rest = receipts.iter();
    while let Some(receipt) = rest.next() {
        if receipt.seat != seat || receipt.number <= last || !has_entry::<T>(journal, receipt) {
            return false;
        }
        last = receipt.number;
    }
    true
}

/// The numbers at the first difference of a seat's entries and these receipts; none where they are the same.
fn difference<T: TypeSet>(
    journal: &Journal<T::Kind>,
    seat: u32,
    receipts: &LinkedList<Entry<T::Kind>>,
) -> Option<(u64, u64)>
    requires { length journal.now.journal.unsealed ≤ most_entries }
    ensures none { IfNone result (receipts.now ≡ entries_of seat (whole journal.now.journal)) }
    ensures some { IfSome result (λ told.
        IsFirstDifference (entries_of seat (whole journal.now.journal)) receipts.now (told.0)
        (told.1)) }
{
    let mut rest = receipts.iter();
    for place in 0..journal.len() {
        let entry = entry_at(journal, place);
        if entry.seat == seat {
            match rest.next() {
                Some(receipt) => {
                    if !is_same_entry::<T>(receipt, entry) {
                        return Some((entry.number, receipt.number));
                    }
                }
                None => return Some((entry.number, 0)),
            }
        }
    }
    match rest.next() {
        Some(receipt) => Some((0, receipt.number)),
        None => None,
    }
}

/// The number of the first entry of a seat, or 0 where it has none.
fn first_of<K>(journal: &Journal<K>, seat: u32) -> u64
    requires { length journal.now.journal.unsealed ≤ most_entries }
    ensures { result ≡ first_number (entries_of seat (whole journal.now.journal)) }
{
    for place in 0..journal.len() {
        let entry = entry_at(journal, place);
        if entry.seat == seat {
            return entry.number;
        }
    }
    0
}

/// The report of a mismatch about a seat.
pub(crate) fn told_of<T: TypeSet, L: Ledger>(
    journal: &Journal<T::Kind>,
    passes: &[Pass<T::Kind, L>],
    seat: u32,
) -> Mismatch
    requires { length journal.now.journal.unsealed ≤ most_entries }
    ensures seat { result.seat ≡ seat }
    ensures told { IsToldOf (whole journal.now.journal) passes.now result }
{
    let (in_journal, in_pass) = match only_pass(passes, seat) {
        Some(pass) => match difference::<T>(journal, seat, pass.receipts()) {
            Some(numbers) => numbers,
            None => (0, 0),
        },
        None => (first_of(journal, seat), 0),
    };
    Mismatch {
        seat,
        in_journal,
        in_pass,
    }
}
