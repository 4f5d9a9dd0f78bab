//! The journal's room for a step, and its entry.

ghost use Rattle.std.specs.Prelude.{◌≡◌, ◌≤◌, ◌<◌, ◌+◌, ◌^◌, ◌∷◌, ◌++◌, [], IfOk, IfErr, OnOk, length};
ghost use Rattle.ob_entries.specs.Segments.{most_entries};
ghost use Rattle.ob_segments.specs.Journal.{whole, with_entry};
ghost use Rattle.ob_locked.specs.Passed.{IsKnown};
ghost use Rattle.ob_locked.specs.Places.{places_of_start};
ghost use Rattle.ob_locked.specs.Steps.{IsFull, IsNotAdmitted};

use crate::Pass;
use crate::made::Writer;
use crate::pass::is_known;
use crate::place::ReceiptPlace;
use ob_base::{Fault, Status};
use ob_entries::Entry;
use ob_segments::Journal;
use ob_types::TypeSet;
use std::sync::ledger::{Book, Ledger};

/// The most entries of a segment.
const MOST_ENTRIES: usize = 1_048_576;

/// The places that a start may come to take.
const PLACES_OF_START: usize = 34;

/// Checks whether a start may be made with this pass, makes room for it in the open segment, and returns the writer of its entry. The faults
/// are `InvalidParameter` for a stranger's pass, then `JournalFull` if fewer than 34 places of the open segment are neither used nor
/// reserved, then `Memory` if out of memory.
pub(crate) fn admit<T: TypeSet, L: Ledger>(
    journal: &mut Journal<T::Kind>,
    reserved: usize,
    pass: &Pass<T::Kind, L>,
) -> Result<Writer, Fault>
    requires { length journal.old.journal.unsealed + reserved ≤ most_entries }
    ensures same { journal.new.journal ≡ journal.old.journal }
    ensures places { journal.old.places ≤ journal.new.places }
    ensures room { OnOk result
        (length journal.old.journal.unsealed + reserved + places_of_start ≤ journal.new.places) }
    ensures few { OnOk result
        (length journal.old.journal.unsealed + reserved + places_of_start ≤ most_entries) }
    ensures number { IfOk result (λ writer. writer.number
        ≡ length (whole journal.old.journal) + 1) }
    ensures seat { IfOk result (λ writer. writer.seat ≡ pass.now.seat) }
    ensures known { OnOk result (IsKnown (whole journal.old.journal) pass.now.receipts) }
    ensures spare { OnOk result (IsFull (length journal.old.journal.unsealed) reserved → ⊥) }
    ensures fault { IfErr result (λ fault.
        IsNotAdmitted journal.old.journal reserved pass.now.receipts fault) }
{
    if !is_known::<T, L>(pass, journal) {
        return Err(Fault::Refused(Status::InvalidParameter));
    }
    if MOST_ENTRIES - journal.open_len() - reserved < PLACES_OF_START {
        return Err(Fault::Refused(Status::JournalFull));
    }
    journal.reserve(reserved + PLACES_OF_START)?;
    Ok(next_writer(journal, pass.seat()))
}

/// The writer of the next entry.
pub(crate) fn next_writer<K>(journal: &Journal<K>, seat: u32) -> Writer
    requires { length journal.now.journal.unsealed ≤ most_entries }
    ensures number { result.number ≡ length (whole journal.now.journal) + 1 }
    ensures seat { result.seat ≡ seat }
{
    journal.is_sealed_in_order();
    Writer {
        number: journal.len() as u64 + 1,
        seat,
    }
}

/// Adds an entry to the journal, which has room for it, and its receipt to the pass.
pub(crate) fn enter<K: Copy, L: Ledger>(
    journal: &mut Journal<K>,
    book: &mut Book<L>,
    pass: &mut Pass<K, L>,
    place: ReceiptPlace<K>,
    entry: Entry<K>,
    receipt: Entry<K>,
)
    requires room { length journal.old.journal.unsealed < journal.old.places }
    requires few { book.old.total < 2 ^ 61 }
    ensures journal { journal.new.journal ≡ with_entry journal.old.journal entry }
    ensures places { journal.old.places ≤ journal.new.places }
    ensures pass { pass.new ≡ record {
      seat = pass.old.seat;
      receipts = pass.old.receipts ++ receipt
          ∷ [];
    } }
    ensures counted { book.new.total ≡ book.old.total + 1 }
{
    pass.receive(book, place, receipt);
    journal.push(entry);
}
