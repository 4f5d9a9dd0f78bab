//! Passes: a caller's seat, and the receipts of its steps.

ghost use Rattle.std.specs.Prelude.{◌≡◌, ◌↔◌, ◌<◌, ◌+◌, ◌^◌, [], ◌∷◌, ◌++◌, IsTrue, Some, ◌-◌, length, option_copied, slice_get};
ghost use Rattle.ob_segments.specs.Journal.{whole};
ghost use Rattle.ob_locked.specs.Passed.{IsKnown, last_number, last_of};

use crate::place::ReceiptPlace;
use ob_entries::{Entry, is_same_entry};
use ob_segments::Journal;
use ob_types::TypeSet;
use std::alloc::Global;
use std::collections::LinkedList;
use std::marker::Model;
use std::sync::ledger::{Book, Ledger, Share};

/// A caller's pass: its seat, and a receipt for each of its steps, which equals the step's entry in the journal. It is lent to
/// each step. `K` is the kind of an object of the set of types, and `L` the ledger by which the steps of all passes are
/// counted. Contracts see the seat and the receipts. (this profile)
#[derive(Drop)]
pub struct Pass<K: Copy, L: Ledger> {
    seat: u32,
    receipts: LinkedList<Entry<K>>,
    share: Share<L>,
}

impl<K: Copy, L: Ledger> Model for Pass<K, L> {
    ghost use Rattle.std.specs.Prelude.{◌≡◌, ◌<◌, length};
    ghost use Rattle.ob_locked.specs.Passed.{Passed};

    ghost Value = { Passed K };

    ghost view = { λ p. record { seat = p.seat; receipts = p.receipts } };

    ghost invariant = { λ p. (p.share.amount ≡ length p.receipts) × (0 < p.share.parts) };
}

impl<K: Copy, L: Ledger> Pass<K, L> {
    /// A pass of a seat, without a receipt. Its share has a part of the ledger, and counts nothing. It takes no memory.
    pub(crate) fn new(alloc: Global, seat: u32, share: Share<L>) -> Pass<K, L>
        requires part { 0 < share.parts }
        requires none { share.amount ≡ 0 }
        ensures { result ≡ record { seat = seat; receipts = [] } }
    {
        Pass {
            seat,
            receipts: LinkedList::new(alloc),
            share,
        }
    }

    /// Its seat: 0 to 1,023. (this profile)
    pub fn seat(&self) -> u32
        ensures { result ≡ self.now.seat }
    {
        self.seat
    }

    /// How many receipts it has: one for each of its steps. (this profile)
    pub fn count(&self) -> usize
        ensures { result ≡ length self.now.receipts }
    {
        self.receipts.len()
    }

    /// The number of its last step in the journal, from 1, or 0 if it made none. (this profile)
    pub fn last(&self) -> u64
        ensures { result ≡ last_number self.now.receipts }
    {
        match self.receipts.back() {
            Some(receipt) => receipt.number,
            None => 0,
        }
    }

    /// Adds the receipt of a step, and counts it. It takes no memory.
    pub(crate) fn receive(&mut self, book: &mut Book<L>, place: ReceiptPlace<K>, receipt: Entry<K>)
        requires { book.old.total < 2 ^ 61 }
        ensures receipts { self.new ≡ record {
          seat = self.old.seat;
          receipts = self.old.receipts
              ++ receipt ∷ [];
        } }
        ensures counted { book.new.total ≡ book.old.total + 1 }
    {
        book.audit(&mut self.share);
        place.fill(&mut self.receipts, receipt);
        book.add(&mut self.share, 1);
    }

    /// Its receipts, in their order. (this profile)
    pub fn receipts(&self) -> &LinkedList<Entry<K>>
        ensures { result.now ≡ self.now.receipts }
    {
        &self.receipts
    }

    /// The last receipt, where there is one.
    fn last_receipt(&self) -> Option<&Entry<K>>
        ensures { option_copied result ≡ last_of self.now.receipts }
    {
        self.receipts.back()
    }
}

/// Whether this journal has the last receipt of a pass at its number, or the pass has no receipt: if not, the pass is a stranger's.
/// Takes no memory. (this profile)
pub fn is_known<T: TypeSet, L: Ledger>(pass: &Pass<T::Kind, L>, journal: &Journal<T::Kind>) -> bool
    ensures { IsTrue result ↔ IsKnown (whole journal.now.journal) pass.now.receipts }
{
    match pass.last_receipt() {
        Some(receipt) => has_entry::<T>(journal, receipt),
        None => true,
    }
}

/// Whether a journal has this entry, the same in each field, at the entry's number. (this profile)
pub fn has_entry<T: TypeSet>(journal: &Journal<T::Kind>, entry: &Entry<T::Kind>) -> bool
    ensures { IsTrue result ↔ slice_get (whole journal.now.journal) (entry.now.number - 1)
        ≡ Some entry.now }
{
    match journal.get(entry.number) {
        Some(found) => is_same_entry::<T>(found, entry),
        None => false,
    }
}
