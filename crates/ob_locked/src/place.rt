//! Places for receipts.

ghost use Rattle.std.specs.Prelude.{◌≡◌, [], ◌∷◌, ◌+◌, ◌^◌, ◌<◌, ◌++◌, length};

use ob_entries::Entry;
use ob_model::{Answer, Event, ParseRun};
use std::alloc::{AllocError, Global};
use std::collections::LinkedList;
use std::marker::Model;
use std::mem;

/// The place of one receipt. It is made before the step that fills it, so that the step needs no memory for it. It may be dropped.
#[derive(Drop)]
pub(crate) struct ReceiptPlace<K> {
    cell: LinkedList<Entry<K>>,
}

impl<K> Model for ReceiptPlace<K> {
    ghost use Rattle.std.specs.Prelude.{◌≡◌, length};

    ghost Value = { Unit {0} };

    ghost view = { λ p. tt };

    ghost invariant = { λ p. length p.cell ≡ 1 };
}

impl<K: Copy> ReceiptPlace<K> {
    /// A place. The only error is out of memory.
    pub(crate) fn new(alloc: Global) -> Result<ReceiptPlace<K>, AllocError> {
        let mut cell = LinkedList::new(alloc);
        let blank = Entry {
            number: 0,
            seat: 0,
            step: Event::Abandon {
                ticket: 0,
                parse: ParseRun::Unrun,
            },
            reply: Answer::Ticket(0),
        };
        match cell.push_back(blank) {
            Ok(()) => Ok(ReceiptPlace { cell }),
            Err(refused) => {
                mem::drop(cell);
                Err(refused.into())
            }
        }
    }

    /// Adds a receipt after these. It takes no memory.
    pub(crate) fn fill(self, receipts: &mut LinkedList<Entry<K>>, receipt: Entry<K>)
        requires { length receipts.old < 2 ^ 62 }
        ensures { receipts.new ≡ receipts.old ++ receipt ∷ [] }
    {
        let ReceiptPlace { mut cell } = self;
        match cell.front_mut() {
            Some(place) => mem::drop(mem::replace(place, receipt)),
            None => mem::drop(receipt),
        }
        let _ = receipts.append(&mut cell);
        mem::drop(cell);
    }
}
