//! The content of a reply.

ghost use Rattle.std.specs.Prelude.{◌≡◌};

use ob_model::{Bytes, Entries};
use std::marker::Model;

/// How a step ended, as a line of a journal says. (this profile)
#[derive(Debug, Drop)]
pub enum Said {
    /// With an open that waits under this ticket for its parse.
    Ticket(u64),
    /// With a reply.
    Done {
        /// The number of its status, below 2^64: one that no status has is said as it is.
        status: u64,
        /// Its gift.
        gift: Gift,
    },
}

/// The gift of a reply beside its status, as a line of a journal says. (this profile)
#[derive(Debug, Drop)]
pub enum Gift {
    /// Nothing.
    Nothing,
    /// A handle: a number below 2^32.
    Handle(u64),
    /// A text.
    Text(Bytes),
    /// A process, and the values of the handles that it inherited: numbers below 2^64.
    Process(u64, Numbers),
    /// A page of a directory; its status is one of the four that a page has.
    Page {
        /// The entries that it shows.
        entries: Entries,
        /// The context that the next page begins after.
        context: u64,
    },
}

/// Numbers below 2^64, in an order. Contracts see them as a list of numbers.
#[derive(Debug, Drop)]
pub struct Numbers {
    items: Vec<u64>,
}

impl Model for Numbers {
    ghost use Rattle.std.specs.Prelude.{List, ℕ};

    ghost Value = { List ℕ };

    ghost view = { λ n. n.items.items };
}

impl Numbers {
    /// The numbers of a vector, which is taken as it is: no memory is taken.
    pub fn new(items: Vec<u64>) -> Self
        ensures { result ≡ items.items }
    {
        Numbers { items }
    }

    /// The numbers, as a slice.
    pub fn as_slice(&self) -> &[u64]
        ensures { result.now ≡ self.now }
    {
        self.items.as_slice()
    }
}
