//! The order of a journal: the entries of seat 0 before the workers, those of the workers, and those of seat 0 after the join.

ghost use Rattle.std.specs.Prelude.{◌≡◌, ◌↔◌, ◌++◌, IsTrue, map};
ghost use Rattle.std.specs.Arc.{arc_value};
ghost use Rattle.ob_entries.specs.Segments.{joined};
ghost use Rattle.ob_threads.specs.Played.{IsInOrder};
ghost use Rattle.ob_threads.specs.Order.{after, followed, is_whole};

use ob_entries::{Entry, Segment};
use ob_standard::StandardKind;
use std::sync::Arc;

/// How far the entries of a journal came in order.
#[derive(Clone, Copy)]
pub(crate) enum Order {
    /// So many of seat 0 are to come, and then those of the workers.
    Begun(usize),
    /// Seat 0 has continued after the join: all that are to come are its own.
    Joined,
    /// One came out of turn.
    Broken,
}

/// Whether the entries of a journal come in order: so many of seat 0, then those of the workers, then those of seat 0 alone.
pub(crate) fn is_in_order(
    begun: usize,
    sealed: &[Arc<Segment<StandardKind>>],
    last: &Segment<StandardKind>,
) -> bool
    ensures { IsTrue result ↔ IsInOrder begun (joined (map arc_value sealed.now) ++ last.now.entries) }
{
    let mut order = Order::Begun(begun);
    for segment in sealed {
        order = followed(order, segment.entries.as_slice());
    }
    is_whole(followed(order, last.entries.as_slice()))
}

/// How far a journal came in order, with these entries more.
fn followed(order: Order, entries: &[Entry<StandardKind>]) -> Order
    ensures { result ≡ followed order entries.now }
{
    let mut order = order;
    for entry in entries {
        order = after(order, entry.seat);
    }
    order
}

/// How far a journal came in order, with an entry of this seat more.
fn after(order: Order, seat: u32) -> Order
    ensures { result ≡ after order seat }
{
    match order {
        Order::Begun(0) if seat == 0 => Order::Joined,
        Order::Begun(left) if seat == 0 => Order::Begun(left - 1),
        Order::Begun(0) => order,
        Order::Joined if seat == 0 => order,
        _ => Order::Broken,
    }
}

/// Whether a journal that came so far is in order.
fn is_whole(order: Order) -> bool
    ensures { result ≡ is_whole order }
{
    match order {
        Order::Begun(left) => left == 0,
        Order::Joined => true,
        Order::Broken => false,
    }
}
