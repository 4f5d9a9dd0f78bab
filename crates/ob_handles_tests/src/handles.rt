//! Handle tables: which value a new handle gets, tables that are full, thinned and long in use, and handles listed one after
//! another. All except the tests is over any type of table.

ghost use Rattle.std.specs.Prelude.{◌<◌, All};

use ob_base::{Handle, ObjId, Proc};
use ob_handles::{HandleTable, OpenTable, SlabTable};
use ob_model::Held;
use std::alloc::Global;

const PROCESS: Proc = Proc(1);

const OBJECT: ObjId = ObjId(9);

// The most orders that handles get.
const MOST_ORDERS: u64 = 2_000_000;

// A table, with an order above those of its handles.
#[derive(Drop)]
struct Played<H: HandleTable> {
    table: H,
    next: u64,
    ghost newest: { All (λ h. h.order < next) (H.handles table) },
}

impl<H: HandleTable> Played<H> {
    // A table without a handle; the first one gets the order 1.
    fn new(alloc: Global) -> Played<H> {
        Played {
            table: H::new(alloc),
            next: 1,
        }
    }

    // A handle comes, and gives its value.
    #[tactic(auto, using(crate::proofs::Newest::handles_below_next, crate::proofs::Newest::granted_below_next, crate::proofs::Newest::kept_below_next))]
    fn grant(&mut self) -> Option<u32> {
        if self.next > MOST_ORDERS {
            return None;
        }
        let order = self.next;
        self.next += 1;
        match self.table.grant(PROCESS, OBJECT, true, order) {
            Ok(value) => Some(value.0),
            Err(_) => None,
        }
    }

    // A handle comes under the value of this place, as a child's that inherits it.
    #[tactic(auto, using(crate::proofs::Newest::handles_below_next, crate::proofs::Newest::granted_below_next, crate::proofs::Newest::kept_below_next))]
    fn put(&mut self, place: u32) -> bool {
        if place == 0 || place > 65_535 || self.next > MOST_ORDERS {
            return false;
        }
        let held = Held {
            process: PROCESS,
            value: Handle(4 * place),
            object: OBJECT,
            inherit: false,
            order: self.next,
        };
        if self.table.get(held.value).is_some() {
            return false;
        }
        self.next += 1;
        self.table.put(held).is_ok()
    }

    // Whether room is made for so many handles more.
    fn reserve(&mut self, more: usize) -> bool {
        self.table.reserve(more).is_ok()
    }

    // The order of the handle of a value, which goes.
    fn take(&mut self, value: u32) -> Option<u64> {
        match self.table.take(Handle(value)) {
            Some(held) => Some(held.order),
            None => None,
        }
    }

    // The order of the handle of a value.
    fn order_of(&self, value: u32) -> Option<u64> {
        match self.table.get(Handle(value)) {
            Some(held) => Some(held.order),
            None => None,
        }
    }

    // The value of the oldest handle.
    fn oldest(&self) -> Option<u32> {
        match self.table.oldest() {
            Some(held) => Some(held.value.0),
            None => None,
        }
    }

    // The order of the first handle that was opened after an order.
    fn after(&self, order: u64) -> Option<u64> {
        match self.table.opened_after(order) {
            Some(held) => Some(held.order),
            None => None,
        }
    }

    // Whether so many handles come, and get the values from the first on.
    fn fills(&mut self, count: u16) -> bool {
        for place in 1..=count {
            if self.grant() != Some(4 * u32::from(place)) {
                return false;
            }
        }
        true
    }
}

// How many handles a table has of which every second one goes, and how many are left.
const THINNED: u16 = 20_000;

const LEFT: u32 = 10_000;

// Whether these are the second handle, the fourth and so on, in the order of opening.
fn are_every_second(handles: &[Held]) -> bool {
    for place in 0..LEFT {
        let Some(held) = handles.get(place as usize) else {
            return false;
        };
        if held.value.0 != 8 * place + 8 || held.order != 2 * u64::from(place) + 2 {
            return false;
        }
    }
    handles.len() == LEFT as usize
}

// Whether a child inherits the others, where every second handle goes from the first on.
fn is_thinned<H: HandleTable>(alloc: Global, all: &mut Played<H>) -> bool {
    for place in 0..LEFT {
        if all.take(8 * place + 4) != Some(2 * u64::from(place) + 1) {
            return false;
        }
    }
    match all.table.inheritable(alloc) {
        Ok(handles) => are_every_second(handles.as_slice()),
        Err(_) => false,
    }
}

// How many handles come one for another.
const MANY: u64 = 1_000_000;

// The value of the last of many handles, where each comes and then the one before it goes, so that rows and values come
// again and again.
fn last_in_turn<H: HandleTable>(all: &mut Played<H>) -> Option<u32> {
    let mut newest = 8;
    for order in 2..MANY {
        let value = all.grant()?;
        if all.take(newest) != Some(order) {
            return None;
        }
        newest = value;
    }
    Some(newest)
}

// The lives of a table.
const LIVES: [&'static str; 6] = ["come and go", "full", "thinned", "put", "room", "turned"];

// The choices of a table that are its own.
#[derive(Clone, Copy)]
struct Own {
    // The value of a first handle after one that was put under the greatest value.
    next: u32,
    // The value of the last of many handles that come one for another.
    last: u32,
    // Whether it says that it has room for more handles than memory can hold, since it makes none.
    greatest: bool,
}

const OPEN: Own = Own {
    next: 4,
    last: 67_960,
    greatest: true,
};

const SLAB: Own = Own {
    next: 8,
    last: 8,
    greatest: false,
};

// Whether handles come and go: they go from the oldest on.
fn come_and_go<H: HandleTable>(all: &mut Played<H>) -> bool {
    all.fills(3)
        && all.oldest() == Some(4)
        && all.take(4) == Some(1)
        && all.take(4).is_none()
        && all.oldest() == Some(8)
        && all.order_of(12) == Some(3)
        && all.table.len() == 2
}

// Whether a full table has no handle more, and one more under the value of one that goes.
fn is_filled<H: HandleTable>(all: &mut Played<H>) -> bool {
    all.fills(65_535)
        && all.grant().is_none()
        && all.take(40) == Some(10)
        && all.grant() == Some(40)
        && all.table.len() == 65_535
}

// Whether a handle comes under the greatest value, and then one under the next value.
fn is_put<H: HandleTable>(all: &mut Played<H>, next: u32) -> bool {
    all.put(65_535) && all.grant() == Some(next) && all.order_of(262_140) == Some(1)
}

// Whether the handles stay where room is made for some more, and for more than memory can hold, and others come after.
fn has_room<H: HandleTable>(all: &mut Played<H>, greatest: bool) -> bool {
    all.fills(2)
        && all.reserve(1_000)
        && all.reserve(usize::MAX) == greatest
        && all.oldest() == Some(4)
        && all.order_of(8) == Some(2)
        && all.grant() == Some(12)
        && all.table.len() == 3
}

// Whether the first handle stays where a million others come one for another.
fn is_turned<H: HandleTable>(all: &mut Played<H>, last: u32) -> bool {
    all.fills(2)
        && last_in_turn(all) == Some(last)
        && all.order_of(4) == Some(1)
        && all.order_of(last) == Some(MANY)
        && all.table.len() == 2
}

// A listing of handles, each call with the order of the handle before.
#[derive(Clone, Copy)]
struct Listing {
    // How many handles come.
    opened: u16,
    // The values of those that go before the listing.
    gone: &'static [u32],
    // The order after which a handle goes, and the value of that handle; 0 for none.
    closed: (u64, u32),
    // The orders that are listed.
    listed: &'static [u64],
}

const LISTINGS: [Listing; 10] = [
    Listing {
        opened: 0,
        gone: &[],
        closed: (0, 0),
        listed: &[],
    },
    Listing {
        opened: 3,
        gone: &[],
        closed: (0, 0),
        listed: &[1, 2, 3],
    },
    Listing {
        opened: 3,
        gone: &[4],
        closed: (0, 0),
        listed: &[2, 3],
    },
    Listing {
        opened: 6,
        gone: &[8, 16, 12],
        closed: (0, 0),
        listed: &[1, 5, 6],
    },
    Listing {
        opened: 4,
        gone: &[12, 16],
        closed: (0, 0),
        listed: &[1, 2],
    },
    Listing {
        opened: 3,
        gone: &[8, 4, 12],
        closed: (0, 0),
        listed: &[],
    },
    Listing {
        opened: 5,
        gone: &[],
        closed: (2, 8),
        listed: &[1, 2, 3, 4, 5],
    },
    Listing {
        opened: 5,
        gone: &[],
        closed: (2, 4),
        listed: &[1, 2, 3, 4, 5],
    },
    Listing {
        opened: 5,
        gone: &[16],
        closed: (2, 12),
        listed: &[1, 2, 5],
    },
    Listing {
        opened: 4,
        gone: &[],
        closed: (3, 16),
        listed: &[1, 2, 3],
    },
];

// Whether a new table lists its handles so: each once, in the order of opening.
fn lists<H: HandleTable>(alloc: Global, listing: Listing) -> bool {
    let mut all: Played<H> = Played::new(alloc);
    if !all.fills(listing.opened) {
        return false;
    }
    for value in listing.gone {
        if all.take(*value).is_none() {
            return false;
        }
    }
    let mut order = 0;
    for next in listing.listed {
        if all.after(order) != Some(*next) {
            return false;
        }
        order = *next;
        if order == listing.closed.0 && all.take(listing.closed.1).is_none() {
            return false;
        }
    }
    all.after(order).is_none()
}

// The place of the first listing that a table doesn't give.
fn first_unlisted<H: HandleTable>(alloc: Global) -> Option<usize> {
    for (place, listing) in LISTINGS.iter().enumerate() {
        if !lists::<H>(alloc, *listing) {
            return Some(place);
        }
    }
    None
}

// Plays a life of a new table: whether all is as the life says.
fn plays<H: HandleTable>(alloc: Global, life: &str, own: Own) -> bool {
    let mut all: Played<H> = Played::new(alloc);
    match life {
        "come and go" => come_and_go(&mut all),
        "full" => is_filled(&mut all),
        "thinned" => all.fills(THINNED) && is_thinned(alloc, &mut all),
        "put" => is_put(&mut all, own.next),
        "room" => has_room(&mut all, own.greatest),
        _ => is_turned(&mut all, own.last),
    }
}

// The first life that a table doesn't play.
fn first_other<H: HandleTable>(alloc: Global, own: Own) -> Option<&'static str> {
    for life in LIVES.iter() {
        if !plays::<H>(alloc, *life, own) {
            return Some(*life);
        }
    }
    None
}

#[test]
fn open_tables_are_full_thinned_and_long_in_use(rt: HostRuntime) {
    assert_eq!(rt; first_other::<OpenTable>(rt.alloc(), OPEN), None);
}

#[test]
fn slab_tables_are_full_thinned_and_long_in_use(rt: HostRuntime) {
    assert_eq!(rt; first_other::<SlabTable>(rt.alloc(), SLAB), None);
}

#[test]
fn tables_list_their_handles_in_the_order_of_opening(rt: HostRuntime) {
    assert_eq!(rt; first_unlisted::<OpenTable>(rt.alloc()), None);
    assert_eq!(rt; first_unlisted::<SlabTable>(rt.alloc()), None);
}
