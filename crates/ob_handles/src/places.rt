//! The places of the counts of objects in a map, and its objects in order.

ghost use Rattle.std.specs.Prelude.{Some, IsTrue, vec_capacity};
ghost use Rattle.ob_handles.specs.Counts.{IsPlaceOf, HasRoomFor, AreListed};

use indexmap::IndexMap;
use ob_base::ObjId;

/// The places of the two objects that were counted last: any two places give the same counts, and these give
/// them soonest.
#[derive(Clone, Copy)]
pub(crate) struct Recent {
    last: usize,
    before: usize,
}

impl Recent {
    /// The places where none was counted.
    pub(crate) fn new() -> Recent {
        Recent { last: 0, before: 0 }
    }

    /// The places once an object is counted at one.
    pub(crate) fn then(self, place: usize) -> Recent {
        if place == self.last {
            return self;
        }
        Recent {
            last: place,
            before: self.last,
        }
    }
}

/// The place at which an object's count is kept, looked for first at those of the two that were counted last, and after
/// the last of them, since what was counted in turn once is counted so again; `None` exactly where none is kept. Takes no
/// memory, and a time that doesn't grow with the objects.
#[inline(always)]
pub(crate) fn place_of(
    numbers: &IndexMap<u64, usize>,
    recent: Recent,
    object: ObjId,
) -> Option<usize>
    ensures { IsPlaceOf object numbers.now.entries result }
{
    if is_at(numbers, recent.last, object) {
        return Some(recent.last);
    }
    if is_at(numbers, recent.before, object) {
        return Some(recent.before);
    }
    let behind = recent.last.wrapping_add(1);
    if is_at(numbers, behind, object) {
        return Some(behind);
    }
    searched_place(numbers, object)
}

/// The same, searched for in the map.
#[inline(never)]
fn searched_place(numbers: &IndexMap<u64, usize>, object: ObjId) -> Option<usize>
    ensures { IsPlaceOf object numbers.now.entries result }
{
    let (place, _, _) = numbers.get_full(&object.0)?;
    Some(place)
}

/// Whether an object's count is kept at a place. Takes no memory.
fn is_at(numbers: &IndexMap<u64, usize>, place: usize, object: ObjId) -> bool
    ensures { IsTrue result → IsPlaceOf object numbers.now.entries (Some place) }
{
    match numbers.get_index(place) {
        Some((counted, _)) => *counted == object.0,
        None => false,
    }
}

/// The objects whose counts are kept, in order, in a vector with room for as many. Takes no memory.
pub(crate) fn in_order(room: Vec<u64>, numbers: &IndexMap<u64, usize>) -> Vec<u64>
    requires { HasRoomFor numbers.now.entries room.items (vec_capacity room) }
    ensures { AreListed numbers.now.entries result.items }
{
    let mut ids = room;
    for id in numbers.keys() {
        ids.push_reserved(*id);
    }
    ids.sort_unstable();
    ids
}
