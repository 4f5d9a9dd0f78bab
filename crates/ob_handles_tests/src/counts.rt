//! Counts of objects: they stay where room is made for more.

use ob_base::ObjId;
use ob_handles::Counts;
use std::alloc::{AllocError, Global};

const OBJECT: ObjId = ObjId(9);

const OTHER: ObjId = ObjId(8);

// How often two objects are counted, where room is made before the first is counted once, and whether there is room for
// more objects than memory can hold.
fn counted(alloc: Global) -> Result<(usize, usize, bool), AllocError> {
    let mut counts = Counts::new(alloc);
    counts.reserve(1_000)?;
    counts.add(OBJECT)?;
    let has_room = counts.reserve(usize::MAX).is_ok();
    Ok((counts.get(OBJECT), counts.get(OTHER), has_room))
}

#[test]
fn counts_stay_where_room_is_made(rt: HostRuntime) {
    assert_eq!(rt; counted(rt.alloc()).ok(), Some((1, 0, false)));
}
