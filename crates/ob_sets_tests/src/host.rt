//! A caller's own objects: their kinds, and the list of what was deleted.

use ob_host::{HostSet, Kind, arguments};
use ob_types::{Reason, TypeSet, close_last};
use std::alloc::Global;

// The types' names, as Windows Internals and its tools spell them, in the order of the kinds.
const NAMES: [&'static str; 36] = [
    "Event",
    "Mutant",
    "Semaphore",
    "Timer",
    "Section",
    "Job",
    "IoCompletion",
    "ALPC Port",
    "Key",
    "Device",
    "Driver",
    "File",
    "WindowStation",
    "Desktop",
    "Process",
    "Thread",
    "Token",
    "Callback",
    "Profile",
    "KeyedEvent",
    "Session",
    "Partition",
    "Controller",
    "Adapter",
    "EtwRegistration",
    "TmTm",
    "TmTx",
    "TmRm",
    "TmEn",
    "WaitablePort",
    "TpWorkerFactory",
    "FilterConnectionPort",
    "PowerRequest",
    "DebugObject",
    "EtwConsumer",
    "WmiGuid",
];

// Whether the kind of this place has it, and this name.
fn is_named(place: usize, name: &str) -> bool {
    match Kind::from_index(place) {
        Some(kind) => kind.index() == place && kind.type_name() == name,
        None => false,
    }
}

#[test]
fn kinds_stand_in_the_order_of_their_names(rt: HostRuntime) {
    for (place, name) in NAMES.iter().enumerate() {
        assert!(rt; is_named(place, *name), "{name}");
    }
    assert!(rt; Kind::from_index(36).is_none() && Kind::from_index(usize::MAX).is_none());
}

// Makes an event with a word, opens it, and deletes it.
fn delete(alloc: Global, set: &mut HostSet, word: u64) -> bool {
    let Ok((_, mut inner)) = HostSet::make(alloc, Kind::Event, &arguments(word)) else {
        return false;
    };
    let opened = set.on_open(&mut inner, Reason::Created);
    let found = inner.object().user_data;
    close_last(set, inner);
    opened.is_ok() & (found == word)
}

// The word of the object that was deleted first.
fn taken(set: &mut HostSet) -> Option<u64> {
    match set.take_deleted() {
        Some(deletion) => Some(deletion.user_data),
        None => None,
    }
}

// A delete of an object with a word, or what is taken then.
#[derive(Clone, Copy, Debug)]
enum Step {
    Delete(u64),
    Take(Option<u64>),
}

const STEPS: [Step; 10] = [
    Step::Take(None),
    Step::Delete(7),
    Step::Delete(u64::MAX),
    Step::Delete(0),
    Step::Take(Some(7)),
    Step::Delete(8),
    Step::Take(Some(u64::MAX)),
    Step::Take(Some(0)),
    Step::Take(Some(8)),
    Step::Take(None),
];

// Whether a step is done so.
fn is_done(alloc: Global, set: &mut HostSet, step: Step) -> bool {
    match step {
        Step::Delete(word) => delete(alloc, set, word),
        Step::Take(wanted) => taken(set) == wanted,
    }
}

// Whether many objects are deleted, with the words from one on.
fn are_deleted(alloc: Global, set: &mut HostSet, first: u32) -> bool {
    for word in 0..100_000 {
        if !delete(alloc, set, u64::from(first) + word) {
            return false;
        }
    }
    true
}

// Deleted objects are taken in order. At last the list is long, and is dropped one object after another, also where half
// of it was turned.
#[test]
fn deleted_objects_are_taken_in_order_and_a_long_list_is_dropped(rt: HostRuntime) {
    let mut set = HostSet::new();
    for step in STEPS.iter() {
        assert!(rt; is_done(rt.alloc(), &mut set, *step), "at {step:?}");
    }
    assert!(rt; are_deleted(rt.alloc(), &mut set, 0) && taken(&mut set) == Some(0));
    assert!(rt; are_deleted(rt.alloc(), &mut set, 100_000) && taken(&mut set) == Some(1));
}
