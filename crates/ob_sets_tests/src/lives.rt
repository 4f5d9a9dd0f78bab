//! Lives of objects in sets that count, record and refuse, and in a sum of two sets. All except the tests and what
//! makes a set is over any set of types.

use crate::laws::hand_over_all;
use either::Either;
use ob_base::Fault;
use ob_host::{HostSet, Kind};
use ob_plain::{Call, CallKind, Counting, Plain, PlainKind, Recorder, Refusing};
use ob_types::{Both, Reason, TypeSet, close_last, open_or_leave};
use std::alloc::Global;

// A call on an object.
#[derive(Clone, Copy)]
enum Turn {
    // It is opened for a reason.
    Opens(Reason),
    // It isn't, but refused by a number.
    Refuses(Reason, u16),
    // It is closed, with so many handles left in its process and in the system.
    Closes(u32, u32),
}

// The kind of an object, its arguments, and the calls on it. After these it is closed for the last time, and deleted.
type Life<K> = (K, &'static [u8], &'static [Turn]);

// Whether a call is answered so.
fn is_answered<T: TypeSet>(set: &mut T, inner: &mut T::Inner, turn: Turn) -> bool {
    match turn {
        Turn::Opens(reason) => open_or_leave(set, inner, reason).is_ok(),
        Turn::Refuses(reason, code) => open_or_leave(set, inner, reason) == Err(code),
        Turn::Closes(process_left, system_left) => {
            set.on_close(inner, process_left, system_left);
            true
        }
    }
}

fn are_answered<T: TypeSet>(set: &mut T, inner: &mut T::Inner, turns: &[Turn]) -> bool {
    for turn in turns {
        if !is_answered(set, inner, *turn) {
            return false;
        }
    }
    true
}

// Whether an object is made, and lives so.
fn lives<T: TypeSet>(alloc: Global, set: &mut T, life: &Life<T::Kind>) -> bool {
    let (kind, args, turns) = life;
    let Ok((_face, mut inner)) = T::make(alloc, *kind, *args) else {
        return false;
    };
    let is_so = are_answered(set, &mut inner, *turns);
    close_last(set, inner);
    is_so
}

// Two events, one of one handle and one of many, each opened twice, in a set that accepts so many opens; and how many are
// left then, and the opens, closes and deletes that were counted.
const REFUSED: [(u64, [Life<PlainKind>; 2], [u64; 4]); 4] = [
    (
        0,
        [
            (
                PlainKind::Event,
                b"1",
                &[
                    Turn::Refuses(Reason::Created, 6),
                    Turn::Refuses(Reason::Opened, 6),
                ],
            ),
            (
                PlainKind::Event,
                b"",
                &[
                    Turn::Refuses(Reason::Created, 6),
                    Turn::Refuses(Reason::Duplicated, 6),
                ],
            ),
        ],
        [0, 0, 2, 2],
    ),
    (
        1,
        [
            (
                PlainKind::Event,
                b"1",
                &[
                    Turn::Opens(Reason::Created),
                    Turn::Refuses(Reason::Opened, 6),
                ],
            ),
            (
                PlainKind::Event,
                b"",
                &[
                    Turn::Refuses(Reason::Created, 6),
                    Turn::Refuses(Reason::Duplicated, 6),
                ],
            ),
        ],
        [0, 1, 2, 2],
    ),
    (
        2,
        [
            (
                PlainKind::Event,
                b"1",
                &[
                    Turn::Opens(Reason::Created),
                    Turn::Refuses(Reason::Opened, 2),
                ],
            ),
            (
                PlainKind::Event,
                b"",
                &[
                    Turn::Opens(Reason::Created),
                    Turn::Refuses(Reason::Duplicated, 6),
                ],
            ),
        ],
        [0, 2, 2, 2],
    ),
    (
        9,
        [
            (
                PlainKind::Event,
                b"1",
                &[
                    Turn::Opens(Reason::Created),
                    Turn::Refuses(Reason::Opened, 2),
                ],
            ),
            (
                PlainKind::Event,
                b"",
                &[
                    Turn::Opens(Reason::Created),
                    Turn::Opens(Reason::Duplicated),
                ],
            ),
        ],
        [6, 3, 2, 2],
    ),
];

// Whether two events live so where so many opens are accepted.
fn refuses(alloc: Global, left: u64, events: [Life<PlainKind>; 2], counts: [u64; 4]) -> bool {
    let mut set = Refusing::new(Counting::new(Plain), left);
    let are_so = lives(alloc, &mut set, &events[0]) && lives(alloc, &mut set, &events[1]);
    let below = set.part();
    are_so && [set.left(), below.opens(), below.closes(), below.deletes()] == counts
}

#[test]
fn opens_are_refused_by_6_once_none_is_left(rt: HostRuntime) {
    for (left, events, counts) in REFUSED.iter() {
        assert!(rt; refuses(rt.alloc(), *left, *events, *counts), "{left}");
    }
}

// Three lives: an object that was never opened has no serial; one that was draws the next, and keeps it after an open
// that is refused.
const RECORDED: [Life<PlainKind>; 3] = [
    (PlainKind::Mutant, b"", &[Turn::Closes(3, 0)]),
    (
        PlainKind::Event,
        b"1",
        &[
            Turn::Opens(Reason::Created),
            Turn::Refuses(Reason::Opened, 2),
        ],
    ),
    (
        PlainKind::Section,
        b"",
        &[
            Turn::Closes(3, 7),
            Turn::Opens(Reason::Duplicated),
            Turn::Closes(3, 1),
            Turn::Opens(Reason::Inherited),
        ],
    ),
];

fn opened(serial: u64, reason: Reason) -> Call {
    Call {
        serial,
        what: CallKind::Opened(reason),
    }
}

fn closed(serial: u64, process_left: u32, system_left: u32) -> Call {
    Call {
        serial,
        what: CallKind::Closed {
            process_left,
            system_left,
        },
    }
}

fn deleted(serial: u64) -> Call {
    Call {
        serial,
        what: CallKind::Deleted,
    }
}

// The calls of these lives, each under the serial of its object.
fn calls() -> [Call; 12] {
    [
        closed(0, 3, 0),
        closed(0, 0, 0),
        deleted(0),
        opened(1, Reason::Created),
        closed(1, 0, 0),
        deleted(1),
        closed(0, 3, 7),
        opened(2, Reason::Duplicated),
        closed(2, 3, 1),
        opened(2, Reason::Inherited),
        closed(2, 0, 0),
        deleted(2),
    ]
}

fn are_lived<T: TypeSet>(alloc: Global, set: &mut T, lived: &[Life<T::Kind>]) -> bool {
    for life in lived {
        if !lives(alloc, set, life) {
            return false;
        }
    }
    true
}

// Whether the lives are so in a recorder with room for so many calls, which keeps the first and counts the others.
fn records(alloc: Global, room: usize) -> Result<bool, Fault> {
    let mut set = Recorder::new(alloc, Counting::new(Plain), room)?;
    let are_so = are_lived(alloc, &mut set, &RECORDED);
    let kept = room.min(12);
    let are_kept = Some(set.calls()) == calls().get(..kept);
    Ok(are_so && are_kept && set.lost() == 12 - kept as u64)
}

#[test]
fn lives_are_recorded_under_serials_that_first_opens_draw(rt: HostRuntime) {
    hand_over_all();
    for room in [0, 4, 12, 13].iter() {
        assert!(rt; records(rt.alloc(), *room) == Ok(true), "in {room}");
    }
    assert!(rt; records(rt.alloc(), usize::MAX) == Err(Fault::Memory));
}

/// A sum of two sets, both counted.
pub(crate) type Sum = Both<Counting<Plain>, Counting<HostSet>>;

// A life in each part of a sum, and the opens, closes and deletes that both parts have counted then.
const SUMMED: [(Life<<Sum as TypeSet>::Kind>, [u64; 6]); 2] = [
    (
        (
            Either::Left(PlainKind::Event),
            b"1",
            &[
                Turn::Opens(Reason::Created),
                Turn::Refuses(Reason::Opened, 2),
            ],
        ),
        [1, 1, 1, 0, 0, 0],
    ),
    (
        (
            Either::Right(Kind::Device),
            b"",
            &[
                Turn::Opens(Reason::Created),
                Turn::Opens(Reason::Opened),
                Turn::Closes(0, 0),
                Turn::Opens(Reason::Duplicated),
            ],
        ),
        [1, 1, 1, 3, 2, 1],
    ),
];

// The opens, closes and deletes that the parts of a sum counted.
fn counted<A, B>(set: &Both<Counting<A>, Counting<B>>) -> [u64; 6] {
    let (first, second) = (set.first(), set.second());
    [
        first.opens(),
        first.closes(),
        first.deletes(),
        second.opens(),
        second.closes(),
        second.deletes(),
    ]
}

#[test]
fn calls_go_to_the_part_of_an_object(rt: HostRuntime) {
    let mut set: Sum = Both::new(Counting::new(Plain), Counting::new(HostSet::new()));
    for (life, counts) in SUMMED.iter() {
        assert!(rt; lives(rt.alloc(), &mut set, life) && counted(&set) == *counts);
    }
}
