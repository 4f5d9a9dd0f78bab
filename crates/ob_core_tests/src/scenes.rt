//! Scenes: what processes ask of a namespace, line by line, and what each is answered. Each is played in a new
//! namespace, beside another one; an empty line separates two.
//!
//! A step is a line: a process and what it asks for, a bar, and what it is answered. `1*9` says that process 1 asks for
//! the same nine times. After a second bar comes what the step shows. A line that begins with `there` is one of the
//! other namespace, and one with `#` says what the scene shows.
//!
//! - `make`, a kind, a name and attributes make an object, and `open` opens one: the kind is `directory`, the `first` or the `other` one of the set, or for an
//!   open `any`. A name is absolute, and `-` is none; attributes are hexadecimal: 2 inherit, 10 permanent, 20 exclusive. Arguments may follow them.
//! - `close`, `path`, `temporary` and `permanent` use the handle that was given to the line of this number, from 0, or the first one that a new process
//!   inherited. `duplicate` gives it to a process, whose children `inherit` it, or `not`.
//! - `list` lists the directory of such a handle after a context, in a room, `one` entry or `all`, from the `next` on or the `first`.
//! - `begin` makes a child, which may `inherit` or `not`, and `exit` ends the process.
//! - `parse run` runs the parse that an open waits for, `parse resume` brings it, and `parse drop` gives the open up. `parse swap` changes it for the parse of
//!   the other namespace.
//!
//! The answer is a status, and the number of a type's refusal; of a list also the last byte of each of the first three
//! names, `.` where there is none, and the context. An open `waits` under a ticket, for the parse of a rest; a parse is
//! a `stranger`'s, an open `given` up, or none of those that are `kept`.
//!
//! `has` says how many handles a process has, and `holds` whether it has one of exactly this value; `leads` what the
//! handle of a line leads to, and its id. `all waits` says how many reparses are left to the open of a ticket,
//! `all counts` objects and handles, `all left` also the set's opens, closes and deletes, `all calls` so many calls of
//! the set, from one on, and the serials of their objects, which go `up` or `down`, and `all recorded` how many there
//! was room for, and how many not. `all names` counts the names and those that were removed, `all removed` says which
//! object and stamp the one at a place had, and `all from` which object is the first from an id on, with the last byte,
//! the stamp and the directory of its name; `.` and 0 where there is none.

mod doors;
mod names;
mod pages;
mod permanence;
mod processes;
mod recorded;
mod refusals;
mod waiting;

/// Over which types scenes are played.
#[derive(Clone, Copy)]
pub(crate) enum Set {
    /// Events and mutants of the standard set.
    Plain,
    /// A set of doors and walls.
    Doors,
    /// Devices and files of the standard set.
    Devices,
}

/// Scenes over a set, which accepts so many opens, and of whose calls so many are recorded.
pub(crate) struct Scenes {
    pub(crate) set: Set,
    pub(crate) accepts: u32,
    pub(crate) room: u32,
    pub(crate) text: &'static str,
}

/// How many opens a set accepts, and how many calls are recorded, where no scene has as many.
const MANY: u32 = 10_000;

/// The scenes.
pub(crate) const SCENES: &[Scenes] = &[
    Scenes {
        set: Set::Plain,
        accepts: MANY,
        room: MANY,
        text: processes::SHARED,
    },
    Scenes {
        set: Set::Plain,
        accepts: MANY,
        room: MANY,
        text: processes::FULL,
    },
    Scenes {
        set: Set::Plain,
        accepts: MANY,
        room: MANY,
        text: permanence::PERMANENCE,
    },
    Scenes {
        set: Set::Plain,
        accepts: MANY,
        room: MANY,
        text: pages::PAGES,
    },
    Scenes {
        set: Set::Plain,
        accepts: MANY,
        room: MANY,
        text: names::NAMES,
    },
    Scenes {
        set: Set::Plain,
        accepts: 1,
        room: MANY,
        text: names::REFUSED,
    },
    Scenes {
        set: Set::Plain,
        accepts: 2,
        room: MANY,
        text: refusals::TWO,
    },
    Scenes {
        set: Set::Devices,
        accepts: 1,
        room: MANY,
        text: refusals::ONE,
    },
    Scenes {
        set: Set::Devices,
        accepts: MANY,
        room: MANY,
        text: waiting::WAITING,
    },
    Scenes {
        set: Set::Doors,
        accepts: MANY,
        room: MANY,
        text: doors::DOORS,
    },
    Scenes {
        set: Set::Plain,
        accepts: MANY,
        room: MANY,
        text: recorded::ALL,
    },
    Scenes {
        set: Set::Plain,
        accepts: MANY,
        room: 4,
        text: recorded::FOUR,
    },
    Scenes {
        set: Set::Plain,
        accepts: MANY,
        room: 1,
        text: recorded::ONE,
    },
    Scenes {
        set: Set::Plain,
        accepts: MANY,
        room: 0,
        text: recorded::NONE,
    },
];
