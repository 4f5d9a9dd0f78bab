//! The namespace's replies, and the events of its history.

use crate::{Bytes, Command, Entries, Handles};
use ob_base::{Handle, Proc, Status};

/// The value that a reply gives beside its status.
#[derive(Clone, PartialEq, Eq, Debug, Drop)]
pub enum Given {
    /// Nothing.
    Nothing,
    /// A new handle of the caller: a multiple of four from 4 to 262,140.
    Handle(Handle),
    /// A text of at most 32,767 bytes.
    Text(Bytes),
    /// A new process, with the values of the handles that it inherited, in the order in which they were
    /// opened: each is the value of a handle of its parent's too.
    Process(Proc, Handles),
    /// A page of a directory.
    Page {
        /// The entries that it shows, by rising stamps.
        entries: Entries,
        /// The context that the next page begins after: the stamp of the last entry shown, or the one that
        /// was used where none is.
        context: u64,
    },
}

/// The reply to a command: a status, and what is given with it. A refusal gives nothing; a page of a
/// directory is given with each of its four statuses.
#[derive(Clone, PartialEq, Eq, Debug, Drop)]
pub struct Reply {
    /// How the command ended.
    pub status: Status,
    /// The value that it gives.
    pub given: Given,
}

/// How the parse of a pending open ended. A parse is run by a caller, between two steps.
#[derive(Clone, Copy, PartialEq, Eq, Debug)]
pub enum ParseRun {
    /// It was not run.
    Unrun,
    /// It ran to its end.
    Ran,
    /// It found no memory.
    NoMemory,
}

/// One event of the namespace's history: one atomic step is made for it. `K` is the kind of an
/// object of the set of types.
#[derive(PartialEq, Eq, Debug, Drop)]
pub enum Event<K> {
    /// A process begins a command.
    Start {
        /// The process that asks.
        process: Proc,
        /// The command.
        command: Command<K>,
    },
    /// A caller brings the parse of a pending open, so that the open ends, or goes on to another parse.
    Resume {
        /// The ticket of the pending open.
        ticket: u64,
        /// How its parse ended: it ran, or found no memory.
        parse: ParseRun,
    },
    /// A caller gives a pending open up.
    Abandon {
        /// The ticket of the pending open.
        ticket: u64,
        /// How its parse ended.
        parse: ParseRun,
    },
}

/// How an event ends.
#[derive(Clone, PartialEq, Eq, Debug, Drop)]
pub enum Answer {
    /// The command is done, and this is its reply.
    Done(Reply),
    /// An open reached a parsing object, and is pending under this ticket until its parse is brought.
    Ticket(u64),
}
