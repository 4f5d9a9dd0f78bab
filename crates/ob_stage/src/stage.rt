//! A namespace on which the steps of lines are made, over any set of types whose calls are recorded.

use crate::commands::command_of;
use crate::lines::{number_of, word_of};
use ob_base::{Fault, Handle, ObjId, Proc, Status};
use ob_core::{Command, Core, Given, HandleTable, Pending, Referent, RemovedName, Reply, Started};
use ob_plain::{Call, Recorder, Refusing};
use ob_types::TypeSet;
use std::alloc::Global;
use std::mem;

/// A set of types whose calls are recorded.
pub trait Listing: TypeSet {
    /// The calls that there was room for, the first of them first, and how many are after them.
    fn calls(&self) -> (&[Call], u64);
}

/// A set that refuses opens records those that it accepts.
impl<T: TypeSet> Listing for Refusing<Recorder<T>> {
    fn calls(&self) -> (&[Call], u64) {
        let recorder = self.part();
        (recorder.calls(), recorder.lost())
    }
}

/// The outcome of a step.
#[derive(Drop)]
pub enum StageEnd {
    /// It was replied to.
    Done(Reply),
    /// Its open waits for the parse at hand.
    Waits,
    /// The parse was handed back, as a stranger's where this is true.
    Back(bool),
    /// The parse was given up; whether its open did wait.
    GivenUp(bool),
    /// It found no memory, or is no step.
    Unmade,
}

/// A namespace, and what steps came to.
#[derive(Drop)]
struct Space<T: Listing, H: HandleTable> {
    alloc: Global,
    core: Core<T, H>,
    /// The first and the other kind of lines.
    kinds: (T::Kind, T::Kind),
    /// The outcome of the last step.
    end: StageEnd,
    /// The handle that each line's step was given at last, or 0.
    given: Vec<Handle>,
}

/// A namespace, and the parse at hand.
pub struct Stage<T: Listing, H: HandleTable> {
    space: Space<T, H>,
    parse: Option<Pending<T>>,
}

/// Gives a parse up, where there is one; whether its open did wait.
fn give_up<T: Listing, H: HandleTable>(
    core: &mut Core<T, H>,
    parse: Option<Pending<T>>,
) -> Option<bool> {
    match parse {
        Some(parse) => Some(core.abandon(parse)),
        None => None,
    }
}

impl<T: Listing, H: HandleTable> Stage<T, H> {
    /// The opening state over a set, whose lines name these two kinds as the first and the other one. The only fault is out of memory, and then
    /// the set is dropped.
    pub fn new(alloc: Global, set: T, kinds: (T::Kind, T::Kind)) -> Result<Stage<T, H>, Fault> {
        let mut core = Core::new(alloc, set)?;
        core.list_removed();
        let space = Space {
            alloc,
            core,
            kinds,
            end: StageEnd::Unmade,
            given: Vec::new(alloc),
        };
        Ok(Stage { space, parse: None })
    }

    /// Gives the parse at hand up, and drops the namespace.
    pub fn close(self) {
        let Stage { mut space, parse } = self;
        give_up(&mut space.core, parse);
        // (by a call, since the drop of a namespace is long, and would be proved here anew)
        mem::drop(space);
    }

    /// Makes the step that a line asks of a process so often; none where it asks for none.
    pub fn make(&mut self, process: Proc, times: u32, line: &str) {
        let handle = self.given_to(word_of(line, 2));
        self.ends(StageEnd::Unmade);
        if let Some(command) = command_of(self.space.alloc, self.space.kinds, handle, line) {
            self.start(process, times, &command);
            mem::drop(command);
        }
    }

    /// Keeps how a step ended.
    fn ends(&mut self, end: StageEnd) {
        // (by a call, since the drop of what was is long, and would be proved anew wherever a step ends)
        mem::drop(mem::replace(&mut self.space.end, end));
    }

    /// Starts a command of a process so often.
    fn start(&mut self, process: Proc, times: u32, command: &Command<T::Kind>) {
        for _ in 0..times {
            match self.space.core.start(process, command) {
                Ok(started) => self.came(started),
                Err(_) => self.ends(StageEnd::Unmade),
            }
        }
    }

    /// Keeps what a step came to.
    fn came(&mut self, started: Started<T>) {
        match started {
            Started::Done(reply) => self.ends(StageEnd::Done(reply)),
            Started::Parsing(parsing) => {
                self.ends(StageEnd::Waits);
                self.hold(Pending::Unrun(parsing));
            }
        }
    }

    /// Has a parse at hand. Another is given up.
    fn hold(&mut self, parse: Pending<T>) {
        let other = self.parse.replace(parse);
        give_up(&mut self.space.core, other);
    }

    /// Runs the parse at hand, where it wasn't run.
    pub fn run(&mut self) {
        match self.parse.take() {
            Some(Pending::Unrun(parsing)) => self.hold(Pending::Run(parsing.run(self.space.alloc))),
            Some(parse) => self.hold(parse),
            None => {}
        }
    }

    /// Brings the parse at hand to its open. A stranger's stays at hand.
    pub fn resume(&mut self) {
        if let Some(parse) = self.parse.take() {
            match self.space.core.resume(parse.into_parsed()) {
                Ok(started) => self.came(started),
                Err((fault, parsed)) => {
                    self.ends(StageEnd::Back(fault == Fault::Refused(Status::InvalidParameter)));
                    self.hold(Pending::Run(parsed));
                }
            }
        }
    }

    /// Gives the parse at hand up, where there is one.
    pub fn give_up(&mut self) {
        if let Some(did_wait) = give_up(&mut self.space.core, self.parse.take()) {
            self.ends(StageEnd::GivenUp(did_wait));
        }
    }

    /// Changes the parse at hand for that of another namespace.
    pub fn swap(&mut self, other: &mut Stage<T, H>) {
        mem::swap(&mut self.parse, &mut other.parse);
    }

    /// Ends a line: the handle that its step was given is kept.
    pub fn note(&mut self) {
        let handle = match &self.space.end {
            StageEnd::Done(reply) => handle_in(&reply.given),
            _ => Handle(0),
        };
        let _ = self.space.given.push(handle);
    }

    /// The outcome of the last step.
    pub fn end(&self) -> &StageEnd {
        &self.space.end
    }

    /// The handle that was given to the line of a number, from 0; 0 where none was.
    fn given_to(&self, word: &str) -> Handle {
        let place = number_of(word) as usize;
        match self.space.given.get(place) {
            Some(handle) => *handle,
            None => Handle(0),
        }
    }

    /// Whether the parse at hand has this ticket and this rest.
    pub fn is_waited_for(&self, ticket: &str, rest: &str) -> bool {
        let (own, text) = match &self.parse {
            Some(Pending::Unrun(parsing)) => (parsing.ticket(), parsing.rest()),
            Some(Pending::Run(parsed)) => (parsed.ticket(), parsed.rest()),
            None => return false,
        };
        own == u64::from(number_of(ticket)) && text == rest.as_bytes()
    }

    /// How many reparses are left to the open that waits under a ticket; `u32::MAX` where none does.
    pub fn left(&self, ticket: &str) -> u32 {
        let ticket = u64::from(number_of(ticket));
        self.space.core.left(ticket).unwrap_or(u32::MAX)
    }

    /// How many objects and handles there are.
    pub fn counts(&self) -> (usize, usize) {
        (self.space.core.objects(), self.space.core.handles())
    }

    /// How many names there are, and the removed ones, as objects and stamps.
    pub fn names(&self) -> (usize, &[RemovedName]) {
        (self.space.core.names(), self.space.core.removed())
    }

    /// The first object from an id on, with its name: its last byte, its stamp and its directory, each 0 where there is none.
    pub fn first_from(&self, id: u32) -> (u64, u8, u64, u64) {
        let Some(first) = self.space.core.first_from(ObjId(u64::from(id))) else {
            return (0, 0, 0, 0);
        };
        match self.space.core.name_of(first) {
            Some(name) => {
                let last = name.name().last().copied().unwrap_or(0);
                (first.0, last, name.stamp(), name.directory.0)
            }
            None => (first.0, 0, 0, 0),
        }
    }

    /// The calls of the set that there was room for, and how many are after them.
    pub fn calls(&self) -> (&[Call], u64) {
        self.space.core.set().calls()
    }

    /// How many handles a process has.
    pub fn handles_of(&self, process: Proc) -> usize {
        self.space.core.handles_of(process)
    }

    /// Whether a process has a handle of exactly this value.
    pub fn holds(&self, process: Proc, value: &str) -> bool {
        self.space.core.holds(process, Handle(number_of(value)))
    }

    /// The object that the handle given to a line leads to: a word and an id.
    pub fn led_to(&self, process: Proc, line: &str) -> (&'static str, u64) {
        match self.space.core.referent(process, self.given_to(line)) {
            Some((id, Referent::Directory(_))) => ("directory", id.0),
            Some((id, Referent::Link(_))) => ("link", id.0),
            Some((id, Referent::Other { .. })) => ("object", id.0),
            None => ("nothing", u64::from(u32::MAX)),
        }
    }
}

/// The handle that a reply gives, of those that a process inherits the first; 0 where it gives none.
fn handle_in(given: &Given) -> Handle {
    match given {
        Given::Handle(handle) => *handle,
        Given::Process(_, values) => match values.as_slice() {
            [first, ..] => *first,
            [] => Handle(0),
        },
        _ => Handle(0),
    }
}
