//! How a start ends, and the parses that opens wait for, each with the place of the receipt of the step that ends it.

ghost use Rattle.std.specs.Prelude.{◌≡◌, None};
ghost use Rattle.std.specs.Option.{is_some};
ghost use Rattle.ob_types.specs.Pending.{brought, run_of};
ghost use Rattle.ob_locked.specs.Answers.{brought_in, run_in};

use crate::place::ReceiptPlace;
use ob_core::{Parsed as CoreParsed, Parsing as CoreParsing, Pending as CorePending};
use ob_model::Reply;
use ob_types::TypeSet;
use std::alloc::Global;
use std::marker::Model;

/// A parse that is to be run, with the place of the receipt of the step that ends its open. It can't be dropped: it is run,
/// given up, or handed to an abandon. Contracts see the parse: its ticket, its face and its rest.
///
/// Source: Windows Internals, Object Manager (parse methods); that a parse is run between two steps is this profile.
pub struct Parsing<T: TypeSet> {
    parsing: CoreParsing<T>,
    place: ReceiptPlace<T::Kind>,
}

impl<T: TypeSet> Model for Parsing<T> {
    ghost use Rattle.ob_types.specs.Parse.{ToRun};

    ghost Value = { ToRun T.Face };

    ghost view = { λ a. a.parsing };
}

/// A parse that was run, or given up as one that found no memory, with the place of the receipt of the step that ends its
/// open. It can't be dropped: it is handed to a resume or an abandon. Contracts see the parse with its end.
///
/// Source: Windows Internals, Object Manager (parse methods); that a parse is run between two steps is this profile.
pub struct Parsed<T: TypeSet> {
    parsed: CoreParsed<T>,
    place: ReceiptPlace<T::Kind>,
}

impl<T: TypeSet> Model for Parsed<T> {
    ghost use Rattle.ob_types.specs.Parse.{HasRun};

    ghost Value = { HasRun T.Face T.Inner };

    ghost view = { λ a. a.parsed };
}

/// How a start or a resume ends: with a reply, or with an open that waits for its parse.
pub enum Started<T: TypeSet> {
    /// The command is done, and this is its reply.
    Done(Reply),
    /// An open reached an object whose kind parses, and waits for this parse.
    Parsing(Parsing<T>),
}

/// The parse, run or not, that is brought when an open that waits is given up. It can't be dropped.
pub enum Pending<T: TypeSet> {
    /// It was not run.
    Unrun(Parsing<T>),
    /// It was run, or given up as one that found no memory.
    Run(Parsed<T>),
}

impl<T: TypeSet> Parsing<T> {
    /// A parse with its place.
    pub(crate) fn new(parsing: CoreParsing<T>, place: ReceiptPlace<T::Kind>) -> Parsing<T>
        ensures { result ≡ parsing }
    {
        Parsing { parsing, place }
    }

    /// Runs the parse. It takes neither the namespace nor a lock. Every `Parsed` says how it ended.
    pub fn run(self, alloc: Global) -> Parsed<T>
        ensures ticket { result.ticket ≡ self.ticket }
        ensures face { result.face ≡ self.face }
        ensures rest { result.rest ≡ self.rest }
    {
        let Parsing { parsing, place } = self;
        let parsed = parsing.run(alloc);
        Parsed { parsed, place }
    }

    /// Gives the parse up: as one that found no memory, without a run. Takes no memory.
    pub fn give_up(self) -> Parsed<T>
        ensures { result
            ≡ record { ticket = self.ticket; face = self.face; rest = self.rest; outcome = None } }
    {
        let Parsing { parsing, place } = self;
        Parsed {
            parsed: parsing.give_up(),
            place,
        }
    }

    /// The ticket of the open that waits: from 1 to 2^64 - 2. Takes no memory.
    pub fn ticket(&self) -> u64
        ensures { result ≡ self.now.ticket }
    {
        self.parsing.ticket()
    }
}

impl<T: TypeSet> Parsed<T> {
    /// A parse that was run, with its place.
    pub(crate) fn new(parsed: CoreParsed<T>, place: ReceiptPlace<T::Kind>) -> Parsed<T>
        ensures { result ≡ parsed }
    {
        Parsed { parsed, place }
    }

    /// The parse and its place.
    pub(crate) fn into_parts(self) -> (CoreParsed<T>, ReceiptPlace<T::Kind>)
        ensures { result.0 ≡ self }
    {
        let Parsed { parsed, place } = self;
        (parsed, place)
    }

    /// The ticket of the open that waits: from 1 to 2^64 - 2. Takes no memory.
    pub fn ticket(&self) -> u64
        ensures { result ≡ self.now.ticket }
    {
        self.parsed.ticket()
    }

    /// Whether the parse found memory, and so ran to its end. Takes no memory.
    pub fn ran(&self) -> bool
        ensures { result ≡ is_some self.now.outcome }
    {
        self.parsed.ran()
    }
}

impl<T: TypeSet> Pending<T> {
    /// The parse, as the core takes it, and its place.
    pub(crate) fn into_parts(self) -> (CorePending<T>, ReceiptPlace<T::Kind>)
        ensures brought { brought (result.0) ≡ brought_in self }
        ensures run { run_of (result.0) ≡ run_in self }
    {
        match self {
            Pending::Unrun(Parsing { parsing, place }) => (CorePending::Unrun(parsing), place),
            Pending::Run(Parsed { parsed, place }) => (CorePending::Run(parsed), place),
        }
    }

    /// The ticket of the open that waits: from 1 to 2^64 - 2. Takes no memory.
    pub fn ticket(&self) -> u64
        ensures { result ≡ (brought_in self.now).ticket }
    {
        match self {
            Pending::Unrun(parsing) => parsing.ticket(),
            Pending::Run(parsed) => parsed.ticket(),
        }
    }
}
