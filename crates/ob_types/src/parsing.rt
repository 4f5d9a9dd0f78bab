//! A parse that is to be run.

ghost use Rattle.std.specs.Prelude.{◌≡◌, ◌↔◌, None, true, IsTrue};
ghost use Rattle.std.specs.Arc.{arc_value};
ghost use Rattle.ob_types.specs.Parse.{IsFor};

use crate::{Outcome, Parsed, TypeSet, asked, run_parse};
use ob_model::{Bytes, PendingOpen};
use std::alloc::Global;
use std::marker::Model;
use std::sync::Arc;

/// A parse that is to be run: the ticket of the pending open that waits for it, the face of the object that the
/// open pins, whose kind parses, and a copy of what follows that object in the name.
///
/// It can't be dropped: it is run, given up, or handed back as it is. (Windows Internals, Object Manager: parse
/// methods; that a parse is run between two steps is this profile)
pub struct Parsing<T: TypeSet> {
    ticket: u64,
    face: Arc<T::Face, Global>,
    rest: Bytes,
}

impl<T: TypeSet> Model for Parsing<T> {
    ghost use Rattle.std.specs.Prelude.{◌≡◌, true};
    ghost use Rattle.std.specs.Arc.{arc_value};
    ghost use Rattle.ob_types.specs.Parse.{ToRun};

    ghost Value = { ToRun T.Face };

    ghost view = { λ a. record { ticket = a.ticket; face = arc_value a.face; rest = a.rest } };

    ghost invariant = { λ a. (T.procedures).parses ((T.procedures).kind_of (arc_value a.face))
        ≡ true };
}

impl<T: TypeSet> Parsing<T> {
    /// The parse for the open of a ticket: of this face, whose kind parses, over this rest.
    pub fn new(ticket: u64, face: Arc<T::Face, Global>, rest: Bytes) -> Parsing<T>
        requires parses { (T.procedures).parses ((T.procedures).kind_of (arc_value face)) ≡ true }
        ensures { result ≡ record { ticket = ticket; face = arc_value face; rest = rest } }
    {
        Parsing { ticket, face, rest }
    }

    /// Runs the parse procedures, one after the other, until one of them ends the parse or memory runs out. It
    /// takes neither the namespace nor a lock. Every `Parsed` has what it ended with.
    pub fn run(self, alloc: Global) -> Parsed<T>
        ensures ticket { result.ticket ≡ self.ticket }
        ensures face { result.face ≡ self.face }
        ensures rest { result.rest ≡ self.rest }
    {
        let Parsing { ticket, face, rest } = self;
        let outcome = run_parse::<T>(alloc, &face, rest.as_slice());
        Parsed::from_parts(ticket, face, rest, outcome)
    }

    /// Gives the parse up: as one that found no memory, without a run.
    pub fn give_up(self) -> Parsed<T>
        ensures { result
            ≡ record { ticket = self.ticket; face = self.face; rest = self.rest; outcome = None } }
    {
        let Parsing { ticket, face, rest } = self;
        Parsed::from_parts(ticket, face, rest, Outcome::NoMemory)
    }

    /// The ticket of the pending open.
    pub fn ticket(&self) -> u64
        ensures { result ≡ self.now.ticket }
    {
        self.ticket
    }

    /// The face of the pinned object.
    pub fn face(&self) -> &T::Face
        ensures face { result.now ≡ self.now.face }

        // The invariant of every parse that is to be run.
        ensures parses { (T.procedures).parses ((T.procedures).kind_of self.now.face) ≡ true }
    {
        &self.face
    }

    /// The rest of the name after the pinned object.
    pub fn rest(&self) -> &[u8]
        ensures { result.now ≡ self.now.rest }
    {
        self.rest.as_slice()
    }

    /// Whether this is the parse that a pending open waits for, where the object that it pins has this face: the
    /// ticket and the rest are those of the open, and the faces are found the same.
    pub fn is_for(&self, pending: &PendingOpen<T::Kind>, face: &T::Face) -> bool
        ensures { IsTrue result ↔ IsFor T.procedures self.now pending.now face.now }
    {
        asked::is_asked::<T>(self.ticket, &self.face, self.rest.as_slice(), pending, face)
    }
}
