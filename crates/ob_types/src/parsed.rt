//! A parse that was run.

ghost use Rattle.std.specs.Prelude.{◌≡◌, ◌↔◌, true, IsTrue};
ghost use Rattle.std.specs.Option.{is_some};
ghost use Rattle.std.specs.Arc.{arc_value};
ghost use Rattle.ob_types.specs.Parsing.{outcome_of};
ghost use Rattle.ob_types.specs.Pending.{run_of_end, IsTaken};
ghost use Rattle.ob_types.specs.Parse.{asked_of, EndsOrWants, IsFor, IsRun};

use crate::{Outcome, TypeSet, asked, same_faces_end_alike};
use ob_model::{Bytes, PendingOpen};
use std::alloc::Global;
use std::marker::Model;
use std::sync::Arc;

/// A parse that was run, with its end: the ticket of the pending open that waits for it, the face and the rest
/// that were parsed, and what the parse ended with, if it found memory.
///
/// Its outcome is the end of the parse of that very face over that very rest: that is part of the type.
/// It can't be dropped: what its parse made would be lost. (Windows Internals, Object Manager: parse methods;
/// that a parse is run between two steps is this profile)
pub struct Parsed<T: TypeSet> {
    ticket: u64,
    face: Arc<T::Face, Global>,
    rest: Bytes,
    outcome: Outcome<T::Face, T::Inner>,
}

impl<T: TypeSet> Model for Parsed<T> {
    ghost use Rattle.std.specs.Arc.{arc_value};
    ghost use Rattle.ob_types.specs.Parsing.{outcome_of};
    ghost use Rattle.ob_types.specs.Parse.{HasRun, IsRun};

    ghost Value = { HasRun T.Face T.Inner };

    ghost view = { λ a.
        record {
          ticket = a.ticket;
          face = arc_value a.face;
          rest = a.rest;
          outcome = outcome_of
              a.outcome;
        } };

    ghost invariant = { λ a.
        IsRun T.procedures T.idle (arc_value a.face) a.rest (outcome_of a.outcome) };
}

impl<T: TypeSet> Parsed<T> {
    /// A parse with its end, put together again of what `into_parts` gave.
    pub fn from_parts(
        ticket: u64,
        face: Arc<T::Face, Global>,
        rest: Bytes,
        outcome: Outcome<T::Face, T::Inner>,
    ) -> Parsed<T>
        requires run { IsRun T.procedures T.idle (arc_value face) rest (outcome_of outcome) }
        ensures { result
            ≡ record {
              ticket = ticket;
              face = arc_value face;
              rest = rest;
              outcome = outcome_of
                  outcome;
            } }
    {
        Parsed {
            ticket,
            face,
            rest,
            outcome,
        }
    }

    /// The ticket, the face, the rest and the outcome, for whoever ends the pending open.
    pub fn into_parts(self) -> (u64, Arc<T::Face, Global>, Bytes, Outcome<T::Face, T::Inner>)
        ensures ticket { result.0 ≡ self.ticket }
        ensures face { arc_value (result.1) ≡ self.face }
        ensures rest { result.2 ≡ self.rest }
        ensures outcome { outcome_of (result.3) ≡ self.outcome }

        // The invariant of every parse that was run.
        ensures run { IsRun T.procedures T.idle self.face self.rest self.outcome }
    {
        let Parsed {
            ticket,
            face,
            rest,
            outcome,
        } = self;
        (ticket, face, rest, outcome)
    }

    /// The ticket of the pending open.
    pub fn ticket(&self) -> u64
        ensures { result ≡ self.now.ticket }
    {
        self.ticket
    }

    /// Whether the parse found memory, and so ran to its end.
    pub fn ran(&self) -> bool
        ensures { result ≡ is_some self.now.outcome }
    {
        !matches!(self.outcome, Outcome::NoMemory)
    }

    /// The face that was parsed.
    pub fn face(&self) -> &T::Face
        ensures { result.now ≡ self.now.face }
    {
        &self.face
    }

    /// The rest that was parsed.
    pub fn rest(&self) -> &[u8]
        ensures { result.now ≡ self.now.rest }
    {
        self.rest.as_slice()
    }

    /// The outcome of the parse.
    pub fn outcome(&self) -> &Outcome<T::Face, T::Inner>
        ensures outcome { outcome_of result.now ≡ self.now.outcome }

        // The invariant of every parse that was run.
        ensures run { IsRun T.procedures T.idle self.now.face self.now.rest self.now.outcome }
    {
        &self.outcome
    }

    /// Whether this is the parse that a pending open waits for, where the object that it pins has this face: the
    /// ticket and the rest are those of the open, and the faces are found the same. Then what it ended with is the
    /// end of the parse of the pinned object over the pending rest, whoever ran it.
    pub fn is_for(&self, pending: &PendingOpen<T::Kind>, face: &T::Face) -> bool
        ensures exact { IsTrue result
            ↔ IsFor T.procedures (asked_of self.now) pending.now face.now }
        ensures ends { IsTrue result
            → EndsOrWants T.procedures face.now pending.now.rest self.now.outcome }

        // The machine takes it.
        ensures taken { IsTrue result
            → IsTaken T.procedures pending.now face.now
            (run_of_end self.now.outcome) self.now.outcome }
    {
        same_faces_end_alike::<T>();
        asked::is_asked::<T>(self.ticket, &self.face, self.rest.as_slice(), pending, face)
    }
}
