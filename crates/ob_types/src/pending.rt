//! The parse that is brought when a pending open is given up.

ghost use Rattle.std.specs.Prelude.{◌≡◌, ◌↔◌, IsTrue};
ghost use Rattle.ob_types.specs.Parse.{asked_of, EndsOrWants, IsFor};
ghost use Rattle.ob_types.specs.Pending.{run_of, brought, IsTaken};

use crate::{Parsed, Parsing, TypeSet};
use ob_model::{ParseRun, PendingOpen};

/// The parse of a pending open that is given up, run or not. It can't be dropped, as the two that it is made of.
/// (Windows Internals, Object Manager: parse methods; that a parse is run between two steps is this profile)
pub enum Pending<T: TypeSet> {
    /// It was not run.
    Unrun(Parsing<T>),
    /// It was run, or given up as one that found no memory.
    Run(Parsed<T>),
}

impl<T: TypeSet> Pending<T> {
    /// How the parse ended: it was not run, it ran to its end, or it found no memory.
    pub fn run(&self) -> ParseRun
        ensures { result ≡ run_of self.now }
    {
        match self {
            Pending::Unrun(_) => ParseRun::Unrun,
            Pending::Run(parsed) if parsed.ran() => ParseRun::Ran,
            Pending::Run(_) => ParseRun::NoMemory,
        }
    }

    /// The ticket of the pending open.
    pub fn ticket(&self) -> u64
        ensures { result ≡ (brought self.now).ticket }
    {
        match self {
            Pending::Unrun(parsing) => parsing.ticket(),
            Pending::Run(parsed) => parsed.ticket(),
        }
    }

    /// Whether this is the parse that a pending open waits for, where the object that it pins has this face, as
    /// `is_for` of `Parsed` says.
    pub fn is_for(&self, pending: &PendingOpen<T::Kind>, face: &T::Face) -> bool
        ensures exact { IsTrue result
            ↔ IsFor T.procedures (asked_of (brought self.now)) pending.now face.now }
        ensures ends { IsTrue result
            → EndsOrWants T.procedures face.now pending.now.rest (brought self.now).outcome }

        // The machine takes it.
        ensures taken { IsTrue result
            → IsTaken T.procedures pending.now face.now (run_of self.now)
            (brought self.now).outcome }
    {
        match self {
            Pending::Unrun(parsing) => parsing.is_for(pending, face),
            Pending::Run(parsed) => parsed.is_for(pending, face),
        }
    }

    /// The parse as one that was run: one that was not is given up.
    pub fn into_parsed(self) -> Parsed<T>
        ensures { result ≡ brought self }
    {
        match self {
            Pending::Unrun(parsing) => parsing.give_up(),
            Pending::Run(parsed) => parsed,
        }
    }
}
