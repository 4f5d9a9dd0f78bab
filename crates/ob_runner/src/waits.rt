//! The parses that are kept.

ghost use Rattle.std.specs.Prelude.{◌≡◌, ◌<◌, ◌==◌, not, true, [], ◌∷◌, ◌++◌, Some};
ghost use Rattle.std.specs.Prelude.{filter, map, All, AllPairs, IfErr, IfNone, IfSome, OnErr, OnOk};
ghost use Rattle.std.specs.List.{find, list_any};
ghost use Rattle.std.specs.Option.{option_copied};
ghost use Rattle.std.specs.Map.Iter.{ShowsInOrder, deref};
ghost use Rattle.ob_types.specs.Parse.{ToRun};
ghost use Rattle.ob_runner.specs.Begun.{tickets_of, without};

use ob_types::{Parsing, TypeSet};
use std::alloc::Global;
use std::collections::BTreeMap;
use std::collections::btree_map::Values;
use std::marker::Model;

/// The parses that opens wait for, each under the ticket of its open. A contract sees them as the list of these parses, by
/// rising tickets.
///
/// It can't be dropped, since none of its parses can: each open that waits is ended or given up, all at once by
/// [`give_all_up`](crate::give_all_up). Each call takes a time that grows with the logarithm of the parses.
///
/// Source: Windows Internals, Object Manager (parse methods); that a parse is run between two steps is this profile.
pub struct Waits<T: TypeSet> {
    parses: BTreeMap<u64, Parsing<T>>,
}

impl<T: TypeSet> Model for Waits<T> {
    ghost use Rattle.std.specs.Prelude.{List};
    ghost use Rattle.std.specs.Map.{values_of};
    ghost use Rattle.ob_types.specs.Parse.{ToRun};
    ghost use Rattle.ob_runner.specs.Kept.{AreKept};

    ghost Value = { List (ToRun T.Face) };

    ghost view = { λ a. values_of a.parses.entries };

    ghost invariant = { λ a. AreKept a.parses.entries };
}

impl<T: TypeSet> Waits<T> {
    /// No open waits. Takes no memory.
    pub fn new(alloc: Global) -> Waits<T>
        ensures { result ≡ [] }
    {
        Waits {
            parses: BTreeMap::new(alloc),
        }
    }

    /// The law that tickets rise, so that no two opens wait under the same one. The call does nothing; a caller makes it
    /// to have the fact. (this profile)
    pub fn tickets_rise(&self)
        ensures { AllPairs (λ a b. a < b) (tickets_of self.now) }
    {
        let _parses = &self.parses;
    }

    /// The parse that is kept under a ticket, and `None` exactly where none is. Takes no memory. (this profile)
    pub fn parse(&self, ticket: u64) -> Option<&Parsing<T>>
        ensures { option_copied result ≡ find (λ parse. parse.ticket == ticket) self.now }
    {
        self.parses.get(&ticket)
    }

    /// The parses, by rising tickets. (this profile)
    pub fn iter(&self) -> Values<'_, u64, Parsing<T>>
        ensures parses { result ≡ self.now }
        ensures runs { ShowsInOrder (deref {X = ToRun T.Face}) }
    {
        self.parses.values()
    }

    /// Keeps a parse, whose ticket must be above those of all that are kept. Where memory runs out the parse is handed
    /// back, and nothing has changed. (this profile)
    pub fn keep(&mut self, parsing: Parsing<T>) -> Result<(), Parsing<T>>
        requires newest { All (λ k. k < parsing.ticket) (tickets_of self.old) }
        ensures last { OnOk result (self.new ≡ self.old ++ parsing ∷ []) }
        ensures unchanged { OnErr result (self.new ≡ self.old) }
        ensures back { IfErr result (λ back. back ≡ parsing) }
    {
        match self.parses.insert(parsing.ticket(), parsing) {
            Ok(None) => Ok(()),
            // No parse was kept under a ticket above all.
            Ok(Some(other)) => Err(other),
            Err(want) => {
                let (_, parsing) = want.value;
                Err(parsing)
            }
        }
    }

    /// Takes out the parse of a ticket, under which one must be kept. Takes no memory.
    pub(crate) fn take(&mut self, ticket: u64) -> Parsing<T>
        requires there { list_any (λ k. k == ticket) (tickets_of self.old) ≡ true }
        ensures own { result.ticket ≡ ticket }
        ensures found { find (λ parse. parse.ticket == ticket) self.old ≡ Some result }
        ensures others { self.new ≡ filter (λ parse. not (parse.ticket == ticket)) self.old }
        ensures tickets { tickets_of self.new ≡ without ticket (tickets_of self.old) }
    {
        match self.parses.remove(&ticket) {
            Some(parsing) => parsing,
            None => unreachable!(),
        }
    }

    /// Takes out the parse of the least ticket, and `None` exactly where no open waits. Takes no memory.
    pub(crate) fn take_first(&mut self) -> Option<Parsing<T>>
        ensures first { IfSome result (λ parse. self.old ≡ parse ∷ self.new) }
        ensures least { IfSome result (λ parse. All (λ k. parse.ticket < k) (tickets_of self.new)) }
        ensures none { IfNone result (self.old ≡ []) }
        ensures still { IfNone result (self.new ≡ []) }
    {
        let (_, parsing) = self.parses.pop_first()?;
        Some(parsing)
    }

    /// Drops all parses that are kept, and what they hold: for who has no namespace any more whose opens they could
    /// end. Takes no memory. Source: this profile.
    pub fn let_go(self) {
        let mut left = self;
        while let Some(parsing) = left.take_first() {
            let _parts = parsing.give_up().into_parts();
        }
        left.destroy_empty();
    }

    /// Drops the collection, which keeps no parse.
    pub(crate) fn destroy_empty(self)
        requires { self ≡ [] }
    {
        let Waits { parses } = self;
        parses.destroy_empty();
    }
}
