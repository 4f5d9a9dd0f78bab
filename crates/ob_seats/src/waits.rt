//! The opens of a seat that wait.

ghost use Rattle.std.specs.Prelude.{◌≡◌, ◌≢◌, ◌<◌, ◌==◌, ◌⊎◌, true, false, [], ◌∷◌, ◌++◌, All, AllPairs, IfErr, IfNone, IfSome, OnErr, OnOk};
ghost use Rattle.std.specs.List.{list_any};
ghost use Rattle.ob_seats.specs.Kept.{IsNext, without};
ghost use Rattle.ob_seats.specs.declared.stop.Stop.TheVariants.{Memory, Refused};

use crate::callers::Callers;
use crate::stop::Stop;
use std::alloc::Global;
use std::collections::BTreeMap;
use std::marker::Model;

/// The parses that a seat's opens wait for, each under the ticket of its open. Contracts see the tickets, which rise. It can't be dropped: the
/// parse of each open is taken out, and brought or given up. Each call takes a time that grows with the logarithm of the parses.
pub struct SeatWaits<C: Callers> {
    parses: BTreeMap<u64, C::Parsing>,
}

impl<C: Callers> Model for SeatWaits<C> {
    ghost use Rattle.std.specs.Prelude.{List, ℕ};
    ghost use Rattle.std.specs.Map.{keys_of};
    ghost use Rattle.ob_seats.specs.Kept.{AreKept};

    ghost Value = { List ℕ };

    ghost view = { λ a. keys_of a.parses.entries };

    ghost invariant = { λ a. AreKept C.ticket_of a.parses.entries };
}

impl<C: Callers> SeatWaits<C> {
    /// No open waits. Takes no memory.
    pub(crate) fn new(alloc: Global) -> SeatWaits<C>
        ensures { result ≡ [] }
    {
        SeatWaits {
            parses: BTreeMap::new(alloc),
        }
    }

    /// Keeps a parse under its ticket. Else the parse is handed back, and nothing has changed: where memory runs out; and where the ticket is 0 or
    /// not above those of all that are kept, which no shared namespace gives.
    pub(crate) fn keep(&mut self, parsing: C::Parsing) -> Result<(), (Stop, C::Parsing)>
        ensures last { OnOk result (self.new ≡ self.old ++ C.ticket_of parsing ∷ []) }
        ensures newest { OnOk result (All (λ k. k < C.ticket_of parsing) self.old) }
        ensures some { OnOk result (C.ticket_of parsing ≢ 0) }
        ensures unchanged { OnErr result (self.new ≡ self.old) }
        ensures back { IfErr result (λ back. back.1 ≡ parsing) }
        ensures why { IfErr result (λ back.
            ((back.0 ≡ Memory) × IsNext self.old (C.ticket_of parsing))
            ⊎ ((back.0 ≡ Refused) × (¬ IsNext self.old (C.ticket_of parsing)))) }
    {
        let ticket = C::ticket(&parsing);
        if ticket == 0 || !self.is_above_all(ticket) {
            return Err((Stop::Refused, parsing));
        }
        match self.parses.insert(ticket, parsing) {
            Ok(None) => Ok(()),
            // No parse was kept under a ticket above all.
            Ok(Some(other)) => Err((Stop::Refused, other)),
            Err(want) => {
                let (_, parsing) = want.value;
                Err((Stop::Memory, parsing))
            }
        }
    }

    /// Whether a ticket is above those of all that are kept.
    fn is_above_all(&self, ticket: u64) -> bool
        ensures above { result ≡ true → All (λ k. k < ticket) self.now }
        ensures below { result ≡ false → ¬ All (λ k. k < ticket) self.now }
    {
        match self.parses.last_key_value() {
            Some((last, _)) => *last < ticket,
            None => true,
        }
    }

    /// Takes out the parse of a ticket, under which one must be kept. Takes no memory.
    pub(crate) fn take(&mut self, ticket: u64) -> C::Parsing
        requires there { list_any (λ n. n == ticket) self.old ≡ true }
        ensures own { C.ticket_of result ≡ ticket }
        ensures others { self.new ≡ without ticket self.old }
    {
        match self.parses.remove(&ticket) {
            Some(parsing) => parsing,
            None => unreachable!(),
        }
    }

    /// Takes out the parse of the least ticket, and `None` exactly where no open waits. Takes no memory.
    pub(crate) fn take_first(&mut self) -> Option<C::Parsing>
        ensures first { IfSome result (λ parsing. self.old ≡ C.ticket_of parsing ∷ self.new) }
        ensures none { IfNone result (self.old ≡ []) }
        ensures still { IfNone result (self.new ≡ []) }
    {
        let (_, parsing) = self.parses.pop_first()?;
        Some(parsing)
    }

    /// Drops the collection, which keeps no parse.
    pub(crate) fn destroy_empty(self)
        requires { self ≡ [] }
    {
        let SeatWaits { parses } = self;
        parses.destroy_empty();
    }
}
