//! Knowledge of the history of publications.

ghost use Rattle.std.specs.Prelude.{◌≡◌, ◌++◌, ◌∷◌, ◌⊎◌, [], length, nat_le, IsTrue, MatchBool};
ghost use mathlib.Core.List.{IsPrefix};
ghost use Rattle.ob_published.specs.Publications.{total_entries};
ghost use Rattle.ob_published.specs.Shown.{IsShown};

use crate::book::{Add, Book, Law, Naming, Nothing};
use crate::{Publication, Reach, Shown};
use logbook::{Offer, Seen};
use std::marker::{Model, PhantomData};

// No history gets longer than this.
const MOST: u64 = 1 << 62;

/// The first publications of a namespace, so many as are known: a prefix of the history, which a publish returns, a
/// viewer sees, and threads hand to one another. A contract sees it as the list of these publications. Of two that are
/// made one is a prefix of the other. (this profile)
#[derive(Drop)]
pub struct Published<J: Naming> {
    count: u64,
    entries: u64,
    seen: Seen<Publication, u64, Law>,
    of: PhantomData<J>,
}

impl<J: Naming> Model for Published<J> {
    ghost use Rattle.std.specs.Prelude.{List};
    ghost use Rattle.ob_published.specs.declared.publication.Publication.{Publication};
    ghost use Rattle.ob_published.specs.Known.{IsKnown};

    ghost Value = { List Publication };

    ghost view = { λ known. known.seen.log };

    ghost invariant = { λ known. IsKnown J.book J.leads known.count known.entries known.seen.book known.seen.log };
}

impl<J: Naming> Published<J> {
    // Knowledge of a book without a publication.
    pub(crate) fn start(seen: Seen<Publication, u64, Law>) -> Published<J>
        requires book { seen.book ≡ J.book }
        requires empty { seen.log ≡ [] }
        requires leads { J.leads [] }
        ensures { result ≡ [] }
    {
        Published {
            count: 0,
            entries: 0,
            seen,
            of: PhantomData,
        }
    }

    /// The publications that the copy knows which viewers read.
    pub fn of_shown(shown: &Shown) -> Published<J>
        requires shown { IsShown J.book J.opening J.leads shown.now }
        ensures { result ≡ shown.now.seen.log }
    {
        Published {
            count: shown.publications,
            entries: shown.entries,
            seen: shown.seen.again(),
            of: PhantomData,
        }
    }

    /// How many entries of the journal these publications stand for: the number of the last one.
    pub fn number(&self) -> u64
        ensures number { result ≡ total_entries self.now }

        // An invariant of all publications.
        ensures leads { J.leads self.now }
    {
        self.entries
    }

    /// How many publications these are.
    pub fn count(&self) -> u64
        ensures { result ≡ length self.now }
    {
        self.count
    }

    /// A copy.
    pub fn again(&self) -> Published<J>
        ensures { result ≡ self.now }
    {
        Published {
            count: self.count,
            entries: self.entries,
            seen: self.seen.again(),
            of: PhantomData,
        }
    }

    /// Whether the other has as many publications, or more: then these are a prefix of it.
    pub fn precedes(&self, other: &Published<J>) -> bool
        ensures count { result ≡ nat_le (length self.now) (length other.now) }
        ensures prefix { IsTrue result → IsPrefix self.now other.now }
    {
        let mut both = self.seen.again();
        both.learn(&other.seen);
        other.count >= self.count
    }

    /// The longer of two, of which the other is a prefix.
    pub fn longer(&self, other: &Published<J>) -> Published<J>
        ensures one { (result ≡ self.now) ⊎ (result ≡ other.now) }
        ensures this { IsPrefix self.now result }
        ensures that { IsPrefix other.now result }
    {
        let mut both = self.seen.again();
        both.learn(&other.seen);
        if self.count < other.count {
            other.again()
        } else {
            self.again()
        }
    }

    /// The last step of the copy, after the changes of these publications.
    pub(crate) fn reach(&self) -> Reach
        ensures publications { result.publications ≡ length self.now }
        ensures entries { result.entries ≡ total_entries self.now }
        ensures seen { (result.seen.book ≡ J.book) × (result.seen.log ≡ self.now) }

        // An invariant of all publications.
        ensures leads { J.leads self.now }
    {
        Reach {
            publications: self.count,
            entries: self.entries,
            seen: self.seen.again(),
        }
    }

    /// Adds a publication to the history, after all that are known, and says whether it did: it didn't where the history
    /// was longer than is known, or numbers ran out, and then nothing has changed.
    pub(crate) fn add(&mut self, book: &Book<J>, publication: &Publication) -> bool
        requires leads { J.leads (self.old ++ publication.now ∷ []) }
        ensures { MatchBool result (self.new ≡ self.old ++ publication.now ∷ []) (self.new ≡ self.old) }
    {
        let Some(entries) = self.entries.checked_add(publication.entries) else {
            return false;
        };
        let count = self.count;
        if count >= MOST {
            return false;
        }
        let mut seen = self.seen.again();
        let mut offer: Offer<Publication, u64, Law, Nothing> = seen.plain::<
            Nothing,
            Publication,
            Add,
        >(publication);
        let mut pen = seen.no_pen();
        let found = book
            .head
            .compare_exchange::<Add, Nothing>(count, count + 1, &mut seen, &mut offer, &mut pen);
        if found != count {
            return false;
        }
        *self = Published {
            count: count + 1,
            entries,
            seen,
            of: PhantomData,
        };
        true
    }
}
