//! The history of publications. It exists in the proofs alone; what is there at run time is its length.

ghost use Rattle.std.specs.Prelude.{◌≡◌, []};
ghost use Rattle.ob_published.specs.Rules.{head_of};

use crate::{Publication, Published};
use logbook::{Gain, Plain, Play, Rule, Seen, Start, Word};
use std::marker::{Brand, PhantomData};

/// The rule of the book: its first word is the length of the history.
pub struct Law;

impl Rule<Publication, u64> for Law {
    ghost use Rattle.std.specs.Prelude.{[]};
    ghost use base.Fml.{ftrue};
    ghost use Rattle.ob_published.specs.Rules.{IsKept};

    ghost holds = { λ cells log. IsKept cells log };

    ghost first = { [] };

    ghost hinted = { λ n log. Unit {0} };

    ghost shows = { λ log. [] };

    ghost keeps = { λ names log. ftrue };

    ghost moves = { λ ask before after answer. Unit {0} };
}

/// A step of the book trades nothing.
pub struct Nothing;

impl Gain<Publication, u64> for Nothing {
    ghost use base.Fml.{ftrue};

    ghost after = { λ names about answer. ftrue };
}

/// A step that adds a publication.
pub struct Add;

impl Play<Publication, u64> for Add {
    ghost use Rattle.ob_published.specs.Rules.{Adds};

    ghost then = { Adds };
}

impl Plain<Publication, Publication, u64> for Add {
    ghost use Rattle.std.specs.Prelude.{None};

    ghost ask = { λ publication. publication };

    ghost state = { λ publication. None };
}

/// Which namespace publishes: the book of its publications, the rows before the first of them, and what
/// holds of all publications that are made. It exists in the proofs alone: a caller of the program picks it.
pub trait Naming {
    ghost use Rattle.std.specs.Prelude.{List};
    ghost use Rattle.logbook.specs.Pages.{Book};
    ghost use Rattle.ob_model.specs.declared.state.Row.{Row};
    ghost use Rattle.ob_published.specs.declared.publication.Publication.{Publication};

    ghost book: { Book };

    ghost opening: { List Row };

    ghost leads: { List Publication → Type 0 };
}

impl Naming for Brand {
    ghost use Rattle.std.specs.Prelude.{[]};

    ghost book = { record { number = 0; log_name = 0; cells_name = 0 } };

    ghost opening = { [] };

    ghost leads = { λ publications. Unit {0} };
}

/// A book that has no publication and no name yet.
#[derive(Drop)]
pub struct Opened {
    head: Word<Publication, u64, Law>,
    seen: Seen<Publication, u64, Law>,
    pub ghost empty: { seen.log ≡ [] },
    pub ghost head_is: { head ≡ head_of seen.book },
}

impl Opened {
    /// A new book.
    pub fn new() -> Opened {
        let (seen, mut first, _second) = Seen::open(Start::alone(), 0, 0);
        Opened {
            head: Word::tracked(0, &mut first),
            seen,
        }
    }

    /// The book's word under a name, and what is known of it: that it began with no publication.
    pub fn named<J: Naming>(self) -> (Book<J>, Published<J>)
        requires book { self.seen.book ≡ J.book }
        requires leads { J.leads [] }
        ensures { result.1 ≡ [] }
    {
        let Opened { head, seen } = self;
        (
            Book {
                head,
                of: PhantomData,
            },
            Published::start(seen),
        )
    }
}

/// The length of the history, which the writer makes longer.
#[derive(Drop)]
pub struct Book<J: Naming> {
    pub(crate) head: Word<Publication, u64, Law>,
    of: PhantomData<J>,
    ghost head_is: { head ≡ head_of J.book },
}
