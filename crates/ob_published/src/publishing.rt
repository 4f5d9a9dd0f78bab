//! Publishers of a namespace.

ghost use Rattle.std.specs.Prelude.{◌≡◌, ◌++◌, ◌∷◌, [], IfErr, IfOk, IsFalse, OnOk, OnErr, IsTrue};
ghost use Rattle.ob_published.specs.Publications.{total_entries};

use crate::book::Naming;
use crate::{Publication, Published, Showing};
use std::alloc::AllocError;
use std::sync::Wait;

/// A publisher of a namespace. Contracts see it as the publications that are recorded, and those of them that are
/// shown. [`Showing`] shows them to viewers; `()` publishes nothing. (this profile)
pub trait Publishing: Drop {
    ghost use Rattle.std.specs.Prelude.{List};
    ghost use Rattle.ob_model.specs.declared.state.Row.{Row};
    ghost use Rattle.ob_published.specs.declared.publication.Publication.{Publication};

    /// Knowledge of publications.
    type Published: Drop;

    /// It publishes at all.
    ghost publishes: { Type 0 };

    /// The rows before the first publication.
    ghost opening: { List Row };

    /// The publications that may be made.
    ghost leads: { List Publication → Type 0 };

    /// The publications that are recorded.
    ghost recorded: { Self → List Publication };

    /// Those that are shown.
    ghost shown: { Self → List Publication };

    /// The publications that are known.
    ghost known: { Self.Published → List Publication };

    /// Whether it publishes at all.
    fn is_publishing(&self) -> bool
        ensures yes { IsTrue result → publishes }
        ensures no { IsFalse result → publishes → ⊥ };

    /// How many entries of the journal the recorded publications stand for.
    fn number(&self) -> u64
        ensures { result ≡ total_entries (recorded self.now) };

    /// Records a publication after all others. Nothing is shown yet. Takes no memory. If it fails, it returns the publication, and
    /// nothing has changed.
    fn record(&mut self, publication: Publication) -> Result<(), Publication>
        requires { leads (recorded self.old ++ publication ∷ []) }
        ensures recorded { OnOk result (recorded self.new ≡ recorded self.old ++ publication ∷ []) }
        ensures unrecorded { OnErr result (recorded self.new ≡ recorded self.old) }
        ensures unshown { shown self.new ≡ shown self.old }
        ensures back { IfErr result (λ back. back ≡ publication) };

    /// Shows all publications that are recorded, and returns them. If it fails, others see what they saw, nothing is lost, and it may be
    /// tried again.
    fn show(&mut self) -> Result<Self::Published, AllocError>
        ensures returned { IfOk result (λ published. known published ≡ recorded self.old) }
        ensures recorded { recorded self.new ≡ recorded self.old }
        ensures shown { OnOk result (shown self.new ≡ recorded self.old) }
        ensures unshown { OnErr result (shown self.new ≡ shown self.old) };
}

impl<J: Naming, R: Wait + Drop> Publishing for Showing<J, R> {
    type Published = Published<J>;

    ghost publishes = { Unit {0} };

    ghost opening = { J.opening };

    ghost leads = { J.leads };

    ghost recorded = { λ showing. showing.published };

    ghost shown = { λ showing. showing.shown };

    ghost known = { λ published. published };

    fn is_publishing(&self) -> bool {
        true
    }

    fn number(&self) -> u64 {
        self.published().number()
    }

    fn record(&mut self, publication: Publication) -> Result<(), Publication> {
        Showing::record(self, publication)
    }

    fn show(&mut self) -> Result<Published<J>, AllocError> {
        Showing::show(self)
    }
}

impl Publishing for () {
    ghost use Rattle.std.specs.Prelude.{[]};

    type Published = ();

    ghost publishes = { ⊥ };

    ghost opening = { [] };

    ghost leads = { λ publications. Unit {0} };

    ghost recorded = { λ publisher. [] };

    ghost shown = { λ publisher. [] };

    ghost known = { λ published. [] };

    fn is_publishing(&self) -> bool {
        false
    }

    fn number(&self) -> u64 {
        0
    }

    /// Fails always.
    fn record(&mut self, publication: Publication) -> Result<(), Publication> {
        Err(publication)
    }

    /// Fails always.
    fn show(&mut self) -> Result<(), AllocError> {
        Err(AllocError)
    }
}
