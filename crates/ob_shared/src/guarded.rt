//! The state under the lock, and its publisher.

ghost use Rattle.std.specs.Prelude.{◌≡◌, ◌⊎◌, IfOk, IfErr, OnOk, OnErr};
ghost use Rattle.ob_model.specs.declared.reply.Event.TheVariants.{Start, Resume};
ghost use Rattle.ob_types.specs.Pending.{run_of_end};
ghost use Rattle.ob_types.specs.Parse.{asked_of};
ghost use Rattle.ob_shared.specs.Publisher.{AreOf, IsPublishedOf, IsUnpublished, Keeps};
ghost use Rattle.ob_shared.specs.Told.{IsCutOff, IsGivenUp, IsNotBrought, IsNotStarted, IsSealed, IsTold, IsUnsealed};
ghost use Rattle.std.specs.Arc.{arc_value};

use crate::under::{abandon_under, bring_under, resume_under, seal_under, start_under};
use ob_base::{Fault, Proc, Status};
use ob_core::HandleTable;
use ob_locked::{Locked, Parsed, Pass, Pending, Prepared, Segment, Started, is_known};
use ob_mirror::Mirror;
use ob_model::Command;
use ob_published::{Publication, Publishing};
use ob_types::TypeSet;
use std::alloc::{AllocError, Global};
use std::marker::Model;
use std::sync::Arc;
use std::sync::ledger::Ledger;

/// The state under the lock, the copy of its rows that a publish makes catch up, and the publisher. A step costs the two nothing.
/// Contracts see the history, the publications that are recorded, and those that are shown.
#[derive(Drop)]
pub(crate) struct Guarded<T: TypeSet, H: HandleTable, L: Ledger, P: Publishing> {
    locked: Locked<T, H, L>,
    mirror: Mirror,
    publisher: P,
}

impl<T: TypeSet, H: HandleTable, L: Ledger, P: Publishing> Model for Guarded<T, H, L, P> {
    ghost use Rattle.ob_shared.specs.Publisher.{Guarding, Keeps};

    ghost Value = { Guarding T.Kind T T.Face T.Inner };

    ghost view = { λ a. record {
      history = a.locked;
      recorded = P.recorded a.publisher;
      shown = P.shown a.publisher;
    } };

    ghost invariant = { λ a. P.publishes
        → Keeps T.procedures P.opening P.leads a.mirror (P.recorded a.publisher) a.locked };
}

impl<T: TypeSet, H: HandleTable, L: Ledger, P: Publishing> Guarded<T, H, L, P> {
    /// A state, a copy of its rows, and its publisher.
    pub(crate) fn new(locked: Locked<T, H, L>, mirror: Mirror, publisher: P) -> Guarded<T, H, L, P>
        requires { P.publishes
            → Keeps T.procedures P.opening P.leads mirror (P.recorded publisher) locked }
        ensures history { result.history ≡ locked }
        ensures shown { result.shown ≡ P.shown publisher }
    {
        Guarded {
            locked,
            mirror,
            publisher,
        }
    }

    /// The state alone.
    pub(crate) fn into_locked(self) -> Locked<T, H, L>
        ensures { result ≡ self.history }
    {
        let Guarded {
            locked,
            mirror: _mirror,
            publisher: _publisher,
        } = self;
        locked
    }

    /// Starts a command with prepared memory.
    pub(crate) fn start(
        &mut self,
        alloc: Global,
        pass: &mut Pass<T::Kind, L>,
        process: Proc,
        command: &Command<T::Kind>,
        prepared: Result<Prepared<T::Kind>, AllocError>,
    ) -> Result<Started<T>, Fault>
        requires { IfOk prepared (λ prepared. prepared ≡ command.now) }
        ensures told { IfOk result (λ started.
            IsTold T.procedures pass.old (Start process command.now) started pass.new) }
        ensures unmade { OnErr result (pass.new ≡ pass.old) }
        ensures fault { IfErr result (λ fault. IsNotStarted T.procedures pass.old fault) }
    {
        start_under(alloc, &mut self.locked, pass, process, command, prepared)
    }

    /// Brings a parse.
    pub(crate) fn resume(
        &mut self,
        alloc: Global,
        pass: &mut Pass<T::Kind, L>,
        parsed: Parsed<T>,
    ) -> Result<Started<T>, (Fault, Parsed<T>)>
        ensures told { IfOk result (λ started.
            IsTold T.procedures pass.old (Resume parsed.ticket
            (run_of_end parsed.outcome)) started pass.new) }
        ensures unmade { OnErr result (pass.new ≡ pass.old) }
        ensures fault { IfErr result (λ back.
            IsNotBrought T.procedures pass.old (asked_of parsed) (back.0)) }
        ensures back { IfErr result (λ back. back.1 ≡ parsed) }
    {
        resume_under(alloc, &mut self.locked, pass, parsed)
    }

    /// Abandons an open.
    pub(crate) fn abandon(
        &mut self,
        alloc: Global,
        pass: &mut Pass<T::Kind, L>,
        pending: Pending<T>,
    )
        ensures { IsGivenUp T.procedures pass.old pending pass.new }
    {
        abandon_under(alloc, &mut self.locked, pass, pending);
    }

    /// Brings a parse, or abandons its open.
    pub(crate) fn bring(
        &mut self,
        alloc: Global,
        pass: &mut Pass<T::Kind, L>,
        parsed: Parsed<T>,
    ) -> Result<Started<T>, Fault>
        ensures told { IfOk result (λ started.
            IsTold T.procedures pass.old (Resume parsed.ticket
            (run_of_end parsed.outcome)) started pass.new) }
        ensures cut_off { IfErr result (λ fault.
            IsCutOff T.procedures pass.old parsed fault pass.new) }
    {
        bring_under(alloc, &mut self.locked, pass, parsed)
    }

    /// Seals the open segment.
    pub(crate) fn seal(&mut self, alloc: Global) -> Result<Arc<Segment<T::Kind>>, Fault>
        ensures sealed { IfOk result (λ segment. IsSealed T.procedures (arc_value segment)) }
        ensures fault { IfErr result (λ fault. IsUnsealed T.procedures fault) }
    {
        seal_under(alloc, &mut self.locked)
    }

    /// Publishes the state as it is, if the pass is no stranger's and there is a publisher.
    pub(crate) fn publish(&mut self, pass: &Pass<T::Kind, L>) -> Result<P::Published, Fault>
        ensures history { self.new.history ≡ self.old.history }
        ensures published { IfOk result (λ published.
            IsPublishedOf T.procedures pass.now (P.known published) self.old.history) }
        ensures shown { IfOk result (λ published. self.new.shown ≡ P.known published) }
        ensures fault { IfErr result (λ fault.
            IsUnpublished T.procedures pass.now P.publishes fault) }
        ensures unshown { OnErr result ((self.new.shown ≡ self.old.shown)
            ⊎ (self.new.shown ≡ self.old.recorded)) }
    {
        self.locked.is_kept();
        if !is_known::<T, L>(pass, self.locked.journal()) || !self.publisher.is_publishing() {
            return Err(Fault::Refused(Status::InvalidParameter));
        }
        match self.catch_up() {
            Ok(published) => Ok(published),
            Err(_) => Err(Fault::Memory),
        }
    }

    // Shows what an earlier publish failed to show, and then the state as it is.
    fn catch_up(&mut self) -> Result<P::Published, AllocError>
        requires { P.publishes }
        ensures history { self.new.history ≡ self.old.history }
        ensures published { IfOk result (λ published.
            AreOf T.procedures (P.known published) self.old.history) }
        ensures shown { IfOk result (λ published. self.new.shown ≡ P.known published) }
        ensures unshown { OnErr result ((self.new.shown ≡ self.old.shown)
            ⊎ (self.new.shown ≡ self.old.recorded)) }
    {
        self.publisher.show()?;
        self.record()?;
        self.publisher.show()
    }

    // Records the entries since the last publication, if there are any, with their changes of the rows.
    fn record(&mut self) -> Result<(), AllocError>
        requires { P.publishes }
        ensures history { self.new.history ≡ self.old.history }
        ensures recorded { OnOk result (AreOf T.procedures self.new.recorded self.old.history) }
        ensures unrecorded { OnErr result (self.new.recorded ≡ self.old.recorded) }
        ensures unshown { self.new.shown ≡ self.old.shown }
    {
        self.locked.is_kept();
        let entries = (self.locked.len() as u64).saturating_sub(self.publisher.number());
        if entries == 0 {
            return Ok(());
        }
        self.mirror.follow(self.locked.core())?;
        let changes = self.mirror.take_changes();
        if let Err(back) = self.publisher.record(Publication { entries, changes }) {
            self.mirror.give_back(back.changes);
            return Err(AllocError);
        }
        self.locked.clear_removed();
        Ok(())
    }
}
