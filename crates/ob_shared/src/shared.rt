//! The lock, and the namespace and journal that its close returns.

ghost use Rattle.std.specs.Prelude.{◌≡◌, ◌≤◌, ◌<◌, ◌++◌, ◌⊎◌, Err, IfOk, IfErr, OnErr, length, map};
ghost use Rattle.std.specs.Arc.{arc_value};
ghost use Rattle.ob_entries.specs.Segments.{joined, most_sealed, open_after, AreSealed};
ghost use Rattle.ob_base.specs.declared.Fault.TheVariants.{Memory, Refused};
ghost use Rattle.ob_base.specs.declared.status.Status.TheVariants.{InvalidParameter};
ghost use Rattle.ob_model.specs.declared.reply.Event.TheVariants.{Start, Resume};
ghost use Rattle.ob_model.specs.Run.{Run};
ghost use Rattle.ob_types.specs.Pending.{run_of_end};
ghost use Rattle.ob_types.specs.Parse.{asked_of};
ghost use Rattle.ob_locked.specs.Opened.{fresh_passes, most_seats};
ghost use Rattle.ob_agreement.specs.Agreement.{Agrees};
ghost use Rattle.ob_shared.specs.Publisher.{IsPublishedOf, IsUnpublished, Keeps};
ghost use Rattle.ob_locked.specs.Locked.{History};
ghost use Rattle.ob_shared.specs.Told.{IsCutOff, IsGivenUp, IsMismatchOfRun, IsNotBrought, IsNotStarted, IsSealed, IsTold, IsUnsealed};

use crate::guarded::Guarded;
use ob_agreement::{Mismatch, agree};
use ob_base::{Fault, Proc};
use ob_core::{Core, HandleTable};
use ob_locked::{Locked, Parsed, Pass, Pending, Prepared, Segment, Started, open_locked};
use ob_mirror::Mirror;
use ob_model::Command;
use ob_published::Publishing;
use ob_types::TypeSet;
use std::alloc::Global;
use std::marker::Model;
use std::sync::ledger::{Blank, Ledger};
use std::sync::{Arc, Mutex, Wait};

/// A namespace that threads share. `T` is the set of types, `H` the handle table of each process, and `L` the ledger by which the
/// steps of all passes are counted; `P` publishes it, or nothing where it is `()`. Any number of threads may use it at once. Each call waits for the lock, and holds it for one step.
/// Contracts see how many seats it has. (this profile)
#[derive(Drop)]
pub struct Shared<T: TypeSet, H: HandleTable, L: Ledger, P: Publishing = ()> {
    lock: Mutex<Guarded<T, H, L, P>>,
    seats: u32,
    alloc: Global,
}

impl<T: TypeSet, H: HandleTable, L: Ledger, P: Publishing> Model for Shared<T, H, L, P> {
    ghost use Rattle.std.specs.Prelude.{ℕ, ◌≤◌};
    ghost use Rattle.ob_locked.specs.Opened.{most_seats};

    ghost Value = { ℕ };

    ghost view = { λ a. a.seats };

    ghost invariant = { λ a. a.seats ≤ most_seats };
}

/// A shared namespace after its close: the namespace, and the journal of all its steps, which is the sealed segments and the open one joined in
/// order. (this profile)
#[derive(Drop)]
pub struct Ended<T: TypeSet, H: HandleTable> {
    /// The namespace, as the steps of the journal have left it.
    pub core: Core<T, H>,
    /// The sealed segments, in their order: at most 4,095.
    pub sealed: Vec<Arc<Segment<T::Kind>>>,
    /// The open segment, which may have no entry.
    pub journal: Segment<T::Kind>,
}

/// Opens a namespace in the opening state for so many seats, 1 to 1,024, with a pass for each seat, at the place of its number.
///
/// It fails with `InvalidParameter` exactly if no seat or more than 1,024 are requested, and with `Memory` if out of memory. Either drops
/// the set. (this profile)
pub fn open_shared<T: TypeSet, H: HandleTable, L: Ledger>(
    alloc: Global,
    blank: Blank,
    types: T,
    seats: u32,
) -> Result<(Shared<T, H, L>, Vec<Pass<T::Kind, L>>), Fault>
    requires name { blank.name ≡ L.name }
    requires parts { blank.parts ≡ L.parts }
    requires whole { L.parts ≡ most_seats }
    ensures opened { IfOk result (λ opened. opened.0 ≡ seats) }
    ensures passes { IfOk result (λ opened. opened.1.items ≡ fresh_passes seats) }
    ensures seats { (seats ≡ 0) ⊎ (most_seats < seats) → result ≡ Err (Refused InvalidParameter) }
    ensures memory { (0 < seats) → seats ≤ most_seats → IfErr result (λ fault. fault ≡ Memory) }
{
    let (locked, passes) = open_locked(alloc, blank, types, seats)?;
    Ok((
        Shared::new(alloc, locked, seats, Mirror::new(alloc), ()),
        passes,
    ))
}

impl<T: TypeSet, H: HandleTable, L: Ledger, P: Publishing> Shared<T, H, L, P> {
    /// Shares a namespace of so many seats, at most 1,024, with a copy of its rows, and what publishes it. Takes no memory. (this profile)
    pub fn new(
        alloc: Global,
        locked: Locked<T, H, L>,
        seats: u32,
        mirror: Mirror,
        publisher: P,
    ) -> Shared<T, H, L, P>
        requires seats { seats ≤ most_seats }
        requires keeps { P.publishes
            → Keeps T.procedures P.opening P.leads mirror (P.recorded publisher) locked }
        ensures { result ≡ seats }
    {
        Shared {
            lock: Mutex::new(Guarded::new(locked, mirror, publisher)),
            seats,
            alloc,
        }
    }

    /// How many seats it has: 1 to 1,024. (this profile)
    pub fn seats(&self) -> u32
        ensures { result ≡ self.now }
    {
        self.seats
    }

    /// The allocator of the parses that are run here.
    pub(crate) fn alloc(&self) -> Global {
        self.alloc
    }

    /// Starts a command of a process, and returns the pass with the receipt of the step. The step is the last one of a run that has the pass's
    /// earlier last receipt at its number.
    ///
    /// At a fault the namespace and the pass are as they were. It is `InvalidParameter` if the pass is a stranger's: the journal doesn't
    /// have its last receipt at that number; then `JournalFull` if fewer than 34 places of the open segment are neither used nor reserved;
    /// then `Memory` if out of memory. (this profile)
    pub fn start<R: Wait>(
        &self,
        rt: &R,
        pass: Pass<T::Kind, L>,
        process: Proc,
        command: &Command<T::Kind>,
    ) -> (Pass<T::Kind, L>, Result<Started<T>, Fault>)
        ensures told { IfOk (result.1) (λ started.
            IsTold T.procedures pass (Start process command.now) started (result.0)) }
        ensures unmade { OnErr (result.1) (result.0 ≡ pass) }
        ensures fault { IfErr (result.1) (λ fault. IsNotStarted T.procedures pass fault) }
    {
        let mut pass = pass;
        // (before the lock is taken, which is so held for the step alone)
        let prepared = Prepared::new(self.alloc, command);
        let mut locked = self.lock.lock(rt);
        let started = locked.start(self.alloc, &mut pass, process, command, prepared);
        (pass, started)
    }

    /// Brings a parse to its pending open, and returns the pass with the receipt of the step. The place of its entry was reserved when the open
    /// began to wait, so the journal is never full.
    ///
    /// A fault returns the parse, and the namespace and the pass are as they were. It is `InvalidParameter` if the pass or the parse is a
    /// stranger's, and `Memory` if out of memory. (this profile)
    pub fn resume<R: Wait>(
        &self,
        rt: &R,
        pass: Pass<T::Kind, L>,
        parsed: Parsed<T>,
    ) -> (Pass<T::Kind, L>, Result<Started<T>, (Fault, Parsed<T>)>)
        ensures told { IfOk (result.1) (λ started.
            IsTold T.procedures pass (Resume parsed.ticket (run_of_end parsed.outcome)) started
            (result.0)) }
        ensures unmade { OnErr (result.1) (result.0 ≡ pass) }
        ensures fault { IfErr (result.1) (λ back.
            IsNotBrought T.procedures pass (asked_of parsed) (back.0)) }
        ensures back { IfErr (result.1) (λ back. back.1 ≡ parsed) }
    {
        let mut pass = pass;
        let mut locked = self.lock.lock(rt);
        let resumed = locked.resume(self.alloc, &mut pass, parsed);
        (pass, resumed)
    }

    /// Abandons a pending open, and returns the pass with the receipt of the step. A stranger's parse is dropped, and the pass returned as it
    /// was. It takes no memory, and doesn't test the pass. (this profile)
    pub fn abandon<R: Wait>(
        &self,
        rt: &R,
        pass: Pass<T::Kind, L>,
        pending: Pending<T>,
    ) -> Pass<T::Kind, L>
        ensures { IsGivenUp T.procedures pass pending result }
    {
        let mut pass = pass;
        let mut locked = self.lock.lock(rt);
        locked.abandon(self.alloc, &mut pass, pending);
        pass
    }

    /// Brings a parse to its pending open as [`Shared::resume`] does. If that fails, it abandons the open under the same lock, as
    /// [`Shared::abandon`] does. After `Memory` the abandon is a step, of which the pass has the receipt. After `InvalidParameter` it is a
    /// step if the open waited for this parse; if not, nothing has changed. (this profile)
    pub fn bring<R: Wait>(
        &self,
        rt: &R,
        pass: Pass<T::Kind, L>,
        parsed: Parsed<T>,
    ) -> (Pass<T::Kind, L>, Result<Started<T>, Fault>)
        ensures told { IfOk (result.1) (λ started.
            IsTold T.procedures pass (Resume parsed.ticket (run_of_end parsed.outcome)) started
            (result.0)) }
        ensures cut_off { IfErr (result.1) (λ fault.
            IsCutOff T.procedures pass parsed fault (result.0)) }
    {
        let mut pass = pass;
        let mut locked = self.lock.lock(rt);
        let brought = locked.bring(self.alloc, &mut pass, parsed);
        (pass, brought)
    }

    /// Seals the open segment of the journal and returns it; an empty one is open then, with the memory of all reserved places. The sealed
    /// segment remains in the journal and is shared, so that it can be written out while others make steps. A seal isn't a step: it adds no
    /// entry, and returns the pass as it is, untested.
    ///
    /// At a fault nothing has changed. It is `InvalidParameter` if the open segment is empty, then `InsufficientResources` if 4,095 segments
    /// are sealed, then `Memory` if out of memory. (this profile)
    pub fn seal<R: Wait>(
        &self,
        rt: &R,
        pass: Pass<T::Kind, L>,
    ) -> (Pass<T::Kind, L>, Result<Arc<Segment<T::Kind>>, Fault>)
        ensures pass { result.0 ≡ pass }
        ensures sealed { IfOk (result.1) (λ segment. IsSealed T.procedures (arc_value segment)) }
        ensures fault { IfErr (result.1) (λ fault. IsUnsealed T.procedures fault) }
    {
        let mut locked = self.lock.lock(rt);
        let sealed = locked.seal(self.alloc);
        (pass, sealed)
    }

    /// Publishes the namespace as it is: from now on viewers see its rows. The publications that it returns are those of the whole journal, in
    /// which the pass's last receipt is. A publish isn't a step: it adds no entry, and returns the pass as it is.
    ///
    /// At a fault viewers see what they saw, or what an earlier publish failed to show, and the next publish catches up. It is
    /// `InvalidParameter` if the pass is a stranger's, or if nothing is published here, as after [`open_shared`]; else `Memory`. (this
    /// profile)
    pub fn publish<R: Wait>(
        &self,
        rt: &R,
        pass: Pass<T::Kind, L>,
    ) -> (Pass<T::Kind, L>, Result<P::Published, Fault>)
        ensures pass { result.0 ≡ pass }
        ensures published { IfOk (result.1) (λ published. (h : History T.Kind T T.Face T.Inner)
            × IsPublishedOf T.procedures pass (P.known published) h) }
        ensures fault { IfErr (result.1) (λ fault.
            IsUnpublished T.procedures pass P.publishes fault) }
    {
        let mut locked = self.lock.lock(rt);
        let published = locked.publish(&pass);
        (pass, published)
    }

    /// Closes the namespace with the passes of all seats, and returns it with its journal, which is a run to the namespace's state. The journal
    /// has the receipts of each pass, each once and in their order, and no other entries. If that isn't so, it reports where passes and
    /// journal differ, and drops the namespace: a pass is missing, or isn't the only one of its seat, or its receipts aren't the entries
    /// of its seat. It takes no memory and no lock. (this profile)
    pub fn close(self, passes: Vec<Pass<T::Kind, L>>) -> Result<Ended<T, H>, Mismatch>
        ensures run { IfOk result (λ ended. (first : T)
            × Run T.procedures first (joined (map arc_value ended.sealed.items)
            ++ ended.journal.entries) ended.core) }
        ensures sealed { IfOk result (λ ended. AreSealed 1 1 (map arc_value ended.sealed.items)) }
        ensures few { IfOk result (λ ended. length ended.sealed.items ≤ most_sealed) }
        ensures open { IfOk result (λ ended. ended.journal
            ≡ open_after (map arc_value ended.sealed.items) ended.journal.entries) }
        ensures settled { IfOk result (λ ended.
            Agrees (joined (map arc_value ended.sealed.items)
            ++ ended.journal.entries) passes.items self) }
        ensures mismatch { IfErr result (λ mismatch.
            IsMismatchOfRun T.procedures passes.items self mismatch) }
    {
        let Shared {
            lock,
            seats,
            alloc: _,
        } = self;
        let locked = lock.into_inner().into_locked();
        locked.is_kept();
        match agree(&locked, seats, passes.as_slice()) {
            Ok(()) => {
                let (core, sealed, journal) = locked.into_parts();
                Ok(Ended {
                    core,
                    sealed,
                    journal,
                })
            }
            Err(mismatch) => Err(mismatch),
        }
    }
}
