//! The state under the lock of a shared namespace, and its one mutator.

ghost use Rattle.std.specs.Prelude.{◌≡◌, ◌↔◌, ◌≤◌, ◌+◌, ◌^◌, ◌++◌, [], false, IsTrue, IfOk, IfErr, OnErr, OnOk, length, map};
ghost use Rattle.std.specs.Arc.{arc_value};
ghost use Rattle.ob_entries.specs.Segments.{joined, most_entries, most_sealed, open_after, AreSealed};
ghost use Rattle.ob_segments.specs.Journal.{open_segment, whole};
ghost use Rattle.ob_base.specs.declared.Fault.TheVariants.{Memory};
ghost use Rattle.ob_model.specs.Opening.{opening};
ghost use Rattle.ob_model.specs.Run.{Run};
ghost use Rattle.ob_model.specs.declared.reply.Event.TheVariants.{Start, Resume, Abandon};
ghost use Rattle.ob_base.specs.declared.status.Status.TheVariants.{Success};
ghost use Rattle.ob_model.specs.Refusals.{answers};
ghost use Rattle.ob_types.specs.Pending.{run_of_end};
ghost use Rattle.ob_types.specs.Parse.{asked_of};
ghost use Rattle.ob_opens.specs.Waiting.{IsAwaited, IsNotTaken, IsParseOf};
ghost use Rattle.ob_locked.specs.Answers.{answer_in, brought_in, run_in, IfWaits};
ghost use Rattle.ob_locked.specs.Passed.{IsKnown};
ghost use Rattle.ob_locked.specs.Places.{places_for, places_of};
ghost use Rattle.ob_locked.specs.Steps.{sealed_then, IsFull, IsMade, IsNotAdmitted, IsNotResumed, IsNotSealed, MaySeal};

use crate::entering::{admit, enter, next_writer};
use crate::made::{Made, Twice, abandon_core, resume_core, start_core};
use crate::pass::is_known;
use crate::place::ReceiptPlace;
use crate::{Parsed, Parsing, Pass, Pending, Prepared, Started};
use ob_base::{Fault, Proc, Status};
use ob_core::{Core, HandleTable, Pending as CorePending, Started as CoreStarted};
use ob_entries::Segment;
use ob_model::Command;
use ob_segments::Journal;
use ob_types::TypeSet;
use std::alloc::{AllocError, Global};
use std::marker::Model;
use std::mem;
use std::snapshot::Snapshot;
use std::sync::Arc;
use std::sync::ledger::{Blank, Book, Ledger, Share};

/// The state under the lock of a shared namespace: a core, and the journal of its steps. `T` is the set of types, `H` the
/// handle table of each process, and `L` the ledger by which the steps of all passes are counted.
///
/// Contracts see the set's value at the opening, the journal with its segments, and the state. Of every value of this type they know
/// that the journal is a run from the opening state to that state; see [`Locked::is_kept`]. (this profile)
#[derive(Drop)]
pub struct Locked<T: TypeSet, H: HandleTable, L: Ledger> {
    core: Core<T, H>,
    journal: Journal<T::Kind>,
    reserved: usize,
    book: Book<L>,
    first: Snapshot<T>,
}

impl<T: TypeSet, H: HandleTable, L: Ledger> Model for Locked<T, H, L> {
    ghost use Rattle.ob_locked.specs.Locked.{History, IsKept};

    ghost Value = { History T.Kind T T.Face T.Inner };

    ghost view = { λ a.
        record { first = a.first.value; journal = a.journal.journal; state = a.core } };

    ghost invariant = { λ a.
        IsKept T.procedures
        (record { first = a.first.value; journal = a.journal.journal; state = a.core }) a.reserved
        a.journal.places a.book.total };
}

impl<T: TypeSet, H: HandleTable, L: Ledger> Locked<T, H, L> {
    /// The opening state with an empty journal, and the share that has all parts of the ledger. The only fault is `Memory`, which drops the
    /// set. (this profile)
    pub fn open(alloc: Global, blank: Blank, types: T) -> Result<(Locked<T, H, L>, Share<L>), Fault>
        requires name { blank.name ≡ L.name }
        requires parts { blank.parts ≡ L.parts }
        ensures first { IfOk result (λ opened. opened.0.first ≡ types) }
        ensures journal { IfOk result (λ opened. opened.0.journal
            ≡ record { sealed = []; unsealed = [] }) }
        ensures state { IfOk result (λ opened. opened.0.state ≡ opening types) }
        ensures parts { IfOk result (λ opened. opened.1.parts ≡ L.parts) }
        ensures amount { IfOk result (λ opened. opened.1.amount ≡ 0) }
        ensures memory { IfErr result (λ fault. fault ≡ Memory) }
    {
        let first = Snapshot::of(&types);
        let core = Core::new(alloc, types)?;
        let (book, all) = blank.open::<L>();
        let locked = Locked {
            core,
            journal: Journal::new(alloc),
            reserved: 0,
            book,
            first,
        };
        Ok((locked, all))
    }

    /// The law of every `Locked`: its journal is a run from the opening state to its state; its sealed segments are in
    /// order, and at most 4,095; and the places of the open segment that are used, with those that pending opens have reserved, are at
    /// most 1,048,576. The call does nothing. (this profile)
    pub fn is_kept(&self)
        ensures run { Run T.procedures self.now.first (whole self.now.journal) self.now.state }
        ensures sealed { AreSealed 1 1 self.now.journal.sealed }
        ensures few_sealed { length self.now.journal.sealed ≤ most_sealed }
        ensures few { length self.now.journal.unsealed + places_for self.now.state.pending
            ≤ most_entries }
    {
        self.journal.is_sealed_in_order();
        let _core = &self.core;
    }

    /// How many entries the journal has, those of all segments. (this profile)
    pub fn len(&self) -> usize
        ensures { result ≡ length (whole self.now.journal) }
    {
        self.journal.len()
    }

    /// The journal: the entries of all steps, in their order. (this profile)
    pub fn journal(&self) -> &Journal<T::Kind>
        ensures { result.now.journal ≡ self.now.journal }
    {
        &self.journal
    }

    /// The namespace, as the steps of the journal have left it. Takes no memory. (this profile)
    pub fn core(&self) -> &Core<T, H>
        ensures { result.now ≡ self.now.state }
    {
        &self.core
    }

    /// Lists from now on the names that are removed, as [`Core::list_removed`] does: no step, and no entry. (this profile)
    pub fn list_removed(&mut self)
        ensures { self.new ≡ self.old }
    {
        self.core.list_removed();
    }

    /// Clears the list of removed names, as [`Core::clear_removed`] does. Takes no memory. (this profile)
    pub fn clear_removed(&mut self)
        ensures { self.new ≡ self.old }
    {
        self.core.clear_removed();
    }

    /// The namespace, and the segments of its journal: the sealed ones, and the open one. (this profile)
    pub fn into_parts(self) -> (Core<T, H>, Vec<Arc<Segment<T::Kind>>>, Segment<T::Kind>)
        ensures core { result.0 ≡ self.state }
        ensures sealed { AreSealed 1 1 (map arc_value (result.1.items)) }
        ensures few { length (result.1.items) ≤ most_sealed }
        ensures open { result.2 ≡ open_after (map arc_value (result.1.items)) result.2.entries }
        ensures journal { joined (map arc_value (result.1.items)) ++ result.2.entries
            ≡ whole self.journal }
    {
        let Locked {
            core,
            journal,
            reserved: _,
            book: _,
            first: _,
        } = self;
        journal.is_sealed_in_order();
        let count = journal.len();
        let (sealed, entries) = journal.into_parts();
        let open = Segment {
            number: sealed.len() as u64 + 1,
            first: (count - entries.len()) as u64 + 1,
            entries,
        };
        (core, sealed, open)
    }

    /// How many places of the open segment pending opens have reserved: each one for each reparse that is left to it, and one
    /// for its end. Takes no memory. (this profile)
    pub fn reserved(&self) -> usize
        ensures { result ≡ places_for self.now.state.pending }
    {
        self.reserved
    }

    /// Starts a command of a process: makes one step of the machine, with its entry and the pass's receipt. `prepared` is the memory that was
    /// taken for it before the lock, or why there is none.
    ///
    /// At a fault nothing has changed. It is `InvalidParameter` if the pass is a stranger's: the journal doesn't have its last receipt at
    /// that number; then `JournalFull` if fewer than 34 places of the open segment are neither used nor reserved; then `Memory` if out of
    /// memory, then or when it was prepared. (this profile)
    pub fn start(
        &mut self,
        alloc: Global,
        pass: &mut Pass<T::Kind, L>,
        process: Proc,
        command: &Command<T::Kind>,
        prepared: Result<Prepared<T::Kind>, AllocError>,
    ) -> Result<Started<T>, Fault>
        requires { IfOk prepared (λ prepared. prepared ≡ command.now) }
        ensures made { IfOk result (λ started.
            IsMade T.procedures self.old pass.old (Start process command.now)
            (answer_in started) self.new pass.new) }
        ensures admitted { OnOk result (IsKnown (whole self.old.journal) pass.old.receipts
            × (IsFull (length self.old.journal.unsealed)
            (places_for self.old.state.pending) → ⊥)) }
        ensures waits { IfOk result (λ started. IfWaits started (IsParseOf self.new.state)) }
        ensures unmade { OnErr result ((self.new ≡ self.old) × (pass.new ≡ pass.old)) }
        ensures fault { IfErr result (λ fault.
            IsNotAdmitted self.old.journal
            (places_for self.old.state.pending) pass.old.receipts fault) }
    {
        self.journal.is_sealed_in_order();
        let writer = match admit::<T, L>(&mut self.journal, self.reserved, pass) {
            Ok(writer) => writer,
            Err(fault) => {
                mem::drop(prepared);
                return Err(fault);
            }
        };
        let Prepared {
            command: copy,
            again,
            place,
            later,
        } = prepared?;
        let copies = (copy, again);
        let made = match start_core(&mut self.core, alloc, writer, process, command, copies) {
            Ok(made) => made,
            Err(fault) => {
                mem::drop(place);
                mem::drop(later);
                return Err(fault);
            }
        };
        let Made {
            started,
            entry,
            receipt,
        } = made;
        enter(
            &mut self.journal,
            &mut self.book,
            pass,
            place,
            entry,
            receipt,
        );
        match started {
            CoreStarted::Done(reply) => {
                mem::drop(later);
                Ok(Started::Done(reply))
            }
            CoreStarted::Parsing(parsing) => {
                self.reserved += places_at(&self.core, parsing.ticket());
                Ok(Started::Parsing(Parsing::new(parsing, later)))
            }
        }
    }

    /// Brings a parse to its pending open: makes one step of the machine, with its entry and the pass's receipt, for which places were
    /// reserved when the open began to wait.
    ///
    /// A fault returns the parse, and nothing has changed. It is `InvalidParameter` if the pass or the parse is a stranger's, and
    /// `Memory` if out of memory. (this profile)
    pub(crate) fn resume(
        &mut self,
        alloc: Global,
        pass: &mut Pass<T::Kind, L>,
        parsed: Parsed<T>,
    ) -> Result<Started<T>, (Fault, Parsed<T>)>
        ensures made { IfOk result (λ started.
            IsMade T.procedures self.old pass.old (Resume parsed.ticket (run_of_end parsed.outcome))
            (answer_in started) self.new pass.new) }
        ensures known { OnOk result (IsKnown (whole self.old.journal) pass.old.receipts) }
        ensures awaited { IfOk result (λ _.
            IsAwaited T.procedures self.old.state (asked_of parsed)) }
        ensures waits { IfOk result (λ started. IfWaits started (IsParseOf self.new.state)) }
        ensures unmade { OnErr result ((self.new ≡ self.old) × (pass.new ≡ pass.old)) }
        ensures fault { IfErr result (λ back.
            IsNotResumed T.procedures self.old pass.old (asked_of parsed) (back.0)) }
        ensures back { IfErr result (λ back. back.1 ≡ parsed) }
    {
        self.journal.is_sealed_in_order();
        if !is_known::<T, L>(pass, &self.journal) {
            return Err((Fault::Refused(Status::InvalidParameter), parsed));
        }
        let Ok(later) = ReceiptPlace::new(alloc) else {
            return Err(self.without_place(parsed));
        };
        let (parsed, place) = parsed.into_parts();
        let left = self.reserved - places_at(&self.core, parsed.ticket());
        let writer = next_writer(&self.journal, pass.seat());
        let made = match resume_core(&mut self.core, writer, parsed) {
            Ok(made) => made,
            Err((fault, back)) => {
                mem::drop(later);
                return Err((fault, Parsed::new(back, place)));
            }
        };
        let Made {
            started,
            entry,
            receipt,
        } = made;
        enter(
            &mut self.journal,
            &mut self.book,
            pass,
            place,
            entry,
            receipt,
        );
        self.reserved = left;
        match started {
            CoreStarted::Done(reply) => {
                mem::drop(later);
                Ok(Started::Done(reply))
            }
            CoreStarted::Parsing(parsing) => {
                self.reserved += places_at(&self.core, parsing.ticket());
                Ok(Started::Parsing(Parsing::new(parsing, later)))
            }
        }
    }

    /// Abandons a pending open: makes one step of the machine, with its entry and the pass's receipt. It takes no memory, and doesn't
    /// test the pass. It returns `false` exactly for a stranger's parse, which it drops, and then nothing has changed. (this profile)
    pub(crate) fn abandon(&mut self, pass: &mut Pass<T::Kind, L>, pending: Pending<T>) -> bool
        ensures exact { IsTrue result
            ↔ IsAwaited T.procedures self.old.state (asked_of (brought_in pending)) }
        ensures made { IsTrue result
            → IsMade T.procedures self.old pass.old (Abandon (brought_in pending).ticket
            (run_in pending)) (answers Success) self.new pass.new }
        ensures stranger { result ≡ false → (self.new ≡ self.old) × (pass.new ≡ pass.old) }
    {
        self.journal.is_sealed_in_order();
        let (brought, place) = pending.into_parts();
        let left = self.reserved - places_at(&self.core, brought.ticket());
        let writer = next_writer(&self.journal, pass.seat());
        let twice = match abandon_core(&mut self.core, writer, brought) {
            Some(twice) => twice,
            None => {
                mem::drop(place);
                return false;
            }
        };
        let Twice { entry, receipt } = twice;
        enter(
            &mut self.journal,
            &mut self.book,
            pass,
            place,
            entry,
            receipt,
        );
        self.reserved = left;
        true
    }

    /// The fault of a resume for whose receipt there is no memory: a stranger's parse is refused as such, and any other is out of memory.
    fn without_place(&self, parsed: Parsed<T>) -> (Fault, Parsed<T>)
        ensures fault { IsNotTaken T.procedures self.now.state (asked_of parsed) (result.0) }
        ensures back { result.1 ≡ parsed }
    {
        let (parsed, place) = parsed.into_parts();
        let brought = CorePending::Run(parsed);
        let fault = if self.core.awaits(&brought) {
            Fault::Memory
        } else {
            Fault::Refused(Status::InvalidParameter)
        };
        (fault, Parsed::new(brought.into_parsed(), place))
    }

    /// Seals the open segment, and opens an empty one that has the memory of all reserved places. The sealed segment is shared: it
    /// stays in the journal. No entry is added.
    ///
    /// At a fault nothing has changed. It is `InvalidParameter` if the open segment is empty, then `InsufficientResources` if 4,095
    /// segments are sealed, then `Memory` if out of memory. (this profile)
    pub(crate) fn seal(&mut self, alloc: Global) -> Result<Arc<Segment<T::Kind>>, Fault>
        ensures sealed { OnOk result (self.new ≡ sealed_then self.old) }
        ensures admitted { OnOk result (MaySeal self.old.journal) }
        ensures segment { IfOk result (λ segment. arc_value segment
            ≡ open_segment self.old.journal) }
        ensures unsealed { OnErr result (self.new ≡ self.old) }
        ensures fault { IfErr result (λ fault. IsNotSealed self.old.journal fault) }
    {
        self.journal.is_sealed_in_order();
        self.journal.seal(alloc, self.reserved)
    }
}

/// How many places the pending open of a ticket has reserved: none if there is no such open.
fn places_at<T: TypeSet, H: HandleTable>(core: &Core<T, H>, ticket: u64) -> usize
    ensures value { result ≡ places_of core.now ticket }
    ensures small { result ≤ 2 ^ 32 }
{
    match core.left(ticket) {
        Some(left) => left as usize + 1,
        None => 0,
    }
}
