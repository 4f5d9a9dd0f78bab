//! The namespace: commands in, replies out.

ghost use Rattle.std.specs.Prelude.{◌≡◌, ◌==◌, ◌↔◌, length, not, true, false, IsTrue, IsOk, IfOk, IfErr, IfSome, IfNone, OnErr};
ghost use Rattle.ob_base.specs.declared.Fault.TheVariants.{Memory};
ghost use Rattle.ob_base.specs.declared.status.Status.TheVariants.{Success};
ghost use Rattle.ob_model.specs.declared.reply.Event.TheVariants.{Start, Resume, Abandon};
ghost use Rattle.std.specs.List.{find};
ghost use Rattle.std.specs.Option.{is_some, option_and_then, option_map};
ghost use Rattle.ob_base.specs.Handle.{key_of};
ghost use Rattle.ob_model.specs.State.{body_of, handle_count, held_of, table_size};
ghost use Rattle.ob_model.specs.Grants.{IsFreeValue, is_exclusive};
ghost use Rattle.ob_model.specs.Settle.{is_permanent};
ghost use Rattle.ob_model.specs.Choice.{revalued};
ghost use Rattle.ob_types.specs.Unnoticed.{with_change};
ghost use Rattle.ob_core.specs.Listed.{handle_after, process_after};
ghost use Rattle.ob_core.specs.Reached.{IsJustGiven, IsReached};
ghost use Rattle.ob_core.specs.Referent.{body_lent, referent_at};
ghost use Rattle.ob_model.specs.Opening.{opening};
ghost use Rattle.ob_model.specs.Sound.{IsSound};
ghost use Rattle.ob_model.specs.Step.{Step};
ghost use Rattle.ob_space.specs.Early.{TakesNoMemory, is_refused_early, lacks_handle};
ghost use Rattle.ob_space.specs.Found.{IsRefusedAtFound};
ghost use Rattle.ob_objects.specs.Named.{IsFirstFrom, row_of_named};
ghost use Rattle.ob_opens.specs.Refusing.{IsBroughtRefused};
ghost use Rattle.ob_model.specs.Refusals.{answers};
ghost use Rattle.ob_types.specs.Parse.{asked_of};
ghost use Rattle.ob_model.specs.PendingOpens.{pending_of};
ghost use Rattle.ob_processes.specs.Pending.{pins_of};
ghost use Rattle.ob_types.specs.Pending.{run_of, run_of_end, brought as end_of};
ghost use Rattle.ob_opens.specs.Waiting.{answer_of, IfParsing, IsParseOf, IsAwaited, IsNotTaken, opens_nothing};

use crate::referent::{Referent, referent_of};
use crate::steps::step_for;
use ob_base::{Fault, Handle, ObjId, Proc};
use ob_handles::HandleTable;
use ob_lookup::{Cache, RemovedName};
use ob_model::{Command, Held};
use ob_objects::Named;
use ob_opens::{Started, abandon, is_awaited, resume};
use ob_processes::{PendingOpens, Processes};
use ob_space::{Space, held_of, opening_store};
use ob_types::{Copied, Drains, Parsed, Pending, TypeSet, what_is_taken_is_unnoticed};
use std::alloc::{AllocError, Global};
use std::marker::Model;

/// The namespace of processes: its objects, their names, the live processes, their handles and their
/// pending opens. `T` is a set of types for the objects that are neither directories nor links, and `H`
/// the handle table that each process has; a core knows of both only what their traits say.
///
/// Contracts see the state of the abstract machine: the value of the set, all objects, rows, processes,
/// handles and pending opens, and the numbers that the next ones get. Nothing else is visible, the table neither.
#[derive(Drop)]
pub struct Core<T: TypeSet, H: HandleTable> {
    space: Space<T, H>,
}

impl<T: TypeSet, H: HandleTable> Model for Core<T, H> {
    ghost use Rattle.ob_model.specs.State.{State};
    ghost use Rattle.ob_space.specs.Orderly.{IsBetweenSteps};
    ghost use Rattle.ob_core.specs.Reached.{IsReached};

    ghost Value = { State T.Kind T T.Face T.Inner };

    ghost view = { λ a. a.space };

    ghost invariant = { λ a. IsBetweenSteps T.idle a.space × IsReached T.procedures a.space };
}

impl<T: TypeSet, H: HandleTable> Core<T, H> {
    /// The opening state, with a set of types: the root directory, `\GLOBAL??`, `\DosDevices` (a link
    /// to `\??`), `\Device`, `\BaseNamedObjects` and `\Sessions`, all permanent, and process 1 without a
    /// handle. Names are looked up by a cache of 256 prefixes. The only fault is out of memory, and then the set is dropped.
    pub fn new(alloc: Global, types: T) -> Result<Core<T, H>, Fault>
        ensures opening { IfOk result (λ core. core ≡ opening types) }
        ensures memory { IfErr result (λ fault. fault ≡ Memory) }
    {
        let cache = Cache::new(alloc)?;
        Core::with_cache(alloc, types, cache)
    }

    /// The opening state, as [`Core::new`] has it, whose names are looked up by this cache, which is emptied first. Its
    /// room changes no reply. The only fault is out of memory, and then the set and the cache are dropped.
    ///
    /// Source: as for [`Core::new`]; the cache is this profile.
    pub fn with_cache(alloc: Global, types: T, cache: Cache) -> Result<Core<T, H>, Fault>
        ensures opening { IfOk result (λ core. core ≡ opening types) }
        ensures memory { IfErr result (λ fault. fault ≡ Memory) }
    {
        let mut processes = Processes::new(alloc);
        processes.start(Proc(1), None)?;
        let store = opening_store(alloc, cache)?;
        let pending = PendingOpens::new(alloc);
        Ok(Core {
            space: Space {
                alloc,
                set: types,
                store,
                processes,
                pending,
                next_id: 7,
                next_stamp: 6,
                next_process: 2,
                next_order: 1,
            },
        })
    }

    /// Starts a command of a process: makes one step of the machine, and answers what it answers.
    ///
    /// Every refusal is a reply; docs/namespace.md has their order. The only fault is out of memory,
    /// which is reported only where a growth was refused, and then nothing has changed. A close, the end of a
    /// process, and making an object permanent or temporary take no memory, nor does a command that is
    /// refused before its lookup, so these never fail: where the process is gone, the flags, the other
    /// parameters or the bytes or the length of the name are refused, the process lacks the handle that it
    /// names, or no process more may live. Nor does one that is refused at what it finds, before the set is asked:
    /// another type, a name that is taken, a handle that isn't granted, no handle, object or number more for what is to be
    /// made or for an open that would wait, another than a directory for a map, the target of what is no link; where the
    /// lookup of its name follows no link, so that nothing is copied.
    pub fn start(&mut self, process: Proc, command: &Command<T::Kind>) -> Result<Started<T>, Fault>
        ensures step { IfOk result (λ started.
            Step T.procedures self.old (Start process command.now) (answer_of started) self.new) }
        ensures parse { IfOk result (λ started. IfParsing started (IsParseOf self.new)) }
        ensures without_memory { TakesNoMemory command.now → IsOk result }
        ensures early { is_refused_early self.old process command.now ≡ true → IsOk result }
        ensures found { IsRefusedAtFound T.procedures self.old process command.now → IsOk result }
        ensures err { OnErr result (self.new ≡ self.old) }
        ensures memory { IfErr result (λ fault. fault ≡ Memory) }
    {
        match step_for(&mut self.space, process, command) {
            Ok(started) => Ok(started),
            Err(_) => Err(Fault::Memory),
        }
    }

    /// Brings a parse to the open that waits for it: makes one step of the machine, and answers what it answers. The
    /// state is judged as it is now, not as it was when the open began; docs/namespace.md has what each end of a parse
    /// leads to, and the order of the refusals, which are replies. The open is pending no longer, whatever it is
    /// answered, an instance that isn't opened is deleted, and what the open alone held goes. Where the text that the
    /// parse ended with leads to an object whose kind parses, the open is pending again, under another ticket, with
    /// one reparse less, and that parse is handed out.
    ///
    /// The faults hand the parse back, and then nothing has changed: `Refused` with `InvalidParameter` exactly where the
    /// parse is a stranger's, as `abandon` says; and `Memory`, where memory ran out. A parse that found no
    /// memory, or was refused, takes none, nor does one whose process is gone, or which leads, by a text whose lookup
    /// follows no link, to what isn't opened for another reason than the set's, or to a parse for which no more fits.
    ///
    /// Source: Windows Internals, Object Manager (parse methods; object retention); that a parse is judged when it is
    /// brought, and the order of refusals, are this profile.
    pub fn resume(&mut self, parsed: Parsed<T>) -> Result<Started<T>, (Fault, Parsed<T>)>
        ensures step { IfOk result (λ started.
            Step T.procedures self.old (Resume parsed.ticket (run_of_end parsed.outcome))
            (answer_of started) self.new) }
        ensures awaited { IfOk result (λ _. IsAwaited T.procedures self.old (asked_of parsed)) }
        ensures parse { IfOk result (λ started. IfParsing started (IsParseOf self.new)) }
        ensures without_memory { opens_nothing parsed.outcome ≡ true
            → IsAwaited T.procedures self.old (asked_of parsed) → IsOk result }
        ensures early { IsBroughtRefused T.procedures self.old parsed.ticket parsed.outcome
            → IsAwaited T.procedures self.old (asked_of parsed) → IsOk result }
        ensures err { OnErr result (self.new ≡ self.old) }
        ensures fault { IfErr result (λ back.
            IsNotTaken T.procedures self.old (asked_of parsed) (back.0)) }
        ensures back { IfErr result (λ back. back.1 ≡ parsed) }
    {
        resume(&mut self.space, parsed)
    }

    /// Gives up an open that waits for this parse, whether it was run or not, and says whether one does: that open
    /// is pending no longer, an instance that the parse made is deleted, and the object that the open pinned goes
    /// where nothing else holds it. No memory is taken.
    ///
    /// It is false exactly for a stranger's parse, whose ticket isn't that of a pending open, or whose face or rest
    /// isn't that of the open; then nothing changes, and the parse is dropped.
    ///
    /// Source: Windows Internals, Object Manager (parse methods; object retention); that an open is given up by its
    /// ticket is this profile.
    pub fn abandon(&mut self, brought: Pending<T>) -> bool
        ensures exact { IsTrue result
            ↔ IsAwaited T.procedures self.old (asked_of (end_of brought)) }
        ensures step { IsTrue result
            → Step T.procedures self.old (Abandon (end_of brought).ticket (run_of brought))
            (answers Success) self.new }
        ensures stranger { result ≡ false → self.new ≡ self.old }
    {
        abandon(&mut self.space, brought)
    }

    /// Whether an open waits for this parse, as `abandon` says: else it is a stranger's. Source: this profile.
    pub fn awaits(&self, brought: &Pending<T>) -> bool
        ensures { IsTrue result ↔ IsAwaited T.procedures self.now (asked_of (end_of brought.now)) }
    {
        is_awaited(&self.space, brought)
    }

    /// How many reparses are left to a pending open, from 0 to 32; none where no open is pending under this ticket. Takes
    /// no memory. Source: this profile.
    pub fn left(&self, ticket: u64) -> Option<u32>
        ensures { result ≡ option_map (λ pending. pending.left) (pending_of self.now ticket) }
    {
        self.space.pending.get(ticket).map(|pending| pending.left)
    }

    /// The process that asked for a pending open, live or not; none where no open is pending under this ticket. Takes no
    /// memory. Source: this profile.
    pub fn asker(&self, ticket: u64) -> Option<Proc>
        ensures { result ≡ option_map (λ pending. pending.process) (pending_of self.now ticket) }
    {
        self.space
            .pending
            .get(ticket)
            .map(|pending| pending.process)
    }

    /// The object at which an open is pending, which it pins: there as long as the open is pending, whatever closes. None where
    /// no open is pending under this ticket. Takes no memory.
    ///
    /// Source: Windows Internals, Object Manager (object retention: what is referred to stays).
    pub fn pinned(&self, ticket: u64) -> Option<ObjId>
        ensures { result ≡ option_map (λ pending. pending.object) (pending_of self.now ticket) }
    {
        self.space.pending.get(ticket).map(|pending| pending.object)
    }

    /// The namespace in which the handle that the last step gave to this process, under the value `from`, has the value
    /// `to` instead; nothing else differs. The process must not use that value: it may be any multiple of four from 4 to
    /// 262,140 under which it has no handle.
    ///
    /// The only error is out of memory, and then the namespace is dropped.
    ///
    /// Source: handles are values of the system's choice (Windows Driver Kit); that a choice may be changed is this profile.
    pub fn revalue(self, process: Proc, from: Handle, to: Handle) -> Result<Core<T, H>, AllocError>
        requires given { IsJustGiven T.procedures self process from }
        requires free { IsFreeValue self process to }
        ensures { IfOk result (λ core. core ≡ revalued to self) }
    {
        // The next order's contract gives that it is at most 2^64 - 1, and the length's that all handles' orders rise.
        let _ = self.next_order();
        let mut space = self.space;
        let _ = space.processes.len();
        let Some(held) = space.processes.take(process, from) else {
            unreachable!();
        };
        space.processes.put(Held { value: to, ..held })?;
        Ok(Core { space })
    }

    /// How many objects there are: at most 1,048,576.
    pub fn objects(&self) -> usize
        ensures { result ≡ length self.now.objects }
    {
        self.space.store.len()
    }

    /// How many handles there are, of all processes: at most 65,535 of each.
    pub fn handles(&self) -> usize
        ensures { result ≡ length self.now.handles }
    {
        self.space.processes.len()
    }

    /// How many handles a process has: at most 65,535, and 0 where it isn't live.
    ///
    /// Source: Windows Internals, Object Manager (handles and the process handle table); the limit is
    /// this profile.
    pub fn handles_of(&self, process: Proc) -> usize
        ensures { result ≡ table_size self.now process }
    {
        self.space.processes.len_of(process)
    }

    /// Whether a process has a handle of exactly this value; the low two bits count. Takes no memory.
    ///
    /// Source: Windows Internals, Object Manager: handles and the process handle table.
    pub fn holds(&self, process: Proc, handle: Handle) -> bool
        ensures { result ≡ is_some (held_of self.now process handle) }
    {
        self.space.processes.get(process, handle).is_some()
    }

    /// A handle of a process, whose low two bits are ignored: its value, its object, whether a child inherits it, and the order
    /// in which it was opened. None exactly where the process has no such handle. Takes no memory.
    ///
    /// Source: Windows Internals, Object Manager: handles and the process handle table.
    pub fn handle(&self, process: Proc, handle: Handle) -> Option<Held>
        ensures { result ≡ option_and_then (held_of self.now process) (key_of handle) }
    {
        held_of(&self.space, process, handle)
    }

    /// The first handle of a process that was opened after an order of opening; None exactly where there is none. A caller
    /// that begins with 0, and then passes the order of the handle that it got last, lists the handles in the order of
    /// opening, each that remains once, whatever is opened and closed between the calls. Takes no memory.
    ///
    /// Source: the orders of opening are this profile.
    pub fn handle_after(&self, process: Proc, order: u64) -> Option<Held>
        ensures { result ≡ handle_after self.now process order }
    {
        self.space.processes.opened_after(process, order)
    }

    /// The live process of the least number above this one; None exactly where there is none. A caller that begins with 0,
    /// and then passes the process that it got last, lists the live processes, each that remains once, whichever begin and
    /// end between the calls. Takes no memory.
    ///
    /// Source: the numbers of processes are this profile.
    pub fn process_after(&self, process: Proc) -> Option<Proc>
        ensures { result ≡ process_after self.now process }
    {
        self.space.processes.live_after(process)
    }

    /// How many handles lead to an object, of all processes: 0 where it isn't there. Takes no memory.
    ///
    /// Source: NtQueryObject (Windows Driver Kit): the count of handles.
    pub fn count_of(&self, object: ObjId) -> usize
        ensures { result ≡ handle_count self.now object }
    {
        self.space.processes.count_of(object)
    }

    /// How many opens are pending at an object: 0 where it isn't there. Takes no memory.
    ///
    /// Source: Windows Internals, Object Manager (object retention: what is referred to stays).
    pub fn pins_of(&self, object: ObjId) -> usize
        ensures { result ≡ pins_of self.now.pending object }
    {
        self.space.pending.pins_of(object)
    }

    /// The directory of the device map of a process; None exactly where the process isn't live or has none. Takes no memory.
    ///
    /// Source: Windows Internals, Object Manager (session namespace, device maps).
    pub fn map_of(&self, process: Proc) -> Option<ObjId>
        ensures { result ≡ option_and_then (λ x. x.map)
            (find (λ x. x.number == process) self.now.processes) }
    {
        self.space.processes.view(process).local
    }

    /// Whether an object is there and is permanent: its name stays when its last handle is closed. Takes no memory.
    ///
    /// Source: Windows Internals, Object Manager (object retention).
    pub fn is_permanent(&self, object: ObjId) -> bool
        ensures { result ≡ is_permanent self.now object }
    {
        self.space.store.is_permanent(object)
    }

    /// Whether an object is there and is exclusive: one process alone may hold handles to it. Takes no memory.
    ///
    /// Source: `OBJ_EXCLUSIVE` (Windows Driver Kit, OBJECT_ATTRIBUTES).
    pub fn is_exclusive(&self, object: ObjId) -> bool
        ensures { result ≡ is_exclusive self.now object }
    {
        self.space.store.is_exclusive(object)
    }

    /// The object that a handle of a process leads to, whose low two bits are ignored: its id, and what it is. None
    /// exactly where the process has no such handle. Takes no memory.
    ///
    /// Source: ObReferenceObjectByHandle (Windows Driver Kit).
    pub fn referent(
        &self,
        process: Proc,
        handle: Handle,
    ) -> Option<(ObjId, Referent<'_, T::Face, T::Inner>)>
        ensures lent { option_map (λ led. (led.0, body_lent led.1)) result
            ≡ referent_at self.now process handle }
        ensures exact { is_some result ≡ not (lacks_handle self.now process handle) }
    {
        let held = held_of(&self.space, process, handle)?;
        let referent = referent_of(&self.space, held.object)?;
        Some((held.object, referent))
    }

    /// The object of an id; None exactly where it isn't there. Takes no memory.
    ///
    /// Source: ObReferenceObjectByPointer (Windows Driver Kit).
    pub fn object(&self, object: ObjId) -> Option<Referent<'_, T::Face, T::Inner>>
        ensures { option_map body_lent result ≡ body_of self.now object }
    {
        referent_of(&self.space, object)
    }

    /// How many names there are, of all objects. Takes no memory, and a time that doesn't grow with them.
    ///
    /// Source: Windows Internals, Object Manager: object names.
    pub fn names(&self) -> usize
        ensures { result ≡ length self.now.rows }
    {
        self.space.store.names()
    }

    /// The name of an object, by its id, with its directory and stamp; None exactly where the object has no name. Takes no
    /// memory.
    ///
    /// Source: Windows Internals, Object Manager: object names; the stamps are this profile.
    pub fn name_of(&self, object: ObjId) -> Option<Named<'_>>
        ensures { option_map row_of_named result ≡ find (λ row. row.object == object) self.now.rows }
    {
        self.space.store.name_of(object)
    }

    /// The least id of an object from this one on; None exactly where all objects have lesser ids. Ids rise as objects are
    /// made, so a caller that begins with the next id after its last look finds those that were made since. Takes no
    /// memory. Source: the ids are this profile.
    pub fn first_from(&self, object: ObjId) -> Option<ObjId>
        ensures { IsFirstFrom object self.now.objects result }
    {
        self.space.store.first_from(object)
    }

    /// Lists from now on the names that are removed, with none to begin with. It is no step. It takes no memory itself;
    /// where there is none for a name that is removed, that one isn't listed. (this profile)
    pub fn list_removed(&mut self)
        ensures { self.new ≡ self.old }
    {
        self.space.store.list_removed(self.space.alloc);
    }

    /// The names that were removed since listing began or the list was cleared last: a hint for who keeps a copy of the
    /// names, who sees by [`Core::names`] whether one is missing. (this profile)
    pub fn removed(&self) -> &[RemovedName] {
        self.space.store.removed()
    }

    /// Clears the list of removed names; where none is kept, nothing changes. Takes no memory. (this profile)
    pub fn clear_removed(&mut self)
        ensures { self.new ≡ self.old }
    {
        self.space.store.clear_removed();
    }

    /// The number that the next process gets, whichever makes it: above those of all that ever were. None
    /// is left where it is 2^32 - 1. Source: this profile.
    pub fn next_process(&self) -> Proc
        ensures { result ≡ self.now.next_process }
    {
        Proc(self.space.next_process)
    }

    /// The order of opening that the next handle gets. None is left where it is 2^64 - 1.
    fn next_order(&self) -> u64
        ensures { result ≡ self.now.next_order }
    {
        self.space.next_order
    }

    /// The law that the state of every core is sound: what its names, handles, maps and pending opens lead to is there,
    /// and each number is below the next one. The call does nothing; a caller makes it to have the fact. (this profile)
    pub fn state_is_sound(&self)
        ensures { IsSound self.now }
    {
        let _space = &self.space;
    }

    /// The law that a run of the abstract machine leads to the state of every core, from the opening state with some value
    /// of the set. So what holds of all runs holds of each namespace. The call does nothing; a caller makes it to have the
    /// fact. (this profile)
    pub fn state_is_reached(&self)
        ensures { IsReached T.procedures self.now }
    {
        let _space = &self.space;
    }

    /// The set of types, as the calls of its procedures have left it.
    pub fn set(&self) -> &T
        ensures { result.now ≡ self.now.set }
    {
        &self.space.set
    }
}

impl<T: TypeSet + Copied, H: HandleTable> Core<T, H>
where
    T::Inner: Copied,
{
    /// Another namespace in the same state: with the same values of handles, ids, stamps, pending opens, and set. Faces of
    /// objects, which never change, are shared, and all else is apart, so that a step of one changes nothing of the other.
    /// A parse that was handed out before may be brought to either. It takes a time that grows with all that is in the
    /// state. The only error is out of memory.
    ///
    /// Source: this profile.
    pub fn copy(&self) -> Result<Core<T, H>, AllocError>
        ensures { IfOk result (λ copy. copy ≡ self.now) }
    {
        Ok(Core {
            space: self.space.copy()?,
        })
    }
}

impl<T: Drains, H: HandleTable> Core<T, H> {
    /// Takes the next item of the set, as the object that was deleted first; `None` where nothing is left. It is no step,
    /// and none knows of it: nothing differs except what the set still has, and every later reply may be the one that
    /// it would have been. No memory is taken. Source: this profile.
    pub fn take_next(&mut self) -> Option<T::Item>
        ensures told { result ≡ T.next self.old.set }
        ensures taken { IfSome result (λ _. self.new ≡ with_change T.behind self.old) }
        ensures none { IfNone result (self.new ≡ self.old) }
    {
        what_is_taken_is_unnoticed::<T>();
        self.space.set.take_next()
    }
}
