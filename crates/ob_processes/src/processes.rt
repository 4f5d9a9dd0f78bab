//! The live processes.

ghost use Rattle.std.specs.Prelude.{◌≡◌, ◌≢◌, ◌+◌, ◌<◌, ◌≤◌, ◌==◌, ◌&&◌, not, [], ◌∷◌, ◌++◌, None, Some, Err, true, false};
ghost use Rattle.std.specs.Prelude.{◌⊎◌, length, filter, nat_lt, map, count_by, All, AllPairs, IfSome, IfOk, IfErr, OnOk, OnErr};
ghost use Rattle.std.specs.List.{find, list_any};
ghost use Rattle.std.specs.Option.{is_some, option_and_then, option_map, option_map_or};
ghost use Rattle.ob_base.specs.declared.fault.Fault.TheVariants.{Memory, Refused};
ghost use Rattle.ob_base.specs.declared.status.Status.TheVariants.{InsufficientResources};
ghost use Rattle.ob_model.specs.State.{global_id, greatest_number, most_handles};
ghost use Rattle.ob_model.specs.Grants.{IsHandleValue};
ghost use Rattle.ob_model.specs.Closing.{is_handle};
ghost use Rattle.ob_handles.specs.Counts.{is_listed};
ghost use Rattle.ob_processes.specs.ByOrder.{OrdersRise};
ghost use Rattle.ob_processes.specs.Handed.{handed_on};
ghost use Rattle.ob_processes.specs.Running.{with_map};

use crate::ending::EndingProcess;
use crate::live::Live;
use ob_base::{Fault, Handle, ObjId, Proc};
use ob_devmap::{Maps, View};
use ob_handles::{Counts, HandleTable};
use ob_model::Held;
use std::alloc::{AllocError, Global};
use std::collections::BTreeMap;
use std::marker::Model;
use std::ops::Bound;

/// The live processes, each with its device map and its handle table. A contract sees the processes by
/// rising numbers, and the handles of all of them in the order in which they were opened, as the
/// abstract state has both.
///
/// Answers about handles are kept and not counted, so that no call walks over them except `inheritable`:
/// each takes a time that grows with the logarithm of the processes and of the handles, beside what the
/// call of one table takes.
///
/// Source: Windows Internals, Object Manager: handles and the process handle table; the numbers of
/// processes and the orders of opening are this profile.
#[derive(Drop)]
pub struct Processes<H: HandleTable> {
    alloc: Global,
    live: BTreeMap<u32, Live<H>>,
    maps: Maps,
    total: usize,
    counts: Counts,
}

impl<H: HandleTable> Model for Processes<H> {
    ghost use Rattle.ob_processes.specs.Running.{Running, seen};
    ghost use Rattle.ob_processes.specs.Counts.{AreKept};

    ghost Value = { Running };

    ghost view = { λ all. seen all.maps all.live.entries };

    ghost invariant = { λ all. AreKept all.maps all.live.entries all.total all.counts };
}

impl<H: HandleTable> Processes<H> {
    /// No process. Takes no memory.
    pub fn new(alloc: Global) -> Processes<H>
        ensures { result ≡ record { processes = []; handles = [] } }
    {
        Processes {
            live: BTreeMap::new(alloc),
            maps: Maps::new(alloc),
            alloc,
            total: 0,
            counts: Counts::new(alloc),
        }
    }

    /// The same processes with the same device maps and handles. It takes a time that grows with all of these. The only
    /// error is out of memory. (this profile)
    pub fn copy(&self) -> Result<Processes<H>, AllocError>
        ensures { IfOk result (λ copy. copy ≡ self.now) }
    {
        Ok(Processes {
            alloc: self.alloc,
            live: self.live.clone()?,
            maps: self.maps.copy()?,
            total: self.total,
            counts: self.counts.copy()?,
        })
    }

    /// A process begins, with a device map or without one, and without a handle. Its number must be
    /// above those of all that are live. Where memory runs out nothing has changed.
    pub fn start(&mut self, process: Proc, map: Option<ObjId>) -> Result<(), AllocError>
        requires newest { All (λ x. x.number < process) self.old.processes }
        ensures last { OnOk result (self.new.processes
            ≡ self.old.processes ++ record { number = process; map = map } ∷ []) }
        ensures handles { self.new.handles ≡ self.old.handles }
        ensures unchanged { OnErr result (self.new ≡ self.old) }
    {
        self.begin(process)?;
        let Some(directory) = map else {
            return Ok(());
        };
        if let Err(refused) = self.set_map(process, directory) {
            self.end(process);
            return Err(refused);
        }
        Ok(())
    }

    /// A process begins without a device map and without a handle.
    fn begin(&mut self, process: Proc) -> Result<(), AllocError>
        requires newest { All (λ x. x.number < process) self.old.processes }
        ensures last { OnOk result (self.new.processes
            ≡ self.old.processes ++ record { number = process; map = None } ∷ []) }
        ensures handles { self.new.handles ≡ self.old.handles }
        ensures empty { find (λ h. h.process == process) self.new.handles ≡ None }
        ensures unchanged { OnErr result (self.new ≡ self.old) }
    {
        let live = Live::new(self.alloc);
        self.live.insert(process.0, live)?;
        Ok(())
    }

    /// A process is live no longer, its device map goes with it, and so do its handles: they are given,
    /// to be closed one after another, with the objects that they lead to. `None` where it isn't live,
    /// and then nothing changes. Takes no memory, and a time that grows with the objects that its
    /// handles lead to, times the logarithm of all.
    ///
    /// Source: Windows Internals, Processes (what the end of a process closes).
    pub fn end(&mut self, process: Proc) -> Option<EndingProcess<H>>
        ensures others { self.new.processes
            ≡ filter (λ x. not (x.number == process)) self.old.processes }
        ensures handles { self.new.handles
            ≡ filter (λ h. not (h.process == process)) self.old.handles }
        ensures live { is_some result
            ≡ is_some (find (λ x. x.number == process) self.old.processes) }
        ensures own { IfSome result (λ ending. ending.handles
            ≡ filter (λ h. h.process == process) self.old.handles) }
        ensures touched { IfSome result (λ ending. All (λ h. is_listed ending.touched h.object
            ≡ true) ending.handles) }
    {
        let live = self.live.remove(&process.0);
        self.maps.clear(process);
        let live = live?;
        self.total -= live.len();
        let ending = live.into_ending();
        ending.uncount(&mut self.counts);
        Some(ending)
    }

    /// Whether a process is live. Takes no memory.
    pub fn is_live(&self, process: Proc) -> bool
        ensures { result ≡ is_some (find (λ x. x.number == process) self.now.processes) }
    {
        self.live.contains_key(&process.0)
    }

    /// The live process with the least number above that of a process, be that one live or not; `None`
    /// exactly where there is none. Takes no memory.
    ///
    /// Source: the numbers of processes are this profile.
    pub fn live_after(&self, process: Proc) -> Option<Proc>
        ensures { result ≡ option_map (λ x. x.number)
            (find (λ x. nat_lt process x.number) self.now.processes) }
    {
        let after = (Bound::Excluded(process.0), Bound::Unbounded);
        let (number, _) = self.live.range(after).next()?;
        Some(Proc(*number))
    }

    /// How many processes are live. Takes no memory.
    pub fn count(&self) -> usize
        ensures { result ≡ length self.now.processes }
    {
        self.live.len()
    }

    /// The directories that `\??` means to a process: that of its device map, where it is live and
    /// has one, and `\GLOBAL??`. Takes no memory.
    ///
    /// Source: Windows Internals, Object Manager (session namespace, device maps).
    pub fn view(&self, process: Proc) -> View
        ensures local { result.local
            ≡ option_and_then (λ x. x.map) (find (λ x. x.number == process) self.now.processes) }
        ensures global { result.global ≡ global_id }

        // An invariant of the live processes.
        ensures rising { AllPairs (λ a b. a.number < b.number) self.now.processes }
    {
        self.maps.view(process)
    }

    /// Whether a process has this directory as its device map. Takes no memory.
    ///
    /// Source: Windows Internals, Object Manager (session namespace, device maps).
    pub fn is_mapped(&self, directory: ObjId) -> bool
        ensures { result
            ≡ list_any (λ x. option_map_or (λ d. d == directory) x.map false) self.now.processes }
    {
        self.maps.is_mapped(directory)
    }

    /// Gives a process a device map of this directory, in place of the one that it had; where it isn't
    /// live nothing changes. Where memory runs out nothing has changed.
    ///
    /// Source: Windows Internals, Object Manager (session namespace, device maps).
    pub fn set_map(&mut self, process: Proc, directory: ObjId) -> Result<(), AllocError>
        ensures processes { OnOk result (self.new.processes
            ≡ map (with_map process (Some directory)) self.old.processes) }
        ensures handles { self.new.handles ≡ self.old.handles }
        ensures unchanged { OnErr result (self.new ≡ self.old) }
    {
        if self.live.contains_key(&process.0) {
            self.maps.set(process, directory)?;
        }
        Ok(())
    }

    /// How many handles there are, of all processes. Takes no memory.
    pub fn len(&self) -> usize
        ensures count { result ≡ length self.now.handles }

        // An invariant of the handles of all processes.
        ensures rising { OrdersRise self.now.handles }
    {
        self.total
    }

    /// How many handles a process has: 0 where it isn't live. Takes no memory.
    pub fn len_of(&self, process: Proc) -> usize
        ensures { result ≡ count_by (λ h. h.process == process) self.now.handles }
    {
        match self.live.get(&process.0) {
            Some(live) => live.len(),
            None => 0,
        }
    }

    /// The handle of a process of a value, and `None` exactly where it has none. Takes no memory.
    #[inline(always)]
    pub fn get(&self, process: Proc, value: Handle) -> Option<Held>
        ensures there { result ≡ find (is_handle process value) self.now.handles }
        ensures value { IfSome result (λ h. IsHandleValue h.value) }
    {
        self.live.get(&process.0)?.get(value)
    }

    /// Of the handles of a process the one that was opened before its others, and `None` exactly where
    /// it has none. Takes no memory.
    pub fn oldest(&self, process: Proc) -> Option<Held>
        ensures { result ≡ find (λ h. h.process == process) self.now.handles }
    {
        self.live.get(&process.0)?.oldest()
    }

    /// Of the handles of a process the first that was opened after an order of opening, and `None` exactly
    /// where it has none. Takes no memory.
    ///
    /// Source: the orders of opening are this profile.
    pub fn opened_after(&self, process: Proc, order: u64) -> Option<Held>
        ensures { result
            ≡ find (λ h. h.process == process && nat_lt order h.order) self.now.handles }
    {
        self.live.get(&process.0)?.opened_after(order)
    }

    /// The handles of a process that a child inherits, in the order in which they were opened, with values
    /// that differ; none where the process isn't live. The only error is out of memory. Takes a time that grows with the handles
    /// of the process.
    ///
    /// Source: Windows Internals, Processes (inheritance of handles).
    pub fn inheritable(&self, process: Proc) -> Result<Vec<Held>, AllocError>
        ensures list { IfOk result (λ list. list.items
            ≡ filter (λ h. h.inherit) (filter (λ h. h.process == process) self.now.handles)) }
        ensures values { IfOk result (λ list. All (λ h. IsHandleValue h.value) list.items) }
        ensures apart { IfOk result (λ list. AllPairs (λ a b. a.value ≢ b.value) list.items) }
    {
        match self.live.get(&process.0) {
            Some(live) => live.inheritable(self.alloc),
            None => Ok(Vec::new(self.alloc)),
        }
    }

    /// How many handles of all processes lead to an object. Takes no memory.
    pub fn count_of(&self, object: ObjId) -> usize
        ensures { result ≡ count_by (λ h. h.object == object) self.now.handles }
    {
        self.counts.get(object)
    }

    /// How many handles of one process lead to an object: 0 where it isn't live. Takes no memory.
    pub fn count_in(&self, process: Proc, object: ObjId) -> usize
        ensures { result ≡ count_by (λ h. h.process == process
            && h.object == object) self.now.handles }
    {
        match self.live.get(&process.0) {
            Some(live) => live.count_of(object),
            None => 0,
        }
    }

    /// Whether a process other than this one has a handle to an object. Takes no memory.
    pub fn has_other_holder(&self, process: Proc, object: ObjId) -> bool
        ensures { result ≡ list_any (λ h. (h.object == object)
            && not (h.process == process)) self.now.handles }
    {
        self.count_in(process, object) < self.count_of(object)
    }

    /// Opens a handle of a live process to an object, under an unused value of its table's choice, which
    /// it gives. The order must be above those of all handles, and at most 2^64 - 2.
    ///
    /// It is refused with `InsufficientResources` exactly where the process has 65,535 handles. The only
    /// other fault is `Memory`. After either nothing has changed.
    #[inline(always)]
    pub fn grant(
        &mut self,
        process: Proc,
        object: ObjId,
        inherit: bool,
        order: u64,
    ) -> Result<Handle, Fault>
        requires live { is_some (find (λ x. x.number == process) self.old.processes) ≡ true }
        requires newest { All (λ h. h.order < order) self.old.handles }
        requires number { order ≤ greatest_number }
        ensures value { IfOk result IsHandleValue }
        ensures unused { IfOk result (λ value. find (is_handle process value) self.old.handles
            ≡ None) }
        ensures last { IfOk result (λ value. self.new.handles
            ≡ self.old.handles
            ++ record {
              process = process;
              value = value;
              object = object;
              inherit = inherit;
              order
                  = order;
            } ∷ []) }
        ensures processes { self.new.processes ≡ self.old.processes }
        ensures full { most_handles ≤ count_by (λ h. h.process == process) self.old.handles
            → result ≡ Err (Refused InsufficientResources) }
        ensures refused { IfErr result (λ fault. (fault ≡ Memory)
            ⊎ (most_handles ≤ count_by (λ h. h.process == process) self.old.handles)) }
        ensures unchanged { OnErr result (self.new ≡ self.old) }
    {
        let Some(live) = self.live.get_mut(&process.0) else {
            unreachable!();
        };
        let value = live.grant(process, object, inherit, order)?;
        if let Err(want) = self.counts.add(object) {
            live.take(value);
            return Err(Fault::from(want));
        }
        self.total += 1;
        Ok(value)
    }

    /// Opens a handle of a live process under a value that is given, as a child does that inherits it.
    /// The process must not use the value, and the order must be above those of all handles, and at
    /// most 2^64 - 2. Where memory runs out nothing has changed.
    #[inline(always)]
    pub fn put(&mut self, held: Held) -> Result<(), AllocError>
        requires live { is_some (find (λ x. x.number == held.process) self.old.processes) ≡ true }
        requires value { IsHandleValue held.value }
        requires unused { find (is_handle held.process held.value) self.old.handles ≡ None }
        requires newest { All (λ h. h.order < held.order) self.old.handles }
        requires number { held.order ≤ greatest_number }
        ensures last { OnOk result (self.new.handles ≡ self.old.handles ++ held ∷ []) }
        ensures processes { self.new.processes ≡ self.old.processes }
        ensures unchanged { OnErr result (self.new ≡ self.old) }
    {
        let (process, value, object) = (held.process, held.value, held.object);
        let Some(live) = self.live.get_mut(&process.0) else {
            unreachable!();
        };
        live.put(held)?;
        if let Err(want) = self.counts.add(object) {
            live.take(value);
            return Err(want);
        }
        self.total += 1;
        Ok(())
    }

    /// A process begins with these handles, in their order: each under its value and to its object, to
    /// be inherited again, the first with this order of opening and each other with the one after. Its
    /// number must be above those of all that are live, the values handle values that differ, and the
    /// orders above those of all handles, and at most 2^64 - 2. Where memory runs out nothing has
    /// changed.
    ///
    /// Source: Windows Internals, Processes (inheritance of handles); the orders are this profile.
    pub fn start_with(
        &mut self,
        process: Proc,
        map: Option<ObjId>,
        inherited: &[Held],
        order: u64,
    ) -> Result<(), AllocError>
        requires number { All (λ x. x.number < process) self.old.processes }
        requires alone { All (λ h. (h.process == process) ≡ false) self.old.handles }
        requires values { All (λ h. IsHandleValue h.value) inherited.now }
        requires apart { AllPairs (λ a b. a.value ≢ b.value) inherited.now }
        requires newest { All (λ h. h.order < order) self.old.handles }
        requires orders { order + length inherited.now ≤ greatest_number + 1 }
        ensures last { OnOk result (self.new.processes
            ≡ self.old.processes ++ record { number = process; map = map } ∷ []) }
        ensures handles { OnOk result (self.new.handles
            ≡ self.old.handles ++ handed_on process order inherited.now) }
        ensures unchanged { OnErr result (self.new ≡ self.old) }
    {
        self.start(process, map)?;
        if let Err(refused) = self.put_all(process, inherited, order) {
            self.end(process);
            return Err(refused);
        }
        Ok(())
    }

    /// Makes room at once for so many handles more of a process, as far as its table can, and for their
    /// counts there; none where it isn't live. Nothing that is seen changes, whatever the result.
    fn reserve(&mut self, process: Proc, more: usize) -> Result<(), AllocError>
        ensures { self.new ≡ self.old }
    {
        let Some(live) = self.live.get_mut(&process.0) else {
            return Ok(());
        };
        live.reserve(more)
    }

    /// Gives a live process that has no handle these ones. Where memory runs out it has some of them.
    fn put_all(&mut self, process: Proc, inherited: &[Held], order: u64) -> Result<(), AllocError>
        requires live { is_some (find (λ x. x.number == process) self.old.processes) ≡ true }
        requires alone { All (λ h. (h.process == process) ≡ false) self.old.handles }
        requires values { All (λ h. IsHandleValue h.value) inherited.now }
        requires apart { AllPairs (λ a b. a.value ≢ b.value) inherited.now }
        requires newest { All (λ h. h.order < order) self.old.handles }
        requires orders { order + length inherited.now ≤ greatest_number + 1 }
        ensures handles { OnOk result (self.new.handles ≡ self.old.handles
            ++ handed_on process order inherited.now) }
        ensures others { filter (λ h. not (h.process == process)) self.new.handles
            ≡ self.old.handles }
        ensures processes { self.new.processes ≡ self.old.processes }
    {
        self.reserve(process, inherited.len())?;
        let mut next = order;
        for held in inherited {
            self.put(Held {
                process,
                value: held.value,
                object: held.object,
                inherit: true,
                order: next,
            })?;
            next += 1;
        }
        Ok(())
    }

    /// Takes the handle of a process of a value out, and gives it; `None` where it has none, and then
    /// nothing changes. Takes no memory.
    #[inline(always)]
    pub fn take(&mut self, process: Proc, value: Handle) -> Option<Held>
        ensures there { result ≡ find (is_handle process value) self.old.handles }
        ensures others { self.new.handles
            ≡ filter (λ h. not (is_handle process value h)) self.old.handles }
        ensures processes { self.new.processes ≡ self.old.processes }
    {
        let live = self.live.get_mut(&process.0)?;
        let taken = live.take(value)?;
        self.counts.lower(taken.object);
        self.total -= 1;
        Some(taken)
    }
}
