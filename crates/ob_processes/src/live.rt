//! One live process.

ghost use Rattle.std.specs.Prelude.{◌≡◌, ◌≢◌, ◌+◌, ◌<◌, ◌≤◌, ◌==◌, if◌then◌else◌, [], ◌∷◌, ◌++◌, Err, true};
ghost use Rattle.std.specs.Prelude.{◌⊎◌, length, filter, nat_lt, count_by, All, AllPairs, IfSome, IfOk, IfErr, OnOk, OnErr};
ghost use Rattle.std.specs.List.{find, slice_get};
ghost use Rattle.std.specs.Option.{is_some};
ghost use Rattle.ob_base.specs.declared.fault.Fault.TheVariants.{Memory, Refused};
ghost use Rattle.ob_base.specs.declared.status.Status.TheVariants.{InsufficientResources};
ghost use Rattle.ob_model.specs.State.{greatest_number, most_handles};
ghost use Rattle.ob_model.specs.Grants.{IsHandleValue};
ghost use Rattle.ob_handles.specs.Table.{IsUnused, without};
ghost use Rattle.ob_handles.specs.Counts.{is_listed};

use crate::ending::EndingProcess;
use ob_base::{Fault, Handle, ObjId, Proc};
use ob_handles::{Counts, HandleTable};
use ob_model::Held;
use std::alloc::{AllocError, Global};
use std::marker::Model;

/// The state of one live process, beside its device map. A contract sees its handles, in the order in which
/// they were opened.
#[derive(Drop)]
pub(crate) struct Live<H: HandleTable> {
    table: H,
    counts: Counts,
}

impl<H: HandleTable> Model for Live<H> {
    ghost use Rattle.std.specs.Prelude.{List};
    ghost use Rattle.ob_model.specs.declared.state.Held.{Held as AHandle};
    ghost use Rattle.ob_processes.specs.Counts.{IsCounted};

    ghost Value = { List AHandle };

    ghost view = { λ live. H.handles live.table };

    ghost invariant = { λ live. IsCounted (H.handles live.table) live.counts };
}

/// A clone has the same handles.
impl<H: HandleTable> Clone for Live<H> {
    ghost is_clone = { λ live copy. copy ≡ live };

    fn clone(&self) -> Result<Live<H>, AllocError> {
        Ok(Live {
            table: self.table.copy()?,
            counts: self.counts.copy()?,
        })
    }
}

impl<H: HandleTable> Live<H> {
    /// A process without a handle. Takes no memory.
    pub(crate) fn new(alloc: Global) -> Live<H>
        ensures { result ≡ [] }
    {
        Live {
            table: H::new(alloc),
            counts: Counts::new(alloc),
        }
    }

    /// Makes room at once for so many handles more, as far as its table can, and for their counts. The handles
    /// stay, whatever the result.
    pub(crate) fn reserve(&mut self, more: usize) -> Result<(), AllocError>
        ensures { self.new ≡ self.old }
    {
        self.table.reserve(more)?;
        self.counts.reserve(more)
    }

    /// How many handles it has.
    pub(crate) fn len(&self) -> usize
        ensures { result ≡ length self.now }
    {
        self.table.len()
    }

    /// Its handle of a value, where it has one.
    pub(crate) fn get(&self, value: Handle) -> Option<Held>
        ensures there { result ≡ find (λ h. h.value == value) self.now }
        ensures value { IfSome result (λ h. IsHandleValue h.value) }
    {
        self.table.get(value)
    }

    /// Its handle that was opened before its others.
    pub(crate) fn oldest(&self) -> Option<Held>
        ensures { result ≡ slice_get self.now 0 }
    {
        self.table.oldest()
    }

    /// The first of its handles that was opened after an order of opening.
    pub(crate) fn opened_after(&self, order: u64) -> Option<Held>
        ensures { result ≡ find (λ h. nat_lt order h.order) self.now }
    {
        self.table.opened_after(order)
    }

    /// Those of its handles that a child inherits.
    pub(crate) fn inheritable(&self, alloc: Global) -> Result<Vec<Held>, AllocError>
        ensures list { IfOk result (λ list. list.items ≡ filter (λ h. h.inherit) self.now) }
        ensures values { IfOk result (λ list. All (λ h. IsHandleValue h.value) list.items) }
        ensures apart { IfOk result (λ list. AllPairs (λ a b. a.value ≢ b.value) list.items) }
    {
        self.table.inheritable(alloc)
    }

    /// How many of its handles lead to an object.
    pub(crate) fn count_of(&self, object: ObjId) -> usize
        ensures { result ≡ count_by (λ h. h.object == object) self.now }
    {
        self.counts.get(object)
    }

    /// Opens a handle under an unused value. The order must be above those of its handles.
    pub(crate) fn grant(
        &mut self,
        process: Proc,
        object: ObjId,
        inherit: bool,
        order: u64,
    ) -> Result<Handle, Fault>
        requires newest { All (λ h. h.order < order) self.old }
        ensures unused { IfOk result (λ value. IsUnused self.old value) }
        ensures last { IfOk result (λ value. self.new
            ≡ self.old
            ++ record {
              process = process;
              value = value;
              object = object;
              inherit = inherit;
              order
                  = order;
            } ∷ []) }
        ensures full { most_handles ≤ length self.old → result
            ≡ Err (Refused InsufficientResources) }
        ensures refused { IfErr result (λ fault. (fault ≡ Memory)
            ⊎ (most_handles ≤ length self.old)) }
        ensures unchanged { OnErr result (self.new ≡ self.old) }
    {
        let value = self.table.grant(process, object, inherit, order)?;
        if let Err(want) = self.counts.add(object) {
            self.table.take(value);
            return Err(Fault::from(want));
        }
        Ok(value)
    }

    /// Opens a handle under a value that is given and unused. The order must be above those of its
    /// handles.
    pub(crate) fn put(&mut self, held: Held) -> Result<(), AllocError>
        requires unused { IsUnused self.old held.value }
        requires newest { All (λ h. h.order < held.order) self.old }
        requires number { held.order ≤ greatest_number }
        ensures last { OnOk result (self.new ≡ self.old ++ held ∷ []) }
        ensures unchanged { OnErr result (self.new ≡ self.old) }
    {
        let (value, object) = (held.value, held.object);
        self.table.put(held)?;
        if let Err(want) = self.counts.add(object) {
            self.table.take(value);
            return Err(want);
        }
        Ok(())
    }

    /// Takes its handle of a value out, where it has one.
    pub(crate) fn take(&mut self, value: Handle) -> Option<Held>
        ensures there { result ≡ find (λ h. h.value == value) self.old }
        ensures others { self.new ≡ without self.old value }
        ensures one { IfSome result (λ h. filter (λ k. k.value == value) self.old ≡ h ∷ []) }
        ensures fewer { length self.new + (if is_some result then 1 else 0) ≡ length self.old }
    {
        let taken = self.table.take(value)?;
        self.counts.lower(taken.object);
        Some(taken)
    }
    /// Gives the remains, where its process is live no longer. Takes no memory.
    pub(crate) fn into_ending(self) -> EndingProcess<H>
        ensures handles { result.handles ≡ self }
        ensures touched { All (λ h. is_listed result.touched h.object ≡ true) result.handles }
    {
        let (table, touched) = (self.table, self.counts.into_touched());
        EndingProcess { table, touched }
    }
}
