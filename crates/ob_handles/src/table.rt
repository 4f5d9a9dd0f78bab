//! The promises of every handle table.

ghost use Rattle.std.specs.Prelude.{◌≡◌, ◌<◌, ◌≤◌, ◌==◌, List, [], ◌∷◌, ◌++◌, Err};
ghost use Rattle.std.specs.Prelude.{◌⊎◌, length, filter, nat_lt, All, IfOk, IfErr, OnOk, OnErr};
ghost use Rattle.std.specs.List.{find, slice_get};
ghost use Rattle.ob_base.specs.declared.fault.Fault.TheVariants.{Memory, Refused};
ghost use Rattle.ob_base.specs.declared.status.Status.TheVariants.{InsufficientResources};
ghost use Rattle.ob_model.specs.declared.state.Held.{Held as AHandle};
ghost use Rattle.ob_model.specs.State.{most_handles};
ghost use Rattle.ob_handles.specs.Table.{IsTable, IsUnused, without};

use ob_base::{Fault, Handle, ObjId, Proc, Status};
use ob_model::Held;
use std::alloc::{AllocError, Global};

/// The most handles of a process. (this profile)
pub const MOST_HANDLES: usize = 65_535;

/// The handles of one process (Windows Internals, Object Manager: handles and the process handle
/// table). A contract sees a table as the list of its handles, in the order in which they were opened;
/// no value is in it twice.
///
/// Values are multiples of four from 4 to 262,140. Which unused one a new handle gets is the table's
/// choice. (Windows Driver Kit; the range is this profile)
pub trait HandleTable: Sized + Drop + Send {
    /// The handles, in the order in which they were opened.
    ghost handles: { Self → List AHandle };

    /// A table without a handle. Takes no memory.
    fn new(alloc: Global) -> Self
        ensures { handles result ≡ [] };

    /// Another table with the same handles. It takes a time that grows with their number. The only error is out of
    /// memory. (this profile)
    fn copy(&self) -> Result<Self, AllocError>
        ensures { IfOk result (λ copy. handles copy ≡ handles self.now) };

    /// Makes room for so many handles more at once, as far as the table can; a table that can't make room
    /// does nothing. The only error is out of memory. The handles stay, whatever the result. (this profile)
    fn reserve(&mut self, more: usize) -> Result<(), AllocError>
        ensures { handles self.new ≡ handles self.old };

    /// A value that no handle has, by the table's choice. The table must have fewer than 65,535 handles. Takes no
    /// memory, and the handles stay.
    fn unused(&mut self) -> Handle
        requires room { length (handles self.old) < most_handles }
        ensures unused { IsUnused (handles self.old) result }
        ensures unchanged { handles self.new ≡ handles self.old };

    /// Opens a handle of a process to an object, under an unused value of the table's choice, which it
    /// gives. The order must be above those of the table.
    ///
    /// It is refused with `InsufficientResources` exactly where the table has 65,535 handles. The only
    /// other fault is `Memory`. After either nothing has changed.
    #[inline(always)]
    fn grant(
        &mut self,
        process: Proc,
        object: ObjId,
        inherit: bool,
        order: u64,
    ) -> Result<Handle, Fault>
        requires newest { All (λ h. h.order < order) (handles self.old) }
        ensures unused { IfOk result (λ value. IsUnused (handles self.old) value) }
        ensures last { IfOk result (λ value. handles self.new
            ≡ handles self.old
            ++ record {
              process = process;
              value = value;
              object = object;
              inherit = inherit;
              order
                  = order;
            } ∷ []) }
        ensures full { most_handles ≤ length (handles self.old) → result
            ≡ Err (Refused InsufficientResources) }
        ensures refused { IfErr result (λ fault. (fault ≡ Memory)
            ⊎ (most_handles ≤ length (handles self.old))) }
        ensures unchanged { OnErr result (handles self.new ≡ handles self.old) }
    {
        if self.len() >= MOST_HANDLES {
            return Err(Fault::Refused(Status::InsufficientResources));
        }
        let value = self.unused();
        self.put(Held {
            process,
            value,
            object,
            inherit,
            order,
        })?;
        Ok(value)
    }

    /// Opens a handle under a value that is given, as a child does that inherits it. The value must be
    /// unused, and the order above those of the table. Where memory runs out nothing has changed.
    fn put(&mut self, held: Held) -> Result<(), AllocError>
        requires unused { IsUnused (handles self.old) held.value }
        requires newest { All (λ h. h.order < held.order) (handles self.old) }
        ensures last { OnOk result (handles self.new ≡ handles self.old ++ held ∷ []) }
        ensures unchanged { OnErr result (handles self.new ≡ handles self.old) };

    /// The handle of a value, and `None` exactly where there is none. Takes no memory.
    fn get(&self, value: Handle) -> Option<Held>
        ensures { result ≡ find (λ h. h.value == value) (handles self.now) };

    /// Takes the handle of a value out, and gives it; `None` where there is none, and then nothing
    /// changes. Takes no memory.
    fn take(&mut self, value: Handle) -> Option<Held>
        ensures there { result ≡ find (λ h. h.value == value) (handles self.old) }
        ensures others { handles self.new ≡ without (handles self.old) value };

    /// How many handles there are. Takes no memory.
    fn len(&self) -> usize
        ensures count { result ≡ length (handles self.now) }

        // The invariant of every table.
        ensures table { IsTable (handles self.now) };

    /// The handle that was opened before all others, and `None` exactly where there is none. Takes no
    /// memory.
    fn oldest(&self) -> Option<Held>
        ensures { result ≡ slice_get (handles self.now) 0 };

    /// The first handle that was opened after an order of opening, and `None` exactly where there is none.
    /// Takes no memory.
    fn opened_after(&self, order: u64) -> Option<Held>
        ensures { result ≡ find (λ h. nat_lt order h.order) (handles self.now) };

    /// The handles that a child inherits, in the order in which they were opened. The only error is want
    /// of memory.
    fn inheritable(&self, alloc: Global) -> Result<Vec<Held>, AllocError>
        ensures { IfOk result (λ list. list.items ≡ filter (λ h. h.inherit) (handles self.now)) };
}
