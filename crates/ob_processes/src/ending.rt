//! The remains of a process that is live no longer.

ghost use Rattle.std.specs.Prelude.{◌≡◌, ℕ, ◌-◌, ◌==◌, [], ◌∷◌, count_by, MatchOption};
ghost use Rattle.ob_handles.specs.Counts.{count_of, ListsTheSame};

use ob_base::ObjId;
use ob_handles::{Counts, HandleTable, Touched};
use ob_model::Held;
use std::marker::Model;

/// The handles of a process that is live no longer, which are to be closed one after another, and the
/// objects that they led to, of which each is known to the end. A contract sees the handles that are
/// left, in the order in which they were opened, and how many of them lead to each object.
///
/// It is what the process had, so no memory is taken. Each call takes a time that grows with the
/// logarithm of the handles, beside what the call of the table takes.
///
/// Source: Windows Internals, Processes (what the end of a process closes); the order of the closes is
/// this profile.
#[derive(Drop)]
pub struct EndingProcess<H: HandleTable> {
    pub(crate) table: H,
    pub(crate) touched: Touched,
}

impl<H: HandleTable> Model for EndingProcess<H> {
    ghost use Rattle.ob_processes.specs.Counts.{IsCounted};
    ghost use Rattle.ob_processes.specs.Ending.{Leaving};

    ghost Value = { Leaving };

    ghost view = { λ ending.
        record { handles = H.handles ending.table; touched = ending.touched } };

    ghost invariant = { λ ending. IsCounted (H.handles ending.table) ending.touched };
}

impl<H: HandleTable> EndingProcess<H> {
    /// Takes out the handle that was opened before the others, and gives it; `None` where none is left.
    /// Its object stays known. Takes no memory.
    pub fn next(&mut self) -> Option<Held>
        ensures first { MatchOption result ((self.old.handles ≡ []) × (self.new.handles ≡ []))
            (λ h. self.old.handles ≡ h ∷ self.new.handles) }
        ensures touched { ListsTheSame self.old.touched self.new.touched }
    {
        let held = self.table.oldest()?;
        self.table.take(held.value);
        self.touched.lower(held.object);
        Some(held)
    }

    /// How many of the handles that are left lead to an object. Takes no memory.
    pub fn count_of(&self, object: ObjId) -> usize
        ensures { result ≡ count_by (λ h. h.object == object) self.now.handles }
    {
        self.touched.get(object)
    }

    /// The objects that the handles led to. Takes no memory.
    pub fn into_touched(self) -> Touched
        ensures { result ≡ self.touched }
    {
        self.touched
    }

    /// Counts the handles that are left no longer. Takes no memory.
    pub(crate) fn uncount(&self, counts: &mut Counts)
        ensures { (object : ℕ) → count_of counts.new object
            ≡ count_of counts.old object - count_by (λ h. h.object == object) self.now.handles }
    {
        counts.lower_all(&self.touched);
    }
}
