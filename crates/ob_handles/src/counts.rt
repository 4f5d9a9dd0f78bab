//! How often each object is counted.

ghost use Rattle.std.specs.Prelude.{◌≡◌, ◌≤◌, ℕ, [], None, length, nat_eq, IfOk, OnOk, OnErr};
ghost use Rattle.indexmap.specs.IndexMap.{IsUnique};
ghost use Rattle.ob_model.specs.State.{greatest_number};
ghost use Rattle.ob_handles.specs.Counts.{count_of, IsPlaceOf, CountsOneMore, CountsOneLess, CountsLessBy, CountsLessByAll};

use crate::places::{Recent, in_order, place_of};
use crate::touched::Touched;
use indexmap::IndexMap;
use ob_base::ObjId;
use std::alloc::{AllocError, Global};
use std::marker::Model;

/// Counts of objects. One that goes down to 0 is kept for a while, since the object is often counted again;
/// such counts are taken out once they are more than the others. A contract sees the counts as the list of
/// what is kept. `get`, `add` and `lower` take a time that doesn't grow with the objects, taken together
/// over many calls; one that counts the object of the call before hashes nothing. (this profile)
#[derive(Drop)]
pub struct Counts {
    numbers: IndexMap<u64, usize>,
    // The places of the objects that were counted last.
    recent: Recent,
    // How many went down to 0 since those at 0 were taken out, less those that went up again.
    zeros: usize,
    // Empty, with room for the objects that are kept, so that they can be put in order without memory.
    room: Vec<u64>,
}

impl Model for Counts {
    ghost use Rattle.std.specs.Prelude.{vec_capacity};
    ghost use Rattle.ob_handles.specs.Counts.{Numbers, HasRoomFor};

    ghost Value = { Numbers };

    ghost view = { λ counts. counts.numbers.entries };

    ghost invariant = { λ c. HasRoomFor c.numbers.entries c.room.items (vec_capacity c.room) };
}

impl Counts {
    /// All counts are 0. Takes no memory.
    pub fn new(alloc: Global) -> Counts
        ensures { result ≡ [] }
    {
        Counts {
            numbers: IndexMap::new(alloc),
            recent: Recent::new(),
            zeros: 0,
            room: Vec::new(alloc),
        }
    }

    /// Other counts, of which the same are kept. It takes a time that grows with their number. The only error is out
    /// of memory. (this profile)
    pub fn copy(&self) -> Result<Counts, AllocError>
        ensures { IfOk result (λ copy. copy ≡ self.now) }
    {
        Ok(Counts {
            numbers: self.numbers.clone()?,
            recent: self.recent,
            zeros: self.zeros,
            room: Vec::with_capacity(*self.room.allocator(), self.numbers.len())?,
        })
    }

    /// Makes room at once for so many objects more of which a count is kept. The only error is want of
    /// memory. The counts stay, whatever the result. (this profile)
    pub fn reserve(&mut self, more: usize) -> Result<(), AllocError>
        ensures { self.new ≡ self.old }
    {
        self.room.reserve(self.numbers.len().saturating_add(more))?;
        self.numbers.reserve(more)
    }

    /// The count of an object. Takes no memory.
    #[inline(always)]
    pub fn get(&self, object: ObjId) -> usize
        ensures { result ≡ count_of self.now object }
    {
        let Some(place) = place_of(&self.numbers, self.recent, object) else {
            return 0;
        };
        let Some((_, count)) = self.numbers.get_index(place) else {
            return 0;
        };
        *count
    }

    /// Counts one more of an object. Where memory runs out nothing has changed.
    #[inline(always)]
    pub fn add(&mut self, object: ObjId) -> Result<(), AllocError>
        requires room { count_of self.old object ≤ greatest_number }
        ensures counted { OnOk result (CountsOneMore object self.old self.new) }
        ensures unchanged { OnErr result (self.new ≡ self.old) }
    {
        let Some(place) = place_of(&self.numbers, self.recent, object) else {
            return self.add_first(object);
        };
        self.recent = self.recent.then(place);
        let Some(count) = self.numbers.get_index_mut(place) else {
            return Ok(());
        };
        if *count == 0 {
            self.zeros = self.zeros.saturating_sub(1);
        }
        *count += 1;
        Ok(())
    }

    // Counts the first of an object of which no count is kept. Where memory runs out nothing has changed.
    fn add_first(&mut self, object: ObjId) -> Result<(), AllocError>
        requires { IsPlaceOf object self.old None }
        ensures counted { OnOk result (CountsOneMore object self.old self.new) }
        ensures unchanged { OnErr result (self.new ≡ self.old) }
    {
        self.room.reserve(self.numbers.len() + 1)?;
        self.recent = self.recent.then(self.numbers.len());
        self.numbers.insert(object.0, 1)?;
        if self.zeros > self.numbers.len() / 2 {
            drop_zeros(&mut self.numbers);
            self.zeros = 0;
        }
        Ok(())
    }

    /// Counts one less of an object, where there is one. Takes no memory.
    #[inline(always)]
    pub fn lower(&mut self, object: ObjId)
        ensures counted { CountsOneLess object self.old self.new }
    {
        self.lower_by(object, 1);
    }

    /// Counts so many less of an object, and none where there are fewer. Takes no memory.
    #[inline(always)]
    fn lower_by(&mut self, object: ObjId, less: usize)
        ensures counted { CountsLessBy object less self.old self.new }
    {
        let Some(place) = place_of(&self.numbers, self.recent, object) else {
            return;
        };
        self.recent = self.recent.then(place);
        let Some(count) = self.numbers.get_index_mut(place) else {
            return;
        };
        if (1..=less).contains(count) {
            self.zeros = self.zeros.saturating_add(1);
        }
        *count = count.saturating_sub(less);
    }

    /// Counts of each object as many less as are counted there, and none where there are fewer. Takes
    /// no memory, and a time that grows with the objects that are listed there.
    pub fn lower_all(&mut self, others: &Touched)
        ensures counted { CountsLessByAll others.now self.old self.new }
    {
        for (object, less) in others.numbers.iter() {
            self.lower_by(ObjId(*object), *less);
        }
    }

    /// The same counts, of which each stays listed when it is lowered. Sorts the objects, and takes no memory.
    pub fn into_touched(self) -> Touched
        ensures { result ≡ self }
    {
        Touched {
            ids: in_order(self.room, &self.numbers),
            numbers: self.numbers,
            recent: Recent::new(),
        }
    }
}

// Takes the counts out that are 0. Takes no memory.
fn drop_zeros(numbers: &mut IndexMap<u64, usize>)
    requires { IsUnique nat_eq numbers.old }
    ensures few { length numbers.new.entries ≤ length numbers.old.entries }
    ensures counts { (o : ℕ) → count_of numbers.new.entries o ≡ count_of numbers.old.entries o }
{
    numbers.retain(|_, count| *count != 0);
}
