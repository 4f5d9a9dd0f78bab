//! Slots under ids: objects, and where the names for them are.

ghost use Rattle.std.specs.Prelude.{◌≡◌, ◌==◌, ℕ, [], None, Some, IfErr, OnOk, OnErr};
ghost use Rattle.std.specs.Prelude.{nat_eq, if◌then◌else◌, IfOk, IsTrue};
ghost use Rattle.std.specs.BTreeMap.{is_at, insert_entry};
ghost use Rattle.std.specs.Borrow.{sem};
ghost use Rattle.std.specs.List.{list_any};
ghost use Rattle.std.specs.Map.{remove_entry};
ghost use Rattle.std.specs.Option.{option_copied, option_copied_mut};
ghost use Rattle.std.specs.Ordering.{nat_cmp};
ghost use Rattle.indexmap.specs.IndexMap.{get};
ghost use Rattle.ob_objects.specs.Copied.{ShowsTheSame};
ghost use Rattle.ob_objects.specs.Slots.{objects_in, object_in, place_in, KeepPlaces};
ghost use Rattle.ob_objects.specs.Slots.{AreFilled, StayFilled, LendsObject, LendsSlot, IsPlaceOf};
ghost use Rattle.ob_objects.specs.Store.{entries_in};

use crate::{EntryPlace, StoredBody, StoredObject};
use indexmap::IndexMap;
use ob_base::ObjId;
use ob_types::Copied;
use std::alloc::{AllocError, Global};

/// A slot under an id: the object, where one is there, and where the name for it is, where there is one.
#[derive(Drop)]
pub(crate) struct Slot<F, I> {
    object: Option<StoredObject<F, I>>,
    place: Option<EntryPlace>,
}

/// A clone shows the same, and has the face of its object in common.
impl<F: Drop, I: Copied> Clone for Slot<F, I> {
    ghost use Rattle.std.specs.Prelude.{◌≡◌};
    ghost use Rattle.ob_objects.specs.Copied.{shown_slot};

    ghost is_clone = { λ slot copy. shown_slot copy ≡ shown_slot slot };

    fn clone(&self) -> Result<Slot<F, I>, AllocError> {
        let object = match &self.object {
            Some(object) => Some(object.copy()?),
            None => None,
        };
        Ok(Slot {
            object,
            place: self.place,
        })
    }
}

/// Slots by their ids. Each is found in a time that doesn't grow with their number, and one that was changed of late
/// mostly with no hash; one that would be empty is taken out.
#[derive(Drop)]
pub(crate) struct Slots<F, I> {
    map: IndexMap<u64, Slot<F, I>>,
    // Where slots were that were changed of late, by the ends of their ids: any places give the same slots.
    guesses: [usize; 64],
}

impl<F: Drop, I: Drop> Slots<F, I> {
    /// No slots. Takes no memory.
    pub(crate) fn new(alloc: Global) -> Self
        ensures objects { objects_in result ≡ [] }
        ensures places { (id : ℕ) → place_in result id ≡ None }
        ensures filled { AreFilled result }
    {
        Slots {
            map: IndexMap::new(alloc),
            guesses: [0; 64],
        }
    }

    /// Where the slot of an id is, looked for first where it may have been of late.
    #[inline(always)]
    fn place_of(&self, id: ObjId) -> Option<usize>
        ensures { IsPlaceOf id self.now.map.entries result }
    {
        let guess = self.guesses[(id.0 % 64) as usize];
        if is_at(&self.map, guess, id) {
            return Some(guess);
        }
        searched_place(&self.map, id)
    }

    /// The slot of an id.
    #[inline(always)]
    fn slot(&self, id: ObjId) -> Option<&Slot<F, I>>
        ensures { option_copied result ≡ get nat_eq self.now.map id }
    {
        let (_, slot) = self.map.get_index(self.place_of(id)?)?;
        Some(slot)
    }

    /// The slot of an id, to be changed.
    #[inline(always)]
    fn slot_mut(&mut self, id: ObjId) -> Option<&mut Slot<F, I>>
        ensures* writes_back { sem 𝓛 (LendsSlot F.row I.row self.entry id result) }
        ensures value { option_copied_mut result ≡ get nat_eq self.old.map id }
    {
        let place = self.place_of(id)?;
        self.guesses[(id.0 % 64) as usize] = place;
        self.map.get_index_mut(place)
    }

    /// The object of an id.
    pub(crate) fn object(&self, id: ObjId) -> Option<&StoredObject<F, I>>
        ensures { option_copied result ≡ object_in self.now id }
    {
        self.slot(id)?.object.as_ref()
    }

    /// The object of an id, to be changed.
    pub(crate) fn object_mut(&mut self, id: ObjId) -> Option<&mut StoredObject<F, I>>
        ensures* writes_back { sem 𝓛 (LendsObject F.row I.row self.entry id result) }
        ensures value { option_copied_mut result ≡ object_in self.old id }
    {
        let slot = self.slot_mut(id)?;
        slot.object.as_mut()
    }

    /// Where the name for an id is.
    pub(crate) fn place(&self, id: ObjId) -> Option<EntryPlace>
        ensures { result ≡ place_in self.now id }
    {
        self.slot(id)?.place
    }

    /// The object of an id, and where the name for it is.
    pub(crate) fn both(&self, id: ObjId) -> (Option<&StoredObject<F, I>>, Option<EntryPlace>)
        ensures object { option_copied result.0 ≡ object_in self.now id }
        ensures place { result.1 ≡ place_in self.now id }
    {
        match self.slot(id) {
            Some(slot) => (slot.object.as_ref(), slot.place),
            None => (None, None),
        }
    }

    /// Puts an object under an id that no object has, and hands it back where memory runs out.
    pub(crate) fn put_object(
        &mut self,
        id: ObjId,
        object: StoredObject<F, I>,
    ) -> Result<(), StoredObject<F, I>>
        requires free { object_in self.old id ≡ None }
        ensures put { OnOk result (objects_in self.new
            ≡ insert_entry nat_cmp (objects_in self.old) id object) }
        ensures returned { IfErr result (λ back. back ≡ object) }
        ensures unchanged { OnErr result (objects_in self.new ≡ objects_in self.old) }
        ensures places { KeepPlaces self.old self.new }
        ensures filled { StayFilled self.old self.new }
    {
        let slot = Slot {
            object: Some(object),
            place: None,
        };
        self.guesses[(id.0 % 64) as usize] = self.map.len();
        match self.map.insert(id.0, slot) {
            Ok(None) => Ok(()),
            Ok(Some(was)) => {
                if let Some(slot) = self.slot_mut(id) {
                    slot.place = was.place;
                }
                Ok(())
            }
            Err(want) => {
                let (_, slot) = want.value;
                let Some(back) = slot.object else {
                    unreachable!();
                };
                Err(back)
            }
        }
    }

    /// Takes the object of an id out; the place of its name stays.
    pub(crate) fn take_object(&mut self, id: ObjId) -> Option<StoredObject<F, I>>
        ensures taken { result ≡ object_in self.old id }
        ensures gone { objects_in self.new ≡ remove_entry (is_at (nat_cmp id)) (objects_in self.old) }
        ensures places { KeepPlaces self.old self.new }
        ensures filled { StayFilled self.old self.new }
    {
        let index = self.place_of(id)?;
        let slot = self.map.get_index_mut(index)?;
        let object = slot.object.take()?;
        if slot.place.is_some() {
            return Some(object);
        }
        self.map.swap_remove_index(index);
        Some(object)
    }

    /// Keeps where the name for an id is, also for an id that no object has.
    pub(crate) fn keep_place(&mut self, id: ObjId, place: EntryPlace) -> Result<(), AllocError>
        ensures kept { OnOk result ((other : ℕ) → place_in self.new other
            ≡ (if id == other then Some place else place_in self.old other)) }
        ensures unchanged { OnErr result (KeepPlaces self.old self.new) }
        ensures objects { objects_in self.new ≡ objects_in self.old }
        ensures filled { StayFilled self.old self.new }
    {
        if let Some(slot) = self.slot_mut(id) {
            slot.place = Some(place);
            return Ok(());
        }
        let slot = Slot {
            object: None,
            place: Some(place),
        };
        self.map.insert(id.0, slot)?;
        Ok(())
    }

    /// Forgets where the name for an id is.
    pub(crate) fn forget_place(&mut self, id: ObjId)
        ensures forgotten { (other : ℕ) → place_in self.new other
            ≡ (if id == other then None else place_in self.old other) }
        ensures objects { objects_in self.new ≡ objects_in self.old }
        ensures filled { StayFilled self.old self.new }
    {
        let Some(slot) = self.slot_mut(id) else {
            return;
        };
        slot.place = None;
        if slot.object.is_none() {
            self.clear(id);
        }
    }

    // Takes the slot of an id out.
    fn clear(&mut self, id: ObjId)
        ensures { (other : ℕ) → get nat_eq self.new.map other
            ≡ (if id == other then None else get nat_eq self.old.map other) }
    {
        self.map.swap_remove(&id.0);
    }

    /// Forgets the places of the names that lie in an object.
    pub(crate) fn forget_names(&mut self, stored: &StoredObject<F, I>)
        ensures forgotten { (id : ℕ) → place_in self.new id
            ≡ (if list_any (λ entry. entry.object == id) (entries_in stored.now.body) then None
            else place_in self.old id) }
        ensures objects { objects_in self.new ≡ objects_in self.old }
        ensures filled { StayFilled self.old self.new }
    {
        let StoredBody::Directory(dir, _) = &stored.body else {
            return;
        };
        for entry in dir.iter() {
            self.forget_place(entry.object);
        }
    }
}

impl<F: Drop, I: Copied> Slots<F, I> {
    /// Other slots with the same objects and places, which have the faces in common. The only error is out of memory.
    pub(crate) fn copy(&self) -> Result<Slots<F, I>, AllocError>
        ensures objects { IfOk result (λ copy.
            ShowsTheSame (objects_in self.now) (objects_in copy)) }
        ensures places { IfOk result (λ copy. KeepPlaces self.now copy) }
        ensures filled { IfOk result (λ copy. StayFilled self.now copy) }
    {
        Ok(Slots {
            map: self.map.clone()?,
            guesses: self.guesses,
        })
    }
}

/// Whether an id is at a place.
#[inline(always)]
fn is_at<V>(map: &IndexMap<u64, V>, place: usize, id: ObjId) -> bool
    ensures { IsTrue result → IsPlaceOf id map.now.entries (Some place) }
{
    match map.get_index(place) {
        Some((key, _)) => *key == id.0,
        None => false,
    }
}

/// Where an id is, searched for by its hash.
#[inline(never)]
fn searched_place<V>(map: &IndexMap<u64, V>, id: ObjId) -> Option<usize>
    ensures { IsPlaceOf id map.now.entries result }
{
    let (place, _, _) = map.get_full(&id.0)?;
    Some(place)
}
