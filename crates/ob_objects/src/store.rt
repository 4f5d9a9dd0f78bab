//! The store.

ghost use Rattle.std.specs.Prelude.{◌≡◌, ◌≢◌, ◌<◌, ◌==◌, [], length, None, Some};
ghost use Rattle.std.specs.Prelude.{All, IsSome, IfOk, IfErr, OnErr};
ghost use Rattle.std.specs.Prelude.{false};
ghost use Rattle.std.specs.List.{find, list_any};
ghost use Rattle.std.specs.Option.{option_and_then, option_copied, option_map, option_map_or};
ghost use Rattle.ob_model.specs.Settle.{has_shadow};
ghost use Rattle.ob_model.specs.State.{is_directory_body, shadow_in};
ghost use Rattle.ob_objects.specs.Store.{IsStore, stored_at, directory_at, entries_in, entries_at, place_at};
ghost use Rattle.ob_objects.specs.Store.{objects_of, rows_of};
ghost use Rattle.ob_objects.specs.Types.{KeepsTypes};
ghost use Rattle.ob_objects.specs.Named.{row_of_named, IsLastBefore, IsFirstFrom};
ghost use Rattle.ob_objects.specs.Standing.{standing_at};
ghost use Rattle.ob_objects.specs.Changes.{with_entry, without_object, with_name, without_name, with_permanence};
ghost use Rattle.ob_objects.specs.Changes.{
  refusal_to_open,
  with_opened,
  set_after_open,
  with_closed,
  set_after_close,
};

use crate::slots::Slots;
use crate::types::StoredType;
use crate::walk::Walk;
use crate::{EntryPlace, Named, Standing, StoredObject, changes, named, shadows, types};
use ob_base::ObjId;
use ob_handles::Counts;
use ob_names::NameBuf;
use ob_types::{Copied, Reason, TypeSet};
use std::alloc::{AllocError, Global};
use std::collections::BTreeMap;
use std::marker::Model;

/// The objects of a namespace under a set of types, by their ids. A contract sees a store as the
/// list of its entries by rising ids, each an id and what is stored under it; no id is there twice.
///
/// A store says nothing of which object is the root, nor that a name's object is there: that is for
/// the code that fills it.
///
/// With each name a store keeps its place, in the slot of the object that it names, so that the name of an
/// object is not searched for. No object has two names. A slot is found by its id in a time that doesn't grow
/// with the store. The types of objects are in a map of their own by rising ids, in which they lie close together,
/// so that a listing of a directory doesn't touch the objects.
///
/// Source: Windows Internals, Object Manager: object headers and bodies; the ids are this profile.
#[derive(Drop)]
pub struct Store<T: TypeSet> {
    slots: Slots<T::Face, T::Inner>,
    types: BTreeMap<u64, StoredType<T::Kind>>,
    // How many directories have each object as their shadow.
    shadows: Counts,
}

impl<T: TypeSet> Model for Store<T> {
    ghost use Rattle.ob_objects.specs.Slots.{objects_in};
    ghost use Rattle.ob_objects.specs.Store.{Entries};
    ghost use Rattle.ob_objects.specs.Kept.{Keeps};
    ghost use Rattle.ob_objects.specs.Shadows.{CountsShadows};

    ghost Value = { Entries T.Face T.Inner };

    ghost view = { λ store. objects_in store.slots };

    ghost invariant = { λ store. Keeps T.procedures store.slots store.types.entries
        × CountsShadows store.types.entries store.shadows };
}

impl<T: TypeSet> Store<T>
where
    T::Inner: Copied,
{
    /// Another store with the same objects under the same names. It takes a time that grows with both. The only error
    /// is out of memory. (this profile)
    pub fn copy(&self) -> Result<Store<T>, AllocError>
        ensures objects { IfOk result (λ copy. objects_of copy ≡ objects_of self.now) }
        ensures rows { IfOk result (λ copy. rows_of copy ≡ rows_of self.now) }
    {
        Ok(Store {
            slots: self.slots.copy()?,
            types: self.types.clone()?,
            shadows: self.shadows.copy()?,
        })
    }
}

impl<T: TypeSet> Store<T> {
    /// A store with no object. Takes no memory.
    pub fn new(alloc: Global) -> Store<T>
        ensures { result ≡ [] }
    {
        Store {
            slots: Slots::new(alloc),
            types: BTreeMap::new(alloc),
            shadows: Counts::new(alloc),
        }
    }

    /// How many objects there are. Takes no memory.
    pub fn len(&self) -> usize
        ensures count { result ≡ length self.now }

        // The invariant of every store.
        ensures store { IsStore self.now }
    {
        self.types.len()
    }

    /// Whether there is no object. Takes no memory.
    pub fn is_empty(&self) -> bool
        ensures { result ≡ (length self.now == 0) }
    {
        self.len() == 0
    }

    /// The object that is stored under an id, and `None` exactly where there is none. Takes no memory.
    pub fn get(&self, id: ObjId) -> Option<&StoredObject<T::Face, T::Inner>>
        ensures stored { option_copied result ≡ stored_at self.now id }

        // The invariant of every store.
        ensures store { IsStore self.now }
    {
        self.slots.object(id)
    }

    /// Whether an object is there and is a directory. Takes no memory.
    pub fn is_directory(&self, id: ObjId) -> bool
        ensures { result ≡ option_map_or (λ object. is_directory_body object.body)
            (find (λ object. object.id == id) (objects_of self.now)) false }
    {
        match self.get(id) {
            Some(stored) => changes::is_directory(stored),
            None => false,
        }
    }

    /// The shadow of a directory: `None` where the object isn't there, is no directory, or has no shadow. It takes no memory.
    ///
    /// Source: Windows Internals, Object Manager (shadow directories).
    pub fn shadow_of(&self, id: ObjId) -> Option<ObjId>
        ensures { result ≡ option_and_then (λ object. shadow_in object.body)
            (find (λ object. object.id == id) (objects_of self.now)) }
    {
        match self.get(id) {
            Some(stored) => stored.body.shadow(),
            None => None,
        }
    }

    /// Whether an object is the shadow of a directory. It takes no memory, and a time that doesn't grow with the directories.
    ///
    /// Source: Windows Internals, Object Manager (shadow directories).
    pub fn is_shadow(&self, id: ObjId) -> bool
        ensures { result ≡ list_any (λ object. has_shadow id object.body) (objects_of self.now) }
    {
        // The length says that the types are in order.
        let _ = self.types.len();
        self.shadows.get(id) > 0
    }

    /// Whether an object is there and is permanent. Takes no memory.
    pub fn is_permanent(&self, id: ObjId) -> bool
        ensures { result ≡ option_map_or (λ object. object.permanent)
            (find (λ object. object.id == id) (objects_of self.now)) false }
    {
        self.get(id).is_some_and(|stored| stored.permanent)
    }

    /// Whether an object is there and is exclusive. Takes no memory.
    pub fn is_exclusive(&self, id: ObjId) -> bool
        ensures { result ≡ option_map_or (λ object. object.exclusive)
            (find (λ object. object.id == id) (objects_of self.now)) false }
    {
        self.get(id).is_some_and(|stored| stored.exclusive)
    }

    /// Whether a name lies in an object. Takes no memory.
    pub fn holds_names(&self, id: ObjId) -> bool
        ensures { result ≡ list_any (λ row. row.directory == id) (rows_of self.now) }
    {
        match self.get(id) {
            Some(stored) => changes::holds_names(stored),
            None => false,
        }
    }

    /// Whether an object has a name. Takes no memory.
    ///
    /// Source: Windows Internals, Object Manager: object names.
    pub fn has_name(&self, id: ObjId) -> bool
        ensures { result ≡ list_any (λ row. row.object == id) (rows_of self.now) }
    {
        self.place_of(id).is_some()
    }

    /// Where the name of an object is; `None` exactly where no name is for it. Takes no memory.
    ///
    /// Source: Windows Internals, Object Manager: object names; the stamps are this profile.
    pub fn place_of(&self, id: ObjId) -> Option<EntryPlace>
        ensures { result ≡ place_at self.now id }
    {
        self.slots.place(id)
    }

    /// The name of an object: of all its names the one of least stamp, and of two with one stamp that
    /// in the directory of the lesser id. `None` exactly where no name is for it. Takes no memory.
    ///
    /// Source: Windows Internals, Object Manager: object names; the stamps are this profile.
    pub fn name_of(&self, id: ObjId) -> Option<Named<'_>>
        ensures { option_map row_of_named result
            ≡ find (λ row. row.object == id) (rows_of self.now) }
    {
        let place = self.place_of(id)?;
        let stored = self.get(place.directory)?;
        let entry = named::entry_of(stored, place.stamp)?;
        Some(Named {
            directory: place.directory,
            entry,
        })
    }

    /// The facts that decide whether an object stays, found at once: whether it is permanent, whether names lie in it, and where
    /// its name is. Takes no memory.
    ///
    /// Source: Windows Internals, Object Manager (object retention); the stamps are this profile.
    pub fn standing_of(&self, id: ObjId) -> Standing
        ensures standing { result ≡ standing_at self.now id }

        // The invariant of every store.
        ensures store { IsStore self.now }
    {
        let (object, place) = self.slots.both(id);
        Standing {
            permanent: object.is_some_and(|stored| stored.permanent),
            holds_names: object.is_some_and(|stored| changes::holds_names(stored)),
            place,
        }
    }

    /// The greatest id of an object below this one; `None` exactly where no object has a lesser id.
    /// Takes no memory.
    ///
    /// Source: the ids are this profile.
    pub fn last_before(&self, id: ObjId) -> Option<ObjId>
        ensures { IsLastBefore id (objects_of self.now) result }
    {
        let bound = id.0;
        let Some((last, _)) = self.types.range(..bound).next_back() else {
            return None;
        };
        Some(ObjId(*last))
    }

    /// The least id of an object from this one on; `None` exactly where all objects have lesser ids. Takes no
    /// memory.
    ///
    /// Source: the ids are this profile.
    pub fn first_from(&self, id: ObjId) -> Option<ObjId>
        ensures { IsFirstFrom id (objects_of self.now) result }
    {
        let Some((first, _)) = self.types.range(id.0..).next() else {
            return None;
        };
        Some(ObjId(*first))
    }

    // A walk through the types of the objects, by rising ids.
    pub(crate) fn walk(&self) -> Walk<'_, T::Kind>
        ensures { KeepsTypes T.procedures self.now result }
    {
        Walk::through(&self.types)
    }

    /// Stores an object under an id that no object has; it is put in order of ids, before the first of a
    /// greater one. A directory must be empty: names come one by one.
    ///
    /// The only fault is `Memory`; then the object is dropped and nothing has changed.
    ///
    /// Source: the ids are this profile.
    pub fn insert(
        &mut self,
        id: ObjId,
        object: StoredObject<T::Face, T::Inner>,
    ) -> Result<(), AllocError>
        requires free { stored_at self.old id ≡ None }
        requires empty { entries_in object.body ≡ [] }
        ensures put { IfOk result (λ _. self.new ≡ with_entry self.old id object) }
        ensures unchanged { OnErr result (self.new ≡ self.old) }
    {
        match self.try_insert(id, object) {
            Ok(()) => Ok(()),
            Err(_) => Err(AllocError),
        }
    }

    /// Stores an object under an id that no object has, as [`Store::insert`] does, and hands it back where
    /// memory runs out: then nothing has changed, and the caller may try again.
    ///
    /// Source: the ids are this profile.
    pub fn try_insert(
        &mut self,
        id: ObjId,
        object: StoredObject<T::Face, T::Inner>,
    ) -> Result<(), StoredObject<T::Face, T::Inner>>
        requires free { stored_at self.old id ≡ None }
        requires empty { entries_in object.body ≡ [] }
        ensures put { IfOk result (λ _. self.new ≡ with_entry self.old id object) }
        ensures returned { IfErr result (λ back. back ≡ object) }
        ensures unchanged { OnErr result (self.new ≡ self.old) }
    {
        // The length bounds each count.
        let _ = self.types.len();
        let Ok(()) = shadows::count(&mut self.shadows, &object.body) else {
            return Err(object);
        };
        let of = types::type_of::<T>(&object.body);
        let Ok(_) = self.types.insert(id.0, of) else {
            shadows::discount(&mut self.shadows, &object.body);
            return Err(object);
        };
        let Err(back) = self.slots.put_object(id, object) else {
            return Ok(());
        };
        shadows::discount(&mut self.shadows, &back.body);
        self.types.remove(&id.0);
        Err(back)
    }

    /// Takes an object out, with any entries that lie in it, and hands it back; `None` where nothing
    /// is stored under the id, and then nothing changes. Takes no memory.
    pub fn remove(&mut self, id: ObjId) -> Option<StoredObject<T::Face, T::Inner>>
        ensures there { result ≡ stored_at self.old id }
        ensures others { self.new ≡ without_object self.old id }
    {
        let stored = self.slots.take_object(id)?;
        self.types.remove(&id.0);
        self.slots.forget_names(&stored);
        shadows::discount(&mut self.shadows, &stored.body);
        Some(stored)
    }

    /// Puts a name for an object after all entries of a directory, which must be there. That
    /// spelling must be free in it, and the stamp above those of its entries. The object may have
    /// any id, but not a name already.
    ///
    /// The only fault is `Memory`, and then nothing has changed.
    ///
    /// Source: Windows Internals, Object Manager: object directories; the stamps are this profile.
    pub fn insert_name(
        &mut self,
        directory: ObjId,
        stamp: u64,
        name: NameBuf,
        object: ObjId,
    ) -> Result<(), AllocError>
        requires there { IsSome (directory_at self.old directory) }
        requires free { All (λ entry. entry.name ≢ name) (entries_at self.old directory) }
        requires newest { All (λ entry. entry.stamp < stamp) (entries_at self.old directory) }
        requires unnamed { All (λ row. row.object ≢ object) (rows_of self.old) }
        ensures last { IfOk result (λ _. self.new
            ≡ with_name self.old directory
            (record { stamp = stamp; name = name; object = object })) }
        ensures unchanged { OnErr result (self.new ≡ self.old) }
    {
        self.slots
            .keep_place(object, EntryPlace { directory, stamp })?;
        let Some(stored) = self.slots.object_mut(directory) else {
            unreachable!();
        };
        if let Err(fault) = changes::insert_name(stored, stamp, name, object) {
            self.slots.forget_place(object);
            return Err(fault);
        }
        Ok(())
    }

    /// Takes the entry of a stamp out of a directory, and gives `true`; where the directory has none,
    /// or there is no such directory, nothing changes and it gives `false`. Takes no memory.
    ///
    /// Source: Windows Internals, Object Manager: object directories; the stamps are this profile.
    pub fn remove_name(&mut self, directory: ObjId, stamp: u64) -> bool
        ensures there { result
            ≡ list_any (λ entry. entry.stamp == stamp) (entries_at self.old directory) }
        ensures others { self.new ≡ without_name self.old directory stamp }
    {
        self.take_name(directory, stamp).is_some()
    }

    /// Takes the entry of a stamp out of a directory, as [`Store::remove_name`] does, and gives the object that it
    /// named; `None` where there was none, and then nothing changes. Takes no memory.
    ///
    /// Source: Windows Internals, Object Manager: object directories; the stamps are this profile.
    pub fn take_name(&mut self, directory: ObjId, stamp: u64) -> Option<ObjId>
        ensures there { result ≡ option_map (λ entry. entry.object)
            (find (λ entry. entry.stamp == stamp) (entries_at self.old directory)) }
        ensures others { self.new ≡ without_name self.old directory stamp }
    {
        let stored = self.slots.object_mut(directory)?;
        let entry = changes::remove_name(stored, stamp)?;
        self.slots.forget_place(entry.object);
        Some(entry.object)
    }

    /// Makes an object permanent or temporary; where there is none, nothing changes. Takes no memory.
    ///
    /// Source: Windows Driver Kit, ZwMakePermanentObject and ZwMakeTemporaryObject.
    pub fn set_permanent(&mut self, id: ObjId, permanent: bool)
        ensures { self.new ≡ with_permanence self.old id permanent }
    {
        let Some(stored) = self.slots.object_mut(id) else {
            return;
        };
        stored.permanent = permanent;
    }

    /// Calls the set's open procedure for an object. It may refuse, with a number of its own, and
    /// then nothing has changed. For a directory, a link, or where there is no object, nothing is
    /// called, nothing changes and the open is accepted. Takes no memory.
    ///
    /// Source: Windows Internals, Object Manager: open methods.
    pub fn open(&mut self, id: ObjId, set: &mut T, reason: Reason) -> Result<(), u16>
        ensures accepted { IfOk result (λ _.
            refusal_to_open T.procedures self.old set.old id reason ≡ None) }
        ensures refused { IfErr result (λ code.
            refusal_to_open T.procedures self.old set.old id reason ≡ Some code) }
        ensures opened { self.new ≡ with_opened T.procedures self.old set.old id reason }
        ensures set { set.new ≡ set_after_open T.procedures self.old set.old id reason }
        ensures unchanged { OnErr result (self.new ≡ self.old) }
        ensures set_unchanged { OnErr result (set.new ≡ set.old) }
    {
        let Some(stored) = self.slots.object_mut(id) else {
            return Ok(());
        };
        changes::open(stored, set, reason)
    }

    /// Calls the set's close procedure for an object, given the handles to it that are left in the
    /// process and in the whole system. For a directory, a link, or where there is no object,
    /// nothing is called and nothing changes. Takes no memory.
    ///
    /// Source: Windows Internals, Object Manager: close methods.
    pub fn close(&mut self, id: ObjId, set: &mut T, process_left: u32, system_left: u32)
        ensures closed { self.new
            ≡ with_closed T.procedures self.old set.old id process_left system_left }
        ensures set { set.new
            ≡ set_after_close T.procedures self.old set.old id process_left system_left }
    {
        let Some(stored) = self.slots.object_mut(id) else {
            return;
        };
        changes::close(stored, set, process_left, system_left);
    }
}
