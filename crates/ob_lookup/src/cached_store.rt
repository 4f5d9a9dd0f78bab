//! A store with a cache of the prefixes that lead in it.

ghost use Rattle.std.specs.Prelude.{◌≡◌, ◌≢◌, ◌<◌, ◌+◌, ◌==◌, [], length, None, Some};
ghost use Rattle.std.specs.Prelude.{All, IsOk, IsSome, IfOk, IfErr, OnErr, false};
ghost use Rattle.std.specs.List.{find, list_any};
ghost use Rattle.std.specs.Option.{is_some, option_and_then, option_copied, option_map, option_map_or};
ghost use Rattle.ob_model.specs.Enumeration.{enumerated};
ghost use Rattle.ob_model.specs.Settle.{has_shadow};
ghost use Rattle.ob_model.specs.State.{State, is_directory_body, shadow_in};
ghost use Rattle.ob_objects.specs.Store.{IsStore, Shows, stored_at, directory_of, directory_at, entries_in, entries_at, place_at, objects_of, rows_of};
ghost use Rattle.ob_objects.specs.Listing.{page_given};
ghost use Rattle.ob_objects.specs.Named.{row_of_named, IsFirstFrom};
ghost use Rattle.ob_objects.specs.Standing.{standing_at};
ghost use Rattle.ob_objects.specs.Changes.{with_entry, without_object, with_name, without_name, with_permanence};
ghost use Rattle.ob_objects.specs.Changes.{
  refusal_to_open,
  with_opened,
  set_after_open,
  with_closed,
  set_after_close,
};
ghost use Rattle.ob_lookup.specs.Closed.{IsClosed, IsRootThere, IsViewThere};
ghost use Rattle.ob_lookup.specs.Look.{look_of, LooksUpIn, NameMayWantMemory};

use crate::cached::look_cached;
use crate::removals::{Removals, RemovedName};
use crate::terms::Look;
use ob_base::ObjId;
use ob_devmap::View;
use ob_model::Mode;
use ob_names::{Name, NameBuf};
use ob_objects::{EntryPlace, Named, Page, Standing, Store, StoredBody, StoredObject};
use ob_prefixes::Cache;
use ob_types::{Copied, Reason, TypeSet};
use std::alloc::{AllocError, Global};
use std::marker::Model;

/// A store, with a cache of prefixes by which names are looked up in it: each leads to its directory in the store as it is.
/// A contract sees it as the store alone, so that no answer shows whether the cache was of use.
///
/// These empty the cache: a directory is removed, or loses its name; a name comes into a directory that has a shadow, since it may
/// come before one of the shadow; and a name comes while a prefix of a view is there whose local directory is another
/// than `\GLOBAL??`, since it may come before one of `\GLOBAL??`. All else keeps it: a
/// lookup, an object that comes, with a name or without, one that goes and is no directory, with its name, an object that is
/// opened, closed, or made permanent or temporary. Each method does what that of [`Store`] of the same name does, under its
/// clauses.
///
/// Source: as for [`Store`]; what the cache keeps is this profile.
#[derive(Drop)]
pub struct CachedStore<T: TypeSet> {
    store: Store<T>,
    cache: Cache,
    // How many names there are.
    names: usize,
    removed: Removals,
}

impl<T: TypeSet> Model for CachedStore<T> {
    ghost use Rattle.ob_objects.specs.Store.{Entries};
    ghost use Rattle.std.specs.Prelude.{◌≡◌, length};
    ghost use Rattle.ob_objects.specs.Store.{rows_of};
    ghost use Rattle.ob_lookup.specs.Prefixes.{ArePaths};

    ghost Value = { Entries T.Face T.Inner };

    ghost view = { λ a. a.store };

    ghost invariant = { λ a. ArePaths T.Kind T T.Face T.Inner a.store a.cache × (a.names ≡ length (rows_of a.store)) };
}

impl<T: TypeSet> CachedStore<T> {
    /// A store with no object, and a cache, which is emptied first: what it kept may lead elsewhere here. Takes no
    /// memory. (this profile)
    pub fn new(alloc: Global, cache: Cache) -> CachedStore<T>
        ensures { result ≡ [] }
    {
        let mut cache = cache;
        cache.clear();
        CachedStore {
            store: Store::new(alloc),
            cache,
            names: 0,
            removed: Removals::unlisted(),
        }
    }

    /// How many names there are, of all objects. Takes no memory, and a time that doesn't grow with them.
    ///
    /// Source: Windows Internals, Object Manager: object names.
    pub fn names(&self) -> usize
        ensures { result ≡ length (rows_of self.now) }
    {
        self.names
    }

    /// Lists from now on the names that are removed, with none to begin with. It takes no memory itself; where there is
    /// none for a name that is removed, that one isn't listed. (this profile)
    pub fn list_removed(&mut self, alloc: Global)
        ensures { self.new ≡ self.old }
    {
        self.removed = Removals::listed(alloc);
    }

    /// The names that were removed since listing began or the list was cleared last: a hint for who keeps a copy of the
    /// names, who can see by [`CachedStore::names`] whether one is missing. No name is listed that is still there, but
    /// for one that was put back. (this profile)
    pub fn removed(&self) -> &[RemovedName] {
        self.removed.names()
    }

    /// Clears the list of removed names; where none is kept, nothing changes. Takes no memory. (this profile)
    pub fn clear_removed(&mut self)
        ensures { self.new ≡ self.old }
    {
        self.removed.clear();
    }

    /// Looks a name up in the store as `look` does, by the cache: see [`look_cached`]. The store stays as it is.
    ///
    /// Source: as for `look`; what the cache keeps is this profile.
    pub fn look_up<'a>(
        &mut self,
        alloc: Global,
        view: View,
        root: Option<ObjId>,
        name: Name<'a>,
        mode: Mode,
        budget: u32,
    ) -> Result<Look<'a>, AllocError>
        requires closed { IsClosed self.old }
        requires view { IsViewThere self.old view }
        requires root { IsRootThere self.old root }
        ensures end { IfOk result (λ look.
            LooksUpIn T.procedures self.old view mode budget root name.entry (look_of look)) }
        ensures wants { OnErr result
            (NameMayWantMemory T.procedures self.old view mode root name.entry) }
        ensures unchanged { self.new ≡ self.old }
    {
        let cache = &mut self.cache;
        look_cached(alloc, cache, &self.store, view, root, name, mode, budget)
    }

    /// How many objects there are. Takes no memory.
    pub fn len(&self) -> usize
        ensures count { result ≡ length self.now }

        // The invariant of every store.
        ensures store { IsStore self.now }
    {
        self.store.len()
    }

    /// Whether there is no object. Takes no memory.
    pub fn is_empty(&self) -> bool
        ensures { result ≡ (length self.now == 0) }
    {
        self.store.is_empty()
    }

    /// The value that is stored under an id, and `None` exactly where nothing is. Takes no memory.
    pub fn get(&self, id: ObjId) -> Option<&StoredObject<T::Face, T::Inner>>
        ensures stored { option_copied result ≡ stored_at self.now id }

        // The invariant of every store.
        ensures store { IsStore self.now }
    {
        self.store.get(id)
    }

    /// Whether an object is there and is a directory. Takes no memory.
    pub fn is_directory(&self, id: ObjId) -> bool
        ensures { result ≡ option_map_or (λ object. is_directory_body object.body)
            (find (λ object. object.id == id) (objects_of self.now)) false }
    {
        self.store.is_directory(id)
    }

    /// The shadow of a directory: `None` where the object isn't there, is no directory, or has no shadow. It takes no memory.
    ///
    /// Source: Windows Internals, Object Manager (shadow directories).
    pub fn shadow_of(&self, id: ObjId) -> Option<ObjId>
        ensures { result ≡ option_and_then (λ object. shadow_in object.body)
            (find (λ object. object.id == id) (objects_of self.now)) }
    {
        self.store.shadow_of(id)
    }

    /// Whether an object is the shadow of a directory. It takes no memory, and a time that doesn't grow with the directories.
    ///
    /// Source: Windows Internals, Object Manager (shadow directories).
    pub fn is_shadow(&self, id: ObjId) -> bool
        ensures { result ≡ list_any (λ object. has_shadow id object.body) (objects_of self.now) }
    {
        self.store.is_shadow(id)
    }

    /// Whether an object is there and is permanent. Takes no memory.
    pub fn is_permanent(&self, id: ObjId) -> bool
        ensures { result ≡ option_map_or (λ object. object.permanent)
            (find (λ object. object.id == id) (objects_of self.now)) false }
    {
        self.store.is_permanent(id)
    }

    /// Whether an object is there and is exclusive. Takes no memory.
    pub fn is_exclusive(&self, id: ObjId) -> bool
        ensures { result ≡ option_map_or (λ object. object.exclusive)
            (find (λ object. object.id == id) (objects_of self.now)) false }
    {
        self.store.is_exclusive(id)
    }

    /// Whether a name lies in an object. Takes no memory.
    pub fn holds_names(&self, id: ObjId) -> bool
        ensures { result ≡ list_any (λ row. row.directory == id) (rows_of self.now) }
    {
        self.store.holds_names(id)
    }

    /// Whether an object has a name. Takes no memory. Source: Windows Internals, Object Manager: object names.
    pub fn has_name(&self, id: ObjId) -> bool
        ensures { result ≡ list_any (λ row. row.object == id) (rows_of self.now) }
    {
        self.store.has_name(id)
    }

    /// The place of an object's name; `None` exactly where no name is for it. Takes no memory.
    ///
    /// Source: Windows Internals, Object Manager: object names; the stamps are this profile.
    pub fn place_of(&self, id: ObjId) -> Option<EntryPlace>
        ensures { result ≡ place_at self.now id }
    {
        self.store.place_of(id)
    }

    /// The name of an object, and `None` exactly where no name is for it. Takes no memory.
    ///
    /// Source: Windows Internals, Object Manager: object names; the stamps are this profile.
    pub fn name_of(&self, id: ObjId) -> Option<Named<'_>>
        ensures { option_map row_of_named result
            ≡ find (λ row. row.object == id) (rows_of self.now) }
    {
        self.store.name_of(id)
    }

    /// The facts that decide whether an object stays, found at once. Takes no memory.
    ///
    /// Source: Windows Internals, Object Manager (object retention); the stamps are this profile.
    pub fn standing_of(&self, id: ObjId) -> Standing
        ensures standing { result ≡ standing_at self.now id }

        // The invariant of every store.
        ensures store { IsStore self.now }
    {
        self.store.standing_of(id)
    }

    /// The least id of an object from this one on; `None` exactly where all objects have lesser ids. Takes no memory.
    /// Source: the ids are this profile.
    pub fn first_from(&self, id: ObjId) -> Option<ObjId>
        ensures { IsFirstFrom id (objects_of self.now) result }
    {
        self.store.first_from(id)
    }

    /// A page of a directory, as [`Store::page`] gives it. The only fault is out of memory, which a page that shows
    /// none doesn't take.
    ///
    /// Source: ZwQueryDirectoryObject (Windows Driver Kit); the size of an entry, and that a context is a
    /// stamp, are this profile.
    pub fn page(
        &self,
        alloc: Global,
        directory: ObjId,
        context: u64,
        room: u32,
        single: bool,
    ) -> Result<Page, AllocError>
        ensures page { IfOk result (λ page. (s : State T.Kind T T.Face T.Inner) → Shows s self.now
            → page ≡ page_given (enumerated T.procedures s directory context room single)) }
        ensures empty { (s : State T.Kind T T.Face T.Inner) → Shows s self.now
            → (enumerated T.procedures s directory context room single).entries ≡ [] → IsOk result }
    {
        self.store.page(alloc, directory, context, room, single)
    }

    /// Stores an object under an id that no object has. A directory must be empty: names come one by one. The only
    /// fault is out of memory; then the object is dropped and nothing has changed. Source: the ids are this profile.
    pub fn insert(
        &mut self,
        id: ObjId,
        object: StoredObject<T::Face, T::Inner>,
    ) -> Result<(), AllocError>
        requires free { stored_at self.old id ≡ None }
        requires empty { entries_in object.body ≡ [] }
        ensures put { IfOk result (λ _. self.new ≡ with_entry self.old id object) }
        ensures unchanged { OnErr result (self.new ≡ self.old) }
    {
        self.store.insert(id, object)
    }

    /// Stores an object under an id that no object has, and hands it back where memory runs out: then nothing has
    /// changed, and the caller may try again. Source: the ids are this profile.
    pub fn try_insert(
        &mut self,
        id: ObjId,
        object: StoredObject<T::Face, T::Inner>,
    ) -> Result<(), StoredObject<T::Face, T::Inner>>
        requires free { stored_at self.old id ≡ None }
        requires empty { entries_in object.body ≡ [] }
        ensures put { IfOk result (λ _. self.new ≡ with_entry self.old id object) }
        ensures returned { IfErr result (λ back. back ≡ object) }
        ensures unchanged { OnErr result (self.new ≡ self.old) }
    {
        self.store.try_insert(id, object)
    }

    /// Takes an object out, with any entries that lie in it, and hands it back; `None` where nothing
    /// is stored under the id, and then nothing changes. Takes no memory. Source: the ids are this profile.
    pub fn remove(&mut self, id: ObjId) -> Option<StoredObject<T::Face, T::Inner>>
        ensures there { result ≡ stored_at self.old id }
        ensures others { self.new ≡ without_object self.old id }
    {
        // The contract of the length gives the invariant of every store.
        let _ = self.store.len();
        let stored = self.store.remove(id);
        self.names -= names_in(&stored);
        if is_directory(&stored) {
            self.cache.clear();
        }
        stored
    }

    /// Puts a name for an object after all entries of a directory, which must be there. That
    /// spelling must be free in it, and the stamp above those of its entries. The object may have
    /// any id, but not a name already. The only fault is out of memory, and then nothing has changed.
    ///
    /// Source: Windows Internals, Object Manager: object directories; the stamps are this profile.
    pub fn insert_name(
        &mut self,
        directory: ObjId,
        stamp: u64,
        name: NameBuf,
        object: ObjId,
    ) -> Result<(), AllocError>
        requires there { IsSome (directory_at self.old directory) }
        requires free { All (λ entry. entry.name ≢ name) (entries_at self.old directory) }
        requires newest { All (λ entry. entry.stamp < stamp) (entries_at self.old directory) }
        requires unnamed { All (λ row. row.object ≢ object) (rows_of self.old) }
        ensures last { IfOk result (λ _. self.new
            ≡ with_name self.old directory
            (record { stamp = stamp; name = name; object = object })) }
        ensures unchanged { OnErr result (self.new ≡ self.old) }
    {
        let names = one_more(self.names)?;
        // The contract of the length gives the invariant of every store.
        let _ = self.store.len();
        self.store.insert_name(directory, stamp, name, object)?;
        self.names = names;
        let _ = self.store.len();
        if self.cache.may_be_local() || self.store.shadow_of(directory).is_some() {
            self.cache.clear();
        }
        Ok(())
    }

    /// Takes the entry of a stamp out of a directory, and gives `true`; where the directory has none,
    /// or there is no such directory, nothing changes and it gives `false`. Takes no memory.
    ///
    /// Source: Windows Internals, Object Manager: object directories; the stamps are this profile.
    pub fn remove_name(&mut self, directory: ObjId, stamp: u64) -> bool
        ensures there { result
            ≡ list_any (λ entry. entry.stamp == stamp) (entries_at self.old directory) }
        ensures others { self.new ≡ without_name self.old directory stamp }
    {
        // The contract of the length gives the invariant of every store.
        let _ = self.store.len();
        let Some(object) = self.store.take_name(directory, stamp) else {
            let _ = self.store.len();
            return false;
        };
        self.names -= 1;
        self.removed.list(object, stamp);
        let _ = self.store.len();
        if self.store.is_directory(object) {
            self.cache.clear();
        }
        true
    }

    /// Makes an object permanent or temporary; where there is none, nothing changes. Takes no memory.
    ///
    /// Source: Windows Driver Kit, ZwMakePermanentObject and ZwMakeTemporaryObject.
    pub fn set_permanent(&mut self, id: ObjId, permanent: bool)
        ensures { self.new ≡ with_permanence self.old id permanent }
    {
        self.store.set_permanent(id, permanent);
    }

    /// Calls the set's open procedure for an object. It may refuse, with a number of its own, and
    /// then nothing has changed. For a directory, a link, or where there is no object, nothing is
    /// called, nothing changes and the open is accepted. Takes no memory.
    ///
    /// Source: Windows Internals, Object Manager: open methods.
    pub fn open(&mut self, id: ObjId, set: &mut T, reason: Reason) -> Result<(), u16>
        ensures accepted { IfOk result (λ _.
            refusal_to_open T.procedures self.old set.old id reason ≡ None) }
        ensures refused { IfErr result (λ code.
            refusal_to_open T.procedures self.old set.old id reason ≡ Some code) }
        ensures opened { self.new ≡ with_opened T.procedures self.old set.old id reason }
        ensures set { set.new ≡ set_after_open T.procedures self.old set.old id reason }
        ensures unchanged { OnErr result (self.new ≡ self.old) }
        ensures set_unchanged { OnErr result (set.new ≡ set.old) }
    {
        self.store.open(id, set, reason)
    }

    /// Calls the set's close procedure for an object, given the handles to it that are left in the
    /// process and in the whole system. For a directory, a link, or where there is no object,
    /// nothing is called and nothing changes. Takes no memory.
    ///
    /// Source: Windows Internals, Object Manager: close methods.
    pub fn close(&mut self, id: ObjId, set: &mut T, process_left: u32, system_left: u32)
        ensures closed { self.new
            ≡ with_closed T.procedures self.old set.old id process_left system_left }
        ensures set { set.new
            ≡ set_after_close T.procedures self.old set.old id process_left system_left }
    {
        self.store.close(id, set, process_left, system_left);
    }
}

impl<T: TypeSet> CachedStore<T>
where
    T::Inner: Copied,
{
    /// Another store with the same objects under the same names, and the same list of names that were removed. Its cache
    /// has the same room, and no prefix yet. It takes a time that grows with the objects and names. The only error is
    /// out of memory. (this profile)
    pub fn copy(&self, alloc: Global) -> Result<CachedStore<T>, AllocError>
        ensures objects { IfOk result (λ copy. objects_of copy ≡ objects_of self.now) }
        ensures rows { IfOk result (λ copy. rows_of copy ≡ rows_of self.now) }
    {
        Ok(CachedStore {
            store: self.store.copy()?,
            cache: self.cache.emptied(alloc)?,
            names: self.names,
            removed: self.removed.copy()?,
        })
    }
}

/// A count of names with one more. The only fault is that it has no place for it, as of memory.
fn one_more(names: usize) -> Result<usize, AllocError>
    ensures { IfOk result (λ more. more ≡ names + 1) }
{
    names.checked_add(1).ok_or(AllocError)
}

/// How many names lie in an object that was taken out: none where there was none.
fn names_in<F, I>(taken: &Option<StoredObject<F, I>>) -> usize
    ensures { result ≡ option_map_or (λ stored. length (entries_in stored.body)) taken.now 0 }
{
    match taken {
        Some(
            StoredObject {
                body: StoredBody::Directory(entries, _),
                ..
            },
        ) => entries.len(),
        _ => 0,
    }
}

/// Whether an object was there, and is a directory.
fn is_directory<F, I>(taken: &Option<StoredObject<F, I>>) -> bool
    ensures { result ≡ is_some (option_and_then (λ stored. directory_of stored.body) taken.now) }
{
    match taken {
        Some(stored) => matches!(stored.body, StoredBody::Directory(..)),
        None => false,
    }
}
