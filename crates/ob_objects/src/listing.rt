//! Pages of a directory.

ghost use Rattle.std.specs.Prelude.{◌≡◌, [], map, IsOk, IfOk};
ghost use Rattle.std.specs.Option.{option_copied};
ghost use Rattle.ob_model.specs.State.{State};
ghost use Rattle.ob_model.specs.Enumeration.{enumerated};
ghost use Rattle.ob_objects.specs.Store.{IsStore, Shows, directory_at};
ghost use Rattle.ob_objects.specs.Listing.{entry_listed, page_given};
ghost use Rattle.ob_objects.specs.Types.{type_name_among};

use crate::walk::Walk;
use crate::{Store, StoredBody, types};
use ob_base::{ObjId, Status};
use ob_dirs::{Dir, DirEntries};
use ob_model::{Bytes, Entries, Listed, TypeName};
use ob_types::TypeSet;
use std::alloc::{AllocError, Global};

/// A page of a directory: its entries after a context, as many as fit into a room.
///
/// Source: ZwQueryDirectoryObject (Windows Driver Kit); that a context is a stamp is this profile.
#[derive(Debug, Drop)]
pub struct Page {
    /// `NoMoreEntries` where no entry is left, `BufferTooSmall` where the first doesn't fit, `MoreEntries`
    /// where more are left than are shown and not one alone was asked for, else `Success`.
    pub status: Status,
    /// The entries that are shown, by rising stamps.
    pub entries: Entries,
    /// The stamp of the last entry shown, after which the next page begins; where none is shown, the
    /// context that was used.
    pub context: u64,
}

impl<T: TypeSet> Store<T> {
    /// A page of a directory after a context, which may be any number: of the entries of a greater stamp,
    /// by rising stamps, as many as fit into the room, or the first alone for a single one. An entry takes
    /// 4 bytes of the room, and the lengths of its name and of the name of its type. An object that is no
    /// directory, or isn't there, has no entries. The only fault is out of memory, which a page that shows
    /// none doesn't take.
    ///
    /// Source: ZwQueryDirectoryObject (Windows Driver Kit); the size of an entry, and that a context is a
    /// stamp, are this profile.
    pub fn page(
        &self,
        alloc: Global,
        directory: ObjId,
        context: u64,
        room: u32,
        single: bool,
    ) -> Result<Page, AllocError>
        ensures page { IfOk result (λ page. (s : State T.Kind T T.Face T.Inner) → Shows s self.now
            → page ≡ page_given (enumerated T.procedures s directory context room single)) }
        ensures empty { (s : State T.Kind T T.Face T.Inner) → Shows s self.now
            → (enumerated T.procedures s directory context room single).entries ≡ [] → IsOk result }
    {
        let Some(dir) = self.directory_at(directory) else {
            return Ok(Page {
                status: Status::NoMoreEntries,
                entries: Entries::new(Vec::new(alloc)),
                context,
            });
        };
        let mut walk = self.walk();
        let told = dir.after(context, room, single, |id| {
            type_name_at::<T>(&mut walk, id).len()
        });
        let Ok(page) = told else {
            return Err(AllocError);
        };
        let entries = self.listed(alloc, page.entries)?;
        Ok(Page {
            status: page.status,
            entries: Entries::new(entries),
            context: page.context,
        })
    }

    /// The entries of the directory that has this id, where one has it. It takes no memory.
    ///
    /// Source: Windows Internals, Object Manager: object directories.
    pub fn directory_at(&self, id: ObjId) -> Option<&Dir>
        ensures found { option_copied result ≡ directory_at self.now id }
        ensures store { IsStore self.now }
    {
        match &self.get(id)?.body {
            StoredBody::Directory(dir, _) => Some(dir),
            _ => None,
        }
    }

    // Entries of a directory, with the names of their objects' types.
    fn listed(&self, alloc: Global, shown: DirEntries<'_>) -> Result<Vec<Listed>, AllocError>
        ensures all { IfOk result (λ items. items.items
            ≡ map (entry_listed T.procedures self.now) shown.entry) }
        ensures none { shown.entry ≡ [] → IsOk result }
    {
        let mut walk = self.walk();
        let mut items = Vec::with_capacity(alloc, shown.len())?;
        for entry in shown {
            let type_name = TypeName::new(type_name_at::<T>(&mut walk, entry.object));
            let Ok(name) = Bytes::from_slice(alloc, entry.name.as_slice()) else {
                return Err(AllocError);
            };
            items.push(Listed { name, type_name })?;
        }
        Ok(items)
    }
}

// The name of the type of an object that a walk comes to; the empty text where there is none.
fn type_name_at<T: TypeSet>(walk: &mut Walk<'_, T::Kind>, id: ObjId) -> &'static str
    ensures told { result.now ≡ type_name_among T.procedures walk.old id }
    ensures unchanged { walk.new ≡ walk.old }
{
    match walk.get(id) {
        Some(of) => types::name_of::<T>(of),
        None => "",
    }
}
