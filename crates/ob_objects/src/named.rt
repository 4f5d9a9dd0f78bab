//! Names of objects, as a store gives them.

ghost use Rattle.std.specs.Prelude.{◌≡◌, ◌==◌};
ghost use Rattle.std.specs.List.{find};
ghost use Rattle.std.specs.Option.{option_copied};
ghost use Rattle.ob_objects.specs.Store.{entries_in};
ghost use Rattle.ob_objects.specs.Named.{row_of_named};

use crate::{StoredBody, StoredObject};
use ob_base::ObjId;
use ob_dirs::DirEntry;

/// A name of an object: an entry, and the directory that it lies in.
///
/// Source: Windows Internals, Object Manager: object directories; the stamps are this profile.
#[derive(Clone, Copy, Debug)]
pub struct Named<'a> {
    /// The directory that the entry lies in.
    pub directory: ObjId,
    /// The entry: its stamp, its name and the object that it names.
    pub(crate) entry: &'a DirEntry,
}

impl<'a> Named<'a> {
    /// The stamp of the entry, greater than those of all entries that came before it.
    pub fn stamp(&self) -> u64
        ensures { result ≡ (row_of_named self.now).stamp }
    {
        self.entry.stamp
    }

    /// The bytes of the name, in the spelling that was kept: at most 32,767, each from 0x20 to 0x7E.
    pub fn name(&self) -> &'a [u8]
        ensures { result.now ≡ (row_of_named self.now).name }
    {
        self.entry.name.as_slice()
    }
}

/// Where a name is: the directory that its entry lies in, and the entry's stamp.
///
/// Source: Windows Internals, Object Manager: object directories; the stamps are this profile.
#[derive(Clone, Copy, PartialEq, Eq, Debug)]
pub struct EntryPlace {
    /// The directory's id.
    pub directory: ObjId,
    /// The entry's stamp.
    pub stamp: u64,
}

/// The entry of a stamp in an object; none where no entry of that stamp lies in it.
pub(crate) fn entry_of<F, I>(stored: &StoredObject<F, I>, stamp: u64) -> Option<&DirEntry>
    ensures { option_copied result
        ≡ find (λ entry. entry.stamp == stamp) (entries_in stored.now.body) }
{
    match &stored.body {
        StoredBody::Directory(dir, _) => dir.get(stamp),
        _ => None,
    }
}
