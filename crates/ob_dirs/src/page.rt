//! Pages of a directory.

ghost use Rattle.std.specs.Prelude.{◌≡◌, ◌≤◌, ◌<◌, ◌^◌, ℕ, List, length, map, IsOk, IfOk};
ghost use Rattle.ob_model.specs.Enumeration.{room_of};
ghost use Rattle.ob_dirs.specs.Page.{
  IsPage,
  fit_of,
  TellsLengths,
  entries_behind,
  page_status,
  page_told,
  room_behind,
  shown_entry,
};

use crate::runs::EntriesBehind;
use crate::{Dir, DirEntries, DirEntry};
use ob_base::{Fault, ObjId, Status};

/// A page of a directory: its entries after a context, as many as fit into a room.
///
/// Source: ZwQueryDirectoryObject (Windows Driver Kit); that a context is a stamp is this profile.
#[derive(Drop)]
pub struct DirPage<'a> {
    /// `NoMoreEntries` where no entry is left, `BufferTooSmall` where the first doesn't fit, `MoreEntries`
    /// where more are left than are shown and not one alone was asked for, else `Success`.
    pub status: Status,
    /// The entries that are shown, by rising stamps: those of the directory, each with its name and its object.
    pub entries: DirEntries<'a>,
    /// The stamp of the last entry shown, after which the next page begins; where none is shown, the
    /// context that was used.
    pub context: u64,
}

impl Dir {
    /// A page of the directory after a context, which may be any number: of the entries of a greater stamp,
    /// by rising stamps, as many as fit into the room, or the first alone for a single one. An entry takes
    /// 4 bytes of the room, and the lengths of its name and of the name of its object's type, which `len_of`
    /// gives for one entry after another. Where the page begins is sought as in a sorted list; then only what
    /// is shown is looked at, and the first entry that isn't.
    ///
    /// The only fault is `Memory`. A page lends its entries and takes no memory, so it is always `Ok`.
    ///
    /// Source: ZwQueryDirectoryObject (Windows Driver Kit); the size of an entry, and that a context is a
    /// stamp, are this profile.
    pub fn after<F: FnMut(ObjId) -> usize>(
        &self,
        context: u64,
        room: u32,
        single: bool,
        len_of: F,
    ) -> Result<DirPage<'_>, Fault>
        requires { F.IsAlwaysCallable len_of }
        ensures page { IfOk result (λ page. (type_name : ℕ → List ℕ) → TellsLengths (λ f id n g.
            F.step f id n g) len_of type_name
            → IsPage (page_told type_name self.now context room single)
            (entries_behind self.now context) page) }
        ensures no_memory { IsOk result }
    {
        let fit = fitting(self.behind(context), context, room as usize, single, len_of);
        Ok(DirPage {
            status: page_status(&fit, single),
            entries: DirEntries::new(self.behind(context), fit.count),
            context: fit.context,
        })
    }
}

// How many entries a page shows from the first one on, whether one is left after them, and the stamp of the last, or
// the context before them where none is shown.
#[derive(Drop)]
struct Fit {
    count: usize,
    more: bool,
    context: u64,
}

// Of these entries those that a page shows: as many as fit into the room, or the first of them alone.
fn fitting<F: FnMut(ObjId) -> usize>(
    mut behind: EntriesBehind<'_>,
    context: u64,
    room: usize,
    single: bool,
    mut len_of: F,
) -> Fit
    requires called { F.IsAlwaysCallable len_of }
    requires counted { length behind < 2 ^ 64 }
    ensures fit { (type_name : ℕ → List ℕ) → TellsLengths (λ f id n g.
        F.step f id n g) len_of type_name
        → result
        ≡ fit_of (map (shown_entry type_name) behind.entry) 0 context room single }
    ensures within { result.count ≤ length behind.entry }
{
    let mut fit = Fit {
        count: 0,
        more: false,
        context,
    };
    let mut free = room;
    while let Some(entry) = behind.next() {
        let type_length = len_of(entry.object);
        let Some(less) = room_behind(entry, type_length, free) else {
            fit.more = true;
            return fit;
        };
        free = less;
        fit.count += 1;
        fit.context = entry.stamp;
        if single {
            return fit;
        }
    }
    fit
}

// The room that is left after an entry, whose type's name has this length; none where it doesn't fit.
fn room_behind(entry: &DirEntry, type_length: usize, room: usize) -> Option<usize>
    ensures { (type_name : ℕ → List ℕ) → type_length ≡ length (type_name entry.now.object)
        → result ≡ room_behind (room_of (shown_entry type_name entry.now)) room }
{
    let without_name = room
        .checked_sub(4)?
        .checked_sub(entry.name.as_slice().len())?;
    without_name.checked_sub(type_length)
}

// The status of a page that shows so many entries.
fn page_status(fit: &Fit, single: bool) -> Status
    ensures { result ≡ page_status fit.now single }
{
    if fit.count == 0 && fit.more {
        return Status::BufferTooSmall;
    }
    if fit.count == 0 {
        return Status::NoMoreEntries;
    }
    if !single && fit.more {
        return Status::MoreEntries;
    }
    Status::Success
}
