//! Pages of directories, as the plain model has them.

use super::{FlatObject, Live, Model};
use crate::asks::{FlatKind, FlatPart, type_name};
use crate::names::spelled;
use ob_base::Status;
use ob_model::{Given, Listed};

// A page of a directory: the stamp after which it begins, that of the last entry that it shows, or the same where it
// shows none, and its status.
#[derive(Clone, Copy)]
pub(super) struct Page {
    start: u64,
    end: u64,
    pub(super) status: Status,
}

impl Model {
    // The page of a directory that a process is shown. An entry takes 4 bytes, and the lengths of its name and of its
    // type's name.
    pub(super) fn page(&self, live: Live, directory: u32, part: FlatPart) -> Page {
        let start = match part.restart {
            true => 0,
            false => live.context,
        };
        let (mut end, mut left, mut is_cut) = (start, part.room as usize, false);
        for object in &self.objects {
            let is_done = is_cut || (part.single && end > start);
            if let Some(name) = shown(*object, directory, start)
                && !is_done
            {
                let room = name.len().wrapping_add(type_name(object.of).len());
                match left.checked_sub(room.wrapping_add(4)) {
                    Some(behind) => (end, left) = (object.stamp, behind),
                    None => is_cut = true,
                }
            }
        }
        let status = match (end > start, is_cut) {
            (true, false) => Status::Success,
            (true, true) => Status::MoreEntries,
            (false, true) => Status::BufferTooSmall,
            (false, false) => Status::NoMoreEntries,
        };
        Page { start, end, status }
    }

    // Whether a page of a directory shows these entries, in their order.
    fn shows(&self, directory: u32, page: Page, entries: &[Listed]) -> bool {
        let mut place: usize = 0;
        for object in &self.objects {
            if let Some(name) = shown(*object, directory, page.start)
                && object.stamp <= page.end
            {
                match entries.get(place) {
                    Some(listed) if is_listed(listed, name, object.of) => {}
                    _ => return false,
                }
                place = place.wrapping_add(1);
            }
        }
        place == entries.len()
    }

    // A process turns to a page of a directory: whether this is what it gives.
    pub(super) fn turn_to(
        &mut self,
        process: u32,
        directory: u32,
        part: FlatPart,
        given: &Given,
    ) -> bool {
        let (Given::Page { entries, context }, Some(live)) = (given, self.live(process)) else {
            return false;
        };
        let page = self.page(live, directory, part);
        self.set(process, None, Some(page.end));
        *context == page.end && self.shows(directory, page, entries.as_slice())
    }
}

// How the name of an object is spelled, where it is in a directory after a stamp.
fn shown(object: FlatObject, directory: u32, stamp: u64) -> Option<&'static [u8]> {
    match object.spot {
        Some(spot) if spot.directory == directory && object.stamp > stamp => {
            Some(spelled(spot.letter))
        }
        _ => None,
    }
}

// Whether an entry is shown by this name, as one of this kind.
fn is_listed(listed: &Listed, name: &[u8], of: FlatKind) -> bool {
    listed.name.as_slice() == name && listed.type_name.as_str() == type_name(of)
}
