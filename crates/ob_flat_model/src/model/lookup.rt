//! Lookups, as the plain model makes them.

use super::{Answer, FlatObject, GLOBAL, Live, Model, ROOT, Spot};
use crate::asks::FlatKind;
use crate::names::{FlatName, FlatPath, letters};
use ob_base::Status;
use std::alloc::AllocError;

// A lookup looks once, and once more after each of 32 reparses.
const LOOKS: u32 = 33;

// The opening state's letter of `??`, which is a process's own view at the beginning of an absolute text.
const VIEW: u8 = b'?';

// How a lookup looks: for a place where something can be made, through a link at the end, and without distinguishing
// capital letters from small ones.
#[derive(Clone, Copy)]
pub(super) struct Look {
    pub(super) makes: bool,
    pub(super) follows: bool,
    pub(super) folds: bool,
}

// The step of a lookup at a component: a directory to go on in, a link to follow, with what follows it, or its end.
#[derive(Clone, Copy)]
enum Step<'a> {
    In(u32),
    Through(FlatPath, &'a [u8]),
    End(Answer),
}

impl Model {
    // The object that has its name in a directory under a letter: of several the first that was named.
    fn entry(&self, directory: u32, letter: u8, folds: bool) -> Option<FlatObject> {
        for object in &self.objects {
            if let Some(spot) = object.spot
                && spot.directory == directory
                && (spot.letter == letter || (folds && spot.letter.eq_ignore_ascii_case(&letter)))
            {
                return Some(*object);
            }
        }
        None
    }

    // The object that is seen in a directory under a letter: what has its name there, or else, where more than own
    // entries is asked for, in its shadow.
    fn seen(&self, directory: u32, letter: u8, own: bool, folds: bool) -> Option<FlatObject> {
        match self.entry(directory, letter, folds) {
            None if !own => self.entry(self.numbered(directory)?.shadow?, letter, folds),
            entry => entry,
        }
    }

    // The object that a process finds by a name, where the handle to a shadow, if one is given, is judged after the
    // root's.
    pub(super) fn found(
        &self,
        live: Live,
        name: FlatName,
        shadow: Option<u32>,
        look: Look,
    ) -> Result<Answer, AllocError> {
        let root = match name.root {
            Some(value) => self.behind(live.number, value),
            None => None,
        };
        if name.root.is_some() && root.is_none() {
            return Ok(Answer::Refused(Status::InvalidHandle));
        }
        if let Some(status) = self.shadow_refusal(live, shadow) {
            return Ok(Answer::Refused(status));
        }
        let mut start = None;
        if let Some(root) = root {
            if !matches!(root.of, FlatKind::Directory) {
                return Ok(Answer::Refused(Status::ObjectTypeMismatch));
            }
            start = Some(root.number);
        }
        let mut text = letters(self.alloc, name.path)?;
        for _ in 0..LOOKS {
            match self.end(live, start, text.as_slice(), look) {
                Step::Through(target, rest) => {
                    let mut next = letters(self.alloc, target)?;
                    next.extend_from_slice(rest)?;
                    (start, text) = (None, next);
                }
                Step::End(answer) => return Ok(answer),
                Step::In(_) => {}
            }
        }
        Ok(Answer::Refused(Status::ReparseLimit))
    }

    // The object at the end of a text, or the first link in it that is followed.
    fn end<'a>(&self, live: Live, start: Option<u32>, text: &'a [u8], look: Look) -> Step<'a> {
        let is_view = start.is_none() && text.first() == Some(&VIEW);
        let mut at = match is_view {
            true => live.map,
            false => start.unwrap_or(ROOT),
        };
        for (place, letter) in text.iter().enumerate().skip(usize::from(is_view)) {
            let rest = text.get(place.wrapping_add(1)..).unwrap_or(&[]);
            let is_shared = is_view && place == 1 && !(look.makes && rest.is_empty());
            match self.step(at, *letter, rest, is_shared, look) {
                Step::In(directory) => at = directory,
                end => return end,
            }
        }
        match self.numbered(at) {
            Some(object) => Step::End(Answer::Found(object, Status::Success)),
            None => Step::End(Answer::Refused(Status::ObjectPathNotFound)),
        }
    }

    // The step of a lookup in a directory under a letter, with a rest after it; what the directory hasn't is looked for
    // in GLOBAL, where that is shared. A device parses the rest, and has a file for none and for one alone.
    fn step<'a>(
        &self,
        at: u32,
        letter: u8,
        rest: &'a [u8],
        is_shared: bool,
        look: Look,
    ) -> Step<'a> {
        let own = look.makes && rest.is_empty();
        let entry = match self.seen(at, letter, own, look.folds) {
            None if is_shared => self.seen(GLOBAL, letter, own, look.folds),
            entry => entry,
        };
        let Some(object) = entry else {
            return Step::End(missing(at, letter, rest.is_empty(), look.makes));
        };
        match object.of {
            FlatKind::Link if !rest.is_empty() || look.follows => Step::Through(
                object.target,
                rest,
            ),
            FlatKind::Device if !look.makes => {
                Step::End(Answer::Waits(matches!(rest, [] | [b'p'])))
            }
            _ if rest.is_empty() => Step::End(Answer::Found(object, Status::Success)),
            FlatKind::Directory => Step::In(object.number),
            _ => Step::End(Answer::Refused(Status::ObjectTypeMismatch)),
        }
    }
}

// A lookup finds nothing under a letter in a directory.
fn missing(directory: u32, letter: u8, is_last: bool, makes: bool) -> Answer {
    match (is_last, makes) {
        (false, _) => Answer::Refused(Status::ObjectPathNotFound),
        (true, false) => Answer::Refused(Status::ObjectNameNotFound),
        (true, true) if directory == ROOT && letter == VIEW => {
            Answer::Refused(Status::ObjectNameInvalid)
        }
        (true, true) => Answer::New(Some(Spot { directory, letter })),
    }
}
