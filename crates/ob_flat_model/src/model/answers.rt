//! The answers of the plain model to commands.

use super::{Answer, FlatObject, Live, Model};
use crate::asks::{
    Ask, CASE_INSENSITIVE, Deed, EXCLUSIVE, FLAGS, FlatKind, INHERIT, LARGEST_ROOM, OPENIF,
    OPENLINK, Waiting, is_wanted,
};
use crate::model::lookup::Look;
use crate::names::FlatName;
use ob_base::Status;
use std::alloc::AllocError;

impl Model {
    // The status that a command of a process gets, and the object with which it gets it.
    pub(super) fn answer(&self, process: u32, ask: Ask) -> Result<Answer, AllocError> {
        let Some(live) = self.live(process) else {
            return Ok(Answer::Refused(Status::ProcessGone));
        };
        match ask {
            Ask::Make {
                of,
                name,
                attrs,
                shadow,
                ..
            } => self.named(live, name, Some(of), attrs, shadow, true),
            Ask::Open { want, name, attrs } => {
                self.named(live, Some(name), want, attrs, None, false)
            }
            Ask::Use { value, deed } => Ok(self.used(live, value, deed)),
            Ask::Begin { .. } | Ask::Exit => Ok(Answer::Done),
        }
    }

    // The answer for a name to a create, with the handle to a shadow where one is given, or to an open of a kind.
    fn named(
        &self,
        live: Live,
        name: Option<FlatName>,
        want: Option<FlatKind>,
        attrs: u32,
        shadow: Option<u32>,
        makes: bool,
    ) -> Result<Answer, AllocError> {
        if attrs & !FLAGS != 0 || (attrs & INHERIT != 0 && attrs & EXCLUSIVE != 0) {
            return Ok(Answer::Refused(Status::InvalidParameter));
        }
        let Some(name) = name else {
            return Ok(match self.shadow_refusal(live, shadow) {
                Some(status) => Answer::Refused(status),
                None => Answer::New(None),
            });
        };
        let look = Look {
            makes,
            follows: !makes && attrs & OPENLINK == 0 && !matches!(want, Some(FlatKind::Link)),
            folds: attrs & CASE_INSENSITIVE != 0,
        };
        let answer = self.found(live, name, shadow, look)?;
        let Answer::Found(object, status) = answer else {
            return Ok(answer);
        };
        Ok(match makes {
            true if attrs & OPENIF == 0 => Answer::Refused(Status::ObjectNameCollision),
            _ if !is_wanted(object.of, want) => Answer::Refused(Status::ObjectTypeMismatch),
            true => self.granted(live.number, object, attrs, Status::ObjectNameExists),
            false => self.granted(live.number, object, attrs, status),
        })
    }

    // The refusal of the handle to a shadow, where one is given: what it leads to must be a directory without a shadow.
    pub(super) fn shadow_refusal(&self, live: Live, shadow: Option<u32>) -> Option<Status> {
        match self.behind(live.number, shadow?) {
            None => Some(Status::InvalidHandle),
            Some(object) if !matches!(object.of, FlatKind::Directory) => {
                Some(Status::ObjectTypeMismatch)
            }
            Some(object) => object.shadow.map(|_| Status::InvalidParameter),
        }
    }

    // An open of an object, which is answered with a status.
    fn granted(&self, process: u32, object: FlatObject, attrs: u32, status: Status) -> Answer {
        let (inherit, exclusive) = (attrs & INHERIT != 0, attrs & EXCLUSIVE != 0);
        if (exclusive && !object.is_exclusive) || (inherit && object.is_exclusive) {
            Answer::Refused(Status::InvalidParameter)
        } else if object.is_exclusive && self.is_held(object.number, process) {
            Answer::Refused(Status::AccessDenied)
        } else {
            Answer::Found(object, status)
        }
    }

    // The answer to the use of a handle.
    fn used(&self, live: Live, value: u32, deed: Deed) -> Answer {
        let refusal = match deed {
            Deed::Duplicate { to, .. } if self.live(to).is_none() => Status::ProcessGone,
            Deed::List(part) if part.room > LARGEST_ROOM => Status::InvalidParameter,
            _ => Status::InvalidHandle,
        };
        let object = match self.behind(live.number, value) {
            Some(object) if matches!(refusal, Status::InvalidHandle) => object,
            _ => return Answer::Refused(refusal),
        };
        match (deed, object.of) {
            (Deed::List(part), FlatKind::Directory) => {
                let page = self.page(live, object.number, part);
                Answer::Found(object, page.status)
            }
            (Deed::Map, FlatKind::Directory) | (Deed::Target, FlatKind::Link) => {
                Answer::Found(object, Status::Success)
            }
            (Deed::List(_) | Deed::Map | Deed::Target, _) => {
                Answer::Refused(Status::ObjectTypeMismatch)
            }
            (Deed::Duplicate { to, inherit }, _) => {
                let attrs = if inherit { INHERIT } else { 0 };
                self.granted(to, object, attrs, Status::Success)
            }
            _ => Answer::Found(object, Status::Success),
        }
    }

    // The answer to an open after its parse.
    pub(super) fn end_of(&self, waiting: Waiting) -> Answer {
        let Ask::Open { want, attrs, .. } = waiting.ask else {
            return Answer::Done;
        };
        match (self.live(waiting.process), self.numbered(waiting.number)) {
            (None, _) => Answer::Refused(Status::ProcessGone),
            (_, None) => Answer::Refused(Status::TypeRefused(3)),
            (_, Some(file)) if !is_wanted(file.of, want) => {
                Answer::Refused(Status::ObjectTypeMismatch)
            }
            (_, Some(file)) => self.granted(waiting.process, file, attrs, Status::Success),
        }
    }
}
