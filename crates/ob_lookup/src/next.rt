//! The next step where a walk stops.

ghost use Rattle.std.specs.Prelude.{◌≡◌, IfOk, IfErr, OnErr};
ghost use Rattle.ob_model.specs.Looks as machine;
ghost use Rattle.ob_lookup.specs.Look.{look_of, other_at, next_at, turn_at, turn_of, TurnMayWantMemory};

use crate::start::ROOT;
use crate::walk::Stop;
use crate::{Look, Remainder};
use ob_base::{Fault, ObjId, Status};
use ob_model::Mode;
use ob_names::{Name, NameBuf, substitute};
use std::alloc::{AllocError, Global};

/// The outcome of a stop.
#[derive(Drop)]
pub(crate) enum Next<'a> {
    /// The lookup is over.
    Over(Look<'a>),
    /// This text, which a reparse made, is to be looked up.
    Again(NameBuf),
}

/// Goes on from a stop, with so many reparses left.
pub(crate) fn at_stop<'a>(
    alloc: Global,
    stop: Stop<'a, '_>,
    mode: Mode,
    left: u32,
) -> Result<Next<'a>, AllocError>
    ensures turn { IfOk result (λ next. turn_of next
        ≡ turn_at left (next_at mode left stop.entry)) }
    ensures wants { OnErr result (TurnMayWantMemory (turn_at 0 (next_at mode 0 stop.entry))) }
{
    match stop {
        Stop::Missed {
            directory,
            component,
            last,
        } => Ok(Next::Over(at_miss(mode, directory, component, last))),
        Stop::Directory(id) => Ok(Next::Over(Look::At(id))),
        Stop::Link { id, target, rest } => at_link(alloc, mode, left, id, target, rest),
        Stop::Other { id, rest, parses } => {
            let asked = parses && !mode.create;
            Ok(Next::Over(at_other(left, id, rest, asked)))
        }
    }
}

/// The end of a lookup where a component is missed.
fn at_miss(mode: Mode, directory: ObjId, component: Name<'_>, last: bool) -> Look<'_>
    ensures { machine.at_miss mode directory component.entry last
        ≡ machine.Over (look_of result) }
{
    let bytes = component.as_slice();
    if bytes.is_empty() {
        Look::Refused(Status::ObjectNameInvalid)
    } else if !last {
        Look::Refused(Status::ObjectPathNotFound)
    } else if !mode.create {
        Look::Refused(Status::ObjectNameNotFound)
    } else if directory == ROOT && bytes == b"??".as_slice() {
        Look::Refused(Status::ObjectNameInvalid)
    } else {
        Look::Vacant {
            directory,
            component: Remainder::lent(component),
        }
    }
}

/// Goes on from a link: it is what was named, or it is followed.
fn at_link<'a>(
    alloc: Global,
    mode: Mode,
    left: u32,
    id: ObjId,
    target: Name<'_>,
    rest: Name<'_>,
) -> Result<Next<'a>, AllocError>
    ensures turn { IfOk result (λ next. turn_of next
        ≡ turn_at left (machine.at_link mode id target.entry rest.entry)) }
    ensures wants { OnErr result
        (machine.at_link mode id target.entry rest.entry ≡ machine.Follow target.entry rest.entry) }
{
    let follows = mode.follow && !mode.create;
    if rest.as_slice().is_empty() && !follows {
        return Ok(Next::Over(Look::At(id)));
    }
    follow(alloc, left, target, rest)
}

/// The outcome of a link that is followed.
fn follow<'a>(
    alloc: Global,
    left: u32,
    target: Name<'_>,
    rest: Name<'_>,
) -> Result<Next<'a>, AllocError>
    ensures turn { IfOk result (λ next. turn_of next
        ≡ turn_at left (machine.Follow target.entry rest.entry)) }
{
    if left == 0 {
        return Ok(Next::Over(Look::Refused(Status::ReparseLimit)));
    }
    match substitute(alloc, target.as_slice(), rest.as_slice()) {
        Ok(text) => Ok(Next::Again(text)),
        Err(Fault::Refused(status)) => Ok(Next::Over(Look::Refused(status))),
        Err(Fault::Memory) => Err(AllocError),
    }
}

/// The end of a lookup at an object of the set, which is asked to parse the rest or not.
fn at_other(left: u32, id: ObjId, rest: Name<'_>, asked: bool) -> Look<'_>
    ensures { look_of result ≡ other_at asked id rest.entry left }
{
    if asked {
        Look::Parse {
            object: id,
            rest: Remainder::lent(rest),
            left,
        }
    } else if rest.as_slice().is_empty() {
        Look::At(id)
    } else {
        Look::Refused(Status::ObjectTypeMismatch)
    }
}

/// The same with bytes of its own, where a lookup is over and leaves some. The only fault is out of memory.
pub(crate) fn with_own_bytes<'a>(alloc: Global, next: Next<'_>) -> Result<Next<'a>, AllocError>
    ensures turn { IfOk result (λ owned. turn_of owned ≡ turn_of next.entry) }
{
    match next {
        Next::Over(look) => Ok(Next::Over(look.with_own_bytes(alloc)?)),
        Next::Again(text) => Ok(Next::Again(text)),
    }
}
