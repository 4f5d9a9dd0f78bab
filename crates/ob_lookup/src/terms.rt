//! How a lookup ends.

ghost use Rattle.std.specs.Prelude.{◌≡◌, ◌≤◌, length, IsOk, IfOk};
ghost use Rattle.ob_lookup.specs.Look.{look_of};

use ob_base::{ObjId, Status};
use ob_names::{Name, NameBuf};
use std::alloc::{AllocError, Global};
use std::marker::Model;

/// How a lookup ends. (this profile)
#[derive(Debug, Drop)]
pub enum Look<'a> {
    /// An object.
    At(ObjId),
    /// A vacant place, for a create.
    Vacant {
        /// The directory that the new entry is to be in.
        directory: ObjId,
        /// The component, which is to be the entry's name.
        component: Remainder<'a>,
    },
    /// An object whose kind parses, for an open: its parse procedure is to be asked.
    Parse {
        /// The object.
        object: ObjId,
        /// The rest of the name after it, which may be nothing.
        rest: Remainder<'a>,
        /// The reparses that are left.
        left: u32,
    },
    /// A refusal, with its status.
    Refused(Status),
}

impl<'a> Look<'a> {
    /// The same end with bytes of its own, where it leaves some of the name. The only fault is out of memory.
    pub(crate) fn with_own_bytes<'b>(self, alloc: Global) -> Result<Look<'b>, AllocError>
        ensures { IfOk result (λ look. look_of look ≡ look_of self.entry) }
    {
        match self {
            Look::At(id) => Ok(Look::At(id)),
            Look::Vacant {
                directory,
                component,
            } => Ok(Look::Vacant {
                directory,
                component: component.owned(alloc)?,
            }),
            Look::Parse { object, rest, left } => Ok(Look::Parse {
                object,
                rest: rest.owned(alloc)?,
                left,
            }),
            Look::Refused(status) => Ok(Look::Refused(status)),
        }
    }
}

/// The rest of a name that a lookup leaves: at most 32,767 bytes, each from 0x20 to 0x7E. It is lent from the name that
/// was looked up, or, where it is left of a text that a reparse made, its bytes are its own. A contract sees a
/// `Remainder` as the list of its bytes. (this profile)
#[derive(Debug, Drop)]
pub struct Remainder<'a> {
    part: Part<'a>,
}

/// Whose the bytes of a remainder are.
#[derive(Debug, Drop)]
pub(crate) enum Part<'a> {
    /// Those of the name that was looked up.
    Lent(Name<'a>),
    /// Its own.
    Owned(NameBuf),
}

impl<'a> Model for Remainder<'a> {
    ghost use Rattle.std.specs.Prelude.{List, ℕ};
    ghost use Rattle.ob_lookup.specs.Remainder.{bytes_of};

    ghost Value = { List ℕ };

    ghost view = { λ remainder. bytes_of remainder.part };
}

impl<'a> Remainder<'a> {
    /// A part of the name that was looked up.
    pub(crate) fn lent(part: Name<'a>) -> Remainder<'a>
        ensures { result ≡ part.entry }
    {
        Remainder {
            part: Part::Lent(part),
        }
    }

    /// A copy with bytes of its own. The only error is out of memory.
    pub(crate) fn owned<'b>(self, alloc: Global) -> Result<Remainder<'b>, AllocError>
        ensures { IfOk result (λ owned. owned ≡ self.entry) }
    {
        Ok(Remainder {
            part: Part::Owned(self.into_name(alloc)?),
        })
    }

    /// The remainder's bytes.
    pub fn as_slice(&self) -> &[u8]
        ensures { result.now ≡ self.now }
    {
        match &self.part {
            Part::Lent(name) => name.as_slice(),
            Part::Owned(name) => name.as_slice(),
        }
    }

    /// The remainder as a name that owns its bytes: a copy, where they are lent. The only error is out of memory,
    /// which up to 16 bytes don't take.
    pub fn into_name(self, alloc: Global) -> Result<NameBuf, AllocError>
        ensures name { IfOk result (λ name. name ≡ self.entry) }
        ensures no_memory { length self.entry ≤ 16 → IsOk result }
    {
        match self.part {
            Part::Lent(name) => NameBuf::from_name(alloc, name),
            Part::Owned(name) => Ok(name),
        }
    }
}
