//! Sorts of parts, and where bytes stop being parts of given sorts.

ghost use Rattle.std.specs.Prelude.{◌≡◌, ◌≤◌, ◌↔◌, ℕ, List, length, IsTrue, IfSome, IfNone};
ghost use Rattle.ob_parts.specs.Stops.{AreParts, BeginsWithPart, IsLastPart, StopsAt, last_text, part_text};

use crate::handle::handle_of;
use crate::kind::{take_kind, take_want};
use crate::page::{mode_of, take_room};
use crate::parts::{take_flags, take_name, take_place, take_text, variable_set};
use crate::process::{process_set, take_handle, take_inherit, take_process};
use crate::text::is_variable;

/// A sort of parts that have a space after them. (this profile)
#[derive(Clone, Copy, PartialEq, Eq, Debug)]
pub enum PartForm {
    /// `Q`: a process variable.
    Process,
    /// `H`: a handle.
    Handle,
    /// `NAME`: a name.
    Name,
    /// `PLACE`: a name, or `none`.
    Place,
    /// `KIND`: a kind of objects.
    Kind,
    /// `WANT`: a kind of objects, or `any`.
    Want,
    /// `FLAGS`: flags.
    Flags,
    /// `TEXT`: a text between double quotes.
    Text,
    /// `ROOM`: a decimal number below 2^32.
    Room,
    /// `plain` or `inherit`.
    Inherit,
}

impl PartForm {
    /// The name of the sort in docs/script.md, of at most 16 bytes.
    pub fn text(self) -> &'static [u8]
        ensures text { result.now ≡ part_text self }
        ensures short { length result.now ≤ 16 }
    {
        match self {
            PartForm::Process => b"Q",
            PartForm::Handle => b"H",
            PartForm::Name => b"NAME",
            PartForm::Place => b"PLACE",
            PartForm::Kind => b"KIND",
            PartForm::Want => b"WANT",
            PartForm::Flags => b"FLAGS",
            PartForm::Text => b"TEXT",
            PartForm::Room => b"ROOM",
            PartForm::Inherit => b"plain or inherit",
        }
    }
}

/// A sort of last parts, which have nothing after them. (this profile)
#[derive(Clone, Copy, PartialEq, Eq, Debug)]
pub enum LastForm {
    /// `H`: a handle.
    Handle,
    /// `MODE`: which entries of a directory a line asks for.
    Mode,
    /// `V`: a handle variable.
    Variable,
    /// `=V`: the handle variable that is set.
    SetsVariable,
    /// `=Q`: the process variable that is set.
    SetsProcess,
}

impl LastForm {
    /// The name of the sort in docs/script.md, of at most 4 bytes.
    pub fn text(self) -> &'static [u8]
        ensures text { result.now ≡ last_text self }
        ensures short { length result.now ≤ 4 }
    {
        match self {
            LastForm::Handle => b"H",
            LastForm::Mode => b"MODE",
            LastForm::Variable => b"V",
            LastForm::SetsVariable => b"=V",
            LastForm::SetsProcess => b"=Q",
        }
    }
}

/// Where bytes, at most 262,144, stop being parts of these sorts and a last part of this one: the sorts that are left, the first of which is
/// missing, and the bytes where it should be. None where they are such parts. (this profile)
pub fn stop_of<'a, 'b>(
    parts: &'a [PartForm],
    last: LastForm,
    bytes: &'b [u8],
) -> Option<(&'a [PartForm], &'b [u8])>
    requires { length bytes.now ≤ 262144 }
    ensures found { IfSome result (λ stop.
        StopsAt parts.now last bytes.now stop.0.now stop.1.now) }
    ensures shorter { IfSome result (λ stop. length stop.1.now ≤ length bytes.now) }
    ensures fewer { IfSome result (λ stop. length stop.0.now ≤ length parts.now) }
    ensures none { IfNone result (AreParts parts.now last bytes.now) }
{
    let Some((part, others)) = parts.split_first() else {
        if is_last_part(last, bytes) {
            return None;
        }
        return Some((parts, bytes));
    };
    match rest_after(*part, bytes) {
        Some(rest) => stop_of(others, last, rest),
        None => Some((parts, bytes)),
    }
}

// The bytes after the part of this sort, with which they begin, and a space.
fn rest_after(part: PartForm, bytes: &[u8]) -> Option<&[u8]>
    requires { length bytes.now ≤ 262144 }
    ensures found { IfSome result (λ rest. BeginsWithPart part bytes.now rest.now) }
    ensures shorter { IfSome result (λ rest. length rest.now ≤ length bytes.now) }
    ensures none { IfNone result ((rest : List ℕ) → ¬ BeginsWithPart part bytes.now rest) }
{
    match part {
        PartForm::Process => Some(take_process(bytes)?.1),
        PartForm::Handle => Some(take_handle(bytes)?.1),
        PartForm::Name => Some(take_name(bytes)?.1),
        PartForm::Place => Some(take_place(bytes)?.1),
        PartForm::Kind => Some(take_kind(bytes)?.1),
        PartForm::Want => Some(take_want(bytes)?.1),
        PartForm::Flags => Some(take_flags(bytes)?.1),
        PartForm::Text => Some(take_text(bytes)?.1),
        PartForm::Room => Some(take_room(bytes)?.1),
        PartForm::Inherit => Some(take_inherit(bytes)?.1),
    }
}

// Whether the bytes are a last part of this sort.
fn is_last_part(last: LastForm, bytes: &[u8]) -> bool
    ensures { IsTrue result ↔ IsLastPart last bytes.now }
{
    match last {
        LastForm::Handle => handle_of(bytes).is_some(),
        LastForm::Mode => mode_of(bytes).is_some(),
        LastForm::Variable => is_variable(bytes),
        LastForm::SetsVariable => variable_set(bytes).is_some(),
        LastForm::SetsProcess => process_set(bytes).is_some(),
    }
}
