//! A request: what a process does in a line.

ghost use Rattle.std.specs.Prelude.{◌≡◌, ◌≤◌, ℕ, Bool, List, Option, length, IfSome, IfNone};
ghost use Rattle.ob_parts.specs.declared.handle.HandleForm.{HandleForm};
ghost use Rattle.ob_parts.specs.declared.kind.KindForm.{KindForm};
ghost use Rattle.ob_parts.specs.declared.page.PageMode.{PageMode};
ghost use Rattle.ob_parts.specs.declared.name.NameForm.{NameForm};
ghost use Rattle.ob_parts.specs.declared.name.PlaceForm.{PlaceForm};
ghost use Rattle.ob_lines.specs.declared.request.Request.{Request};
ghost use Rattle.ob_lines.specs.declared.verb.Verb.{Verb};
ghost use Rattle.ob_lines.specs.Grammar.{IsOperands, IsRequest, IsVerbAndOperands, request_seen, verb_of};

use crate::verb::{Verb, verb_of};
use ob_parts::{
    HandleForm, KindForm, NameForm, PageMode, PlaceForm, flags_and_variable, handle_of, mode_of,
    name_flags_and_variable, place_flags_text_and_variable, process_set, split_at, take_handle,
    take_inherit, take_kind, take_place, take_process, take_room, variable_set,
    want_name_flags_and_variable,
};

/// A request: what a process does in a line. `T` is how bytes are held: as slices of the line, or, in
/// contracts, as lists.
#[derive(Clone, Copy, PartialEq, Eq, Debug)]
pub enum Request<T> {
    /// `dir PLACE FLAGS =V`: a new directory.
    CreateDirectory {
        /// The directory's place.
        place: PlaceForm<T>,
        /// The attribute flags, as raw bits.
        attrs: u32,
        /// The handle variable that is set.
        variable: T,
    },
    /// `shadow H PLACE FLAGS =V`: a new directory with a shadow.
    CreateShadowed {
        /// The handle of the shadow.
        shadow: HandleForm<T>,
        /// The directory's place.
        place: PlaceForm<T>,
        /// The attribute flags, as raw bits.
        attrs: u32,
        /// The handle variable that is set.
        variable: T,
    },
    /// `link PLACE FLAGS TEXT =V`: a new symbolic link.
    CreateLink {
        /// The link's place.
        place: PlaceForm<T>,
        /// The attribute flags, as raw bits.
        attrs: u32,
        /// The text that spells the link's target.
        target: T,
        /// The handle variable that is set.
        variable: T,
    },
    /// `make KIND PLACE FLAGS TEXT =V`: a new object.
    CreateObject {
        /// The kind of the object.
        kind: KindForm,
        /// The object's place.
        place: PlaceForm<T>,
        /// The attribute flags, as raw bits.
        attrs: u32,
        /// The text that spells the object's arguments.
        args: T,
        /// The handle variable that is set.
        variable: T,
    },
    /// `opendir NAME FLAGS =V`: a handle to a directory.
    OpenDirectory {
        /// The directory's name.
        name: NameForm<T>,
        /// The attribute flags, as raw bits.
        attrs: u32,
        /// The handle variable that is set.
        variable: T,
    },
    /// `openlink NAME FLAGS =V`: a handle to a symbolic link, which isn't followed.
    OpenLink {
        /// The link's name.
        name: NameForm<T>,
        /// The attribute flags, as raw bits.
        attrs: u32,
        /// The handle variable that is set.
        variable: T,
    },
    /// `open WANT NAME FLAGS =V`: a handle to an object.
    OpenObject {
        /// The kind that the object must have; none for `any`.
        want: Option<KindForm>,
        /// The object's name.
        name: NameForm<T>,
        /// The attribute flags, as raw bits.
        attrs: u32,
        /// The handle variable that is set.
        variable: T,
    },
    /// `close H`: a handle is closed.
    Close {
        /// The handle.
        handle: HandleForm<T>,
    },
    /// `target H`: the target of a handle's symbolic link.
    QueryLink {
        /// The handle.
        handle: HandleForm<T>,
    },
    /// `name H`: the path of a handle's object.
    QueryName {
        /// The handle.
        handle: HandleForm<T>,
    },
    /// `list H ROOM MODE`: a page of the entries of a handle's directory.
    QueryDirectory {
        /// The handle.
        handle: HandleForm<T>,
        /// The room for the entries, in bytes.
        room: u32,
        /// Whether the listing begins again, and whether one entry alone is asked for.
        mode: PageMode,
    },
    /// `dup H Q plain =V` or `dup H Q inherit =V`: a handle of another process, or of the same, to the
    /// object of a handle.
    Duplicate {
        /// The handle of the requesting process.
        handle: HandleForm<T>,
        /// The process variable of the process that gets the new handle.
        to: T,
        /// Whether the new handle can be inherited.
        inherit: bool,
        /// The handle variable that is set, which is one of the process `to`.
        variable: T,
    },
    /// `temp H`: the object of a handle is made temporary.
    MakeTemporary {
        /// The handle.
        handle: HandleForm<T>,
    },
    /// `perm H`: the object of a handle is made permanent.
    MakePermanent {
        /// The handle.
        handle: HandleForm<T>,
    },
    /// `map H`: the directory of a handle becomes the device map of the process.
    SetDeviceMap {
        /// The handle.
        handle: HandleForm<T>,
    },
    /// `new plain =Q` or `new inherit =Q`: a new process, a child of the requesting one.
    NewProcess {
        /// Whether the child inherits the handles that can be inherited.
        inherit: bool,
        /// The process variable that is set.
        child: T,
    },
    /// `exit`: the requesting process ends.
    ExitProcess,
}

// The request, after the process variable and a space.
pub fn request_of(bytes: &[u8]) -> Option<Request<&[u8]>>
    requires { length bytes.now ≤ 262144 }
    ensures found { IfSome result (λ request. IsRequest bytes.now (request_seen request)) }
    ensures none { IfNone result ((request : Request (List ℕ)) → ¬ IsRequest bytes.now request) }
{
    if bytes == b"exit".as_slice() {
        return Some(Request::ExitProcess);
    }
    verb_and_operands_of(bytes)
}

// The request of a verb, a space and its operands.
fn verb_and_operands_of(bytes: &[u8]) -> Option<Request<&[u8]>>
    requires { length bytes.now ≤ 262144 }
    ensures found { IfSome result (λ request. IsVerbAndOperands bytes.now (request_seen request)) }
    ensures none { IfNone result ((request : Request (List ℕ))
        → ¬ IsVerbAndOperands bytes.now request) }
{
    let (word, operands) = split_at(bytes, b' ')?;
    let verb = verb_of(word)?;
    operands_of(verb, operands)
}

// The request of a verb with these operands.
fn operands_of(verb: Verb, operands: &[u8]) -> Option<Request<&[u8]>>
    requires { length operands.now ≤ 262144 }
    ensures verb { IfSome result (λ request. verb_of (request_seen request) ≡ verb) }
    ensures found { IfSome result (λ request. IsOperands operands.now (request_seen request)) }
    ensures none { IfNone result ((request : Request (List ℕ)) → verb_of request ≡ verb
        → ¬ IsOperands operands.now request) }
{
    match verb {
        Verb::Dir => directory_of(operands),
        Verb::Shadow => shadowed_of(operands),
        Verb::Link => link_of(operands),
        Verb::Make => object_of(operands),
        Verb::OpenDir => open_directory_of(operands),
        Verb::OpenLink => open_link_of(operands),
        Verb::Open => open_object_of(operands),
        Verb::Close => Some(Request::Close {
            handle: handle_of(operands)?,
        }),
        Verb::Target => Some(Request::QueryLink {
            handle: handle_of(operands)?,
        }),
        Verb::Name => Some(Request::QueryName {
            handle: handle_of(operands)?,
        }),
        Verb::List => directory_query_of(operands),
        Verb::Dup => duplicate_of(operands),
        Verb::Temp => Some(Request::MakeTemporary {
            handle: handle_of(operands)?,
        }),
        Verb::Perm => Some(Request::MakePermanent {
            handle: handle_of(operands)?,
        }),
        Verb::Map => Some(Request::SetDeviceMap {
            handle: handle_of(operands)?,
        }),
        Verb::New => new_process_of(operands),
        Verb::Exit => None,
    }
}

// The create of a directory: `PLACE FLAGS =V`.
fn directory_of(operands: &[u8]) -> Option<Request<&[u8]>>
    requires { length operands.now ≤ 262144 }
    ensures verb { IfSome result (λ request. verb_of (request_seen request) ≡ Verb.Dir) }
    ensures found { IfSome result (λ request. IsOperands operands.now (request_seen request)) }
    ensures none { IfNone result ((place : PlaceForm (List ℕ)) (attrs : ℕ) (variable : List ℕ)
        → ¬ IsOperands operands.now (Request.CreateDirectory place attrs variable)) }
{
    let (place, rest) = take_place(operands)?;
    let (attrs, variable) = flags_and_variable(rest)?;
    Some(Request::CreateDirectory {
        place,
        attrs,
        variable,
    })
}

// The create of a directory with a shadow: `H PLACE FLAGS =V`.
fn shadowed_of(operands: &[u8]) -> Option<Request<&[u8]>>
    requires { length operands.now ≤ 262144 }
    ensures verb { IfSome result (λ request. verb_of (request_seen request) ≡ Verb.Shadow) }
    ensures found { IfSome result (λ request. IsOperands operands.now (request_seen request)) }
    ensures none { IfNone result ((shadow : HandleForm (List ℕ)) (place : PlaceForm (List ℕ))
        (attrs : ℕ) (variable : List ℕ)
        → ¬ IsOperands operands.now (Request.CreateShadowed shadow place attrs variable)) }
{
    let (shadow, rest) = take_handle(operands)?;
    let (place, rest) = take_place(rest)?;
    let (attrs, variable) = flags_and_variable(rest)?;
    Some(Request::CreateShadowed {
        shadow,
        place,
        attrs,
        variable,
    })
}

// The create of a symbolic link: `PLACE FLAGS TEXT =V`.
fn link_of(operands: &[u8]) -> Option<Request<&[u8]>>
    requires { length operands.now ≤ 262144 }
    ensures verb { IfSome result (λ request. verb_of (request_seen request) ≡ Verb.Link) }
    ensures found { IfSome result (λ request. IsOperands operands.now (request_seen request)) }
    ensures none { IfNone result ((place : PlaceForm (List ℕ)) (attrs : ℕ) (target variable : List ℕ)
        → ¬ IsOperands operands.now (Request.CreateLink place attrs target variable)) }
{
    let (place, attrs, target, variable) = place_flags_text_and_variable(operands)?;
    Some(Request::CreateLink {
        place,
        attrs,
        target,
        variable,
    })
}

// The create of an object: `KIND PLACE FLAGS TEXT =V`.
fn object_of(operands: &[u8]) -> Option<Request<&[u8]>>
    requires { length operands.now ≤ 262144 }
    ensures verb { IfSome result (λ request. verb_of (request_seen request) ≡ Verb.Make) }
    ensures found { IfSome result (λ request. IsOperands operands.now (request_seen request)) }
    ensures none { IfNone result ((kind : KindForm) (place : PlaceForm (List ℕ)) (attrs : ℕ)
        (args variable : List ℕ)
        → ¬ IsOperands operands.now (Request.CreateObject kind place attrs args variable)) }
{
    let (kind, rest) = take_kind(operands)?;
    let (place, attrs, args, variable) = place_flags_text_and_variable(rest)?;
    Some(Request::CreateObject {
        kind,
        place,
        attrs,
        args,
        variable,
    })
}

// The open of a directory: `NAME FLAGS =V`.
fn open_directory_of(operands: &[u8]) -> Option<Request<&[u8]>>
    requires { length operands.now ≤ 262144 }
    ensures verb { IfSome result (λ request. verb_of (request_seen request) ≡ Verb.OpenDir) }
    ensures found { IfSome result (λ request. IsOperands operands.now (request_seen request)) }
    ensures none { IfNone result ((name : NameForm (List ℕ)) (attrs : ℕ) (variable : List ℕ)
        → ¬ IsOperands operands.now (Request.OpenDirectory name attrs variable)) }
{
    let (name, attrs, variable) = name_flags_and_variable(operands)?;
    Some(Request::OpenDirectory {
        name,
        attrs,
        variable,
    })
}

// The open of a symbolic link: `NAME FLAGS =V`.
fn open_link_of(operands: &[u8]) -> Option<Request<&[u8]>>
    requires { length operands.now ≤ 262144 }
    ensures verb { IfSome result (λ request. verb_of (request_seen request) ≡ Verb.OpenLink) }
    ensures found { IfSome result (λ request. IsOperands operands.now (request_seen request)) }
    ensures none { IfNone result ((name : NameForm (List ℕ)) (attrs : ℕ) (variable : List ℕ)
        → ¬ IsOperands operands.now (Request.OpenLink name attrs variable)) }
{
    let (name, attrs, variable) = name_flags_and_variable(operands)?;
    Some(Request::OpenLink {
        name,
        attrs,
        variable,
    })
}

// The open of an object: `WANT NAME FLAGS =V`.
fn open_object_of(operands: &[u8]) -> Option<Request<&[u8]>>
    requires { length operands.now ≤ 262144 }
    ensures verb { IfSome result (λ request. verb_of (request_seen request) ≡ Verb.Open) }
    ensures found { IfSome result (λ request. IsOperands operands.now (request_seen request)) }
    ensures none { IfNone result ((want : Option KindForm) (name : NameForm (List ℕ)) (attrs : ℕ)
        (variable : List ℕ)
        → ¬ IsOperands operands.now (Request.OpenObject want name attrs variable)) }
{
    let (want, name, attrs, variable) = want_name_flags_and_variable(operands)?;
    Some(Request::OpenObject {
        want,
        name,
        attrs,
        variable,
    })
}

// The query of a directory's entries: `H ROOM MODE`.
fn directory_query_of(operands: &[u8]) -> Option<Request<&[u8]>>
    ensures verb { IfSome result (λ request. verb_of (request_seen request) ≡ Verb.List) }
    ensures found { IfSome result (λ request. IsOperands operands.now (request_seen request)) }
    ensures none { IfNone result ((handle : HandleForm (List ℕ)) (room : ℕ) (mode : PageMode)
        → ¬ IsOperands operands.now (Request.QueryDirectory handle room mode)) }
{
    let (handle, rest) = take_handle(operands)?;
    let (room, rest) = take_room(rest)?;
    let mode = mode_of(rest)?;
    Some(Request::QueryDirectory { handle, room, mode })
}

// The duplicate of a handle: `H Q plain =V` or `H Q inherit =V`.
fn duplicate_of(operands: &[u8]) -> Option<Request<&[u8]>>
    ensures verb { IfSome result (λ request. verb_of (request_seen request) ≡ Verb.Dup) }
    ensures found { IfSome result (λ request. IsOperands operands.now (request_seen request)) }
    ensures none { IfNone result ((handle : HandleForm (List ℕ)) (to : List ℕ) (inherit : Bool)
        (variable : List ℕ)
        → ¬ IsOperands operands.now (Request.Duplicate handle to inherit variable)) }
{
    let (handle, rest) = take_handle(operands)?;
    let (to, rest) = take_process(rest)?;
    let (inherit, rest) = take_inherit(rest)?;
    let variable = variable_set(rest)?;
    Some(Request::Duplicate {
        handle,
        to,
        inherit,
        variable,
    })
}

// A new process: `plain =Q` or `inherit =Q`.
fn new_process_of(operands: &[u8]) -> Option<Request<&[u8]>>
    ensures verb { IfSome result (λ request. verb_of (request_seen request) ≡ Verb.New) }
    ensures found { IfSome result (λ request. IsOperands operands.now (request_seen request)) }
    ensures none { IfNone result ((inherit : Bool) (child : List ℕ)
        → ¬ IsOperands operands.now (Request.NewProcess inherit child)) }
{
    let (inherit, rest) = take_inherit(operands)?;
    let child = process_set(rest)?;
    Some(Request::NewProcess { inherit, child })
}
