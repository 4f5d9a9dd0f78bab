//! The command that a request spells, with the variables that its reply changes.

ghost use Rattle.std.specs.Prelude.{◌≡◌, ◌+◌, min, IfOk, OnErr};
ghost use Rattle.ob_parts.specs.Parts.{offset_value, text_of, name_seen, place_seen, handle_seen};
ghost use Rattle.ob_lines.specs.Changes.{change_of, change_seen};
ghost use Rattle.ob_lines.specs.Grammar.{HasPlaceText, HasTexts, request_seen};
ghost use Rattle.ob_parts.specs.Text.{IsText, Spells};
ghost use Rattle.ob_requests.specs.Room.{Grows, HasRoomFor};
ghost use Rattle.ob_requests.specs.Tables.{variables_in};
ghost use Rattle.ob_requests.specs.Commands.{greatest_named, kind_meant, handle_meant, root_of, IsCommand, IsCreateDirectory, IsCreateShadowed, IsCreateLink, IsCreateObject, IsOpenDirectory, IsOpenLink, IsOpenObject, IsPlace};

use crate::variables::Variables;
use either::Either;
use ob_base::{Handle, Proc};
use ob_device::DeviceKind;
use ob_key::KeyKind;
use ob_lines::{
    Change, HandleForm, KindForm, NameForm, Offset, PlaceForm, Request, decode, offset_value,
};
use ob_model::{Bytes, Command, Place};
use ob_plain::PlainKind;
use ob_standard::StandardKind;
use std::alloc::AllocError;

/// The command that a request spells, and the variables that its reply changes. (this profile)
pub type SpelledCommand<'a> = (Command<StandardKind>, Change<&'a [u8]>);

// A process that asks for something, and the variables of the script.
#[derive(Clone, Copy)]
struct Asker<'a> {
    // The variables of the script.
    variables: &'a Variables,
    // The process.
    process: Proc,
}

// A command, or out of memory.
type CommandOrFault = Result<Command<StandardKind>, AllocError>;

/// The command that a request of a process spells, with the variables of the script, and room for what its reply changes of them: so no reply is
/// lost for lack of memory. No variable changes. The only fault is out of memory: for the texts of a create or an open, where a variable is set, or
/// the context of its page. Source: this profile.
pub fn command_of<'a>(
    variables: &mut Variables,
    process: Proc,
    request: &Request<&'a [u8]>,
) -> Result<SpelledCommand<'a>, AllocError>
    requires texts { HasTexts (request_seen request.now) }
    ensures command { IfOk result (λ spelled. IsCommand (request_seen request.now)
        (variables_in variables.old) process (spelled.0)) }
    ensures change { IfOk result (λ spelled. change_seen (spelled.1)
        ≡ change_of (request_seen request.now)) }
    ensures room { IfOk result (λ spelled. HasRoomFor variables.new process (change_seen (spelled.1))) }
    ensures same { variables_in variables.new ≡ variables_in variables.old }
    ensures grows { OnErr result (Grows (request_seen request.now)) }
{
    let asker = Asker { variables, process };
    let (command, change) = spelled_by(&asker, request)?;
    variables.make_room(process, change)?;
    Ok((command, change))
}

// The command that a request spells, and the variables that its reply changes. A `dup` with inheritance and one without change the same.
fn spelled_by<'a>(
    asker: &Asker<'_>,
    request: &Request<&'a [u8]>,
) -> Result<SpelledCommand<'a>, AllocError>
    requires texts { HasTexts (request_seen request.now) }
    ensures command { IfOk result (λ spelled. IsCommand (request_seen request.now)
        (variables_in asker.now.variables.now) asker.now.process (spelled.0)) }
    ensures change { IfOk result (λ spelled. change_seen (spelled.1)
        ≡ change_of (request_seen request.now)) }
    ensures grows { OnErr result (Grows (request_seen request.now)) }
{
    match *request {
        Request::CreateDirectory {
            place,
            attrs,
            variable,
        } => {
            let command = create_directory(asker, place, attrs)?;
            Ok((command, Change::Sets(variable)))
        }
        Request::CreateShadowed {
            shadow,
            place,
            attrs,
            variable,
        } => {
            let command = create_shadowed(asker, shadow, place, attrs)?;
            Ok((command, Change::Sets(variable)))
        }
        Request::CreateLink {
            place,
            attrs,
            target,
            variable,
        } => {
            let command = create_link(asker, place, attrs, target)?;
            Ok((command, Change::Sets(variable)))
        }
        Request::CreateObject {
            kind,
            place,
            attrs,
            args,
            variable,
        } => {
            let command = create_object(asker, kind, place, attrs, args)?;
            Ok((command, Change::Sets(variable)))
        }
        Request::OpenDirectory {
            name,
            attrs,
            variable,
        } => {
            let command = open_directory(asker, name, attrs)?;
            Ok((command, Change::Sets(variable)))
        }
        Request::OpenLink {
            name,
            attrs,
            variable,
        } => {
            let command = open_link(asker, name, attrs)?;
            Ok((command, Change::Sets(variable)))
        }
        Request::OpenObject {
            want,
            name,
            attrs,
            variable,
        } => {
            let command = open_object(asker, want, name, attrs)?;
            Ok((command, Change::Sets(variable)))
        }
        Request::Close { handle } => {
            let change = Change::GivesUp(handle.variable);
            let handle = handle_meant(asker, handle);
            Ok((Command::Close { handle }, change))
        }
        Request::QueryLink { handle } => {
            let handle = handle_meant(asker, handle);
            Ok((Command::QueryLink { handle }, Change::Nothing))
        }
        Request::QueryName { handle } => {
            let handle = handle_meant(asker, handle);
            Ok((Command::QueryName { handle }, Change::Nothing))
        }
        Request::QueryDirectory { handle, room, mode } => {
            let change = Change::TurnsPage(handle.variable);
            let context = asker.variables.context_of(asker.process, handle.variable);
            let handle = handle_meant(asker, handle);
            let command = Command::QueryDirectory {
                handle,
                context,
                room,
                single: mode.is_single(),
                restart: mode.is_first(),
            };
            Ok((command, change))
        }
        Request::Duplicate {
            handle,
            to,
            inherit,
            variable,
        } => {
            let change = Change::SetsFor {
                process: to,
                variable,
            };
            let handle = handle_meant(asker, handle);
            let to = asker.variables.process_of(to);
            let command = Command::Duplicate {
                handle,
                to,
                inherit,
            };
            Ok((command, change))
        }
        Request::MakeTemporary { handle } => {
            let handle = handle_meant(asker, handle);
            Ok((Command::MakeTemporary { handle }, Change::Nothing))
        }
        Request::MakePermanent { handle } => {
            let handle = handle_meant(asker, handle);
            Ok((Command::MakePermanent { handle }, Change::Nothing))
        }
        Request::SetDeviceMap { handle } => {
            let handle = handle_meant(asker, handle);
            Ok((Command::SetDeviceMap { handle }, Change::Nothing))
        }
        Request::NewProcess { inherit, child } => {
            let change = Change::SetsProcess {
                process: child,
                inherit,
            };
            Ok((Command::NewProcess { inherit }, change))
        }
        Request::ExitProcess => Ok((Command::ExitProcess, Change::GivesAllUp)),
    }
}

// The create of a directory.
fn create_directory(asker: &Asker<'_>, place: PlaceForm<&[u8]>, attrs: u32) -> CommandOrFault
    requires { HasPlaceText (place_seen place) }
    ensures { IfOk result (IsCreateDirectory (place_seen place.entry) attrs
        ((variables_in asker.now.variables.now).values asker.now.process)) }
{
    let place = place_of(asker, place)?;
    Ok(Command::CreateDirectory { place, attrs })
}

// The create of a directory with a shadow.
fn create_shadowed(
    asker: &Asker<'_>,
    shadow: HandleForm<&[u8]>,
    place: PlaceForm<&[u8]>,
    attrs: u32,
) -> CommandOrFault
    requires { HasPlaceText (place_seen place) }
    ensures { IfOk result (IsCreateShadowed (handle_seen shadow.entry) (place_seen place.entry) attrs
        ((variables_in asker.now.variables.now).values asker.now.process)) }
{
    let place = place_of(asker, place)?;
    let shadow = handle_meant(asker, shadow);
    Ok(Command::CreateShadowed {
        place,
        attrs,
        shadow,
    })
}

// The create of a symbolic link.
fn create_link(
    asker: &Asker<'_>,
    place: PlaceForm<&[u8]>,
    attrs: u32,
    target: &[u8],
) -> CommandOrFault
    requires place { HasPlaceText (place_seen place) }
    requires target { IsText target.now }
    ensures { IfOk result (IsCreateLink (place_seen place.entry) attrs target.now
        ((variables_in asker.now.variables.now).values asker.now.process)) }
{
    let place = place_of(asker, place)?;
    let target = decode(asker.variables.alloc, target)?;
    Ok(Command::CreateLink {
        place,
        attrs,
        target,
    })
}

// The create of an object.
fn create_object(
    asker: &Asker<'_>,
    kind: KindForm,
    place: PlaceForm<&[u8]>,
    attrs: u32,
    args: &[u8],
) -> CommandOrFault
    requires place { HasPlaceText (place_seen place) }
    requires args { IsText args.now }
    ensures { IfOk result (IsCreateObject kind (place_seen place.entry) attrs args.now
        ((variables_in asker.now.variables.now).values asker.now.process)) }
{
    let place = place_of(asker, place)?;
    let args = decode(asker.variables.alloc, args)?;
    let kind = kind_meant(kind);
    Ok(Command::CreateObject {
        place,
        attrs,
        kind,
        args,
    })
}

// The open of a directory.
fn open_directory(asker: &Asker<'_>, name: NameForm<&[u8]>, attrs: u32) -> CommandOrFault
    requires { IsText (text_of (name_seen name)) }
    ensures { IfOk result (IsOpenDirectory (name_seen name.entry) attrs
        ((variables_in asker.now.variables.now).values asker.now.process)) }
{
    let root = root_of(asker, name);
    let name = bytes_of(asker, name)?;
    Ok(Command::OpenDirectory { root, name, attrs })
}

// The open of a symbolic link.
fn open_link(asker: &Asker<'_>, name: NameForm<&[u8]>, attrs: u32) -> CommandOrFault
    requires { IsText (text_of (name_seen name)) }
    ensures { IfOk result (IsOpenLink (name_seen name.entry) attrs
        ((variables_in asker.now.variables.now).values asker.now.process)) }
{
    let root = root_of(asker, name);
    let name = bytes_of(asker, name)?;
    Ok(Command::OpenLink { root, name, attrs })
}

// The open of an object.
fn open_object(
    asker: &Asker<'_>,
    want: Option<KindForm>,
    name: NameForm<&[u8]>,
    attrs: u32,
) -> CommandOrFault
    requires { IsText (text_of (name_seen name)) }
    ensures { IfOk result (IsOpenObject want (name_seen name.entry) attrs
        ((variables_in asker.now.variables.now).values asker.now.process)) }
{
    let root = root_of(asker, name);
    let name = bytes_of(asker, name)?;
    let want = want.map(kind_meant);
    Ok(Command::OpenObject {
        root,
        name,
        attrs,
        want,
    })
}

// The kind of the standard set that a line names.
fn kind_meant(kind: KindForm) -> StandardKind
    ensures { result ≡ kind_meant kind }
{
    match kind {
        KindForm::Event => Either::Left(PlainKind::Event),
        KindForm::Mutant => Either::Left(PlainKind::Mutant),
        KindForm::Section => Either::Left(PlainKind::Section),
        KindForm::Device => Either::Right(Either::Left(DeviceKind::Device)),
        KindForm::File => Either::Right(Either::Left(DeviceKind::File)),
        KindForm::Key => Either::Right(Either::Right(KeyKind::Key)),
    }
}

// The place that a line means.
fn place_of(asker: &Asker<'_>, place: PlaceForm<&[u8]>) -> Result<Place, AllocError>
    requires { HasPlaceText (place_seen place) }
    ensures { IfOk result (IsPlace (place_seen place.entry)
        ((variables_in asker.now.variables.now).values asker.now.process)) }
{
    match place {
        PlaceForm::Named(name) => {
            let root = root_of(asker, name);
            let name = bytes_of(asker, name)?;
            Ok(Place::At { root, name })
        }
        PlaceForm::Unnamed => Ok(Place::Unnamed),
    }
}

// The handle that a name is relative to; none for an absolute name.
fn root_of(asker: &Asker<'_>, name: NameForm<&[u8]>) -> Option<Handle>
    ensures { result
        ≡ root_of (name_seen name.entry) ((variables_in asker.now.variables.now).values asker.now.process) }
{
    match name {
        NameForm::Absolute(_) => None,
        NameForm::Relative { root, .. } => Some(handle_meant(asker, root)),
    }
}

// The bytes that the text of a name spells.
fn bytes_of(asker: &Asker<'_>, name: NameForm<&[u8]>) -> Result<Bytes, AllocError>
    requires { IsText (text_of (name_seen name)) }
    ensures { IfOk result (λ bytes. Spells (text_of (name_seen name.entry)) bytes) }
{
    match name {
        NameForm::Absolute(text) => decode(asker.variables.alloc, text),
        NameForm::Relative { text, .. } => decode(asker.variables.alloc, text),
    }
}

// The handle that is meant: the value of a variable, and the number that is added to it.
fn handle_meant(asker: &Asker<'_>, handle: HandleForm<&[u8]>) -> Handle
    ensures { result
        ≡ handle_meant (handle_seen handle.entry)
        ((variables_in asker.now.variables.now).values asker.now.process) }
{
    let value = asker.variables.value_of(asker.process, handle.variable);
    with_offset(value, handle.offset)
}

// A handle value with the number that is added to it.
fn with_offset(value: Handle, offset: Offset) -> Handle
    ensures { result ≡ min (value + offset_value offset) greatest_named }
{
    Handle(value.0.saturating_add(offset_value(offset)))
}
