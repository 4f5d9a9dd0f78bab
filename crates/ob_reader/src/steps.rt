//! Steps, read back.

ghost use Rattle.std.specs.Prelude.{◌≡◌, Some, is_none, option_and_then, codes, IfOk};
ghost use Rattle.serde_json.specs.View.{view};
ghost use Rattle.ob_reader.specs.Reading.{only_if, u32_at, text_at, kind_for, root_in, want_in, root_at, want_at, place_of, place_in, directory_in, shadowed_in, link_in, object_in, open_directory_in, open_link_in, open_object_in};
ghost use Rattle.ob_reader.specs.Reading.{duplicate_in, query_in, of_handle_in, child_in, start_in, parse_at, resume_in, abandon_in, keys_of, event_in, step_in};

use crate::members::{bool_at, has_members, text_at, u32_at, u32_in, u64_at};
use crate::texts::{read_bytes, read_bytes_at};
use crate::words::kind_of;
use ob_base::{Handle, Proc};
use ob_entries::{Operation, parse_of_word};
use ob_model::{Command, Event, ParseRun, Place};
use ob_standard::StandardKind;
use serde_json::Value;
use std::alloc::{AllocError, Global};

type Asked = Option<Command<StandardKind>>;

/// The event that a step says: none where the step isn't of the form. The only error is out of memory. (this profile)
#[tactic(auto, unfolding(crate::specs::Reading::step_in))]
pub(crate) fn read_step(
    alloc: Global,
    step: &Value,
) -> Result<Option<Event<StandardKind>>, AllocError>
    ensures { IfOk result (λ event. event ≡ step_in (view step.now)) }
{
    let Some(word) = text_at(step, "op") else {
        return Ok(None);
    };
    let Some(operation) = Operation::from_word(word) else {
        return Ok(None);
    };
    if !has_members(step, keys_of(operation)) {
        return Ok(None);
    }
    read_event(alloc, operation, step)
}

// How many keys the step of an operation has.
fn keys_of(operation: Operation) -> usize
    ensures { result ≡ keys_of operation }
{
    match operation {
        Operation::Exit => 2,
        Operation::Close
        | Operation::Temporary
        | Operation::Permanent
        | Operation::Target
        | Operation::Name
        | Operation::DeviceMap
        | Operation::NewProcess
        | Operation::Resume
        | Operation::Abandon => 3,
        Operation::Directory
        | Operation::OpenDirectory
        | Operation::OpenLink
        | Operation::Duplicate => 5,
        Operation::Shadow | Operation::Link | Operation::Open => 6,
        Operation::Make | Operation::Page => 7,
    }
}

// The event that the keys of an operation's step say.
fn read_event(
    alloc: Global,
    operation: Operation,
    step: &Value,
) -> Result<Option<Event<StandardKind>>, AllocError>
    ensures { IfOk result (λ event. event ≡ event_in operation (view step.now)) }
{
    match operation {
        Operation::Directory => Ok(start_in(read_directory(alloc, step)?, step)),
        Operation::Shadow => Ok(start_in(read_shadowed(alloc, step)?, step)),
        Operation::Link => Ok(start_in(read_link(alloc, step)?, step)),
        Operation::Make => Ok(start_in(read_object(alloc, step)?, step)),
        Operation::OpenDirectory => Ok(start_in(read_open_directory(alloc, step)?, step)),
        Operation::OpenLink => Ok(start_in(read_open_link(alloc, step)?, step)),
        Operation::Open => Ok(start_in(read_open_object(alloc, step)?, step)),
        Operation::Close => Ok(start_in(close_in(step), step)),
        Operation::Temporary => Ok(start_in(make_temporary_in(step), step)),
        Operation::Permanent => Ok(start_in(make_permanent_in(step), step)),
        Operation::Target => Ok(start_in(query_link_in(step), step)),
        Operation::Name => Ok(start_in(query_name_in(step), step)),
        Operation::DeviceMap => Ok(start_in(set_device_map_in(step), step)),
        Operation::Duplicate => Ok(start_in(duplicate_in(step), step)),
        Operation::Page => Ok(start_in(query_in(step), step)),
        Operation::NewProcess => Ok(start_in(child_in(step), step)),
        Operation::Exit => Ok(start_in(Some(Command::ExitProcess), step)),
        Operation::Resume => Ok(resume_in(step)),
        Operation::Abandon => Ok(abandon_in(step)),
    }
}

// The start of a command by the process that asks.
#[tactic(auto, unfolding(crate::specs::Reading::start_in))]
fn start_in(asked: Asked, step: &Value) -> Option<Event<StandardKind>>
    ensures { result ≡ start_in asked (view step.now) }
{
    let process = u32_at(step, "proc")?;
    let command = asked?;
    Some(Event::Start {
        process: Proc(process),
        command,
    })
}

// The create of a directory.
#[tactic(auto, unfolding(crate::specs::Reading::directory_in))]
fn read_directory(alloc: Global, step: &Value) -> Result<Asked, AllocError>
    ensures { IfOk result (λ asked. asked ≡ directory_in (view step.now)) }
{
    let Some(place) = read_place(alloc, step)? else {
        return Ok(None);
    };
    let Some(attrs) = u32_at(step, "flags") else {
        return Ok(None);
    };
    Ok(Some(Command::CreateDirectory { place, attrs }))
}

// The create of a directory with a shadow.
#[tactic(auto, unfolding(crate::specs::Reading::shadowed_in))]
fn read_shadowed(alloc: Global, step: &Value) -> Result<Asked, AllocError>
    ensures { IfOk result (λ asked. asked ≡ shadowed_in (view step.now)) }
{
    let Some(place) = read_place(alloc, step)? else {
        return Ok(None);
    };
    let Some(attrs) = u32_at(step, "flags") else {
        return Ok(None);
    };
    let Some(shadow) = u32_at(step, "shadow") else {
        return Ok(None);
    };
    Ok(Some(Command::CreateShadowed {
        place,
        attrs,
        shadow: Handle(shadow),
    }))
}

// The create of a symbolic link.
#[tactic(auto, unfolding(crate::specs::Reading::link_in))]
fn read_link(alloc: Global, step: &Value) -> Result<Asked, AllocError>
    ensures { IfOk result (λ asked. asked ≡ link_in (view step.now)) }
{
    let Some(place) = read_place(alloc, step)? else {
        return Ok(None);
    };
    let Some(attrs) = u32_at(step, "flags") else {
        return Ok(None);
    };
    let Some(target) = read_bytes_at(alloc, step, "target")? else {
        return Ok(None);
    };
    Ok(Some(Command::CreateLink {
        place,
        attrs,
        target,
    }))
}

// The create of an object.
#[tactic(auto, unfolding(crate::specs::Reading::object_in))]
fn read_object(alloc: Global, step: &Value) -> Result<Asked, AllocError>
    ensures { IfOk result (λ asked. asked ≡ object_in (view step.now)) }
{
    let Some(place) = read_place(alloc, step)? else {
        return Ok(None);
    };
    let Some(attrs) = u32_at(step, "flags") else {
        return Ok(None);
    };
    let Some(kind) = kind_at(step, "kind") else {
        return Ok(None);
    };
    let Some(args) = read_bytes_at(alloc, step, "args")? else {
        return Ok(None);
    };
    Ok(Some(Command::CreateObject {
        place,
        attrs,
        kind,
        args,
    }))
}

// The open of a directory.
#[tactic(auto, unfolding(crate::specs::Reading::open_directory_in))]
fn read_open_directory(alloc: Global, step: &Value) -> Result<Asked, AllocError>
    ensures { IfOk result (λ asked. asked ≡ open_directory_in (view step.now)) }
{
    let Some(root) = root_at(step) else {
        return Ok(None);
    };
    let Some(name) = read_bytes_at(alloc, step, "name")? else {
        return Ok(None);
    };
    let Some(attrs) = u32_at(step, "flags") else {
        return Ok(None);
    };
    Ok(Some(Command::OpenDirectory { root, name, attrs }))
}

// The open of a symbolic link.
#[tactic(auto, unfolding(crate::specs::Reading::open_link_in))]
fn read_open_link(alloc: Global, step: &Value) -> Result<Asked, AllocError>
    ensures { IfOk result (λ asked. asked ≡ open_link_in (view step.now)) }
{
    let Some(root) = root_at(step) else {
        return Ok(None);
    };
    let Some(name) = read_bytes_at(alloc, step, "name")? else {
        return Ok(None);
    };
    let Some(attrs) = u32_at(step, "flags") else {
        return Ok(None);
    };
    Ok(Some(Command::OpenLink { root, name, attrs }))
}

// The open of an object.
#[tactic(auto, unfolding(crate::specs::Reading::open_object_in))]
fn read_open_object(alloc: Global, step: &Value) -> Result<Asked, AllocError>
    ensures { IfOk result (λ asked. asked ≡ open_object_in (view step.now)) }
{
    let Some(root) = root_at(step) else {
        return Ok(None);
    };
    let Some(name) = read_bytes_at(alloc, step, "name")? else {
        return Ok(None);
    };
    let Some(attrs) = u32_at(step, "flags") else {
        return Ok(None);
    };
    let Some(want) = want_at(step) else {
        return Ok(None);
    };
    Ok(Some(Command::OpenObject {
        root,
        name,
        attrs,
        want,
    }))
}

// The place of a create.
#[tactic(auto, unfolding(crate::specs::Reading::place_in))]
fn read_place(alloc: Global, step: &Value) -> Result<Option<Place>, AllocError>
    ensures { IfOk result (λ place. place ≡ place_in (view step.now)) }
{
    let Some(name) = step.get("name") else {
        return Ok(None);
    };
    let Some(root) = step.get("root") else {
        return Ok(None);
    };
    read_place_of(alloc, name, root)
}

// The place of a create with this name and this root.
fn read_place_of(alloc: Global, name: &Value, root: &Value) -> Result<Option<Place>, AllocError>
    ensures { IfOk result (λ place. place ≡ place_of (view name.now) (view root.now)) }
{
    let Some(root) = root_in(root) else {
        return Ok(None);
    };
    if name.is_null() {
        return Ok(unnamed(root));
    }
    let Some(name) = read_bytes(alloc, name)? else {
        return Ok(None);
    };
    Ok(Some(Place::At { root, name }))
}

// The place of what gets no name, which has no root.
fn unnamed(root: Option<Handle>) -> Option<Place>
    ensures { result ≡ only_if (is_none root) (Some Place.Unnamed) }
{
    match root {
        None => Some(Place::Unnamed),
        Some(_) => None,
    }
}

// The root handle of a name, or none where it is null.
fn root_in(root: &Value) -> Option<Option<Handle>>
    ensures { result ≡ root_in (view root.now) }
{
    if root.is_null() {
        return Some(None);
    }
    let handle = u32_in(root)?;
    Some(Some(Handle(handle)))
}

// The same of a step.
fn root_at(step: &Value) -> Option<Option<Handle>>
    ensures { result ≡ root_at (view step.now) }
{
    root_in(step.get("root")?)
}

// The kind that is wanted, or none where it is null.
fn want_in(want: &Value) -> Option<Option<StandardKind>>
    ensures { result ≡ want_in (view want.now) }
{
    if want.is_null() {
        return Some(None);
    }
    let kind = kind_of(want.as_str()?)?;
    Some(Some(kind))
}

// The same of a step.
fn want_at(step: &Value) -> Option<Option<StandardKind>>
    ensures { result ≡ want_at (view step.now) }
{
    want_in(step.get("want")?)
}

// The kind under a key.
fn kind_at(step: &Value, key: &str) -> Option<StandardKind>
    ensures { result ≡ option_and_then kind_for (text_at key.now (view step.now)) }
{
    kind_of(text_at(step, key)?)
}

// The close of a handle.
fn close_in(step: &Value) -> Asked
    ensures { result ≡ of_handle_in (λ handle. Command.Close handle) (view step.now) }
{
    let handle = handle_at(step)?;
    Some(Command::Close { handle })
}

// The question for the target of a link.
fn query_link_in(step: &Value) -> Asked
    ensures { result ≡ of_handle_in (λ handle. Command.QueryLink handle) (view step.now) }
{
    let handle = handle_at(step)?;
    Some(Command::QueryLink { handle })
}

// The question for the path of an object.
fn query_name_in(step: &Value) -> Asked
    ensures { result ≡ of_handle_in (λ handle. Command.QueryName handle) (view step.now) }
{
    let handle = handle_at(step)?;
    Some(Command::QueryName { handle })
}

// The step that makes an object temporary.
fn make_temporary_in(step: &Value) -> Asked
    ensures { result ≡ of_handle_in (λ handle. Command.MakeTemporary handle) (view step.now) }
{
    let handle = handle_at(step)?;
    Some(Command::MakeTemporary { handle })
}

// The step that makes an object permanent.
fn make_permanent_in(step: &Value) -> Asked
    ensures { result ≡ of_handle_in (λ handle. Command.MakePermanent handle) (view step.now) }
{
    let handle = handle_at(step)?;
    Some(Command::MakePermanent { handle })
}

// The step that sets the device map of a process.
fn set_device_map_in(step: &Value) -> Asked
    ensures { result ≡ of_handle_in (λ handle. Command.SetDeviceMap handle) (view step.now) }
{
    let handle = handle_at(step)?;
    Some(Command::SetDeviceMap { handle })
}

// The handle of a step.
fn handle_at(step: &Value) -> Option<Handle>
    ensures { result ≡ u32_at (codes "handle") (view step.now) }
{
    let handle = u32_at(step, "handle")?;
    Some(Handle(handle))
}

// The duplicate of a handle.
#[tactic(auto, unfolding(crate::specs::Reading::duplicate_in))]
fn duplicate_in(step: &Value) -> Asked
    ensures { result ≡ duplicate_in (view step.now) }
{
    let handle = handle_at(step)?;
    let to = u32_at(step, "to")?;
    let inherit = bool_at(step, "inherit")?;
    Some(Command::Duplicate {
        handle,
        to: Proc(to),
        inherit,
    })
}

// The question for a page of a directory.
#[tactic(auto, unfolding(crate::specs::Reading::query_in))]
fn query_in(step: &Value) -> Asked
    ensures { result ≡ query_in (view step.now) }
{
    let handle = handle_at(step)?;
    let context = u64_at(step, "context")?;
    let room = u32_at(step, "room")?;
    let single = bool_at(step, "single")?;
    let restart = bool_at(step, "restart")?;
    Some(Command::QueryDirectory {
        handle,
        context,
        room,
        single,
        restart,
    })
}

// The making of a child.
fn child_in(step: &Value) -> Asked
    ensures { result ≡ child_in (view step.now) }
{
    let inherit = bool_at(step, "inherit")?;
    Some(Command::NewProcess { inherit })
}

// The outcome of the parse of a pending open.
fn parse_at(step: &Value) -> Option<ParseRun>
    ensures { result ≡ parse_at (view step.now) }
{
    parse_of_word(text_at(step, "parse")?)
}

// The resume of a pending open, whose parse was run.
#[tactic(auto, unfolding(crate::specs::Reading::resume_in))]
fn resume_in(step: &Value) -> Option<Event<StandardKind>>
    ensures { result ≡ resume_in (view step.now) }
{
    let ticket = u64_at(step, "ticket")?;
    let parse = parse_at(step)?;
    match parse {
        ParseRun::Unrun => None,
        ParseRun::Ran | ParseRun::NoMemory => Some(Event::Resume { ticket, parse }),
    }
}

// The abandon of a pending open.
#[tactic(auto, unfolding(crate::specs::Reading::abandon_in))]
fn abandon_in(step: &Value) -> Option<Event<StandardKind>>
    ensures { result ≡ abandon_in (view step.now) }
{
    let ticket = u64_at(step, "ticket")?;
    let parse = parse_at(step)?;
    Some(Event::Abandon { ticket, parse })
}
