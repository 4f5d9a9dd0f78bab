//! The values of steps.

ghost use Rattle.std.specs.Prelude.{◌≡◌, ◌∷◌, [], codes, IfOk};
ghost use Rattle.serde_json.specs.Data.{string, put as with_member};
ghost use Rattle.serde_json.specs.View.{view, members_view};
ghost use Rattle.ob_entries.specs.Words.{operation_word};
ghost use Rattle.ob_entries.specs.Lines.{step_value, command_step, open_step, handle_step, brought_step};
ghost use Rattle.ob_entries.specs.Lines.{members_of, value_or_null, number_value, text_value, kind_value};
ghost use Rattle.ob_entries.specs.Lines.{root_of, name_of};

use crate::members::{with_text, with_value, with_word};
use crate::words::{Operation, word_of_parse};
use ob_base::{Handle, Proc};
use ob_model::{Bytes, Command, Event, ParseRun, Place};
use ob_types::TypeSet;
use serde_json::{Map, Value};
use std::alloc::{AllocError, Global};

/// The value of an event, under the key `step`. The only error is out of memory. (this profile)
pub(crate) fn make_step<T: TypeSet>(
    alloc: Global,
    event: &Event<T::Kind>,
) -> Result<Value, AllocError>
    ensures { IfOk result (λ step. view step ≡ step_value (T.procedures).type_name event.now) }
{
    match event {
        Event::Start { process, command } => make_command::<T>(alloc, *process, command),
        Event::Resume { ticket, parse } => {
            make_brought(alloc, Operation::Resume, *ticket, *parse)
        }
        Event::Abandon { ticket, parse } => {
            make_brought(alloc, Operation::Abandon, *ticket, *parse)
        }
    }
}

// The value of a command of a process.
fn make_command<T: TypeSet>(
    alloc: Global,
    process: Proc,
    command: &Command<T::Kind>,
) -> Result<Value, AllocError>
    ensures { IfOk result (λ step. view step
        ≡ command_step (T.procedures).type_name process command.now) }
{
    match command {
        Command::CreateDirectory { place, attrs } => {
            make_directory::<T>(alloc, process, place, *attrs)
        }
        Command::CreateShadowed {
            place,
            attrs,
            shadow,
        } => make_shadowed::<T>(alloc, process, place, *attrs, *shadow),
        Command::CreateLink {
            place,
            attrs,
            target,
        } => make_link::<T>(alloc, process, place, *attrs, target),
        Command::CreateObject {
            place,
            attrs,
            kind,
            args,
        } => make_object::<T>(alloc, process, place, *attrs, *kind, args),
        Command::OpenDirectory { root, name, attrs } => {
            make_open(
                alloc,
                Operation::OpenDirectory,
                process,
                *root,
                name,
                *attrs,
            )
        }
        Command::OpenLink { root, name, attrs } => {
            make_open(alloc, Operation::OpenLink, process, *root, name, *attrs)
        }
        Command::OpenObject {
            root,
            name,
            attrs,
            want,
        } => make_open_object::<T>(alloc, process, *root, name, *attrs, *want),
        Command::Close { handle } => make_handle(alloc, Operation::Close, process, *handle),
        Command::QueryLink { handle } => make_handle(alloc, Operation::Target, process, *handle),
        Command::QueryName { handle } => make_handle(alloc, Operation::Name, process, *handle),
        Command::QueryDirectory {
            handle,
            context,
            room,
            single,
            restart,
        } => make_query::<T>(alloc, process, *handle, *context, *room, *single, *restart),
        Command::Duplicate {
            handle,
            to,
            inherit,
        } => make_duplicate::<T>(alloc, process, *handle, *to, *inherit),
        Command::MakeTemporary { handle } => {
            make_handle(alloc, Operation::Temporary, process, *handle)
        }
        Command::MakePermanent { handle } => {
            make_handle(alloc, Operation::Permanent, process, *handle)
        }
        Command::SetDeviceMap { handle } => {
            make_handle(alloc, Operation::DeviceMap, process, *handle)
        }
        Command::NewProcess { inherit } => make_child::<T>(alloc, process, *inherit),
        Command::ExitProcess => make_exit::<T>(alloc, process),
    }
}

// The value of a create of a directory.
fn make_directory<T: TypeSet>(
    alloc: Global,
    process: Proc,
    place: &Place,
    attrs: u32,
) -> Result<Value, AllocError>
    ensures { IfOk result (λ step. view step
        ≡ command_step (T.procedures).type_name process (Command.CreateDirectory place.now attrs)) }
{
    let step = begin_create(alloc, Operation::Directory, process, place, attrs)?;
    Ok(Value::Object(step))
}

// The value of a create of a directory with a shadow.
fn make_shadowed<T: TypeSet>(
    alloc: Global,
    process: Proc,
    place: &Place,
    attrs: u32,
    shadow: Handle,
) -> Result<Value, AllocError>
    ensures { IfOk result (λ step. view step
        ≡ command_step (T.procedures).type_name process
        (Command.CreateShadowed place.now attrs shadow)) }
{
    let step = begin_create(alloc, Operation::Shadow, process, place, attrs)?;
    let step = with_value(alloc, step, "shadow", Value::from(shadow.0))?;
    Ok(Value::Object(step))
}

// The value of a create of a link.
fn make_link<T: TypeSet>(
    alloc: Global,
    process: Proc,
    place: &Place,
    attrs: u32,
    target: &Bytes,
) -> Result<Value, AllocError>
    ensures { IfOk result (λ step. view step
        ≡ command_step (T.procedures).type_name process
        (Command.CreateLink place.now attrs target.now)) }
{
    let step = begin_create(alloc, Operation::Link, process, place, attrs)?;
    let step = with_text(alloc, step, "target", target.as_slice())?;
    Ok(Value::Object(step))
}

// The value of a create of an object.
fn make_object<T: TypeSet>(
    alloc: Global,
    process: Proc,
    place: &Place,
    attrs: u32,
    kind: T::Kind,
    args: &Bytes,
) -> Result<Value, AllocError>
    ensures { IfOk result (λ step. view step
        ≡ command_step (T.procedures).type_name process
        (Command.CreateObject place.now attrs kind args.now)) }
{
    let step = begin_create(alloc, Operation::Make, process, place, attrs)?;
    let step = with_text(alloc, step, "args", args.as_slice())?;
    let step = with_word(alloc, step, "kind", T::type_name(kind))?;
    Ok(Value::Object(step))
}

// The value of an open of a directory or a link.
fn make_open(
    alloc: Global,
    operation: Operation,
    process: Proc,
    root: Option<Handle>,
    name: &Bytes,
    attrs: u32,
) -> Result<Value, AllocError>
    ensures { IfOk result (λ step. view step
        ≡ open_step (operation_word operation) process root name.now attrs) }
{
    let step = begin_open(alloc, operation, process, root, name, attrs)?;
    Ok(Value::Object(step))
}

// The value of an open of an object.
fn make_open_object<T: TypeSet>(
    alloc: Global,
    process: Proc,
    root: Option<Handle>,
    name: &Bytes,
    attrs: u32,
    want: Option<T::Kind>,
) -> Result<Value, AllocError>
    ensures { IfOk result (λ step. view step
        ≡ command_step (T.procedures).type_name process
        (Command.OpenObject root name.now attrs want)) }
{
    let step = begin_open(alloc, Operation::Open, process, root, name, attrs)?;
    let step = with_want::<T>(alloc, step, want)?;
    Ok(Value::Object(step))
}

// The value of a step that takes a handle and nothing else.
fn make_handle(
    alloc: Global,
    operation: Operation,
    process: Proc,
    handle: Handle,
) -> Result<Value, AllocError>
    ensures { IfOk result (λ step. view step
        ≡ handle_step (operation_word operation) process handle) }
{
    let step = begin_step(alloc, operation, process)?;
    let step = with_value(alloc, step, "handle", Value::from(handle.0))?;
    Ok(Value::Object(step))
}

// The value of a query of a directory.
fn make_query<T: TypeSet>(
    alloc: Global,
    process: Proc,
    handle: Handle,
    context: u64,
    room: u32,
    single: bool,
    restart: bool,
) -> Result<Value, AllocError>
    ensures { IfOk result (λ step. view step
        ≡ command_step (T.procedures).type_name process
        (Command.QueryDirectory handle context room single restart)) }
{
    let step = begin_step(alloc, Operation::Page, process)?;
    let step = with_value(alloc, step, "context", Value::from(context))?;
    let step = with_value(alloc, step, "handle", Value::from(handle.0))?;
    let step = with_value(alloc, step, "restart", Value::Bool(restart))?;
    let step = with_value(alloc, step, "room", Value::from(room))?;
    let step = with_value(alloc, step, "single", Value::Bool(single))?;
    Ok(Value::Object(step))
}

// The value of a duplicate of a handle.
fn make_duplicate<T: TypeSet>(
    alloc: Global,
    process: Proc,
    handle: Handle,
    to: Proc,
    inherit: bool,
) -> Result<Value, AllocError>
    ensures { IfOk result (λ step. view step
        ≡ command_step (T.procedures).type_name process (Command.Duplicate handle to inherit)) }
{
    let step = begin_step(alloc, Operation::Duplicate, process)?;
    let step = with_value(alloc, step, "handle", Value::from(handle.0))?;
    let step = with_value(alloc, step, "inherit", Value::Bool(inherit))?;
    let step = with_value(alloc, step, "to", Value::from(to.0))?;
    Ok(Value::Object(step))
}

// The value of the making of a child.
fn make_child<T: TypeSet>(alloc: Global, process: Proc, inherit: bool) -> Result<Value, AllocError>
    ensures { IfOk result (λ step. view step
        ≡ command_step (T.procedures).type_name process (Command.NewProcess inherit)) }
{
    let step = begin_step(alloc, Operation::NewProcess, process)?;
    let step = with_value(alloc, step, "inherit", Value::Bool(inherit))?;
    Ok(Value::Object(step))
}

// The value of the end of a process.
fn make_exit<T: TypeSet>(alloc: Global, process: Proc) -> Result<Value, AllocError>
    ensures { IfOk result (λ step. view step
        ≡ command_step (T.procedures).type_name process Command.ExitProcess) }
{
    Ok(Value::Object(begin_step(alloc, Operation::Exit, process)?))
}

// The value of what is brought to a pending open.
fn make_brought(
    alloc: Global,
    operation: Operation,
    ticket: u64,
    parse: ParseRun,
) -> Result<Value, AllocError>
    ensures { IfOk result (λ step. view step
        ≡ brought_step (operation_word operation) ticket parse) }
{
    let step = with_word(alloc, Map::new(alloc), "op", operation.word())?;
    let step = with_word(alloc, step, "parse", word_of_parse(parse))?;
    let step = with_value(alloc, step, "ticket", Value::from(ticket))?;
    Ok(Value::Object(step))
}

// The members of each step of a process.
fn begin_step(
    alloc: Global,
    operation: Operation,
    process: Proc,
) -> Result<Map<String, Value>, AllocError>
    ensures { IfOk result (λ step. members_view step.entries
        ≡ members_of ((codes "op", string (operation_word operation))
        ∷ (codes "proc", number_value process) ∷ [])) }
{
    let step = with_word(alloc, Map::new(alloc), "op", operation.word())?;
    with_value(alloc, step, "proc", Value::from(process.0))
}

// The members of each create.
fn begin_create(
    alloc: Global,
    operation: Operation,
    process: Proc,
    place: &Place,
    attrs: u32,
) -> Result<Map<String, Value>, AllocError>
    ensures { IfOk result (λ step. members_view step.entries
        ≡ members_of ((codes "flags", number_value attrs)
        ∷ (codes "name", value_or_null text_value (name_of place.now))
        ∷ (codes "op", string (operation_word operation))
        ∷ (codes "proc", number_value process)
        ∷ (codes "root", value_or_null number_value (root_of place.now)) ∷ [])) }
{
    let step = begin_step(alloc, operation, process)?;
    let step = with_value(alloc, step, "flags", Value::from(attrs))?;
    let step = with_name(alloc, step, place)?;
    with_value(alloc, step, "root", make_root(place))
}

// The members of each open.
fn begin_open(
    alloc: Global,
    operation: Operation,
    process: Proc,
    root: Option<Handle>,
    name: &Bytes,
    attrs: u32,
) -> Result<Map<String, Value>, AllocError>
    ensures { IfOk result (λ step. members_view step.entries
        ≡ members_of ((codes "flags", number_value attrs)
        ∷ (codes "name", text_value name.now)
        ∷ (codes "op", string (operation_word operation))
        ∷ (codes "proc", number_value process)
        ∷ (codes "root", value_or_null number_value root) ∷ [])) }
{
    let step = begin_step(alloc, operation, process)?;
    let step = with_value(alloc, step, "flags", Value::from(attrs))?;
    let step = with_text(alloc, step, "name", name.as_slice())?;
    with_value(alloc, step, "root", make_handle_or_null(root))
}

// These members and the name of a place, or null.
fn with_name(
    alloc: Global,
    members: Map<String, Value>,
    place: &Place,
) -> Result<Map<String, Value>, AllocError>
    ensures { IfOk result (λ more. members_view more.entries
        ≡ with_member (codes "name") (value_or_null text_value (name_of place.now))
        (members_view members.entries)) }
{
    match place {
        Place::At { name, .. } => with_text(alloc, members, "name", name.as_slice()),
        Place::Unnamed => with_value(alloc, members, "name", Value::Null),
    }
}

// The root handle of a place, or null.
fn make_root(place: &Place) -> Value
    ensures { view result ≡ value_or_null number_value (root_of place.now) }
{
    match place {
        Place::At { root, .. } => make_handle_or_null(*root),
        Place::Unnamed => Value::Null,
    }
}

// A handle, or null.
fn make_handle_or_null(handle: Option<Handle>) -> Value
    ensures { view result ≡ value_or_null number_value handle }
{
    match handle {
        Some(handle) => Value::from(handle.0),
        None => Value::Null,
    }
}

// These members and the type that an open asks for, or null.
fn with_want<T: TypeSet>(
    alloc: Global,
    members: Map<String, Value>,
    want: Option<T::Kind>,
) -> Result<Map<String, Value>, AllocError>
    ensures { IfOk result (λ more. members_view more.entries
        ≡ with_member (codes "want") (value_or_null (kind_value (T.procedures).type_name) want)
        (members_view members.entries)) }
{
    match want {
        Some(kind) => with_word(alloc, members, "want", T::type_name(kind)),
        None => with_value(alloc, members, "want", Value::Null),
    }
}
