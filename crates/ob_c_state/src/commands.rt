//! Commands made of what a caller in C hands in.

ghost use Rattle.std.specs.Prelude.{◌≡◌, Some, IfOk};
ghost use Rattle.ob_model.specs.declared.command.Command.TheVariants.{CreateDirectory, CreateShadowed, CreateLink, CreateObject, OpenDirectory, OpenLink, OpenObject};
ghost use Rattle.ob_c_state.specs.Calls.{arguments_of, place_of, root_of};

use ob_base::Handle;
use ob_core::{Bytes, Command, Place};
use ob_host::Kind;
use std::alloc::{AllocError, Global};

// The handle that a name is relative to; none if it is 0.
fn root_of(root: u32) -> Option<Handle>
    ensures { result ≡ root_of root }
{
    if root == 0 { None } else { Some(Handle(root)) }
}

// The place of a create. The only error is out of memory.
fn place_of(alloc: Global, root: u32, named: bool, name: &[u8]) -> Result<Place, AllocError>
    ensures { IfOk result (λ place. place ≡ place_of named root name.now) }
{
    if !named {
        return Ok(Place::Unnamed);
    }
    Ok(Place::At {
        root: root_of(root),
        name: Bytes::from_slice(alloc, name)?,
    })
}

/// The command that creates a directory. The only error is out of memory.
pub fn create_directory(
    alloc: Global,
    root: u32,
    named: bool,
    name: &[u8],
    attributes: u32,
) -> Result<Command<Kind>, AllocError>
    ensures { IfOk result (λ command.
        command ≡ CreateDirectory (place_of named root name.now) attributes) }
{
    Ok(Command::CreateDirectory {
        place: place_of(alloc, root, named, name)?,
        attrs: attributes,
    })
}

/// The command that creates a directory with a shadow. The only error is out of memory.
pub fn create_shadowed(
    alloc: Global,
    root: u32,
    named: bool,
    name: &[u8],
    attributes: u32,
    shadow: u32,
) -> Result<Command<Kind>, AllocError>
    ensures { IfOk result (λ command.
        command ≡ CreateShadowed (place_of named root name.now) attributes shadow) }
{
    Ok(Command::CreateShadowed {
        place: place_of(alloc, root, named, name)?,
        attrs: attributes,
        shadow: Handle(shadow),
    })
}

/// The command that creates a symbolic link to a target. The only error is out of memory.
pub fn create_link(
    alloc: Global,
    root: u32,
    named: bool,
    name: &[u8],
    attributes: u32,
    target: &[u8],
) -> Result<Command<Kind>, AllocError>
    ensures { IfOk result (λ command.
        command ≡ CreateLink (place_of named root name.now) attributes target.now) }
{
    Ok(Command::CreateLink {
        place: place_of(alloc, root, named, name)?,
        attrs: attributes,
        target: Bytes::from_slice(alloc, target)?,
    })
}

/// The command that creates an object of a kind, with user data and no text. The only error is out of memory.
pub fn create_object(
    alloc: Global,
    root: u32,
    named: bool,
    name: &[u8],
    attributes: u32,
    kind: Kind,
    user_data: u64,
) -> Result<Command<Kind>, AllocError>
    ensures { IfOk result (λ command. command
        ≡ CreateObject (place_of named root name.now) attributes kind (arguments_of user_data)) }
{
    Ok(Command::CreateObject {
        place: place_of(alloc, root, named, name)?,
        attrs: attributes,
        kind,
        args: Bytes::from_slice(alloc, &user_data.to_le_bytes())?,
    })
}

/// The command that opens a directory. The only error is out of memory.
pub fn open_directory(
    alloc: Global,
    root: u32,
    name: &[u8],
    attributes: u32,
) -> Result<Command<Kind>, AllocError>
    ensures { IfOk result (λ command.
        command ≡ OpenDirectory (root_of root) name.now attributes) }
{
    Ok(Command::OpenDirectory {
        root: root_of(root),
        name: Bytes::from_slice(alloc, name)?,
        attrs: attributes,
    })
}

/// The command that opens a symbolic link. The only error is out of memory.
pub fn open_link(
    alloc: Global,
    root: u32,
    name: &[u8],
    attributes: u32,
) -> Result<Command<Kind>, AllocError>
    ensures { IfOk result (λ command. command ≡ OpenLink (root_of root) name.now attributes) }
{
    Ok(Command::OpenLink {
        root: root_of(root),
        name: Bytes::from_slice(alloc, name)?,
        attrs: attributes,
    })
}

/// The command that opens an object, of a kind where one is given. The only error is out of memory.
pub fn open_object(
    alloc: Global,
    root: u32,
    name: &[u8],
    attributes: u32,
    want: Option<Kind>,
) -> Result<Command<Kind>, AllocError>
    ensures { IfOk result (λ command.
        command ≡ OpenObject (root_of root) name.now attributes want) }
{
    Ok(Command::OpenObject {
        root: root_of(root),
        name: Bytes::from_slice(alloc, name)?,
        attrs: attributes,
        want,
    })
}
