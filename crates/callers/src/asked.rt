//! The requests of callers.

use ob_base::{Handle, Proc};
use ob_core::{Bytes, Command, Place};
use ob_device::DeviceKind;
use std::alloc::{AllocError, Global};

/// The kind that is created or opened.
#[derive(Clone, Copy)]
pub(crate) enum What {
    /// A directory.
    Directory,
    /// A symbolic link, whose target is `\A`.
    Link,
    /// A device with the file `x`, where one is created; a file, where one is opened.
    Device,
}

/// A command: of a name that is given beside it, of a handle, or of a process.
#[derive(Clone, Copy)]
pub(crate) enum Asked {
    Create(What),
    Open(What),
    Name(Handle),
    Target(Handle),
    List(Handle),
    Duplicate(Handle, Proc),
    Temporary(Handle),
    Permanent(Handle),
    Map(Handle),
    Close(Handle),
    /// A child, which inherits handles where this is set.
    Child(bool),
    Exit,
}

/// The attribute by which a child inherits the handle of an object.
const INHERIT: u32 = 0x2;

/// The place of an absolute name.
fn place_of(alloc: Global, name: &[u8]) -> Result<Place, AllocError> {
    Ok(Place::At {
        root: None,
        name: Bytes::from_slice(alloc, name)?,
    })
}

/// The command that creates an object under an absolute name.
fn create(alloc: Global, what: What, name: &[u8]) -> Result<Command<DeviceKind>, AllocError> {
    match what {
        What::Directory => Ok(Command::CreateDirectory {
            place: place_of(alloc, name)?,
            attrs: 0,
        }),
        What::Link => {
            let target = Bytes::from_slice(alloc, b"\\A")?;
            Ok(Command::CreateLink {
                place: place_of(alloc, name)?,
                attrs: 0,
                target,
            })
        }
        What::Device => {
            let args = Bytes::from_slice(alloc, b"x")?;
            Ok(Command::CreateObject {
                place: place_of(alloc, name)?,
                attrs: INHERIT,
                kind: DeviceKind::Device,
                args,
            })
        }
    }
}

/// The command that opens an absolute name.
fn open(alloc: Global, what: What, name: &[u8]) -> Result<Command<DeviceKind>, AllocError> {
    let name = Bytes::from_slice(alloc, name)?;
    let (root, attrs) = (None, 0);
    Ok(match what {
        What::Directory => Command::OpenDirectory { root, name, attrs },
        What::Link => Command::OpenLink { root, name, attrs },
        What::Device => Command::OpenObject {
            root,
            name,
            attrs,
            want: Some(DeviceKind::File),
        },
    })
}

/// The command that is asked for, with a name where it takes one.
pub(crate) fn command_of(
    alloc: Global,
    asked: Asked,
    name: &[u8],
) -> Result<Command<DeviceKind>, AllocError> {
    match asked {
        Asked::Create(what) => create(alloc, what, name),
        Asked::Open(what) => open(alloc, what, name),
        _ => Ok(plain(asked)),
    }
}

/// The command that takes no name.
fn plain(asked: Asked) -> Command<DeviceKind> {
    match asked {
        Asked::Name(handle) => Command::QueryName { handle },
        Asked::Target(handle) => Command::QueryLink { handle },
        Asked::List(handle) => Command::QueryDirectory {
            handle,
            context: 0,
            room: 1_000,
            single: false,
            restart: true,
        },
        Asked::Duplicate(handle, to) => Command::Duplicate {
            handle,
            to,
            inherit: false,
        },
        Asked::Temporary(handle) => Command::MakeTemporary { handle },
        Asked::Permanent(handle) => Command::MakePermanent { handle },
        Asked::Map(handle) => Command::SetDeviceMap { handle },
        Asked::Close(handle) => Command::Close { handle },
        Asked::Child(inherit) => Command::NewProcess { inherit },
        _ => Command::ExitProcess,
    }
}
