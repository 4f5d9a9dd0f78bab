//! The commands of processes.

ghost use Rattle.std.specs.Prelude.{◌≡◌, IfOk};
ghost use Rattle.ob_model.specs.declared.command.Command.{Command};

use crate::Bytes;
use ob_base::{Handle, Proc};
use std::alloc::AllocError;

/// Where a create puts what it makes.
#[derive(Clone, PartialEq, Eq, Debug, Drop)]
pub enum Place {
    /// At a name: absolute where `root` is none, else relative to the object of the handle `root`.
    At {
        /// The handle that the name is relative to.
        root: Option<Handle>,
        /// The name, as handed in: any bytes, of any length.
        name: Bytes,
    },
    /// Nowhere: the object gets no name, and lives as long as it has a handle.
    Unnamed,
}

/// A command of a process. Flags are raw: a lookup and its refusals judge them. The commands are
/// those of the Windows Driver Kit's `Zw` routines (`ZwCreateDirectoryObject`,
/// `ZwCreateSymbolicLinkObject`, `ZwCreateEvent` and its like, `ZwOpenDirectoryObject`,
/// `ZwOpenSymbolicLinkObject`, `ZwClose`, `ZwQuerySymbolicLinkObject`, `ZwQueryDirectoryObject`, `ZwDuplicateObject`,
/// `ZwMakeTemporaryObject`, `ZwMakePermanentObject`), of `ObQueryNameString`, of
/// `NtCreateDirectoryObjectEx` with a shadow directory and of
/// `NtSetInformationProcess` with `ProcessDeviceMap`, without access masks, and the beginning and the end of
/// a process (Windows Internals, Processes). `K` is the kind of an object of the set of types.
#[derive(PartialEq, Eq, Debug, Drop)]
pub enum Command<K> {
    /// Makes a directory at a place and opens a handle to it. Uses every flag but OPENLINK.
    CreateDirectory {
        /// Where the directory is to be.
        place: Place,
        /// The attribute flags, as raw bits.
        attrs: u32,
    },
    /// Makes a directory with a shadow at a place and opens a handle to it: a lookup finds the entries of
    /// the shadow where the directory has none of that name. Uses every flag but OPENLINK. Where OPENIF opens
    /// a directory that is there, that directory keeps the shadow that it has.
    CreateShadowed {
        /// Where the directory is to be.
        place: Place,
        /// The attribute flags, as raw bits.
        attrs: u32,
        /// A handle of the caller to the shadow, which must be a directory without a shadow. The low two bits of
        /// the value are ignored.
        shadow: Handle,
    },
    /// Makes a symbolic link at a place and opens a handle to it. Uses every flag but OPENLINK.
    CreateLink {
        /// Where the link is to be.
        place: Place,
        /// The attribute flags, as raw bits.
        attrs: u32,
        /// The text that is looked up in its place: 1 to 32,767 bytes, each 0x20 to 0x7E, or else the create
        /// is refused. Whether it is a name is judged when the link is followed.
        target: Bytes,
    },
    /// Makes an object of a kind of the set at a place and opens a handle to it. Uses every flag
    /// but OPENLINK.
    CreateObject {
        /// Where the object is to be.
        place: Place,
        /// The attribute flags, as raw bits.
        attrs: u32,
        /// The kind.
        kind: K,
        /// The arguments, which the kind's type judges: any bytes, of any length.
        args: Bytes,
    },
    /// Opens a handle to a directory. Uses INHERIT, EXCLUSIVE, CASE_INSENSITIVE and OPENLINK.
    OpenDirectory {
        /// The handle that the name is relative to; none for an absolute name.
        root: Option<Handle>,
        /// The name, as handed in.
        name: Bytes,
        /// The attribute flags, as raw bits.
        attrs: u32,
    },
    /// Opens a handle to a symbolic link, which is not followed. Uses INHERIT, EXCLUSIVE,
    /// CASE_INSENSITIVE and OPENLINK.
    OpenLink {
        /// The handle that the name is relative to; none for an absolute name.
        root: Option<Handle>,
        /// The name, as handed in.
        name: Bytes,
        /// The attribute flags, as raw bits.
        attrs: u32,
    },
    /// Opens a handle to an object. Uses INHERIT, EXCLUSIVE, CASE_INSENSITIVE and OPENLINK.
    OpenObject {
        /// The handle that the name is relative to; none for an absolute name.
        root: Option<Handle>,
        /// The name, as handed in.
        name: Bytes,
        /// The attribute flags, as raw bits.
        attrs: u32,
        /// The kind that the object must have; none for any object, also a directory or a link.
        want: Option<K>,
    },
    /// Closes a handle of the caller. The low two bits of the value are ignored.
    Close {
        /// The handle.
        handle: Handle,
    },
    /// Asks for the target of the symbolic link of a handle of the caller. The low two bits of the
    /// value are ignored.
    QueryLink {
        /// The handle.
        handle: Handle,
    },
    /// Asks for the path of the object of a handle of the caller. The low two bits of the value are
    /// ignored.
    QueryName {
        /// The handle.
        handle: Handle,
    },
    /// Asks for a page of the directory of a handle of the caller: of its entries after a context, as many as
    /// fit into a room. The low two bits of the value are ignored.
    QueryDirectory {
        /// The handle, which must lead to a directory.
        handle: Handle,
        /// The context: the stamp after which the page begins, as the page before it gave it, 0 at first;
        /// any number.
        context: u64,
        /// The room, in bytes: 0 to 1,048,576. An entry takes 4 and the lengths of both its names.
        room: u32,
        /// Whether one entry is asked for, and no more.
        single: bool,
        /// Whether the page begins with the first entry, whatever the context.
        restart: bool,
    },
    /// Duplicates a handle of the caller into a process, which may be the caller itself. The low two
    /// bits of the value are ignored.
    Duplicate {
        /// The handle.
        handle: Handle,
        /// The process that gets the new handle.
        to: Proc,
        /// Whether a child of that process can inherit the new handle.
        inherit: bool,
    },
    /// Makes the object of a handle of the caller temporary: its name goes when it has no handle. The low
    /// two bits of the value are ignored.
    MakeTemporary {
        /// The handle.
        handle: Handle,
    },
    /// Makes the object of a handle of the caller permanent, where it has a name: then the name stays, also
    /// without a handle. The low two bits of the value are ignored.
    MakePermanent {
        /// The handle.
        handle: Handle,
    },
    /// Sets the device map of the caller: the directory of a handle of the caller becomes the local directory
    /// of its map. The low two bits of the value are ignored.
    SetDeviceMap {
        /// The handle, which must lead to a directory.
        handle: Handle,
    },
    /// Makes a child of the caller.
    NewProcess {
        /// Whether the child inherits the handles of the caller that can be inherited.
        inherit: bool,
    },
    /// Ends the caller: each of its handles is closed, in the order in which they were opened, and it
    /// is live no longer.
    ExitProcess,
}

impl<K: Copy> Clone for Command<K> {
    ghost is_clone = { λ command copy. copy ≡ command };

    fn clone(&self) -> Result<Command<K>, AllocError> {
        match self {
            Command::CreateDirectory { place, attrs } => Ok(Command::CreateDirectory {
                place: place.clone()?,
                attrs: *attrs,
            }),
            Command::CreateShadowed {
                place,
                attrs,
                shadow,
            } => Ok(Command::CreateShadowed {
                place: place.clone()?,
                attrs: *attrs,
                shadow: *shadow,
            }),
            Command::CreateLink {
                place,
                attrs,
                target,
            } => copy_link(place, *attrs, target),
            Command::CreateObject {
                place,
                attrs,
                kind,
                args,
            } => copy_object(place, *attrs, *kind, args),
            Command::OpenDirectory { root, name, attrs } => Ok(Command::OpenDirectory {
                root: *root,
                name: name.clone()?,
                attrs: *attrs,
            }),
            Command::OpenLink { root, name, attrs } => Ok(Command::OpenLink {
                root: *root,
                name: name.clone()?,
                attrs: *attrs,
            }),
            Command::OpenObject {
                root,
                name,
                attrs,
                want,
            } => Ok(Command::OpenObject {
                root: *root,
                name: name.clone()?,
                attrs: *attrs,
                want: *want,
            }),
            Command::Close { handle } => Ok(Command::Close { handle: *handle }),
            Command::QueryLink { handle } => Ok(Command::QueryLink { handle: *handle }),
            Command::QueryName { handle } => Ok(Command::QueryName { handle: *handle }),
            Command::QueryDirectory {
                handle,
                context,
                room,
                single,
                restart,
            } => Ok(Command::QueryDirectory {
                handle: *handle,
                context: *context,
                room: *room,
                single: *single,
                restart: *restart,
            }),
            Command::Duplicate {
                handle,
                to,
                inherit,
            } => Ok(Command::Duplicate {
                handle: *handle,
                to: *to,
                inherit: *inherit,
            }),
            Command::MakeTemporary { handle } => Ok(Command::MakeTemporary { handle: *handle }),
            Command::MakePermanent { handle } => Ok(Command::MakePermanent { handle: *handle }),
            Command::SetDeviceMap { handle } => Ok(Command::SetDeviceMap { handle: *handle }),
            Command::NewProcess { inherit } => Ok(Command::NewProcess { inherit: *inherit }),
            Command::ExitProcess => Ok(Command::ExitProcess),
        }
    }
}

// A copy of a create of a link.
fn copy_link<K>(place: &Place, attrs: u32, target: &Bytes) -> Result<Command<K>, AllocError>
    ensures { IfOk result (λ copy. copy ≡ Command.CreateLink place.now attrs target.now) }
{
    let place = place.clone()?;
    let target = target.clone()?;
    Ok(Command::CreateLink {
        place,
        attrs,
        target,
    })
}

// A copy of a create of an object.
fn copy_object<K: Copy>(
    place: &Place,
    attrs: u32,
    kind: K,
    args: &Bytes,
) -> Result<Command<K>, AllocError>
    ensures { IfOk result (λ copy. copy ≡ Command.CreateObject place.now attrs kind args.now) }
{
    let place = place.clone()?;
    let args = args.clone()?;
    Ok(Command::CreateObject {
        place,
        attrs,
        kind,
        args,
    })
}
