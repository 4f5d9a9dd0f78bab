//! The requests of processes.

use crate::names::{FlatName, FlatPath};

/// A flag: children of the process inherit the handle.
pub const INHERIT: u32 = 0x2;

/// A flag: the object is made permanent.
pub const PERMANENT: u32 = 0x10;

/// A flag: one process alone has handles to the object.
pub const EXCLUSIVE: u32 = 0x20;

/// A flag: capital letters are as small ones.
pub const CASE_INSENSITIVE: u32 = 0x40;

/// A flag: what has the name already is opened.
pub const OPENIF: u32 = 0x80;

/// A flag: a link at the end is opened itself.
pub const OPENLINK: u32 = 0x100;

/// Every flag that there is.
pub(crate) const FLAGS: u32 = 0x1f2;

/// The greatest room of a page, in bytes.
pub const LARGEST_ROOM: u32 = 1_048_576;

/// The type of an object.
#[derive(Clone, Copy)]
pub enum FlatKind {
    /// An object directory.
    Directory,
    /// A symbolic link.
    Link,
    /// An event of the set.
    Event,
    /// A mutant of the set.
    Mutant,
    /// A section of the set.
    Section,
    /// A device of the set, which parses, and has one file.
    Device,
    /// A file, which a device's parse makes.
    File,
}

/// Which page of a directory is asked for. Where it doesn't begin with the first entry, it begins after the last page that the process was
/// shown of any directory.
#[derive(Clone, Copy)]
pub struct FlatPart {
    /// How many bytes it may take.
    pub room: u32,
    /// Whether one entry is asked for and no more.
    pub single: bool,
    /// Whether it begins with the first entry.
    pub restart: bool,
}

/// The use of a handle by a process.
#[derive(Clone, Copy)]
pub enum Deed {
    /// It is closed.
    Close,
    /// Its object is made permanent, or temporary.
    Turn {
        /// Whether it is made permanent.
        permanent: bool,
    },
    /// Its object becomes the directory of the process's device map.
    Map,
    /// The target of the link that it leads to is asked for.
    Target,
    /// The path of its object is asked for.
    Name,
    /// A page of the directory that it leads to is asked for.
    List(FlatPart),
    /// A process gets another handle to its object.
    Duplicate {
        /// The number of that process.
        to: u32,
        /// Whether children of that process inherit it.
        inherit: bool,
    },
}

/// The request of a process; values are those of handles.
#[derive(Clone, Copy)]
pub enum Ask {
    /// An object is made.
    Make {
        /// Its type.
        of: FlatKind,
        /// The target of a link.
        target: FlatPath,
        /// The value of the handle to the shadow of a directory; none where it is made without a shadow.
        shadow: Option<u32>,
        /// Its name; none where it is made without one.
        name: Option<FlatName>,
        /// Its flags, lawful or not.
        attrs: u32,
    },
    /// An object is opened by its name.
    Open {
        /// The type that it must have; none where it may have any.
        want: Option<FlatKind>,
        /// Its name.
        name: FlatName,
        /// The flags, lawful or not.
        attrs: u32,
    },
    /// Something is done with a handle.
    Use {
        /// Its value, whose low two bits don't count.
        value: u32,
        /// The use that is made of it.
        deed: Deed,
    },
    /// A child of the process begins.
    Begin {
        /// Whether it inherits handles.
        inherit: bool,
    },
    /// The process ends.
    Exit,
}

/// An open that waits for a parse.
#[derive(Clone, Copy)]
pub struct Waiting {
    // Its number, which is its ticket and that of the file that the parse makes, its process, what that asks for, and whether the device has the
    // file.
    pub(crate) number: u32,
    pub(crate) process: u32,
    pub(crate) ask: Ask,
    pub(crate) is_there: bool,
}

impl Waiting {
    /// The ticket under which it waits.
    pub fn ticket(&self) -> u64 {
        u64::from(self.number)
    }
}

/// Whether an object of a type is what an open wants.
pub(crate) fn is_wanted(of: FlatKind, want: Option<FlatKind>) -> bool {
    match want {
        Some(wanted) => of as u8 == wanted as u8,
        None => true,
    }
}

/// The name of a type.
pub(crate) fn type_name(of: FlatKind) -> &'static str {
    match of {
        FlatKind::Directory => "Directory",
        FlatKind::Link => "SymbolicLink",
        FlatKind::Event => "Event",
        FlatKind::Mutant => "Mutant",
        FlatKind::Section => "Section",
        FlatKind::Device => "Device",
        FlatKind::File => "File",
    }
}
