//! The parts of the abstract state, as plain data.
//!
//! The state itself is put together of these in `specs/State.antt`.

use crate::Bytes;
use ob_base::{Handle, ObjId, Proc};

/// The body of an object. `F` and `I` are the face and the inner value of an object whose type
/// belongs to the set of types; directories and symbolic links are the namespace's own.
#[derive(Debug, Drop)]
pub enum Body<F, I> {
    /// An object directory, with its shadow, where it has one: a directory in which a name is looked up
    /// where this one has no entry of it. Its entries are the rows in it.
    Directory(Option<ObjId>),
    /// A symbolic link, with its target: 1 to 32,767 bytes.
    Link(Bytes),
    /// An object of a type of the set: the face that its parse procedure sees, and the inner
    /// value that its open, close and delete procedures change.
    Other(F, I),
}

/// An object (Windows Internals, Object Manager: object headers and bodies).
#[derive(Debug, Drop)]
pub struct Object<F, I> {
    /// Its number, from 1, never used again.
    pub id: ObjId,
    /// Its body.
    pub body: Body<F, I>,
    /// Whether it keeps its name and its life without a handle.
    pub permanent: bool,
    /// Whether one process alone may hold handles to it.
    pub exclusive: bool,
}

/// One entry of one directory: a name for an object.
#[derive(Debug, Drop)]
pub struct Row {
    /// When it was inserted: rising, and never used again.
    pub stamp: u64,
    /// The directory that it is in.
    pub directory: ObjId,
    /// The component, in the spelling that it was inserted with.
    pub name: Bytes,
    /// The object that it names.
    pub object: ObjId,
}

/// One handle of one process (Windows Internals, Object Manager: handles and the process handle
/// table).
#[derive(Clone, Copy, PartialEq, Eq, Debug)]
pub struct Held {
    /// The process that holds it.
    pub process: Proc,
    /// Its value: a multiple of four from 4 to 262,140.
    pub value: Handle,
    /// The object that it leads to.
    pub object: ObjId,
    /// Whether a child made with inheritance gets it too.
    pub inherit: bool,
    /// When it was opened: rising, and never used again.
    pub order: u64,
}

/// A live process.
#[derive(Clone, Copy, PartialEq, Eq, Debug)]
pub struct Process {
    /// Its number, from 1, never used again.
    pub number: Proc,
    /// The local directory of its device map, where it has a map (Windows Internals, session
    /// namespace).
    pub map: Option<ObjId>,
}

/// The type that an open asks for. `K` is the kind of an object of the set.
#[derive(Clone, Copy, PartialEq, Eq, Debug)]
pub enum Wanted<K> {
    /// Any type at all.
    Anything,
    /// A directory.
    Directory,
    /// A symbolic link.
    Link,
    /// A kind of the set.
    Kind(K),
}

/// An open whose parse procedure is still to be run: it pins the object that it reached.
#[derive(Debug, Drop)]
pub struct PendingOpen<K> {
    /// Its ticket, which is also the number of the object that its parse may make.
    pub ticket: u64,
    /// The process that asked.
    pub process: Proc,
    /// The parsing object that was reached.
    pub object: ObjId,
    /// The rest of the name after that object, which is handed to its parse procedure.
    pub rest: Bytes,
    /// The reparses that are left: 0 to 32.
    pub left: u32,
    /// The flags of the open, as raw bits.
    pub attrs: u32,
    /// The type that was asked for.
    pub wanted: Wanted<K>,
}
