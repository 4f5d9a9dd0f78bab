//! The writer of a namespace that viewers see.

use ob_base::{Attrs, Handle, ObjId, Proc, Status};
use ob_core::{Bytes, Command, Given, Place, Reply, SlabTable};
use ob_device::{DeviceKind, DeviceSet};
use ob_published::{Naming, Published, Showing};
use ob_shared::{Gate, Pass, Shared};
use ob_view::Viewer;
use std::alloc::{AllocError, Global};
use std::sync::Wait;
use std::sync::ledger::Ledger;

/// The root directory.
pub(crate) const ROOT: ObjId = ObjId(1);

/// A namespace with devices that viewers see.
pub(crate) type Viewed<L, J, W> = Shared<DeviceSet, SlabTable, L, Showing<J, W>>;

/// A gate that is passed at once.
#[derive(Drop)]
struct NoGate;

impl Gate for NoGate {
    fn between(&self) {}
}

/// The one caller of a namespace, with its pass, which it has except while it makes a step.
#[derive(Drop)]
pub(crate) struct Writer<'a, R: Wait, W: Wait + Drop, L: Ledger, J: Naming> {
    pub(crate) rt: &'a R,
    pub(crate) alloc: Global,
    pub(crate) space: Viewed<L, J, W>,
    pub(crate) pass: Option<Pass<DeviceKind, L>>,
}

impl<R: Wait, W: Wait + Drop, L: Ledger, J: Naming> Writer<'_, R, W, L, J> {
    /// Runs a command of process 1 to its reply.
    fn run(&mut self, command: &Command<DeviceKind>) -> Option<Reply> {
        let pass = self.pass.take()?;
        let (pass, reply) = self
            .space
            .open_with(self.rt, pass, Proc(1), command, &NoGate);
        self.pass = Some(pass);
        reply.ok()
    }

    /// Makes a directory under an absolute name, and returns its handle.
    pub(crate) fn make(&mut self, name: &[u8]) -> Option<Handle> {
        let command = made(self.alloc, name, 0).ok()?;
        handle_of(&self.run(&command)?)
    }

    /// Makes a permanent directory under an absolute name, without a handle.
    pub(crate) fn keep(&mut self, name: &[u8]) -> Option<()> {
        let command = made(self.alloc, name, Attrs::PERMANENT).ok()?;
        let handle = handle_of(&self.run(&command)?)?;
        if !self.closes(handle) {
            return None;
        }
        Some(())
    }

    /// Opens the directory of an absolute name, and closes it; whether it was there.
    pub(crate) fn opens(&mut self, name: &[u8]) -> Option<bool> {
        let command = opened(self.alloc, name).ok()?;
        let reply = self.run(&command)?;
        match handle_of(&reply) {
            Some(handle) => Some(self.closes(handle)),
            None => Some(false),
        }
    }

    /// Closes a handle; whether it was one.
    pub(crate) fn closes(&mut self, handle: Handle) -> bool {
        match self.run(&Command::Close { handle }) {
            Some(reply) => reply.status == Status::Success,
            None => false,
        }
    }

    /// Publishes the steps so far.
    pub(crate) fn publish(&mut self) -> Option<Published<J>> {
        let pass = self.pass.take()?;
        let (pass, published) = self.space.publish(self.rt, pass);
        self.pass = Some(pass);
        published.ok()
    }
}

/// The command that makes a directory under an absolute name, with these attributes.
fn made(alloc: Global, name: &[u8], attrs: u32) -> Result<Command<DeviceKind>, AllocError> {
    let name = Bytes::from_slice(alloc, name)?;
    Ok(Command::CreateDirectory {
        place: Place::At { root: None, name },
        attrs,
    })
}

/// The command that opens the directory of an absolute name.
fn opened(alloc: Global, name: &[u8]) -> Result<Command<DeviceKind>, AllocError> {
    let name = Bytes::from_slice(alloc, name)?;
    Ok(Command::OpenDirectory {
        root: None,
        name,
        attrs: 0,
    })
}

/// The handle that a reply gives, if any.
fn handle_of(reply: &Reply) -> Option<Handle> {
    match &reply.given {
        Given::Handle(handle) => Some(*handle),
        _ => None,
    }
}

/// The component of an absolute name of an entry of the root.
pub(crate) fn component_of(name: &[u8]) -> &[u8] {
    match name.split_first() {
        Some((_, component)) => component,
        None => name,
    }
}

/// The six last digits of a number.
pub(crate) fn numbered(number: u32) -> [u8; 6] {
    let mut digits = [b'0'; 6];
    let mut left = number;
    for digit in digits.iter_mut().rev() {
        *digit = b'0' + (left % 10) as u8;
        left /= 10;
    }
    digits
}

/// Whether a viewer sees that a name of the root is there, or isn't, after so many entries.
pub(crate) fn sees<J: Naming>(
    viewer: &mut Viewer<J>,
    name: &[u8],
    there: bool,
    entries: u64,
) -> bool {
    match viewer.look_up(ROOT, name, true) {
        Some((object, number)) => object.is_some() == there && number == entries,
        None => false,
    }
}
