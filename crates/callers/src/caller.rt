//! A caller: what it asks of a namespace that it shares, by its pass.

use crate::asked::{Asked, What, command_of};
use crate::written::put_segment;
use ob_base::{Fault, Handle, Proc, Status};
use ob_core::{Command, Given, Reply, SlabTable};
use ob_device::{DeviceKind, DeviceSet};
use ob_shared::{Gate, Pass, Pending, Shared, Started};
use std::alloc::Global;
use std::mem;
use std::sync::Wait;
use std::sync::ledger::Ledger;

/// A shared namespace with devices.
pub(crate) type Devices<L> = Shared<DeviceSet, SlabTable, L>;

/// A gate that is passed at once.
#[derive(Drop)]
pub(crate) struct NoGate;

impl Gate for NoGate {
    fn between(&self) {}
}

/// A caller with its pass, which it has except while it makes a step, and the lines that it has written.
#[derive(Drop)]
pub(crate) struct Caller<L: Ledger> {
    pub(crate) pass: Option<Pass<DeviceKind, L>>,
    pub(crate) lines: Vec<u8>,
}

/// The status of a reply, and the handle that it gives, or 0; none where a step had a fault.
pub(crate) type Answer = Option<(Status, Handle)>;

/// The result of a seal: the number of the segment, that of its first entry, and how many it has.
pub(crate) type Sealed = Result<(u64, u64, usize), Fault>;

/// Seals the journal.
fn sealed<R: Wait, L: Ledger>(
    rt: &R,
    space: &Devices<L>,
    pass: Pass<DeviceKind, L>,
) -> (Pass<DeviceKind, L>, Sealed) {
    let (pass, sealed) = space.seal(rt, pass);
    match sealed {
        Ok(segment) => (
            pass,
            Ok((segment.number, segment.first, segment.entries.len())),
        ),
        Err(fault) => (pass, Err(fault)),
    }
}

impl<L: Ledger> Caller<L> {
    /// Its seat.
    pub(crate) fn seat(&self) -> u32 {
        match &self.pass {
            Some(pass) => pass.seat(),
            None => 0,
        }
    }

    /// Runs a command of process 1 to its reply, through a gate.
    fn run<R: Wait, G: Gate>(
        &mut self,
        rt: &R,
        space: &Devices<L>,
        command: &Command<DeviceKind>,
        gate: &G,
    ) -> Result<Reply, Fault> {
        let Some(pass) = self.pass.take() else {
            return Err(Fault::Refused(Status::InvalidParameter));
        };
        let (pass, reply) = space.open_with(rt, pass, Proc(1), command, gate);
        self.pass = Some(pass);
        reply
    }

    /// Asks through a gate.
    pub(crate) fn ask_through<R: Wait, G: Gate>(
        &mut self,
        rt: &R,
        alloc: Global,
        space: &Devices<L>,
        (asked, name): (Asked, &[u8]),
        gate: &G,
    ) -> Answer {
        let Ok(command) = command_of(alloc, asked, name) else {
            return None;
        };
        match self.run(rt, space, &command, gate) {
            Ok(reply) => Some((reply.status, handle_of(&reply))),
            Err(_) => None,
        }
    }

    /// Asks with no gate.
    pub(crate) fn ask<R: Wait>(
        &mut self,
        rt: &R,
        alloc: Global,
        space: &Devices<L>,
        asked: Asked,
        name: &[u8],
    ) -> Answer {
        self.ask_through(rt, alloc, space, (asked, name), &NoGate)
    }

    /// Begins an open of a file by process 1, seals the journal while it waits, ends it, and seals twice more; what the seals gave, and none where no
    /// open waited.
    pub(crate) fn seal_around<R: Wait>(
        &mut self,
        rt: &R,
        alloc: Global,
        space: &Devices<L>,
        name: &[u8],
    ) -> Option<[Sealed; 3]> {
        let Ok(command) = command_of(alloc, Asked::Open(What::Device), name) else {
            return None;
        };
        let (pass, started) = space.start(rt, self.pass.take()?, Proc(1), &command);
        mem::drop(command);
        let parsing = match started {
            Ok(Started::Parsing(parsing)) => parsing,
            Ok(Started::Done(_)) => return None,
            Err(_) => return None,
        };
        let (pass, first) = sealed(rt, space, pass);
        let (pass, ended) = space.bring(rt, pass, parsing.run(alloc));
        let pass = match ended {
            Ok(Started::Parsing(next)) => space.abandon(rt, pass, Pending::Unrun(next)),
            Ok(Started::Done(_)) => pass,
            Err(_) => pass,
        };
        let (pass, second) = sealed(rt, space, pass);
        let (pass, third) = sealed(rt, space, pass);
        self.pass = Some(pass);
        Some([first, second, third])
    }

    /// Seals the journal of so many seats, and writes the sealed segment, while others go on; whether it was sealed and written.
    pub(crate) fn write_out<R: Wait>(
        &mut self,
        rt: &R,
        alloc: Global,
        space: &Devices<L>,
        seats: u32,
    ) -> bool {
        let Some(pass) = self.pass.take() else {
            return false;
        };
        let (pass, sealed) = space.seal(rt, pass);
        self.pass = Some(pass);
        match sealed {
            Ok(segment) => put_segment(alloc, &mut self.lines, seats, &segment).is_ok(),
            Err(_) => false,
        }
    }

    /// Creates a directory, opens it, and closes both handles; whether both were closed, and none where a step had a fault.
    pub(crate) fn round<R: Wait>(
        &mut self,
        rt: &R,
        alloc: Global,
        space: &Devices<L>,
        name: &[u8],
    ) -> Option<bool> {
        let (_, made) = self.ask(rt, alloc, space, Asked::Create(What::Directory), name)?;
        let (_, opened) = self.ask(rt, alloc, space, Asked::Open(What::Directory), name)?;
        let (closed, _) = self.ask(rt, alloc, space, Asked::Close(opened), b"")?;
        let (gone, _) = self.ask(rt, alloc, space, Asked::Close(made), b"")?;
        Some(closed == Status::Success && gone == Status::Success)
    }
}

/// The handle that a reply gives, or 0.
fn handle_of(reply: &Reply) -> Handle {
    match &reply.given {
        Given::Handle(handle) => *handle,
        _ => Handle(0),
    }
}
