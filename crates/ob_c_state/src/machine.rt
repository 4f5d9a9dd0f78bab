//! The machine of a caller's struct.

ghost use Rattle.std.specs.Prelude.{◌≡◌, IfOk, IfSome, IfNone, IsSome};
ghost use Rattle.std.specs.Option.{option_map};
ghost use Rattle.ob_core.specs.Referent.{body_lent, referent_at};
ghost use Rattle.ob_types.specs.Unnoticed.{with_change};
ghost use Rattle.ob_host.specs.Deletions.{behind_next, next_deletion, unused};
ghost use Rattle.ob_core.specs.Reached.{IsJustGiven};
ghost use Rattle.ob_model.specs.Choice.{revalued};
ghost use Rattle.ob_model.specs.Grants.{IsFreeValue};
ghost use Rattle.ob_model.specs.Opening.{opening};
ghost use Rattle.ob_model.specs.PendingOpens.{pending_of};
ghost use Rattle.ob_runner.specs.Begun.{IfWaits};
ghost use Rattle.ob_c_state.specs.Calls.{Ends, EndsMade};
ghost use Rattle.ob_c_state.specs.Machine.{host};
ghost use Rattle.ob_c_state.specs.Pending.{BeginsMade, BeginsOpen, Cancels, EndsPending};

use crate::copies::copied_waits;
use ob_base::{Handle, ObjId, Proc, Status};
use ob_core::{Command, Core, Referent, Reply, SlabTable};
use ob_host::{HostDeletion, HostInner, HostObject, HostSet, Kind};
use ob_runner::{Begun, Waits, begin_open, drop_open, end_open, run_command};
use std::alloc::{AllocError, Global};
use std::marker::Model;

/// The namespace over the set of a caller's own objects, and the parses that its pending opens wait for.
///
/// A contract sees the state of the abstract machine. Of every value the parses that are kept are those of the opens that
/// are pending in that state, under their tickets. (this profile)
pub struct HostCore {
    core: Core<HostSet, SlabTable>,
    waits: Waits<HostSet>,
}

impl Model for HostCore {
    ghost use Rattle.ob_c_state.specs.Machine.{KeepsParses, Space};

    ghost Value = { Space };

    ghost view = { λ a. a.core };

    ghost invariant = { λ a. KeepsParses a.core a.waits };
}

/// The parses of pending opens are dropped too.
impl Drop for HostCore {
    fn drop(self) {
        let HostCore { core: _core, waits } = self;
        waits.let_go();
    }
}

impl HostCore {
    /// The opening state, in which nothing was opened or deleted. The only error is out of memory. (this profile)
    pub fn new(alloc: Global) -> Result<HostCore, AllocError>
        ensures { IfOk result (λ core. core ≡ opening unused) }
    {
        match Core::new(alloc, HostSet::new()) {
            Ok(core) => Ok(HostCore {
                core,
                waits: Waits::new(alloc),
            }),
            Err(_) => Err(AllocError),
        }
    }

    /// Another namespace in the same state, with the same values of handles, ids, tickets of pending opens, and deletions
    /// that weren't taken yet. A step of one changes nothing of the other. It takes a time that grows with all that is in
    /// the state. The only error is out of memory. (this profile)
    pub fn copy(&self, alloc: Global) -> Result<HostCore, AllocError>
        ensures { IfOk result (λ copy. copy ≡ self.now) }
    {
        Ok(HostCore {
            core: self.core.copy()?,
            waits: copied_waits(alloc, &self.waits)?,
        })
    }

    /// Runs a command of a process to its reply, and each parse that it waits for meanwhile; if it could not be made
    /// because memory ran out, nothing is done. The only error is `NoMemory`: before the first step, and then nothing has
    /// changed, or after steps that abandon the open.
    ///
    /// Source: Windows Internals, Object Manager (parse methods); that a parse is run between two steps is this profile.
    pub fn run(
        &mut self,
        alloc: Global,
        process: u32,
        made: &Result<Command<Kind>, AllocError>,
    ) -> Result<Reply, Status>
        ensures { EndsMade process made.now self.old result self.new }
    {
        match made {
            Err(_) => Err(Status::NoMemory),
            Ok(command) => self.run_lent(alloc, process, command),
        }
    }

    // Runs a command of a process to its reply, or until memory runs out.
    fn run_lent(
        &mut self,
        alloc: Global,
        process: u32,
        command: &Command<Kind>,
    ) -> Result<Reply, Status>
        ensures { Ends process command.now self.old result self.new }
    {
        self.core.state_is_sound();
        let Ok(reply) = run_command(&mut self.core, alloc, Proc(process), command) else {
            return Err(Status::NoMemory);
        };
        Ok(reply)
    }

    /// Starts a command of a process, and keeps its parse if it is an open that waits for one; if it could not be made
    /// because memory ran out, nothing is done. The only error is `NoMemory`: before the first step, and then nothing has
    /// changed, or after steps that abandon the open.
    ///
    /// Source: Windows Internals, Object Manager (parse methods); that a parse is run between two steps is this profile.
    pub fn begin(
        &mut self,
        process: u32,
        made: &Result<Command<Kind>, AllocError>,
    ) -> Result<Begun, Status>
        ensures begun { BeginsMade process made.now self.old result self.new }
        ensures pending { IfOk result (λ begun. IfWaits begun (λ ticket.
            IsSome (pending_of self.new ticket))) }
    {
        match made {
            Err(_) => Err(Status::NoMemory),
            Ok(command) => self.begin_lent(process, command),
        }
    }

    // Starts a command of a process, and keeps its parse if it is an open that waits for one.
    fn begin_lent(&mut self, process: u32, command: &Command<Kind>) -> Result<Begun, Status>
        ensures begun { BeginsOpen process command.now self.old result self.new }
        ensures pending { IfOk result (λ begun. IfWaits begun (λ ticket.
            IsSome (pending_of self.new ticket))) }
    {
        self.core.state_is_sound();
        match begin_open(&mut self.core, &mut self.waits, Proc(process), command) {
            Ok(begun) => Ok(begun),
            Err(_) => Err(Status::NoMemory),
        }
    }

    /// Runs the parse of a pending open, and resumes the open with it, to its reply. The errors are `InvalidParameter`, if no
    /// open is pending under the ticket, and then nothing changes; and `NoMemory`, and then the open is abandoned. No open
    /// waits for a second parse, since no object of the caller's answers with another name.
    ///
    /// Source: Windows Internals, Object Manager (parse methods); that a parse is run between two steps is this profile.
    pub fn end(&mut self, alloc: Global, ticket: u64) -> Result<Reply, Status>
        ensures { EndsPending ticket self.old result self.new }
    {
        let Some(_) = self.core.pinned(ticket) else {
            return Err(Status::InvalidParameter);
        };
        self.core.state_is_sound();
        match end_open(&mut self.core, &mut self.waits, alloc, ticket) {
            Ok(Begun::Replied(reply)) => Ok(reply),
            Ok(Begun::Waits(_)) => unreachable!(),
            Err(_) => Err(Status::NoMemory),
        }
    }

    /// Abandons a pending open, without a run of its parse: `Success`, or `InvalidParameter` if no open is pending under the
    /// ticket, and then nothing changes. It takes no memory.
    ///
    /// Source: Windows Internals, Object Manager (parse methods); that an open is given up by its ticket is this profile.
    pub fn cancel(&mut self, ticket: u64) -> Status
        ensures { Cancels ticket self.old result self.new }
    {
        let Some(_) = self.core.pinned(ticket) else {
            return Status::InvalidParameter;
        };
        self.core.state_is_sound();
        drop_open(&mut self.core, &mut self.waits, ticket);
        Status::Success
    }

    /// The part of a pending open's name that follows the object at which it is pending; `None` exactly if no open is pending
    /// under the ticket.
    ///
    /// Source: Windows Internals, Object Manager (parse methods: the remaining name).
    pub fn rest(&self, ticket: u64) -> Option<&[u8]>
        ensures { option_map (λ rest. rest.now) result
            ≡ option_map (λ pending. pending.rest) (pending_of self.now ticket) }
    {
        let parse = self.waits.parse(ticket)?;
        Some(parse.rest())
    }

    /// The object of a process's handle, whose low two bits are ignored: its id, and what it is. `None` exactly if the
    /// process has no such handle. Takes no memory.
    ///
    /// Source: ObReferenceObjectByHandle (Windows Driver Kit).
    pub fn referent(
        &self,
        process: u32,
        handle: u32,
    ) -> Option<(ObjId, Referent<'_, HostObject, HostInner>)>
        ensures { option_map (λ led. (led.0, body_lent led.1)) result
            ≡ referent_at self.now process handle }
    {
        self.core.referent(Proc(process), Handle(handle))
    }

    /// The namespace in which the handle that the last step gave to this process, under the value `from`, has the value `to`
    /// instead, which must be free; nothing else differs. The only error is out of memory, and then the namespace is dropped.
    ///
    /// Source: handles are values of the system's choice (Windows Driver Kit); that a choice may be changed is this profile.
    pub(crate) fn revalue(
        self,
        process: u32,
        from: Handle,
        to: Handle,
    ) -> Result<HostCore, AllocError>
        requires given { IsJustGiven host self process from }
        requires free { IsFreeValue self process to }
        ensures { IfOk result (λ core. core ≡ revalued to self) }
    {
        let HostCore { core, waits } = self;
        match core.revalue(Proc(process), from, to) {
            Ok(core) => Ok(HostCore { core, waits }),
            Err(_) => {
                waits.let_go();
                Err(AllocError)
            }
        }
    }

    /// The core, to be read.
    pub fn read(&self) -> &Core<HostSet, SlabTable>
        ensures { result.now ≡ self.now }
    {
        &self.core
    }

    /// Takes the first deletion that wasn't taken yet; `None` if none is left, and then nothing changes. Takes no
    /// memory. (this profile)
    pub fn take_next(&mut self) -> Option<HostDeletion>
        ensures reported { result ≡ next_deletion self.old.set }
        ensures taken { IfSome result (λ _. self.new ≡ with_change behind_next self.old) }
        ensures none { IfNone result (self.new ≡ self.old) }
    {
        self.core.take_next()
    }
}
