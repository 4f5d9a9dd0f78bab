//! The inherit flag of a handle.

ghost use Rattle.std.specs.Prelude.{◌≡◌, ◌⊎◌, IfErr, IfOk, None, OnOk, Some};
ghost use Rattle.std.specs.Option.{option_and_then};
ghost use Rattle.ob_base.specs.declared.status.Status.TheVariants.{NoMemory};
ghost use Rattle.ob_base.specs.Handle.{key_of};
ghost use Rattle.ob_model.specs.Grants.{IsFreeValue, IsHandleValue};
ghost use Rattle.ob_model.specs.State.{held_of};
ghost use Rattle.ob_c_state.specs.Inherit.{CloseIsRefused, DuplicateIsRefused, FlagIsRefused, HasFlagSet, IsClosed, IsDuplicated, IsReplaced, SetsFlag, SetsInherit};
ghost use Rattle.ob_c_state.specs.Machine.{host};

use crate::machine::HostCore;
use ob_base::{Handle, Proc, Status};
use ob_core::{Command, Given};
use std::alloc::Global;

impl HostCore {
    /// Sets whether children inherit a handle of a process, whose low two bits are ignored. The handle keeps its value, and
    /// comes last in the order of opening. If the flag is as asked already, nothing is done.
    ///
    /// `Success`; the statuses of a duplicate for the process itself, in its order; and `NoMemory` if the flag differs and
    /// memory runs out. With any other than `Success` nothing has changed. The steps are made on a copy of the namespace, so
    /// that this takes a time that grows with all that is in the state.
    ///
    /// Source: ZwSetInformationObject (Windows Driver Kit), ObjectHandleFlagInformation; the steps are this profile.
    pub fn set_inherit(&mut self, alloc: Global, process: u32, handle: u32, inherit: bool) -> Status
        ensures { SetsInherit process handle inherit self.old result self.new }
    {
        self.read().state_is_reached();
        let Some(held) = self.read().handle(Proc(process), Handle(handle)) else {
            return self.refuse_flag(alloc, process, handle, inherit);
        };
        if held.inherit == inherit {
            return Status::Success;
        }
        self.set_flag(alloc, process, handle, inherit, held.value)
    }

    // The status with which a duplicate of a handle that isn't there is refused. Nothing changes.
    fn refuse_flag(&mut self, alloc: Global, process: u32, handle: u32, inherit: bool) -> Status
        requires { option_and_then (held_of self.old process) (key_of handle) ≡ None }
        ensures same { self.new ≡ self.old }
        ensures refused { DuplicateIsRefused host self.old process handle inherit result }
    {
        let command = Command::Duplicate {
            handle: Handle(handle),
            to: Proc(process),
            inherit,
        };
        match self.run(alloc, process, &Ok(command)) {
            Ok(reply) => reply.status,
            Err(_) => unreachable!(),
        }
    }

    // Makes the steps on a copy, which takes the place of the namespace if all are made. The handle has the value `key`.
    fn set_flag(
        &mut self,
        alloc: Global,
        process: u32,
        handle: u32,
        inherit: bool,
        key: Handle,
    ) -> Status
        requires key { key_of handle ≡ Some key }
        requires valid { IsHandleValue key }
        ensures { SetsFlag process handle inherit self.old result self.new }
    {
        let Ok(copy) = self.copy(alloc) else {
            return Status::NoMemory;
        };
        match copy.with_flag(alloc, process, handle, inherit, key) {
            Ok(core) => {
                *self = core;
                Status::Success
            }
            Err(status) => status,
        }
    }

    // The namespace after the four steps. The handle has the value `key`.
    fn with_flag(
        mut self,
        alloc: Global,
        process: u32,
        handle: u32,
        inherit: bool,
        key: Handle,
    ) -> Result<HostCore, Status>
        requires key { key_of handle ≡ Some key }
        requires valid { IsHandleValue key }
        ensures set { IfOk result (λ core. HasFlagSet host self process handle inherit core) }
        ensures refused { IfErr result (λ status. (status ≡ NoMemory)
            ⊎ FlagIsRefused host self process handle inherit status) }
    {
        let kept = self.replace(alloc, process, handle, inherit)?;
        let mut core = self.duplicate_to(alloc, process, kept, inherit, key)?;
        core.close(alloc, process, kept)?;
        Ok(core)
    }

    // Puts a duplicate in place of a handle of a process, and gives its value.
    fn replace(
        &mut self,
        alloc: Global,
        process: u32,
        handle: u32,
        inherit: bool,
    ) -> Result<u32, Status>
        ensures replaced { IfOk result (λ value.
            IsReplaced host self.old process handle inherit value self.new) }
        ensures refused { IfErr result (λ status. (status ≡ NoMemory)
            ⊎ FlagIsRefused host self.old process handle inherit status) }
    {
        let value = self.duplicate(alloc, process, handle, inherit)?;
        self.close(alloc, process, handle)?;
        Ok(value.0)
    }

    // The namespace in which a process has a duplicate of its handle under this value, which must be free.
    fn duplicate_to(
        mut self,
        alloc: Global,
        process: u32,
        handle: u32,
        inherit: bool,
        to: Handle,
    ) -> Result<HostCore, Status>
        requires free { IsFreeValue self process to }
        ensures duplicated { IfOk result (λ core.
            IsDuplicated host self process handle inherit to core) }
        ensures refused { IfErr result (λ status. (status ≡ NoMemory)
            ⊎ DuplicateIsRefused host self process handle inherit status) }
    {
        self.read().state_is_reached();
        let given = self.duplicate(alloc, process, handle, inherit)?;
        if given == to {
            return Ok(self);
        }
        match self.revalue(process, given, to) {
            Ok(core) => Ok(core),
            Err(_) => Err(Status::NoMemory),
        }
    }

    // Duplicates a handle of a process for the process itself, and gives the value of the new one.
    fn duplicate(
        &mut self,
        alloc: Global,
        process: u32,
        handle: u32,
        inherit: bool,
    ) -> Result<Handle, Status>
        ensures duplicated { IfOk result (λ value.
            IsDuplicated host self.old process handle inherit value self.new) }
        ensures refused { IfErr result (λ status. (status ≡ NoMemory)
            ⊎ DuplicateIsRefused host self.old process handle inherit status) }
    {
        let command = Command::Duplicate {
            handle: Handle(handle),
            to: Proc(process),
            inherit,
        };
        let reply = self.run(alloc, process, &Ok(command))?;
        match &reply.given {
            Given::Handle(value) => Ok(*value),
            _ => Err(reply.status),
        }
    }

    // Closes a handle of a process.
    fn close(&mut self, alloc: Global, process: u32, handle: u32) -> Result<(), Status>
        ensures closed { OnOk result (IsClosed host self.old process handle self.new) }
        ensures refused { IfErr result (λ status. (status ≡ NoMemory)
            ⊎ CloseIsRefused host self.old process handle status) }
    {
        let close = Command::Close {
            handle: Handle(handle),
        };
        let reply = self.run(alloc, process, &Ok(close))?;
        match reply.status {
            Status::Success => Ok(()),
            status => Err(status),
        }
    }
}
