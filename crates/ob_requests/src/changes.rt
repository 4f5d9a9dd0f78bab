//! The variables that a reply changes, and the room for them.

ghost use Rattle.std.specs.Prelude.{◌≡◌, OnOk, OnErr};
ghost use Rattle.ob_lines.specs.Changes.{change_seen};
ghost use Rattle.ob_requests.specs.Commands.{applied, given_handle, given_process, with_page};
ghost use Rattle.ob_requests.specs.Room.{HasRoomFor, NeedsRoom};
ghost use Rattle.ob_requests.specs.Tables.{variables_in, HasRoom};

use crate::variables::Variables;
use ob_base::{Handle, Proc, Status};
use ob_lines::Change;
use ob_model::{Given, Reply};
use std::alloc::AllocError;

impl Variables {
    /// Makes room for what a reply to a process changes, so that no reply is lost for lack of memory; but a child's own
    /// variables have none yet. No variable changes. The only fault is out of memory, where a variable is set, or the context of its page.
    /// Source: this profile.
    pub fn make_room(&mut self, process: Proc, change: Change<&[u8]>) -> Result<(), AllocError>
        ensures same { variables_in self.new ≡ variables_in self.old }
        ensures room { OnOk result (HasRoomFor self.new process (change_seen change.entry)) }
        ensures needs { OnErr result (NeedsRoom (change_seen change.entry)) }
    {
        match change {
            Change::Nothing => Ok(()),
            Change::Sets(variable) => self.room_for_variable(process, variable),
            Change::SetsFor {
                process: to,
                variable,
            } => {
                let to = self.process_of(to);
                self.room_for_variable(to, variable)
            }
            Change::GivesUp(_) => Ok(()),
            Change::TurnsPage(variable) => self.room_for_variable(process, variable),
            Change::GivesAllUp => Ok(()),
            Change::SetsProcess {
                process: variable,
                ..
            } => self.room_for_process(variable),
        }
    }

    /// Changes the variables as a reply to a process says, for which there is room; of a child that is given its process variable
    /// alone, since its own variables are [begun](Variables::begin) apart. Under each variable the same open waits as before. Takes no
    /// memory. Source: this profile.
    pub fn apply(&mut self, process: Proc, change: Change<&[u8]>, reply: &Reply)
        requires room { HasRoomFor self.old process (change_seen change) }
        ensures applied { variables_in self.new
            ≡ applied (change_seen change.entry) process reply.now (variables_in self.old) }
        ensures tickets { (variables_in self.new).tickets ≡ (variables_in self.old).tickets }
    {
        match change {
            Change::Nothing => {}
            Change::Sets(variable) => self.set_handle(
                process,
                variable,
                given_handle(&reply.given),
            ),
            Change::SetsFor {
                process: to,
                variable,
            } => {
                let to = self.process_of(to);
                self.set_handle(to, variable, given_handle(&reply.given));
            }
            Change::GivesUp(variable) => {
                if reply.status == Status::Success {
                    self.give_up(process, variable);
                }
            }
            Change::TurnsPage(variable) => self.turn_page(process, variable, &reply.given),
            Change::GivesAllUp => {
                if reply.status == Status::Success {
                    self.give_all_up(process);
                }
            }
            Change::SetsProcess {
                process: variable,
                ..
            } => {
                self.set_process(variable, given_process(&reply.given));
            }
        }
    }

    // Keeps the context of the page that was given for a variable of a process, where one was.
    fn turn_page(&mut self, process: Proc, variable: &[u8], given: &Given)
        requires room { HasRoom self.old.handles process variable.now }
        ensures { variables_in self.new ≡ with_page (variables_in self.old) process variable.now given.now }
    {
        match given {
            Given::Page { context, .. } => self.set_context(process, variable, *context),
            Given::Nothing => {}
            Given::Handle(_) => {}
            Given::Text(_) => {}
            Given::Process(_, _) => {}
        }
    }
}

/// The handle that was given, or 0: what a variable is set to. Takes no memory. Source: this profile.
pub fn given_handle(given: &Given) -> Handle
    ensures { result ≡ given_handle given.now }
{
    match given {
        Given::Handle(handle) => *handle,
        Given::Nothing => Handle(0),
        Given::Text(_) => Handle(0),
        Given::Process(_, _) => Handle(0),
        Given::Page { .. } => Handle(0),
    }
}

// The process that was given, or 0: what a process variable is set to.
fn given_process(given: &Given) -> Proc
    ensures { result ≡ given_process given.now }
{
    match given {
        Given::Process(process, _) => *process,
        Given::Nothing => Proc(0),
        Given::Handle(_) => Proc(0),
        Given::Text(_) => Proc(0),
        Given::Page { .. } => Proc(0),
    }
}
