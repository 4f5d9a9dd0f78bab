//! Calls of commands.

ghost use Rattle.ob_c_state.specs.Calls.{CallsMade};

use crate::Ntns;
use ob_base::Status;
use ob_core::{Command, Reply};
use ob_host::Kind;
use std::alloc::{AllocError, Global};

/// Runs a command of a process to its reply, if the namespace is open. The errors are `InvalidParameter`, if it is
/// closed, and `NoMemory`, if memory ran out while the command was made or run to its reply. (this profile)
pub fn call(
    ns: &mut Ntns,
    alloc: Global,
    process: u32,
    made: &Result<Command<Kind>, AllocError>,
) -> Result<Reply, Status>
    ensures { CallsMade process made.now ns.old.core result ns.new.core }
{
    let Some(mut core) = ns.take(alloc) else {
        return Err(Status::InvalidParameter);
    };
    let ended = core.run(alloc, process, made);
    ns.put(core);
    ended
}
