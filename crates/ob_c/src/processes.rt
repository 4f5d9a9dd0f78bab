//! Exports that begin and end processes.

ghost use Rattle.ob_model.specs.declared.command.Command.TheVariants.{ExitProcess, NewProcess};
ghost use Rattle.ob_c_state.specs.Calls.{Does};
ghost use Rattle.ob_c_state.specs.Reports.{ReportsProcess, ReportsStatus};

use ob_c_state::{Ntns, call, process_in, status_in};
use ob_core::Command;
use std::alloc::Global;

/// Makes a child of a process. If `inherit` is true, the child inherits the process's inheritable handles, each under the
/// same value. `child` receives the child's number, 0 if no child is made.
///
/// The statuses are those of the command `NewProcess`, in its order; `InvalidParameter` if the namespace is closed,
/// and `NoMemory` if out of memory; nothing has changed then. Source: Windows Internals, Processes.
#[unsafe(no_mangle)]
pub extern "C" fn ntns_new_process(
    ns: &mut Ntns,
    alloc: Global,
    process: u32,
    inherit: bool,
    child: &mut u32,
) -> u32
    ensures { Does process (NewProcess inherit)
        ns.old.core ns.new.core (ReportsProcess result child.new) }
{
    let ended = call(ns, alloc, process, &Ok(Command::NewProcess { inherit }));
    *child = process_in(&ended);
    status_in(&ended)
}

/// Ends a process: closes each of its handles, and the process is live no longer. It takes no
/// memory.
///
/// The statuses are those of the command `ExitProcess`, in its order; `InvalidParameter` if the namespace is closed.
/// Source: Windows Internals, Processes.
#[unsafe(no_mangle)]
pub extern "C" fn ntns_exit_process(ns: &mut Ntns, alloc: Global, process: u32) -> u32
    ensures { Does process ExitProcess ns.old.core ns.new.core (ReportsStatus result) }
{
    status_in(&call(ns, alloc, process, &Ok(Command::ExitProcess)))
}
