//! Doing a task over the file that was opened for it.

ghost use Rattle.std.specs.Prelude.{◌≡◌, ◌≢◌};
ghost use Rattle.std.specs.IoError.{error_kind};
ghost use Rattle.ob_shell.specs.Opening.{Follows, fault_of_opening, opened_as};

use crate::end::TaskOutcome;
use crate::performing::{complain, perform};
use crate::planning::Task;
use ob_output::{ShellFault, Unread, Unwritten};
use std::alloc::Global;
use std::io;
use std::io::{Error, ErrorKind, Read, Write};
use std::sync::Wait;
use std::thread::Threads;

/// Does the task over the file, if it was opened, and returns what [`perform`] returns.
///
/// If it could not be opened, the fault is `Memory` if the opening was out of memory, and else `Read`; its line is written to
/// `errors`, and nothing to the writer. (this profile)
pub fn perform_opened<H: Threads + Wait + Sync, I: Read + Drop, W: Write, E: Write>(
    rt: &H,
    alloc: Global,
    task: Task<'_>,
    opened: io::Result<I>,
    writer: &mut W,
    errors: &mut E,
) -> (Result<TaskOutcome, ShellFault>, Result<(), Unwritten>)
    requires { task ≢ Task.Session }
    ensures { Follows (opened_as I.remaining opened) task.entry (result.0) (result.1)
        (W.contents writer.old) (W.contents writer.new)
        (E.contents errors.old) (E.contents errors.new) }
{
    match opened {
        Ok(mut reader) => perform(rt, alloc, task, &mut reader, writer, errors),
        Err(error) => {
            let fault = opening_fault(error);
            let told = complain(errors, &fault);
            (Err(fault), told)
        }
    }
}

// The program's fault for a fault of opening a file.
fn opening_fault(error: Error) -> ShellFault
    ensures { result ≡ fault_of_opening (error_kind error) }
{
    match error.kind() {
        ErrorKind::OutOfMemory => ShellFault::Memory,
        _ => ShellFault::Read(Unread::from(error)),
    }
}
