//! Ending where the arguments name no task.

ghost use Rattle.std.specs.Prelude.{◌≡◌, ◌≢◌, ◌⊎◌};
ghost use Rattle.clap.specs.Words.{kind_of};
ghost use Rattle.ob_shell.specs.Refuse.{Blames, Fails, Helps, IsRequest, Starves};

use crate::end::ProgramOutcome;
use crate::performing::{complain, starve};
use clap::Error;
use clap::error::ErrorKind;
use ob_output::{ShellFault, Unwritten, write_out};
use std::alloc::Global;
use std::io::Write;

/// Reports the fault of the arguments; returns how the program ends with it, and whether its text on standard error was
/// written whole.
///
/// Out of memory, in the parser or for the text, is the fault `Memory`, reported on `errors`. Help or
/// the version that was asked for is written to the writer; if it cannot be written, that is the fault
/// `Write`. The text of any other fault, a mistake, is written to `errors`, and the end is the same if it
/// cannot be written. (this profile)
pub fn refuse<W: Write, E: Write>(
    alloc: Global,
    fault: &Error,
    writer: &mut W,
    errors: &mut E,
) -> (ProgramOutcome, Result<(), Unwritten>)
    ensures want { kind_of fault.now ≡ ErrorKind.OutOfMemory →
        Starves (result.0) (result.1) (W.contents writer.old) (W.contents writer.new)
        (E.contents errors.old) (E.contents errors.new) }
    ensures help { IsRequest (kind_of fault.now) →
        Helps (result.0) (result.1) (W.contents writer.old) (W.contents writer.new)
        (E.contents errors.old) (E.contents errors.new)
        ⊎ (Fails (result.0) (result.1) (W.contents writer.old) (W.contents writer.new)
        (E.contents errors.old) (E.contents errors.new)
        ⊎ Starves (result.0) (result.1) (W.contents writer.old) (W.contents writer.new)
        (E.contents errors.old) (E.contents errors.new)) }
    ensures mistake { kind_of fault.now ≢ ErrorKind.OutOfMemory →
        (IsRequest (kind_of fault.now) → ⊥) →
        Blames (result.0) (result.1) (W.contents writer.old) (W.contents writer.new)
        (E.contents errors.old) (E.contents errors.new)
        ⊎ Starves (result.0) (result.1) (W.contents writer.old) (W.contents writer.new)
        (E.contents errors.old) (E.contents errors.new) }
{
    if fault.kind() == ErrorKind::OutOfMemory {
        return starve(errors);
    }
    let Ok(text) = format!(in alloc; "{fault}") else {
        return starve(errors);
    };
    if fault.use_stderr() {
        let told = write_out(errors, text.as_bytes());
        return (ProgramOutcome::Mistake, told);
    }
    match write_out(writer, text.as_bytes()) {
        Ok(()) => (ProgramOutcome::Help, Ok(())),
        Err(unwritten) => {
            let fault = ShellFault::Write(unwritten);
            let told = complain(errors, &fault);
            (ProgramOutcome::Task(Err(fault)), told)
        }
    }
}
