//! Doing a task over the program's streams.

ghost use Rattle.std.specs.Prelude.{◌≡◌, ◌≢◌, OnOk, OnErr, Err};
ghost use Rattle.std.specs.Io.KnownBytes.{Appends};
ghost use Rattle.ob_output.specs.declared.fault.ShellFault.TheVariants.{Memory};
ghost use Rattle.ob_output.specs.Fault.{fault_text_of};
ghost use Rattle.ob_output.specs.Writing.{AppendsFront};
ghost use Rattle.ob_shell.specs.declared.end.ProgramOutcome.TheVariants as ends;
ghost use Rattle.ob_shell.specs.Perform.{Complains, Performs, Runs, SaysFront, SaysWhole, line_of, text_told};
ghost use Rattle.ob_threads.specs.Written.{IsWritten};

use crate::end::{ProgramOutcome, TaskOutcome};
use crate::planning::Task;
use ob_check::run_check;
use ob_journal::run_replay;
use ob_output::{ShellFault, Unwritten, write_out};
use ob_script_tree::run_tree;
use ob_scripts::run_script;
use ob_session::run_session;
use ob_threads::{ThreadsEnding, run_threads};
use std::alloc::Global;
use std::io::{BufRead, Read, Write};
use std::marker::Brand;
use std::sync::Wait;
use std::sync::ledger::Blank;
use std::thread::Threads;

/// Does the task, and returns how it ended: the ending of its kind of run, the verdict on a journal, the finding of a check of a script, or the fault that ended the task; and
/// whether its line on standard error was written whole.
///
/// The input is the reader, which is standard input or the file that was opened for the task, and
/// the output is written to the writer. One line is written to `errors`: `ntns: ` and the text of the fault that
/// is returned, or, after a run with workers in which a step found no memory or was refused, a text that says
/// so. An end that the output reports has no such line. A fault of writing that line changes no
/// ending. A session is another call: [`converse`]. (this profile)
pub fn perform<H: Threads + Wait + Sync, R: Read, W: Write, E: Write>(
    rt: &H,
    alloc: Global,
    task: Task<'_>,
    reader: &mut R,
    writer: &mut W,
    errors: &mut E,
) -> (Result<TaskOutcome, ShellFault>, Result<(), Unwritten>)
    requires { task ≢ Task.Session }
    ensures { Performs task.entry (result.0) (result.1) (R.remaining reader.old)
        (W.contents writer.old) (W.contents writer.new)
        (E.contents errors.old) (E.contents errors.new) }
{
    let outcome = run_task(rt, alloc, task, reader, writer);
    let told = tell(errors, &outcome);
    (outcome, told)
}

/// Runs a session over the reader, and reports as [`perform`] does. (this profile)
pub fn converse<R: BufRead, W: Write, E: Write>(
    alloc: Global,
    reader: &mut R,
    writer: &mut W,
    errors: &mut E,
) -> (Result<TaskOutcome, ShellFault>, Result<(), Unwritten>)
    ensures { Performs Task.Session (result.0) (result.1) (R.remaining reader.old)
        (W.contents writer.old) (W.contents writer.new)
        (E.contents errors.old) (E.contents errors.new) }
{
    let outcome = match run_session(alloc, reader, writer) {
        Ok(()) => Ok(TaskOutcome::Session),
        Err(fault) => Err(fault),
    };
    let told = tell(errors, &outcome);
    (outcome, told)
}

// Does the task, and writes nothing to standard error.
fn run_task<H: Threads + Wait + Sync, R: Read, W: Write>(
    rt: &H,
    alloc: Global,
    task: Task<'_>,
    reader: &mut R,
    writer: &mut W,
) -> Result<TaskOutcome, ShellFault>
    requires { task ≢ Task.Session }
    ensures { Runs task.entry result (R.remaining reader.old) (W.contents writer.old)
        (W.contents writer.new) }
{
    match task {
        Task::Script | Task::Run(_) => match run_script(alloc, reader, writer) {
            Ok(ending) => Ok(TaskOutcome::Script(ending)),
            Err(fault) => Err(fault),
        },
        Task::Threads(_) => match run_workers(rt, alloc, reader, writer) {
            Ok(ending) => Ok(TaskOutcome::Threads(ending)),
            Err(fault) => Err(fault),
        },
        Task::Replay(_) => match run_replay(alloc, reader, writer) {
            Ok(verdict) => Ok(TaskOutcome::Replay(verdict)),
            Err(fault) => Err(fault),
        },
        Task::Check(_) => match run_check(alloc, reader, writer) {
            Ok(checked) => Ok(TaskOutcome::Check(checked)),
            Err(fault) => Err(fault),
        },
        Task::Tree { file: _, picture } => match run_tree(alloc, reader, writer, picture) {
            Ok(ending) => Ok(TaskOutcome::Script(ending)),
            Err(fault) => Err(fault),
        },
        Task::Session => unreachable!(),
    }
}

// Runs a script with workers, whose steps are counted by a ledger of the run's own.
fn run_workers<H: Threads + Wait + Sync, R: Read, W: Write>(
    rt: &H,
    alloc: Global,
    reader: &mut R,
    writer: &mut W,
) -> Result<ThreadsEnding, ShellFault>
    ensures { IsWritten result (R.remaining reader.old) (W.contents writer.old)
        (W.contents writer.new) }
{
    run_threads::<_, Brand, _, _>(rt, alloc, Blank::new(1_024), reader, writer)
}

// Reports how a task ended, if the output doesn't; returns whether all of that was written, as `complain` does.
fn tell<E: Write>(
    errors: &mut E,
    outcome: &Result<TaskOutcome, ShellFault>,
) -> Result<(), Unwritten>
    ensures ok { OnOk result
        (SaysWhole (text_told outcome.now) (E.contents errors.old) (E.contents errors.new)) }
    ensures front { OnErr result
        (SaysFront (text_told outcome.now) (E.contents errors.old) (E.contents errors.new)) }
{
    match outcome {
        Ok(TaskOutcome::Threads(ThreadsEnding::NoMemoryAt(_))) => complain(
            errors,
            &ShellFault::Memory,
        ),
        Ok(TaskOutcome::Threads(ThreadsEnding::RefusedAt(_))) => say(errors, "step refused"),
        Ok(_) => Ok(()),
        Err(fault) => complain(errors, fault),
    }
}

/// Reports that memory ran out before there was a task. (this profile)
pub fn starve<E: Write>(errors: &mut E) -> (ProgramOutcome, Result<(), Unwritten>)
    ensures end { result.0 ≡ ends.Task (Err Memory) }
    ensures told { Complains Memory (result.1) (E.contents errors.old) (E.contents errors.new) }
{
    let told = complain(errors, &ShellFault::Memory);
    (ProgramOutcome::Task(Err(ShellFault::Memory)), told)
}

/// Writes the line that reports the fault: `ntns: `, its text and LF. If a write fails, a beginning of the
/// line was written, and nothing more is tried. It takes no memory. (this profile)
pub fn complain<E: Write>(errors: &mut E, fault: &ShellFault) -> Result<(), Unwritten>
    ensures ok { OnOk result
        (Appends (E.contents errors.old) (E.contents errors.new) (line_of
        (fault_text_of fault.now))) }
    ensures front { OnErr result
        (AppendsFront (E.contents errors.old) (E.contents errors.new) (line_of
        (fault_text_of fault.now))) }
{
    say(errors, fault.text())
}

// Writes the line that reports a text, as `complain` does.
fn say<E: Write>(errors: &mut E, text: &str) -> Result<(), Unwritten>
    ensures ok { OnOk result
        (Appends (E.contents errors.old) (E.contents errors.new) (line_of text.now)) }
    ensures front { OnErr result
        (AppendsFront (E.contents errors.old) (E.contents errors.new) (line_of text.now)) }
{
    write_out(errors, b"ntns: ")?;
    write_out(errors, text.as_bytes())?;
    write_out(errors, b"\n")
}
