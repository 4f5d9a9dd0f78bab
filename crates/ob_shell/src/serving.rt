//! From the program's arguments to its status.

ghost use Rattle.std.specs.Prelude.{map};
ghost use Rattle.ob_shell.specs.Serve.{AsksFor, Gives, Serves};

use crate::end::ProgramOutcome;
use crate::opening::perform_opened;
use crate::performing::{converse, perform};
use crate::planning::{Task, plan};
use crate::refusing::refuse;
use ob_output::Unwritten;
use std::alloc::Global;
use std::convert::AsStr;
use std::io;
use std::io::{BufRead, Read, Write};
use std::sync::Wait;
use std::thread::Threads;

/// Does the task that the arguments name; returns how the program ends, and whether its text on standard error was
/// written whole. The first argument is the program's name.
///
/// Where the arguments name a task and have no fault, it is done: `Script`, `Session` and `Tree` without a path over the reader, and `Run`,
/// `Threads`, `Replay`, `Check` and `Tree` over the file that `opener` gives for their path. Nothing else is opened: `opener` need only be
/// callable at the path that the arguments name, and is called for no script on standard input. A file
/// that could not be opened is reported as `perform_opened` says. A fault of the arguments is reported in place of a task,
/// and so is out of memory before there was a task. (this profile)
pub fn serve<
    'a,
    H: Threads + Wait + Sync,
    S: AsStr,
    O: FnOnce(&'a str) -> io::Result<I>,
    I: Read + Drop,
    R: BufRead,
    W: Write,
    E: Write,
>(
    rt: &H,
    alloc: Global,
    arguments: &'a [S],
    opener: O,
    reader: &mut R,
    writer: &mut W,
    errors: &mut E,
) -> (ProgramOutcome, Result<(), Unwritten>)
    requires { (path : _) → AsksFor (map S.text arguments.now) path.now → O.pre opener path }
    ensures { Serves (Gives O.FnOnce opener I.remaining) (map S.text arguments.now) (result.0)
        (result.1) (R.remaining reader.old)
        (W.contents writer.old) (W.contents writer.new)
        (E.contents errors.old) (E.contents errors.new) }
{
    match plan(alloc, arguments) {
        Ok(task) => {
            let (outcome, told) = match task {
                Task::Script | Task::Tree { file: None, .. } => {
                    perform(rt, alloc, task, reader, writer, errors)
                }
                Task::Session => converse(alloc, reader, writer, errors),
                Task::Run(file)
                | Task::Threads(file)
                | Task::Replay(file)
                | Task::Check(file)
                | Task::Tree {
                    file: Some(file),
                    ..
                } => {
                    let opened = opener(file);
                    perform_opened(rt, alloc, task, opened, writer, errors)
                }
            };
            (ProgramOutcome::Task(outcome), told)
        }
        Err(fault) => refuse(alloc, &fault, writer, errors),
    }
}
