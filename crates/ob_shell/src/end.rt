//! How the program ends.

ghost use Rattle.std.specs.Prelude.{◌≡◌};
ghost use Rattle.ob_shell.specs.End.{status_of};

use ob_check::Checked;
use ob_journal::Verdict;
use ob_output::ShellFault;
use ob_scripts::Ending;
use ob_threads::ThreadsEnding;

/// How a task ended that no fault ended. (this profile)
#[derive(Clone, Copy, PartialEq, Eq, Debug)]
pub enum TaskOutcome {
    /// The run of a script came to this ending.
    Script(Ending),
    /// The run of a script with workers came to this ending.
    Threads(ThreadsEnding),
    /// The check of a journal came to this verdict.
    Replay(Verdict),
    /// The check of a script found this.
    Check(Checked),
    /// The input of a session came to its end.
    Session,
}

/// How the program ends. (this profile)
#[derive(PartialEq, Eq, Debug, Drop)]
pub enum ProgramOutcome {
    /// A task was done to this ending, or a fault ended it. Memory that ran out before there was a
    /// task, a file that could not be opened, and help or a version that could not be written are such faults too.
    Task(Result<TaskOutcome, ShellFault>),
    /// The arguments are a mistake.
    Mistake,
    /// Help or the version that the arguments asked for was written.
    Help,
}

impl ProgramOutcome {
    /// The program's status: 0 where the whole script was run, each line of a script that is checked is right, a session came to its end, a journal is accepted, or help or the version was written, 2 where
    /// the arguments are a mistake, 3 where a journal is refused, and else 1. (this profile)
    pub fn status(&self) -> u8
        ensures { result ≡ status_of self.now }
    {
        match self {
            ProgramOutcome::Task(Ok(TaskOutcome::Script(Ending::Done))) => 0,
            ProgramOutcome::Task(Ok(TaskOutcome::Script(Ending::BadLine(_)))) => 1,
            ProgramOutcome::Task(Ok(TaskOutcome::Script(Ending::NoMemoryAt(_)))) => 1,
            ProgramOutcome::Task(Ok(TaskOutcome::Threads(ThreadsEnding::Done))) => 0,
            ProgramOutcome::Task(Ok(TaskOutcome::Threads(ThreadsEnding::BadLine(_)))) => 1,
            ProgramOutcome::Task(Ok(TaskOutcome::Threads(ThreadsEnding::NoMemoryAt(_)))) => 1,
            ProgramOutcome::Task(Ok(TaskOutcome::Threads(ThreadsEnding::RefusedAt(_)))) => 1,
            ProgramOutcome::Task(Ok(TaskOutcome::Replay(Verdict::Accepted))) => 0,
            ProgramOutcome::Task(Ok(TaskOutcome::Replay(Verdict::Refused))) => 3,
            ProgramOutcome::Task(Ok(TaskOutcome::Check(Checked::Clean))) => 0,
            ProgramOutcome::Task(Ok(TaskOutcome::Check(Checked::Faulty))) => 1,
            ProgramOutcome::Task(Ok(TaskOutcome::Session)) => 0,
            ProgramOutcome::Task(Err(_)) => 1,
            ProgramOutcome::Mistake => 2,
            ProgramOutcome::Help => 0,
        }
    }
}
