//! How a run of a script with workers ends.

ghost use Rattle.std.specs.Prelude.{◌≡◌};
ghost use Rattle.ob_threads.specs.Ended.{ending_of, is_told_first, told_of};

use ob_seats::{Stop, Stopped};

/// How a run of a script with workers ends that no fault ended. (this profile)
#[derive(Clone, Copy, PartialEq, Eq, Debug)]
pub enum ThreadsEnding {
    /// Every line was run.
    Done,
    /// The line of this number, from 1, is the first that is no line of a script with workers, or is in a wrong place.
    /// No line was run.
    BadLine(u64),
    /// The line of this number, from 1, found no memory, so that its seat ran no later line: the least such line of any seat.
    NoMemoryAt(u64),
    /// A step of the line of this number, from 1, was refused, so that its seat ran no later line: the least such line of any seat, where none
    /// found no memory.
    RefusedAt(u64),
}

/// How a run of lines that ended so ends.
pub(crate) fn ending_of(ended: Result<(), Stopped>) -> ThreadsEnding
    ensures { result ≡ ending_of ended }
{
    match ended {
        Ok(()) => ThreadsEnding::Done,
        Err(stopped) => match stopped.why {
            Stop::Memory => ThreadsEnding::NoMemoryAt(stopped.line),
            Stop::Refused => ThreadsEnding::RefusedAt(stopped.line),
        },
    }
}

/// Returns which of the ends of two seats is reported: out of memory before a refusal, and of the same kind the least line.
pub(crate) fn told_of(one: Result<(), Stopped>, other: Result<(), Stopped>) -> Result<(), Stopped>
    ensures { result ≡ told_of one other }
{
    let Err(first) = one else {
        return other;
    };
    let Err(second) = other else {
        return one;
    };
    if is_told_first(first, second) {
        one
    } else {
        other
    }
}

/// Returns whether an end is reported before another one.
fn is_told_first(one: Stopped, other: Stopped) -> bool
    ensures { result ≡ is_told_first one.why other.why one.line other.line }
{
    match (one.why, other.why) {
        (Stop::Memory, Stop::Refused) => true,
        (Stop::Refused, Stop::Memory) => false,
        (Stop::Memory, Stop::Memory) => one.line <= other.line,
        (Stop::Refused, Stop::Refused) => one.line <= other.line,
    }
}
