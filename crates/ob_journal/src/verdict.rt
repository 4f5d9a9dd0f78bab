//! Verdicts, and the lines that report them.

ghost use Rattle.std.specs.Prelude.{◌≡◌, ◌⊎◌, true, false, IfOk, IfErr, IsErrOf, string_bytes};
ghost use Rattle.std.specs.Io.KnownBytes.{Appends};
ghost use Rattle.ob_output.specs.Fault.{is_unwritten};
ghost use Rattle.ob_output.specs.Writing.{AppendsFront};
ghost use Rattle.ob_journal.specs.Verdict.{accepted_line as line_of_entries, cause_text as text_of, refused_line as line_of_cause, WritesPart, WritesVerdict};

use crate::check::check_journal;
use crate::report::{Cause, CheckFault};
use ob_output::{ShellFault, write_out};
use std::alloc::{AllocError, Global};
use std::io::Write;

/// The verdict of a check of a journal. (this profile)
#[derive(Clone, Copy, PartialEq, Eq, Debug)]
pub enum Verdict {
    /// The journal is that of a run.
    Accepted,
    /// A line of it is the first that isn't one of a run's.
    Refused,
}

/// Checks a journal of any length, and writes the verdict in a line: `accepted N entries`, or `line N: CAUSE` for the first line that
/// isn't one of a run's, from 1, where CAUSE is `header`, `syntax`, `number`, `seat`, `ticket` or `reply`.
///
/// The faults are `Memory`, after which nothing was written, and `Write`, after which a beginning of the line was written. (this profile)
pub fn write_verdict<W: Write>(
    alloc: Global,
    journal: &[u8],
    writer: &mut W,
) -> Result<Verdict, ShellFault>
    ensures verdict { IfOk result (λ verdict.
        WritesVerdict (W.contents writer.old) (W.contents writer.new) journal.now verdict) }
    ensures part { (unwritten : _) → IsErrOf result (ShellFault.Write unwritten) →
        WritesPart (W.contents writer.old) (W.contents writer.new) journal.now }
    ensures unwritten { IfErr result (λ fault. is_unwritten fault ≡ false →
        W.contents writer.new ≡ W.contents writer.old) }
    ensures faults { IfErr result (λ fault. (fault ≡ ShellFault.Memory)
        ⊎ (is_unwritten fault ≡ true)) }
{
    match check_journal(alloc, journal) {
        Ok(report) => {
            let line = accepted_line(alloc, report.entries)?;
            write_out(writer, line.as_bytes())?;
            Ok(Verdict::Accepted)
        }
        Err(CheckFault::Refused { line, cause }) => {
            let line = refused_line(alloc, line, cause)?;
            write_out(writer, line.as_bytes())?;
            Ok(Verdict::Refused)
        }
        Err(CheckFault::Memory) => Err(ShellFault::Memory),
    }
}

// The line of a journal that is accepted.
fn accepted_line(alloc: Global, entries: usize) -> Result<String, AllocError>
    ensures { IfOk result (λ line. string_bytes line ≡ line_of_entries entries) }
{
    format!(in alloc; "accepted {entries} entries\n")
}

// The line of a journal that is refused.
fn refused_line(alloc: Global, number: usize, cause: Cause) -> Result<String, AllocError>
    ensures { IfOk result (λ line. string_bytes line ≡ line_of_cause number cause) }
{
    let mut line = format!(in alloc; "line {number}: ")?;
    line.push_str(cause_text(cause))?;
    line.push('\n')?;
    Ok(line)
}

// The word of a cause.
fn cause_text(cause: Cause) -> &'static str
    ensures { result.now ≡ text_of cause }
{
    match cause {
        Cause::Header => "header",
        Cause::Syntax => "syntax",
        Cause::Number => "number",
        Cause::Seat => "seat",
        Cause::Ticket => "ticket",
        Cause::Reply => "reply",
    }
}
