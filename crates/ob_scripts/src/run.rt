//! The run of a script.

ghost use Rattle.std.specs.Prelude.{◌≡◌, ◌≢◌, ◌+◌, ◌<◌, ◌≤◌, false, [], ◌++◌, ℕ, List, Option, length, vec_capacity, IfOk, IfErr, OnOk, OnErr, IsErr, IfSome, IsErrOf};
ghost use Rattle.ob_output.specs.Fault.{is_unwritten};
ghost use Rattle.ob_output.specs.Reading.{StopsLong, StopsReading, TakesAtMost};
ghost use Rattle.ob_output.specs.Gathering.{Gathers};
ghost use Rattle.ob_output.specs.Writing.{AppendsFront};
ghost use Rattle.ob_scripts.specs.Shown.{PlaysTo, PlaysPartTo};
ghost use Rattle.ob_effects.specs.Effects.{IsDone};
ghost use Rattle.ob_effects.specs.Kept.{IsFirst, IsSession, space_of, variables_of};
ghost use Rattle.ob_lines.specs.Script.{HasForm};
ghost use Rattle.ob_lines.specs.declared.form.Form.{Form};
ghost use Rattle.ob_scripts.specs.Running.{outcome_text, outcome_end, GathersRun, StopsPlaying};

use crate::printing::write_outcome;
use ob_effects::{LineOutcome, Session};
use ob_lines::{first_line, form_of};
use ob_output::{SCRIPT_LIMIT, ShellFault, Unwritten, read_script, write_out};
use std::alloc::Global;
use std::io::{Read, Write};

// The bytes of output that are written at once.
const BLOCK: usize = 65_536;

/// How a run of a script ends that no fault ended. (this profile)
#[derive(Clone, Copy, PartialEq, Eq, Debug)]
pub enum Ending {
    /// Every line was run.
    Done,
    /// The line of this number, from 1, is no script line. The lines before it were run.
    BadLine(u64),
    /// The command of the line of this number, from 1, found no memory. The lines before it were run.
    NoMemoryAt(u64),
}

/// Reads a script, runs it from the opening state with the standard set of types, and writes its
/// replies, a line each; docs/script.md has the language.
///
/// The script is read whole before its first line runs, and each read and each write is made once. The
/// output is written in blocks of at most 65,536 bytes: each when the next line, or the next part of one,
/// might have no room in it, for which 192 bytes are enough, and the last when the run ends.
///
/// The faults are `Read`, `TooLong` (more than 16,777,216 bytes) and `Memory`, after which nothing was
/// written, and `Write`, after which a beginning of the output was written; lines whose replies were not
/// written may have been run before it. A command that finds no memory is no fault: the run ends there
/// with `NoMemoryAt`. The writer is not flushed. Source: this profile.
pub fn run_script<R: Read, W: Write>(
    alloc: Global,
    reader: &mut R,
    writer: &mut W,
) -> Result<Ending, ShellFault>
    // The bytes that were written are those that the script plays.
    ensures played { IfOk result (λ ending. IfSome (R.remaining reader.old) (λ script.
        PlaysTo (W.contents writer.old) (W.contents writer.new) script ending)) }

    // After a fault of the writer: a beginning of what lines of the script from its first on play, and not all
    // of it; and where the whole script is run, it plays that and continues from there, or has ended there.
    ensures part { (unwritten : _) → IsErrOf result (ShellFault.Write unwritten) →
        IfSome (R.remaining reader.old) (λ script.
        PlaysPartTo (W.contents writer.old) (W.contents writer.new) script) }

    // After any other fault nothing was written.
    ensures unwritten { IfErr result (λ fault. is_unwritten fault ≡ false →
        W.contents writer.new ≡ W.contents writer.old) }

    // Those are all the faults that there are.
    ensures faults { IfErr result (λ fault. fault ≢ ShellFault.Mismatch) }

    // A script that is too long is never run, and no other is called so: it is reported, unless reading it
    // failed before.
    ensures too_long { IsErrOf result ShellFault.TooLong
        → IfSome (R.remaining reader.old) (λ script.
        SCRIPT_LIMIT < length script) }
    ensures refused { IfSome (R.remaining reader.old) (λ script.
        SCRIPT_LIMIT < length script → IsErr result) }
    ensures long { IfSome (R.remaining reader.old) (λ script. SCRIPT_LIMIT < length script →
        IfErr result StopsLong × (W.contents writer.new ≡ W.contents writer.old)) }

    // Out of memory is said only of as many bytes as a script may have, so one that was read past that is too long.
    ensures stopped { IfSome (R.remaining reader.old) (λ script. SCRIPT_LIMIT < length script →
        IfErr result (λ fault. StopsReading fault
        (R.remaining reader.old) (R.remaining reader.new))) }

    // However it ends, no more than one byte past the limit is read.
    ensures taken { TakesAtMost (R.remaining reader.old) (R.remaining reader.new)
        (SCRIPT_LIMIT + 1) }
{
    match read_script(alloc, reader) {
        Ok(script) => run_text(alloc, script.as_slice(), writer),
        Err(fault) => Err(fault),
    }
}

// Runs a script that was read, and writes what it shows.
fn run_text<W: Write>(alloc: Global, script: &[u8], writer: &mut W) -> Result<Ending, ShellFault>
    requires { length script.now ≤ SCRIPT_LIMIT }
    ensures played { IfOk result (λ ending.
        PlaysTo (W.contents writer.old) (W.contents writer.new) script.now ending) }
    ensures fault { IfErr result (λ fault.
        StopsPlaying script.now fault (W.contents writer.old) (W.contents writer.new)) }
{
    let Ok(mut block) = Vec::with_capacity(alloc, BLOCK) else {
        return Err(ShellFault::Memory);
    };
    match run_lines(alloc, script, writer, &mut block) {
        Ok(ending) => match write_out(writer, block.as_slice()) {
            Ok(()) => Ok(ending),
            Err(unwritten) => Err(ShellFault::Write(unwritten)),
        },
        Err(fault) => Err(fault),
    }
}

// Runs the lines of a script in a session of their own, and gathers what they show in the block. However they end, the
// session is ended.
fn run_lines<W: Write>(
    alloc: Global,
    script: &[u8],
    writer: &mut W,
    block: &mut Vec<u8>,
) -> Result<Ending, ShellFault>
    requires script { length script.now ≤ SCRIPT_LIMIT }
    requires empty { block.old.items ≡ [] }
    requires capacity { 192 ≤ vec_capacity block.old }
    ensures played { IfOk result (λ ending.
        GathersRun (W.contents writer.old)
        (W.contents writer.new) script.now block.new.items ending) }
    ensures fault { IfErr result (λ fault.
        StopsPlaying script.now fault (W.contents writer.old) (W.contents writer.new)) }
{
    let Ok(mut session) = Session::new(alloc) else {
        return Err(ShellFault::Memory);
    };
    let ended = play(&mut session, script, writer, block);
    session.end();
    match ended {
        Ok(ending) => Ok(ending),
        Err(unwritten) => Err(ShellFault::Write(unwritten)),
    }
}

// Runs the lines of a script in a session in which nothing was done, and gathers what they show in the block.
fn play<W: Write>(
    session: &mut Session,
    script: &[u8],
    writer: &mut W,
    block: &mut Vec<u8>,
) -> Result<Ending, Unwritten>
    requires first { IsFirst session.old }
    requires kept { IsSession session.old }
    requires script { length script.now ≤ SCRIPT_LIMIT }
    requires empty { block.old.items ≡ [] }
    requires capacity { 192 ≤ vec_capacity block.old }
    ensures kept { IsSession session.new }
    ensures played { IfOk result (λ ending.
        GathersRun (W.contents writer.old)
        (W.contents writer.new) script.now block.new.items ending) }
    ensures part { OnErr result
        (PlaysPartTo (W.contents writer.old) (W.contents writer.new) script.now) }
{
    let mut rest = script;
    let mut number: u64 = 0;
    while let Some((line, behind)) = first_line(rest) {
        number += 1;
        let outcome = perform_line(session, line);
        match show(writer, block, number, outcome) {
            Ok(None) => {}
            Ok(Some(ending)) => return Ok(ending),
            Err(unwritten) => return Err(unwritten),
        }
        rest = behind;
    }
    Ok(Ending::Done)
}

/// Performs a line, given without its LF, in a session. A line that is no script line changes nothing. (this profile)
pub fn perform_line(session: &mut Session, line: &[u8]) -> LineOutcome
    requires { IsSession session.old }
    ensures kept { IsSession session.new }
    ensures done { (form : Option (Form (List ℕ))) × HasForm line.now form
        × IsDone form (variables_of session.old) (space_of session.old) result
        (variables_of session.new) (space_of session.new) }
{
    session.perform(form_of(line))
}

// Writes what became of a line, by way of the block, and says how that ends the run, where it does.
fn show<W: Write>(
    writer: &mut W,
    block: &mut Vec<u8>,
    number: u64,
    outcome: LineOutcome,
) -> Result<Option<Ending>, Unwritten>
    requires { 192 ≤ vec_capacity block.old }
    ensures ending { IfOk result (λ ending. ending ≡ outcome_end number outcome) }
    ensures ok { OnOk result (Gathers (W.contents writer.old)
        (W.contents writer.new) block.old.items (outcome_text number outcome) block.new.items) }
    ensures front { OnErr result (AppendsFront (W.contents writer.old) (W.contents writer.new)
        (block.old.items ++ outcome_text number outcome)) }
    ensures capacity { vec_capacity block.old ≤ vec_capacity block.new }
{
    write_outcome(writer, block, number, &outcome)?;
    Ok(ending_of(number, &outcome))
}

/// How the outcome of the line of this number ends a run, where it does. (this profile)
pub fn ending_of(number: u64, outcome: &LineOutcome) -> Option<Ending>
    ensures { result ≡ outcome_end number outcome.now }
{
    match outcome {
        LineOutcome::Idle
        | LineOutcome::Counted(_)
        | LineOutcome::Replied(_)
        | LineOutcome::Pending
        | LineOutcome::Told(_) => None,
        LineOutcome::NoLine => Some(Ending::BadLine(number)),
        LineOutcome::NoMemory => Some(Ending::NoMemoryAt(number)),
    }
}
