//! Drawing what a script leaves.

ghost use Rattle.std.specs.Prelude.{◌≡◌, ◌≢◌, ◌+◌, ◌<◌, ◌≤◌, false, length, IfErr, IfOk, IfSome, IsErr, IsErrOf, OnOk};
ghost use Rattle.std.specs.Io.KnownBytes.{Appends};
ghost use Rattle.ob_effects.specs.Kept.{IsFirst, IsSession, space_of};
ghost use Rattle.ob_output.specs.Fault.{is_unwritten};
ghost use Rattle.ob_output.specs.Reading.{StopsLong, StopsReading, TakesAtMost};
ghost use Rattle.ob_script_tree.specs.Drawing.{DrawsPartTo, DrawsTo, IsCut, StopsDrawing, picture_of};
ghost use Rattle.ob_scripts.specs.Running.{outcome_text};
ghost use Rattle.ob_standard.specs.Standard.{standard};
ghost use Rattle.ob_survey.specs.Surveying.{survey_of};

use crate::leaving::{Stop, run_lines};
use crate::picture::{Picture, picture_text};
use ob_effects::Session;
use ob_output::{SCRIPT_LIMIT, ShellFault, read_script, write_out};
use ob_scripts::{Ending, write_outcome};
use std::alloc::Global;
use std::io::{Read, Write};

// The bytes of output that are written at once.
const BLOCK: usize = 192;

/// Reads a script, runs it from the opening state with the standard set of types, and writes the tree of the namespace that it leaves, in this form;
/// docs/script.md has the language. Opens that are pending are in the tree, and are abandoned then. No reply is written. A line that is no script line, or
/// that finds no memory, ends the run, and the reply that says so is all that is written.
///
/// The faults are `Read`, `TooLong` (more than 16,777,216 bytes) and `Memory`, after which nothing was written, and `Write`, after which a beginning of the
/// output was written. The writer is not flushed. Source: this profile.
pub fn run_tree<R: Read, W: Write>(
    alloc: Global,
    reader: &mut R,
    writer: &mut W,
    picture: Picture,
) -> Result<Ending, ShellFault>
    // The written text is the tree that the script leaves.
    ensures drawn { IfOk result (λ ending. IfSome (R.remaining reader.old) (λ script.
        DrawsTo picture (W.contents writer.old) (W.contents writer.new) script ending)) }

    // After a fault of the writer: a beginning of it, and not all of it.
    ensures part { (unwritten : _) → IsErrOf result (ShellFault.Write unwritten) →
        IfSome (R.remaining reader.old) (λ script.
        DrawsPartTo picture (W.contents writer.old) (W.contents writer.new) script) }

    // After any other fault nothing was written.
    ensures unwritten { IfErr result (λ fault. is_unwritten fault ≡ false →
        W.contents writer.new ≡ W.contents writer.old) }

    // Those are all the faults that there are.
    ensures faults { IfErr result (λ fault. fault ≢ ShellFault.Mismatch) }

    // A script that is too long is never run, and no other is called so: it is reported, unless reading it
    // failed before.
    ensures too_long { IsErrOf result ShellFault.TooLong
        → IfSome (R.remaining reader.old) (λ script.
        SCRIPT_LIMIT < length script) }
    ensures long { IfSome (R.remaining reader.old) (λ script. SCRIPT_LIMIT < length script →
        IfErr result StopsLong × (W.contents writer.new ≡ W.contents writer.old)) }
    ensures refused { IfSome (R.remaining reader.old) (λ script.
        SCRIPT_LIMIT < length script → IsErr result) }

    // Out of memory is said only of as many bytes as a script may have, so one that was read past that is too long.
    ensures stopped { IfSome (R.remaining reader.old) (λ script. SCRIPT_LIMIT < length script →
        IfErr result (λ fault. StopsReading fault
        (R.remaining reader.old) (R.remaining reader.new))) }

    // However it ends, no more than one byte past the limit is read.
    ensures taken { TakesAtMost (R.remaining reader.old) (R.remaining reader.new)
        (SCRIPT_LIMIT + 1) }
{
    match read_script(alloc, reader) {
        Ok(script) => run_text(alloc, script.as_slice(), writer, picture),
        Err(fault) => Err(fault),
    }
}

// Runs a script that was read, in a session of its own, and draws what it leaves. However it ends, the session is ended.
fn run_text<W: Write>(
    alloc: Global,
    script: &[u8],
    writer: &mut W,
    picture: Picture,
) -> Result<Ending, ShellFault>
    requires { length script.now ≤ SCRIPT_LIMIT }
    ensures drawn { IfOk result (λ ending. DrawsTo picture (W.contents writer.old)
        (W.contents writer.new) script.now ending) }
    ensures fault { IfErr result (λ fault. StopsDrawing picture script.now fault
        (W.contents writer.old) (W.contents writer.new)) }
{
    let Ok(mut session) = Session::new(alloc) else {
        return Err(ShellFault::Memory);
    };
    let ended = draw(alloc, &mut session, script, writer, picture);
    session.end();
    ended
}

// Runs a script in a session in which nothing was done, and draws what it leaves.
fn draw<W: Write>(
    alloc: Global,
    session: &mut Session,
    script: &[u8],
    writer: &mut W,
    picture: Picture,
) -> Result<Ending, ShellFault>
    requires first { IsFirst session.old }
    requires kept { IsSession session.old }
    requires script { length script.now ≤ SCRIPT_LIMIT }
    ensures kept { IsSession session.new }
    ensures drawn { IfOk result (λ ending. DrawsTo picture (W.contents writer.old)
        (W.contents writer.new) script.now ending) }
    ensures fault { IfErr result (λ fault. StopsDrawing picture script.now fault
        (W.contents writer.old) (W.contents writer.new)) }
{
    match run_lines(session, script) {
        Some(stop) => match write_stop(alloc, writer, &stop) {
            Ok(()) => Ok(stop.ending),
            Err(fault) => Err(fault),
        },
        None => match write_picture(alloc, session, writer, picture) {
            Ok(()) => Ok(Ending::Done),
            Err(fault) => Err(fault),
        },
    }
}

// Writes the reply to the line at which a run ended.
fn write_stop<W: Write>(alloc: Global, writer: &mut W, stop: &Stop) -> Result<(), ShellFault>
    ensures ok { OnOk result (Appends (W.contents writer.old) (W.contents writer.new)
        (outcome_text stop.now.number stop.now.outcome)) }
    ensures cut { IfErr result (λ fault. IsCut fault (W.contents writer.old)
        (W.contents writer.new) (outcome_text stop.now.number stop.now.outcome)) }
{
    let Ok(mut block) = Vec::with_capacity(alloc, BLOCK) else {
        return Err(ShellFault::Memory);
    };
    match write_outcome(writer, &mut block, stop.number, &stop.outcome) {
        Ok(()) => match write_out(writer, block.as_slice()) {
            Ok(()) => Ok(()),
            Err(unwritten) => Err(ShellFault::Write(unwritten)),
        },
        Err(unwritten) => Err(ShellFault::Write(unwritten)),
    }
}

// Writes the tree of the namespace of a session.
fn write_picture<W: Write>(
    alloc: Global,
    session: &Session,
    writer: &mut W,
    picture: Picture,
) -> Result<(), ShellFault>
    ensures ok { OnOk result (Appends (W.contents writer.old) (W.contents writer.new)
        (picture_of picture (survey_of standard (space_of session.now)))) }
    ensures cut { IfErr result (λ fault. IsCut fault (W.contents writer.old)
        (W.contents writer.new)
        (picture_of picture (survey_of standard (space_of session.now)))) }
{
    let Ok(survey) = session.survey(alloc) else {
        return Err(ShellFault::Memory);
    };
    let Ok(text) = picture_text(alloc, &survey, picture) else {
        return Err(ShellFault::Memory);
    };
    match write_out(writer, text.as_slice()) {
        Ok(()) => Ok(()),
        Err(unwritten) => Err(ShellFault::Write(unwritten)),
    }
}
