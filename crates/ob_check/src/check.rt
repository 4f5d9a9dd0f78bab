//! The check of a script that a reader has.

ghost use Rattle.std.specs.Prelude.{◌≡◌, ◌≢◌, ◌⊎◌, ◌+◌, ◌<◌, ◌≤◌, false, true, [], ◌++◌, List, ℕ, length, vec_capacity, vec_len, IfErr, IfOk, IfSome, IsErr, IsErrOf, OnErr, OnOk};
ghost use Rattle.ob_check.specs.Report.{ReportsScript, WritesReport, WritesReportPart, fault_line};
ghost use Rattle.ob_lines.specs.Misfits.{IsFew};
ghost use Rattle.ob_output.specs.Gathering.{Gathers};
ghost use Rattle.ob_output.specs.Fault.{is_unwritten};
ghost use Rattle.ob_output.specs.Reading.{StopsLong, StopsReading, TakesAtMost};
ghost use Rattle.ob_output.specs.Writing.{AppendsFront};
ghost use Rattle.ob_worker_lines.specs.Phases.{expected_there};

use ob_lines::{Expected, Misfit, first_line};
use ob_output::{
    LINE_ROOM, SCRIPT_LIMIT, ShellFault, Unwritten, make_room, push_expected, push_number,
    push_text, read_script, write_out,
};
use ob_worker_lines::{Phase, judge_line};
use std::alloc::Global;
use std::io::{Read, Write};

// The bytes of output that are written at once.
const BLOCK: usize = 65_536;

/// The finding of a check of a script. (this profile)
#[derive(Clone, Copy, PartialEq, Eq, Debug)]
pub enum Checked {
    /// Each line is right where it is.
    Clean,
    /// A line is no script line, or is in a wrong place.
    Faulty,
}

/// Reads a script, which may have workers, and writes a line for each of its lines that is no script line or is in a wrong place: `line N, column C:
/// expected EXPECTED`. No line is run. docs/script.md has the language.
///
/// The script is read whole before its first line is judged. The output is written in blocks of at most 65,536 bytes. The faults are `Read`, `TooLong`
/// (more than 16,777,216 bytes) and `Memory`, after which nothing was written, and `Write`, after which a beginning of the output was written. The
/// writer is not flushed. (this profile)
pub fn run_check<R: Read, W: Write>(
    alloc: Global,
    reader: &mut R,
    writer: &mut W,
) -> Result<Checked, ShellFault>
    ensures reported { IfOk result (λ checked. IfSome (R.remaining reader.old) (λ script.
        WritesReport (W.contents writer.old) (W.contents writer.new) script checked)) }
    ensures part { (unwritten : _) → IsErrOf result (ShellFault.Write unwritten) →
        IfSome (R.remaining reader.old) (λ script.
        WritesReportPart (W.contents writer.old) (W.contents writer.new) script) }

    // After any fault except one of the writer nothing was written.
    ensures unwritten { IfErr result (λ fault. is_unwritten fault ≡ false →
        W.contents writer.new ≡ W.contents writer.old) }
    ensures faults { IfErr result (λ fault. fault ≢ ShellFault.Mismatch) }

    // A script that is too long is never checked, and no other is called so.
    ensures too_long { IsErrOf result ShellFault.TooLong
        → IfSome (R.remaining reader.old) (λ script.
        SCRIPT_LIMIT < length script) }
    ensures refused { IfSome (R.remaining reader.old) (λ script.
        SCRIPT_LIMIT < length script → IsErr result) }
    ensures long { IfSome (R.remaining reader.old) (λ script. SCRIPT_LIMIT < length script →
        IfErr result StopsLong × (W.contents writer.new ≡ W.contents writer.old)) }

    // Out of memory is said only of as many bytes as a script may have, so one that was read past that is too long.
    ensures stopped { IfSome (R.remaining reader.old) (λ script. SCRIPT_LIMIT < length script →
        IfErr result (λ fault. StopsReading fault
        (R.remaining reader.old) (R.remaining reader.new))) }

    // However it ends, no more than one byte past the limit is read.
    ensures taken { TakesAtMost (R.remaining reader.old) (R.remaining reader.new)
        (SCRIPT_LIMIT + 1) }
{
    match read_script(alloc, reader) {
        Ok(script) => check_script(alloc, script.as_slice(), writer),
        Err(fault) => Err(fault),
    }
}

/// Writes the report on a script of at most 16,777,216 bytes. The faults are `Memory`, after which nothing was written, and `Write`, after which a
/// beginning of the report was written. (this profile)
pub fn check_script<W: Write>(
    alloc: Global,
    script: &[u8],
    writer: &mut W,
) -> Result<Checked, ShellFault>
    requires { length script.now ≤ SCRIPT_LIMIT }
    ensures reported { IfOk result (λ checked.
        WritesReport (W.contents writer.old) (W.contents writer.new) script.now checked) }
    ensures part { (unwritten : _) → IsErrOf result (ShellFault.Write unwritten) →
        WritesReportPart (W.contents writer.old) (W.contents writer.new) script.now }
    ensures unwritten { IfErr result (λ fault. is_unwritten fault ≡ false →
        W.contents writer.new ≡ W.contents writer.old) }
    ensures faults { IfErr result (λ fault. (fault ≡ ShellFault.Memory)
        ⊎ (is_unwritten fault ≡ true)) }
{
    let mut block = Vec::with_capacity(alloc, BLOCK)?;
    let checked = report_lines(script, writer, &mut block)?;
    write_out(writer, block.as_slice())?;
    Ok(checked)
}

// Gathers the report on a script in a block.
fn report_lines<W: Write>(
    script: &[u8],
    writer: &mut W,
    block: &mut Vec<u8>,
) -> Result<Checked, Unwritten>
    requires script { length script.now ≤ SCRIPT_LIMIT }
    requires empty { block.old.items ≡ [] }
    requires capacity { 192 ≤ vec_capacity block.old }
    ensures reported { IfOk result (λ checked. (output : List ℕ) × ReportsScript script.now checked output
        × Gathers (W.contents writer.old) (W.contents writer.new) [] output block.new.items) }
    ensures part { OnErr result
        (WritesReportPart (W.contents writer.old) (W.contents writer.new) script.now) }
{
    let mut checked = Checked::Clean;
    let mut phase = Phase::Before;
    let mut number: u64 = 0;
    let mut rest = script;
    while let Some((line, behind)) = first_line(rest) {
        number += 1;
        match judge_line(line, phase) {
            Ok(next) => phase = next,
            Err(misfit) => {
                report(writer, block, number, phase, misfit)?;
                checked = Checked::Faulty;
            }
        }
        rest = behind;
    }
    Ok(checked)
}

// Gathers the line of output on a line of this number that is wrong in a phase.
fn report<W: Write>(
    writer: &mut W,
    block: &mut Vec<u8>,
    number: u64,
    phase: Phase,
    misfit: Misfit,
) -> Result<(), Unwritten>
    requires few { IsFew misfit.expected }
    requires capacity { 192 ≤ vec_capacity block.old }
    ensures ok { OnOk result (Gathers (W.contents writer.old) (W.contents writer.new)
        block.old.items (fault_line number phase misfit) block.new.items) }
    ensures front { OnErr result (AppendsFront (W.contents writer.old) (W.contents writer.new)
        (block.old.items ++ fault_line number phase misfit)) }
    ensures capacity { vec_capacity block.old ≤ vec_capacity block.new }
{
    make_room(writer, block, LINE_ROOM)?;
    push_fault_line(block, number, phase, misfit);
    Ok(())
}

// Adds the line of output on a line of this number that is wrong in a phase.
fn push_fault_line(block: &mut Vec<u8>, number: u64, phase: Phase, misfit: Misfit)
    requires few { IsFew misfit.expected }
    requires room { vec_len block.old + LINE_ROOM ≤ vec_capacity block.old }
    ensures items { block.new.items ≡ block.old.items ++ fault_line number phase misfit }
    ensures capacity { vec_capacity block.old ≤ vec_capacity block.new }
{
    push_text(block, b"line ");
    push_number(block, number);
    push_text(block, b", column ");
    push_number(block, misfit.column as u64);
    push_text(block, b": expected ");
    push_expected_there(block, phase, misfit.expected);
    push_text(block, b"\n");
}

// Adds what is expected of a line in a phase.
fn push_expected_there(block: &mut Vec<u8>, phase: Phase, expected: Expected)
    requires few { IsFew expected }
    requires room { vec_len block.old + 72 ≤ vec_capacity block.old }
    ensures items { block.new.items ≡ block.old.items ++ expected_there phase expected }
    ensures len { vec_len block.new ≤ vec_len block.old + 72 }
    ensures capacity { vec_capacity block.old ≤ vec_capacity block.new }
{
    match expected {
        Expected::Line => push_text(block, phase.start_text()),
        Expected::Verb | Expected::Parts { .. } | Expected::End => push_expected(block, expected),
    }
}
