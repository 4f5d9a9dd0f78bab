//! Writing a journal.

ghost use Rattle.std.specs.Prelude.{◌∷◌, ◌++◌, [], OnOk, OnErr, IfErr, codes, map};
ghost use Rattle.std.specs.Arc.{arc_value};
ghost use Rattle.std.specs.Io.KnownBytes.{Appends};
ghost use Rattle.ob_entries.specs.Lines.{journal_lines, segment_lines};
ghost use Rattle.ob_output.specs.Printed.{output_line};
ghost use Rattle.ob_standard.specs.Standard.{standard};
ghost use Rattle.ob_output.specs.Writing.{AppendsFront};
ghost use Rattle.ob_threads.specs.Written.{IsCutOff};

use ob_entries::{Segment, write_header, write_line};
use ob_output::{ShellFault, Unwritten, text_line, write_out};
use ob_standard::{Standard, StandardKind};
use std::alloc::Global;
use std::io::Write;
use std::sync::Arc;

/// Writes a journal: its sealed segments, and then the open one. The faults are `Write` and `Memory`, after which a beginning of it was written,
/// and not all of it.
pub(crate) fn write_journal<W: Write>(
    alloc: Global,
    writer: &mut W,
    seats: u32,
    sealed: &[Arc<Segment<StandardKind>>],
    last: &Segment<StandardKind>,
) -> Result<(), ShellFault>
    ensures written { OnOk result (Appends (W.contents writer.old) (W.contents writer.new)
        (journal_lines standard.type_name seats (map arc_value sealed.now ++ last.now ∷ []))) }
    ensures cut_off { IfErr result (λ fault.
        IsCutOff fault (W.contents writer.old) (W.contents writer.new)
        (journal_lines standard.type_name seats (map arc_value sealed.now ++ last.now ∷ []))) }
{
    for segment in sealed {
        if let Err(fault) = write_segment(alloc, &mut *writer, seats, &**segment) {
            return Err(fault);
        }
    }
    write_segment(alloc, writer, seats, last)
}

/// Writes a segment: its header, and a line for each entry. The faults are the same, after which a beginning of it was written, and not all of it.
fn write_segment<W: Write>(
    alloc: Global,
    writer: &mut W,
    seats: u32,
    segment: &Segment<StandardKind>,
) -> Result<(), ShellFault>
    ensures written { OnOk result (Appends (W.contents writer.old) (W.contents writer.new)
        (segment_lines standard.type_name seats segment.now)) }
    ensures cut_off { IfErr result (λ fault.
        IsCutOff fault (W.contents writer.old) (W.contents writer.new)
        (segment_lines standard.type_name seats segment.now)) }
{
    let Ok(header) = write_header(alloc, seats, segment.number, segment.first) else {
        return Err(ShellFault::Memory);
    };
    if let Err(unwritten) = write_out(writer, header.as_slice()) {
        return Err(ShellFault::Write(unwritten));
    }
    for entry in segment.entries.as_slice() {
        let Ok(line) = write_line::<Standard>(alloc, entry) else {
            return Err(ShellFault::Memory);
        };
        if let Err(unwritten) = write_out(writer, line.as_slice()) {
            return Err(ShellFault::Write(unwritten));
        }
    }
    Ok(())
}

/// Writes the line that reports which line of a script is bad. If a write fails, a beginning of it was written.
pub(crate) fn write_bad_line<W: Write>(writer: &mut W, number: u64) -> Result<(), Unwritten>
    ensures written { OnOk result (Appends (W.contents writer.old) (W.contents writer.new)
        (output_line number (codes "not a script line"))) }
    ensures cut_off { OnErr result
        (AppendsFront (W.contents writer.old) (W.contents writer.new) (output_line number
        (codes "not a script line"))) }
{
    let line = text_line(number, b"not a script line");
    write_out(writer, line.as_slice())
}
