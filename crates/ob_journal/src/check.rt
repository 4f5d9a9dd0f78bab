//! The check of a journal.

ghost use Rattle.std.specs.Prelude.{◌≡◌, IfErr, IfOk};
ghost use Rattle.ob_lines.specs.Lines.{lines_of};
ghost use Rattle.ob_standard_core.specs.Machine.{Space};
ghost use Rattle.ob_journal.specs.declared.position.Position.{Position};
ghost use Rattle.ob_journal.specs.Journal.{first_header_for, report_of, AreOfRun, IsAccepted, IsFault};
ghost use Rattle.ob_journal.specs.Played.{IsFaultBehind};

use crate::position::begins;
use crate::replay::{Replay, Stop};
use crate::{Cause, CheckFault, Report};
use ob_lines::first_line;
use ob_reader::{Header, read_header};
use std::alloc::{AllocError, Global};

/// Checks a journal of version 1, or of version 2, which is in segments; its first line says which: Ok exactly where its lines are those
/// of a run of the abstract machine over the standard set, with how many entries it has, and how many objects and handles there are at
/// its end.
///
/// `Refused` reports the first line that isn't one of a run's: the lines before it are those of a run, or there are none, and no
/// run has the lines up to it. Causes are judged in the order of [`Cause`]. `Memory` is returned only where memory ran out.
///
/// The text is read line by line, and each entry's step is made on a namespace of its own, so the memory that is taken grows
/// with that namespace and with the longest line, and not with the journal. A line may have any length.
///
/// Source: this profile; RFC 8259 for JSON, as `serde_json` reads it.
pub fn check_journal(alloc: Global, text: &[u8]) -> Result<Report, CheckFault>
    ensures accepted { IfOk result (IsAccepted text.now) }
    ensures fault { IfErr result (IsFault text.now) }
{
    let Some((header, lines)) = first_line(text) else {
        return Err(refused(1, Cause::Header));
    };
    match read_first(alloc, header) {
        Ok(Some(header)) => check_lines(alloc, header, lines),
        Ok(None) => Err(refused(1, Cause::Header)),
        Err(_) => Err(CheckFault::Memory),
    }
}

// The header that the first line is.
fn read_first(alloc: Global, line: &[u8]) -> Result<Option<Header>, AllocError>
    ensures { IfOk result (λ header. header ≡ first_header_for line.now) }
{
    let Some(header) = read_header(alloc, line)? else {
        return Ok(None);
    };
    Ok(begins(header).then_some(header))
}

// Checks the lines after the first.
fn check_lines(alloc: Global, header: Header, lines: &[u8]) -> Result<Report, CheckFault>
    ensures accepted { IfOk result (λ report. (state : Space) × (end : Position)
        × AreOfRun header (lines_of lines.now) state end
        × (report ≡ report_of end state)) }
    ensures fault { IfErr result (IsFaultBehind header (lines_of lines.now)) }
{
    let mut replay = match Replay::new(alloc, header) {
        Ok(replay) => replay,
        Err(_) => return Err(CheckFault::Memory),
    };
    let mut rest = lines;
    let mut number = 2;
    while let Some((line, behind)) = first_line(rest) {
        replay = match replay.play(alloc, line) {
            Ok(next) => next,
            Err(Stop::Refused(cause)) => return Err(refused(number, cause)),
            Err(Stop::Memory) => return Err(CheckFault::Memory),
        };
        rest = behind;
        number += 1;
    }
    Ok(replay.finish())
}

// The fault of a line that is refused.
fn refused(line: usize, cause: Cause) -> CheckFault
    ensures { result ≡ CheckFault.Refused line cause }
{
    CheckFault::Refused { line, cause }
}
