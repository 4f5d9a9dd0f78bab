//! Scripts with workers.

ghost use Rattle.std.specs.Prelude.{◌≡◌, ◌+◌, ◌<◌, ◌^◌, length, map, Bool, IfOk, IfErr};
ghost use Rattle.ob_lines.specs.Lines.{lines_of};
ghost use Rattle.ob_worker_lines.specs.Cuts.{IsCut, ScriptsHaveOneBadLine, ScriptsHaveOneCut};
ghost use Rattle.ob_worker_lines.specs.Parts.{
  AreNumbered,
  AreRunnable,
  IsBehind,
  IsFault,
  IsMisplaced,
  LinesAreRead,
  lines_in,
};

use crate::line::behind_line;
use crate::part::{Part, take_part};
use std::alloc::Global;

/// The most workers that a script may have: 63. (this profile)
pub const MOST_WORKERS: usize = 63;

/// A script with workers, cut into the lines of its seats. (this profile)
#[derive(Debug, Drop)]
pub struct WorkerScript<'a> {
    /// The part that seat 0 runs before any worker: the lines before the first `thread`.
    pub before: Part<'a>,
    /// The parts that the workers run, those of seats 1, 2 and so on: for each `thread` the lines after it. At
    /// most 63.
    pub workers: Vec<Part<'a>>,
    /// The part that seat 0 runs after all workers: the lines after `join`; none where there is no `join`.
    pub behind: Part<'a>,
}

/// Why a script was not cut. (this profile)
#[derive(Clone, Copy, PartialEq, Eq, Debug)]
pub enum CutFault {
    /// The line of this number, from 1, is the first that is no line of a script with workers, or is in
    /// a wrong place: a 64th `thread`, a `thread` after `join`, a `join` before any `thread`, or a second
    /// `join`.
    BadLine(u64),
    /// Out of memory.
    Memory,
}

/// Cuts a script with workers into the lines of its seats. No line of it is run.
///
/// Without `thread` all lines are those before the workers, of which there are none. The faults are `BadLine`, for
/// each script that can't be cut and no other, and `Memory`. Source: this profile.
pub fn cut(alloc: Global, script: &[u8]) -> Result<WorkerScript<'_>, CutFault>
    // The lines of the script are those of the parts, with the lines `thread` and `join` between them.
    ensures lines { IfOk result (λ cut. IsCut (lines_of script.now) (lines_in cut.before)
        (map lines_in cut.workers.items) (lines_in cut.behind)) }
    ensures numbers { IfOk result (λ cut. AreNumbered (lines_of script.now) cut) }

    // The same of each part alone, in the words of who runs it.
    ensures parts { IfOk result (λ cut. AreRunnable (length script.now) cut) }

    // The lines before the bad one are those of a script that can be cut, and no script that begins with them and
    // the bad one can be.
    ensures fault { IfErr result (λ fault. IsFault (lines_of script.now) fault) }
{
    let start = take_part(script, 1);
    let before = start.part;
    let mut rest = start.rest;
    let mut number = start.number;
    let mut workers = Vec::new(alloc);
    while let Some(lines) = behind_line(rest, b"thread") {
        if workers.len() == MOST_WORKERS {
            return Err(CutFault::BadLine(number));
        }
        let worker = take_part(lines, number + 1);
        if workers.push(worker.part).is_err() {
            return Err(CutFault::Memory);
        }
        rest = worker.rest;
        number = worker.number;
    }
    match take_behind(rest, number, !workers.is_empty()) {
        Ok(behind) => Ok(WorkerScript {
            before,
            workers,
            behind,
        }),
        Err(line) => Err(CutFault::BadLine(line)),
    }
}

// The part after `join`, or an empty one at the end of the script; else the number of the line that is in a
// wrong place. The first line of what is left has the number that is given.
fn take_behind(rest: &[u8], number: u64, has_workers: bool) -> Result<Part<'_>, u64>
    requires { number + length rest.now < 2 ^ 64 }
    ensures behind { IfOk result (λ part. IsBehind has_workers (lines_of rest.now) number part) }
    ensures misplaced { IfErr result (λ line.
        IsMisplaced has_workers (lines_of rest.now) number line) }
{
    if rest.is_empty() {
        return Ok(Part {
            text: rest,
            first: number,
        });
    }
    match behind_line(rest, b"join") {
        Some(lines) if has_workers => {
            let last = take_part(lines, number + 1);
            if last.rest.is_empty() {
                Ok(last.part)
            } else {
                Err(last.number)
            }
        }
        _ => Err(number),
    }
}

/// The law that a script is cut in one way, and that no two of its lines are the first that is bad. The call does
/// nothing; a caller makes it to have the fact.
pub fn scripts_have_one_cut()
    ensures cut { ScriptsHaveOneCut }
    ensures bad { ScriptsHaveOneBadLine }
{}

/// The law that a text of lines of a seat, as that of each part, has a reading: forms of
/// all its lines, with no line that has none. The call does nothing; a caller makes it to have the fact.
pub fn lines_of_parts_are_read()
    ensures { LinesAreRead }
{}
