//! The lines of one seat.

ghost use Rattle.std.specs.Prelude.{◌≡◌, ◌+◌, ◌≤◌, ◌<◌, ◌^◌, ◌++◌, length};
ghost use Rattle.ob_lines.specs.Lines.{lines_of};
ghost use Rattle.ob_worker_lines.specs.Cuts.{AreSeatLines, IsStopped};
ghost use Rattle.ob_worker_lines.specs.Parts.{lines_in};

use crate::line::behind_seat_line;

/// Lines of a script that one seat runs, each of them a line of a seat. Read one after
/// another by [`read_seat_line`](crate::read_seat_line), they have the numbers from `first` on. (this profile)
#[derive(Clone, Copy, Debug)]
pub struct Part<'a> {
    /// The lines, as they are in the script: whole lines, of which the last may lack its LF.
    pub text: &'a [u8],
    /// The number that its first line has in the script, from 1; where the part has no line, the number
    /// that a line there would have.
    pub first: u64,
}

// A part that was read, and what is left after it.
#[derive(Clone, Copy, Debug)]
pub struct Taken<'a> {
    // The lines that were read.
    pub part: Part<'a>,
    // The lines after them, the first of which, where there is one, is no line of a seat.
    pub rest: &'a [u8],
    // The number of the first of these.
    pub number: u64,
}

// The first lines, as far as they are lines of a seat. The first of all has the number that
// is given.
pub fn take_part(script: &[u8], first: u64) -> Taken<'_>
    requires { first + length script.now < 2 ^ 64 }
    ensures lines { lines_of script.now ≡ lines_in result.part ++ lines_of result.rest.now }
    ensures seat_lines { AreSeatLines (lines_in result.part) }
    ensures stopped { IsStopped (lines_of result.rest.now) }
    ensures first { result.part.first ≡ first }
    ensures number { result.number ≡ first + length (lines_in result.part) }
    ensures bound { result.number + length result.rest.now ≤ first + length script.now }
{
    let mut rest = script;
    let mut number = first;
    while let Some(behind) = behind_seat_line(rest) {
        rest = behind;
        number += 1;
    }
    let text = &script[..script.len() - rest.len()];
    Taken {
        part: Part { text, first },
        rest,
        number,
    }
}
