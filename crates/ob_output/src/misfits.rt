//! Misfits: the part that is expected where a line stops being a script line, and the line of the output that says so.

ghost use Rattle.std.specs.Prelude.{◌≡◌, ◌+◌, ◌*◌, ◌≤◌, ◌++◌, length, vec_len, vec_capacity};
ghost use Rattle.ob_lines.specs.Misfits.{IsFew, expected_text, sorts_text};
ghost use Rattle.ob_output.specs.Misfits.{misfit_text};
ghost use Rattle.ob_output.specs.Printed.{output_line};

use crate::lines::{LINE_ROOM, push_number, push_text};
use ob_lines::{Expected, LastForm, Misfit, PartForm};

/// The room that a text of what is expected needs in a block: 72 bytes, for four parts of at most 17 bytes with the space, and a last one
/// of at most 4. (this profile)
pub const EXPECTED_ROOM: usize = 72;

/// Adds the reply of a session to a line of this number that is no script line, to a block with [`LINE_ROOM`]: `not a script line`, the
/// column, and what is expected there. (this profile)
pub fn push_misfit_line(block: &mut Vec<u8>, number: u64, misfit: Misfit)
    requires few { IsFew misfit.expected }
    requires room { vec_len block.old + LINE_ROOM ≤ vec_capacity block.old }
    ensures items { block.new.items ≡ block.old.items ++ output_line number (misfit_text misfit) }
    ensures capacity { vec_capacity block.old ≤ vec_capacity block.new }
{
    push_number(block, number);
    push_text(block, b": not a script line: column ");
    push_number(block, misfit.column as u64);
    push_text(block, b", ");
    push_expected(block, misfit.expected);
    push_text(block, b"\n");
}

/// Adds what is expected where a line stops, in the words of docs/script.md, to a block with [`EXPECTED_ROOM`]. (this profile)
pub fn push_expected(block: &mut Vec<u8>, expected: Expected)
    requires few { IsFew expected }
    requires room { vec_len block.old + EXPECTED_ROOM ≤ vec_capacity block.old }
    ensures items { block.new.items ≡ block.old.items ++ expected_text expected }
    ensures len { vec_len block.new ≤ vec_len block.old + EXPECTED_ROOM }
    ensures capacity { vec_capacity block.old ≤ vec_capacity block.new }
{
    match expected {
        Expected::Line => push_text(block, b"P, stat or tree"),
        Expected::Verb => push_text(block, b"a verb and its parts"),
        Expected::Parts { parts, last } => push_sorts(block, parts, last),
        Expected::End => push_text(block, b"the end of the line"),
    }
}

// Adds the names of sorts of parts, with a space between two.
fn push_sorts(block: &mut Vec<u8>, parts: &[PartForm], last: LastForm)
    requires { vec_len block.old + (17 * length parts.now + 4) ≤ vec_capacity block.old }
    ensures items { block.new.items ≡ block.old.items ++ sorts_text parts.now last }
    ensures len { vec_len block.new ≤ vec_len block.old + (17 * length parts.now + 4) }
    ensures capacity { vec_capacity block.old ≤ vec_capacity block.new }
{
    let Some((part, others)) = parts.split_first() else {
        return push_text(block, last.text());
    };
    push_text(block, part.text());
    push_text(block, b" ");
    push_sorts(block, others, last);
}
