//! Beginnings of lines that report a status, added to a block that has room for them.

ghost use Rattle.std.specs.Prelude.{◌≡◌, ◌+◌, ◌≤◌, ◌++◌, codes, vec_len, vec_capacity};
ghost use Rattle.std.specs.Fmt.{decimal};
ghost use Rattle.ob_output.specs.Printed.{status_text};
ghost use Rattle.ob_output.specs.declared.lines.TheConstants.{LINE_ROOM};

use crate::lines::{push_number, push_text};
use ob_base::Status;

/// Adds the beginning of the line that reports a reply to a block with [`LINE_ROOM`](crate::LINE_ROOM), as far as the status, at most 62
/// bytes: the number, a colon, a space and the text of the status, with a type's own number of its refusal. After it come what is given,
/// and LF. (this profile)
pub fn push_status_front(block: &mut Vec<u8>, number: u64, status: Status)
    requires { vec_len block.old + LINE_ROOM ≤ vec_capacity block.old }
    ensures items { block.new.items
        ≡ block.old.items ++ (decimal number ++ codes ": " ++ status_text status) }
    ensures len { vec_len block.new ≤ vec_len block.old + 62 }
    ensures capacity { vec_capacity block.old ≤ vec_capacity block.new }
{
    push_number(block, number);
    push_text(block, b": ");
    push_status(block, status);
}

// Adds the text of a status, with a type's own number.
fn push_status(block: &mut Vec<u8>, status: Status)
    requires { vec_len block.old + 40 ≤ vec_capacity block.old }
    ensures items { block.new.items ≡ block.old.items ++ status_text status }
    ensures len { vec_len block.new ≤ vec_len block.old + 40 }
    ensures capacity { vec_capacity block.old ≤ vec_capacity block.new }
{
    push_text(block, status.text().as_bytes());
    if let Status::TypeRefused(number) = status {
        push_text(block, b" ");
        push_number(block, u64::from(number));
    }
}
