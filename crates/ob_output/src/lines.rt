//! Lines of the output, added to a block that has room for them, and what they are made of.

ghost use Rattle.std.specs.Prelude.{◌≡◌, ◌+◌, ◌≤◌, ◌++◌, length, vec_len, vec_capacity};
ghost use Rattle.std.specs.Fmt.{decimal};
ghost use Rattle.ob_output.specs.Printed.{output_line, counts_text};

use crate::counts::Totals;
use itoa::Buffer;

/// The room that a line of the output needs in a block, or its front: 192 bytes, for six numbers of at most 20
/// digits, and at most 44 bytes of words. (this profile)
pub const LINE_ROOM: usize = 192;

/// Adds the line of a number and a text of at most 22 bytes to a block with [`LINE_ROOM`]: the number, a
/// colon, a space, the text and LF. (this profile)
pub fn push_text_line(block: &mut Vec<u8>, number: u64, text: &[u8])
    requires text { length text.now ≤ 22 }
    requires room { vec_len block.old + LINE_ROOM ≤ vec_capacity block.old }
    ensures items { block.new.items ≡ block.old.items ++ output_line number text.now }
    ensures capacity { vec_capacity block.old ≤ vec_capacity block.new }
{
    push_number(block, number);
    push_text(block, b": ");
    push_text(block, text);
    push_text(block, b"\n");
}

/// Adds the line of a number and of what the namespace counts to a block with [`LINE_ROOM`]. (this profile)
pub fn push_counts_line(block: &mut Vec<u8>, number: u64, counts: Totals)
    requires { vec_len block.old + LINE_ROOM ≤ vec_capacity block.old }
    ensures items { block.new.items ≡ block.old.items ++ output_line number (counts_text counts) }
    ensures capacity { vec_capacity block.old ≤ vec_capacity block.new }
{
    push_number(block, number);
    push_text(block, b": ");
    push_count(block, b"objects ", counts.objects as u64);
    push_count(block, b" handles ", counts.handles as u64);
    push_count(block, b" opens ", counts.opens);
    push_count(block, b" closes ", counts.closes);
    push_count(block, b" deletes ", counts.deletes);
    push_text(block, b"\n");
}

// Adds a word and a number.
fn push_count(block: &mut Vec<u8>, word: &[u8], count: u64)
    requires { vec_len block.old + length word.now + 20 ≤ vec_capacity block.old }
    ensures items { block.new.items ≡ block.old.items ++ (word.now ++ decimal count) }
    ensures len { vec_len block.new ≤ vec_len block.old + length word.now + 20 }
    ensures capacity { vec_capacity block.old ≤ vec_capacity block.new }
{
    push_text(block, word);
    push_number(block, count);
}

/// Adds a number in decimal digits, at most 20, to a block with room for them. (this profile)
pub fn push_number(block: &mut Vec<u8>, number: u64)
    requires { vec_len block.old + 20 ≤ vec_capacity block.old }
    ensures items { block.new.items ≡ block.old.items ++ decimal number }
    ensures len { vec_len block.new ≤ vec_len block.old + 20 }
    ensures capacity { vec_capacity block.old ≤ vec_capacity block.new }
{
    let mut digits = Buffer::new();
    push_text(block, digits.format(number).as_bytes());
}

/// Adds a text to a block with room for it. (this profile)
pub fn push_text(block: &mut Vec<u8>, text: &[u8])
    requires { vec_len block.old + length text.now ≤ vec_capacity block.old }
    ensures items { block.new.items ≡ block.old.items ++ text.now }
    ensures len { vec_len block.new ≡ vec_len block.old + length text.now }
    ensures capacity { vec_capacity block.old ≤ vec_capacity block.new }
{
    match block.extend_from_slice(text) {
        Ok(()) => {}
        Err(_) => unreachable!(),
    }
}
