//! A line of the output that is in the value itself, where there is no block.

ghost use Rattle.std.specs.Prelude.{◌≡◌, ◌+◌, ◌≤◌, [], ◌++◌, length};
ghost use Rattle.arrayvec.specs.ArrayVec.{array_vec_len};
ghost use Rattle.ob_output.specs.Printed.{output_line};

use arrayvec::ArrayVec;
use itoa::Buffer;

// Room for a number of at most 20 digits, a text of at most 22 bytes, and three bytes more.
const ROOM: usize = 45;

/// A line of a number and a short text: at most 45 bytes, which are in the value itself.
pub type ShortLine = ArrayVec<u8, ROOM>;

/// The line of a number and a text of at most 22 bytes: the number, a colon, a space, the text and LF.
/// (this profile)
pub fn text_line(number: u64, text: &[u8]) -> ShortLine
    requires { length text.now ≤ 22 }
    ensures { result.items ≡ output_line number text.now }
{
    let mut line = empty_line();
    let mut digits = Buffer::new();
    add(&mut line, digits.format(number).as_bytes());
    add(&mut line, b": ");
    add(&mut line, text);
    add(&mut line, b"\n");
    line
}

// A line with nothing in it.
fn empty_line() -> ShortLine
    ensures items { result.items ≡ [] }
    ensures len { array_vec_len result ≡ 0 }
{
    ArrayVec::new()
}

// Adds a text.
fn add(line: &mut ShortLine, text: &[u8])
    requires { array_vec_len line.old + length text.now ≤ 45 }
    ensures items { line.new.items ≡ line.old.items ++ text.now }
    ensures len { array_vec_len line.new ≡ array_vec_len line.old + length text.now }
{
    for byte in text {
        line.push(*byte);
    }
}
