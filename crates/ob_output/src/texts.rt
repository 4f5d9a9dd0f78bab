//! Texts, as they are printed.

ghost use Rattle.std.specs.Prelude.{◌≡◌, ◌+◌, ◌*◌, ◌≤◌, ◌++◌, length, vec_len, vec_capacity, IsTrue};
ghost use Rattle.std.specs.List.{AllByRecursion};
ghost use Rattle.ob_output.specs.Printed.{IsItself, entry_text, printed_byte, printed_bytes};
ghost use Rattle.ob_output.specs.declared.lines.TheConstants.{LINE_ROOM};

use crate::lines::push_text;
use ob_model::Listed;

/// Adds an entry of a page, whose name and whose type's name have at most 32 bytes each, to a block with
/// [`LINE_ROOM`](crate::LINE_ROOM): a space, the name as it is printed between double quotes, a space and the type's name.
/// (this profile)
pub fn push_entry(block: &mut Vec<u8>, entry: &Listed)
    requires name { length entry.now.name ≤ 32 }
    requires type_name { length entry.now.type_name ≤ 32 }
    requires room { vec_len block.old + LINE_ROOM ≤ vec_capacity block.old }
    ensures items { block.new.items ≡ block.old.items ++ entry_text entry.now }
    ensures capacity { vec_capacity block.old ≤ vec_capacity block.new }
{
    push_text(block, b" \"");
    push_printed(block, entry.name.as_slice());
    push_text(block, b"\" ");
    push_text(block, entry.type_name.as_str().as_bytes());
}

/// Adds a text as it is printed to a block with three bytes of room for each byte of the text: `%25` for `%`, `%22`
/// for `"`, and any other byte as itself. (this profile)
#[inline(always)]
pub fn push_printed(block: &mut Vec<u8>, text: &[u8])
    requires { vec_len block.old + 3 * length text.now ≤ vec_capacity block.old }
    ensures items { block.new.items ≡ block.old.items ++ printed_bytes text.now }
    ensures len { vec_len block.new ≤ vec_len block.old + 3 * length text.now }
    ensures capacity { vec_capacity block.old ≤ vec_capacity block.new }
{
    if prints_as_it_is(text) {
        push_text(block, text);
    } else {
        push_printed_bytes(block, text);
    }
}

// Whether each byte of a text is printed as itself.
fn prints_as_it_is(text: &[u8]) -> bool
    ensures { IsTrue result → AllByRecursion IsItself text.now }
{
    text.iter().all(|byte| *byte != b'%' && *byte != b'"')
}

// Adds the bytes of a text, one after another, as they are printed.
fn push_printed_bytes(block: &mut Vec<u8>, text: &[u8])
    requires { vec_len block.old + 3 * length text.now ≤ vec_capacity block.old }
    ensures items { block.new.items ≡ block.old.items ++ printed_bytes text.now }
    ensures len { vec_len block.new ≤ vec_len block.old + 3 * length text.now }
    ensures capacity { vec_capacity block.old ≤ vec_capacity block.new }
{
    for byte in text {
        push_printed_byte(block, *byte);
    }
}

// Adds a byte of a text, as it is printed.
fn push_printed_byte(block: &mut Vec<u8>, byte: u8)
    requires { vec_len block.old + 3 ≤ vec_capacity block.old }
    ensures items { block.new.items ≡ block.old.items ++ printed_byte byte }
    ensures len { vec_len block.new ≤ vec_len block.old + 3 }
    ensures capacity { vec_capacity block.old ≤ vec_capacity block.new }
{
    match byte {
        b'%' => push_text(block, b"%25"),
        b'"' => push_text(block, b"%22"),
        _ => push_text(block, &[byte]),
    }
}
