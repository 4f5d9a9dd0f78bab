//! The form of texts in a journal.

ghost use Rattle.std.specs.Prelude.{◌≡◌, ◌<◌, ◌/◌, ◌%◌, ◌∷◌, [], ◌++◌, IfOk, OnOk, IsTrue, string_bytes};
ghost use Rattle.ob_entries.specs.Lines.{escaped, escaped_byte, is_itself, hex_digit};

use std::alloc::{AllocError, Global};

/// Bytes in the form of texts: each of 0x20 to 0x7E except for `"` and `%` as itself, any other as `%` and two hexadecimal
/// digits in upper case. The only error is out of memory. (this profile)
pub(crate) fn escape(alloc: Global, bytes: &[u8]) -> Result<String, AllocError>
    ensures { IfOk result (λ text. string_bytes text ≡ escaped bytes.now) }
{
    let mut text = String::new(alloc);
    for byte in bytes {
        push_escaped(&mut text, *byte)?;
    }
    Ok(text)
}

// Adds a byte in the form of texts.
fn push_escaped(text: &mut String, byte: u8) -> Result<(), AllocError>
    ensures { OnOk result (string_bytes text.new ≡ string_bytes text.old ++ escaped_byte byte) }
{
    if stands_for_itself(byte) {
        text.push(byte as char)
    } else {
        push_digits(text, byte)
    }
}

// Whether a byte is itself in a text.
fn stands_for_itself(byte: u8) -> bool
    ensures value { result ≡ is_itself byte }
    ensures ascii { IsTrue result → byte < 128 }
{
    0x20 <= byte && byte <= 0x7E && byte != b'"' && byte != b'%'
}

// Adds `%` and the two hexadecimal digits of a byte.
fn push_digits(text: &mut String, byte: u8) -> Result<(), AllocError>
    ensures { OnOk result (string_bytes text.new
        ≡ string_bytes text.old ++ 37 ∷ hex_digit (byte / 16) ∷ hex_digit (byte % 16) ∷ []) }
{
    text.push('%')?;
    text.push(digit_of(byte / 16))?;
    text.push(digit_of(byte % 16))
}

// The hexadecimal digit of a number below sixteen, in upper case.
fn digit_of(number: u8) -> char
    requires { number < 16 }
    ensures digit { result ≡ hex_digit number }
    ensures ascii { result < 128 }
{
    if number < 10 {
        (0x30 + number) as char
    } else {
        (0x37 + number) as char
    }
}
