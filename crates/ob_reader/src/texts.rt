//! Texts of a journal, read back.

ghost use Rattle.std.specs.Prelude.{◌≡◌, ◌<◌, ◌∷◌, [], length, Some, None, option_map, IfOk, IfSome, IfNone};
ghost use Rattle.serde_json.specs.View.{view};
ghost use Rattle.ob_entries.specs.Lines.{is_itself};
ghost use Rattle.ob_reader.specs.Reading.{digit_for, byte_for, with_byte, unescaped, bytes_in, bytes_at};

use crate::members::text_at;
use ob_model::Bytes;
use serde_json::Value;
use std::alloc::{AllocError, Global};

/// The bytes that a string means: none where the value isn't one in the form of texts. The only error is out of
/// memory. (this profile)
pub(crate) fn read_bytes(alloc: Global, value: &Value) -> Result<Option<Bytes>, AllocError>
    ensures { IfOk result (λ bytes. bytes ≡ bytes_in (view value.now)) }
{
    match value.as_str() {
        Some(text) => unescape(alloc, text.as_bytes()),
        None => Ok(None),
    }
}

/// The bytes that the string under a key means: none where there isn't one in the form of texts. The only error is out
/// of memory. (this profile)
pub(crate) fn read_bytes_at(
    alloc: Global,
    value: &Value,
    key: &str,
) -> Result<Option<Bytes>, AllocError>
    ensures { IfOk result (λ bytes. bytes ≡ bytes_at key.now (view value.now)) }
{
    match text_at(value, key) {
        Some(text) => unescape(alloc, text.as_bytes()),
        None => Ok(None),
    }
}

// The bytes that a text means, where it is of the form.
fn unescape(alloc: Global, text: &[u8]) -> Result<Option<Bytes>, AllocError>
    ensures { IfOk result (λ bytes. bytes ≡ unescaped text.now) }
{
    let mut bytes = Vec::new(alloc);
    let mut rest = text;
    while let Some((byte, behind)) = next_byte(rest) {
        bytes.push(byte)?;
        rest = behind;
    }
    if rest.is_empty() {
        Ok(Some(Bytes::new(bytes)))
    } else {
        Ok(None)
    }
}

// The first byte that a text means, and the rest of the text.
fn next_byte(text: &[u8]) -> Option<(u8, &[u8])>
    ensures found { IfSome result (λ found. unescaped text.now
        ≡ with_byte found.0 (unescaped found.1.now)) }
    ensures shorter { IfSome result (λ found. length found.1.now < length text.now) }
    ensures none { IfNone result (0 < length text.now → unescaped text.now ≡ None) }
{
    let (first, rest) = text.split_first()?;
    if *first == b'%' {
        return escaped_byte(rest);
    }
    if stands_for_itself(*first) {
        Some((*first, rest))
    } else {
        None
    }
}

// The byte that the two digits after `%` mean, and the rest of the text.
fn escaped_byte(text: &[u8]) -> Option<(u8, &[u8])>
    ensures found { IfSome result (λ found. unescaped (37 ∷ text.now)
        ≡ with_byte found.0 (unescaped found.1.now)) }
    ensures shorter { IfSome result (λ found. length found.1.now < length text.now) }
    ensures none { IfNone result (unescaped (37 ∷ text.now) ≡ None) }
{
    let (high, rest) = text.split_first()?;
    let (low, rest) = rest.split_first()?;
    let byte = byte_of(*high, *low)?;
    Some((byte, rest))
}

// The byte that two digits mean, where it may be written so.
fn byte_of(high: u8, low: u8) -> Option<u8>
    ensures { result ≡ byte_for high low }
{
    let high = digit_of(high)?;
    let low = digit_of(low)?;
    let byte = 16 * high + low;
    if stands_for_itself(byte) {
        None
    } else {
        Some(byte)
    }
}

// The value of a hexadecimal digit of either case.
fn digit_of(digit: u8) -> Option<u8>
    ensures value { result ≡ digit_for digit }
    ensures bound { IfSome result (λ value. value < 16) }
{
    match digit {
        b'0'..=b'9' => Some(digit - b'0'),
        b'A'..=b'F' => Some(digit - b'A' + 10),
        b'a'..=b'f' => Some(digit - b'a' + 10),
        _ => None,
    }
}

// Whether a byte is itself in a text.
fn stands_for_itself(byte: u8) -> bool
    ensures { result ≡ is_itself byte }
{
    0x20 <= byte && byte <= 0x7E && byte != b'"' && byte != b'%'
}
