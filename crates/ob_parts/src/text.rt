//! Variables and texts.

ghost use Rattle.std.specs.Prelude.{◌≡◌, ◌<◌, ◌↔◌, ◌+◌, ℕ, List, length, IsTrue, IfSome, IfNone, IfOk};
ghost use Rattle.std.specs.Char.{digit_value};
ghost use Rattle.std.specs.List.{AllByRecursion};
ghost use Rattle.ob_parts.specs.Plain.{is_plain};
ghost use Rattle.ob_parts.specs.Text.{IsVariable, IsProcessVariable, IsPlain, IsHexDigit, SpellsByte, WritesByte, Spells, IsText, TextsSpellOneThing};

use crate::split::split_at;
use ob_model::Bytes;
use std::alloc::{AllocError, Global};

/// Whether the bytes are a variable: a letter and up to 31 letters or digits. Source: this profile.
pub fn is_variable(bytes: &[u8]) -> bool
    ensures { IsTrue result ↔ IsVariable bytes.now }
{
    let Some((first, others)) = bytes.split_first() else {
        return false;
    };
    first.is_ascii_alphabetic()
        && others.iter().all(|byte| byte.is_ascii_alphanumeric())
        && others.len() <= 31
}

// Whether the bytes are a process variable.
pub fn is_process_variable(bytes: &[u8]) -> bool
    ensures { IsTrue result ↔ IsProcessVariable bytes.now }
{
    is_variable(bytes) && !matches!(bytes, b"stat" | b"thread" | b"join")
}

// The first byte that a text spells, and the rest of the text.
fn next_byte(text: &[u8]) -> Option<(u8, &[u8])>
    ensures found { IfSome result (λ found. SpellsByte text.now found.0 found.1.now) }
    ensures shorter { IfSome result (λ found. length found.1.now < length text.now) }
    ensures none { IfNone result ((byte : ℕ) (rest : List ℕ) → ¬ SpellsByte text.now byte rest) }
{
    let (first, rest) = text.split_first()?;
    match *first {
        b'"' => None,
        b'%' => escaped_byte(rest),
        0x20..=0x7E => Some((*first, rest)),
        _ => None,
    }
}

// The byte that two hexadecimal digits write, and what follows them.
fn escaped_byte(text: &[u8]) -> Option<(u8, &[u8])>
    ensures found { IfSome result (λ found. WritesByte text.now found.0 found.1.now) }
    ensures shorter { IfSome result (λ found. length found.1.now < length text.now) }
    ensures none { IfNone result ((byte : ℕ) (rest : List ℕ) → ¬ WritesByte text.now byte rest) }
{
    let (high, rest) = text.split_first()?;
    let (low, rest) = rest.split_first()?;
    let high = hex_value(*high)?;
    let low = hex_value(*low)?;
    Some((16 * high + low, rest))
}

// The value of a hexadecimal digit of either case.
pub fn hex_value(digit: u8) -> Option<u8>
    ensures value { IfSome result (λ value. (value ≡ digit_value digit) × (value < 16)) }
    ensures none { IfNone result (¬ IsHexDigit digit) }
{
    match digit {
        b'0'..=b'9' => Some(digit - b'0'),
        b'A'..=b'F' => Some(digit - b'A' + 10),
        b'a'..=b'f' => Some(digit - b'a' + 10),
        _ => None,
    }
}

// Whether the bytes are a text.
pub fn is_text(bytes: &[u8]) -> bool
    ensures { IsTrue result ↔ IsText bytes.now }
{
    if are_plain(bytes) {
        return true;
    }
    is_text_with_escapes(bytes)
}

// Whether each byte stands for itself. Most texts are such: all bytes are looked at, without a branch for each.
fn are_plain(bytes: &[u8]) -> bool
    ensures { IsTrue result ↔ AllByRecursion IsPlain bytes.now }
{
    bytes
        .iter()
        .fold(true, |plain, byte| plain & is_plain(*byte))
}

// Whether a byte stands for itself.
fn is_plain(byte: u8) -> bool
    ensures { result ≡ is_plain byte }
{
    0x20 <= byte && byte <= 0x7E && byte != b'"' && byte != b'%'
}

// The same as `is_text`, of bytes that don't all stand for themselves.
fn is_text_with_escapes(bytes: &[u8]) -> bool
    ensures { IsTrue result ↔ IsText bytes.now }
{
    let mut rest = bytes;
    while let Some((_, behind)) = next_byte(rest) {
        rest = behind;
    }
    rest.is_empty()
}

/// The bytes that a text spells. The only error is out of memory.
pub fn decode(alloc: Global, text: &[u8]) -> Result<Bytes, AllocError>
    requires { IsText text.now }
    ensures { IfOk result (λ bytes. Spells text.now bytes) }
{
    match split_at(text, b'%') {
        None => Bytes::from_slice(alloc, text),
        Some(_) => unescaped(alloc, text),
    }
}

// The same as `decode`, of a text with escapes.
fn unescaped(alloc: Global, text: &[u8]) -> Result<Bytes, AllocError>
    requires { IsText text.now }
    ensures { IfOk result (λ bytes. Spells text.now bytes) }
{
    let mut bytes = Vec::with_capacity(alloc, text.len())?;
    let mut rest = text;
    while let Some((byte, behind)) = next_byte(rest) {
        match bytes.push(byte) {
            Ok(()) => rest = behind,
            Err(_) => unreachable!(),
        }
    }
    Ok(Bytes::new(bytes))
}

/// The law that a text spells one list of bytes. The call does nothing; a caller makes it to have
/// the fact.
pub fn texts_spell_one_thing()
    ensures { TextsSpellOneThing }
{}
