//! Flags.

ghost use Rattle.std.specs.Prelude.{◌≡◌, ◌+◌, ◌*◌, ◌≤◌, ℕ, length, IfSome, IfNone};
ghost use Rattle.std.specs.Str.Parse.{AllDigits, digits_value};
ghost use Rattle.ob_parts.specs.Flags.{flag_of, IsLetters, IsFlags};

use crate::text::hex_value;
use ob_base::Attrs;

// The bits of flags.
pub fn flags_of(flags: &[u8]) -> Option<u32>
    requires { length flags.now ≤ 262144 }
    ensures found { IfSome result (λ bits. IsFlags flags.now bits) }
    ensures none { IfNone result ((bits : ℕ) → ¬ IsFlags flags.now bits) }
{
    match flags {
        b"-" => Some(0),
        [b'x', digits @ ..] => raw_bits_of(digits),
        [] => None,
        _ => letters_of(flags),
    }
}

// The bits of distinct letters. A letter is there at most once, so the depth is 7 at most.
fn letters_of(letters: &[u8]) -> Option<u32>
    requires { length letters.now ≤ 262144 }
    ensures found { IfSome result (λ bits. IsLetters letters.now bits) }
    ensures bound { IfSome result (λ bits. bits ≤ 256 * length letters.now) }
    ensures none { IfNone result ((bits : ℕ) → ¬ IsLetters letters.now bits) }
{
    let Some((letter, others)) = letters.split_first() else {
        return Some(0);
    };
    let flag = flag_of(*letter)?;
    if others.contains(letter) {
        return None;
    }
    Some(flag + letters_of(others)?)
}

// The bit of a letter.
fn flag_of(letter: u8) -> Option<u32>
    ensures value { result ≡ flag_of letter }
    ensures bound { IfSome result (λ flag. flag ≤ 256) }
{
    match letter {
        b'I' => Some(Attrs::INHERIT),
        b'P' => Some(Attrs::PERMANENT),
        b'E' => Some(Attrs::EXCLUSIVE),
        b'C' => Some(Attrs::CASE_INSENSITIVE),
        b'O' => Some(Attrs::OPENIF),
        b'L' => Some(Attrs::OPENLINK),
        _ => None,
    }
}

// The number that one to eight hexadecimal digits write.
fn raw_bits_of(digits: &[u8]) -> Option<u32>
    ensures found { IfSome result (λ bits. AllDigits 16 digits.now × (1 ≤ length digits.now)
        × (length digits.now ≤ 8) × (bits ≡ digits_value 16 digits.now)) }
    ensures none { IfNone result (¬ (AllDigits 16 digits.now × (1 ≤ length digits.now)
        × (length digits.now ≤ 8))) }
{
    if digits.is_empty() || digits.len() > 8 {
        return None;
    }
    let mut bits: u32 = 0;
    for digit in digits {
        bits = bits * 16 + u32::from(hex_value(*digit)?);
    }
    Some(bits)
}
