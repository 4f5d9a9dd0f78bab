//! The limit that arguments say.

ghost use Rattle.std.specs.Prelude.{◌≡◌, ℕ, List, ◌∷◌, [], Some};
ghost use Rattle.ob_plain.specs.Limits as limits;

/// The limit that a text says: a decimal number from 1 to 65,535 without a leading zero. A text
/// that is no such number says none. (this profile)
pub fn limit_of(args: &[u8]) -> Option<u16>
    ensures { result ≡ limits.limit_of args.now }
{
    let (byte, rest) = args.split_first()?;
    if !(b'1'..=b'9').contains(byte) {
        return None;
    }
    let mut total = (*byte - b'0') as u16;
    for byte in rest {
        total = with_digit(total, *byte)?;
    }
    Some(total)
}

// A number with one digit more after it.
fn with_digit(total: u16, byte: u8) -> Option<u16>
    ensures { result ≡ limits.digits_behind total (byte ∷ []) }
{
    if !byte.is_ascii_digit() {
        return None;
    }
    total.checked_mul(10)?.checked_add((byte - b'0') as u16)
}

/// A text says a limit exactly where it is the limit, 1 to 65,535, in decimal. This holds of every
/// text; nothing is done when it runs. (this profile)
pub fn limits_are_decimal()
    ensures said { (text : List ℕ) (limit : ℕ) → limits.limit_of text ≡ Some limit
        → limits.IsLimit text limit }
    ensures says { (text : List ℕ) (limit : ℕ) → limits.IsLimit text limit → limits.limit_of text
        ≡ Some limit }
{}
