//! Cutting bytes apart.

ghost use Rattle.std.specs.Prelude.{◌≡◌, ◌≢◌, List, ℕ, ◌∷◌, ◌++◌, IfSome, IfNone};
ghost use Rattle.ob_parts.specs.Text.{Lacks};

use memchr::memchr;

/// The bytes before the first byte of this value, and those after it: none where the bytes have no such
/// byte. Source: this profile.
pub fn split_at(bytes: &[u8], mark: u8) -> Option<(&[u8], &[u8])>
    ensures found { IfSome result (λ parts. (bytes.now ≡ parts.0.now ++ (mark ∷ parts.1.now))
        × Lacks mark parts.0.now) }
    ensures none { IfNone result (Lacks mark bytes.now) }
{
    let place = memchr(mark, bytes)?;
    Some((&bytes[..place], &bytes[place + 1..]))
}

/// The bytes after a front: none where the bytes begin otherwise. Source: this profile.
pub fn behind<'a>(bytes: &'a [u8], front: &[u8]) -> Option<&'a [u8]>
    ensures found { IfSome result (λ rest. bytes.now ≡ front.now ++ rest.now) }
    ensures none { IfNone result ((rest : List ℕ) → bytes.now ≢ front.now ++ rest) }
{
    bytes.strip_prefix(front)
}

// The bytes after one byte: none where the bytes don't begin with it.
pub(crate) fn behind_byte(bytes: &[u8], mark: u8) -> Option<&[u8]>
    ensures found { IfSome result (λ rest. bytes.now ≡ mark ∷ rest.now) }
    ensures none { IfNone result ((rest : List ℕ) → bytes.now ≢ mark ∷ rest) }
{
    match bytes {
        [first, rest @ ..] if *first == mark => Some(rest),
        _ => None,
    }
}
