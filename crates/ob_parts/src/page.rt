//! Which entries of a directory a line asks for.

ghost use Rattle.std.specs.Prelude.{◌≡◌, ◌≢◌, ◌≤◌, ℕ, List, length, slice_index, IfSome, IfNone};
ghost use Rattle.ob_parts.specs.declared.page.PageMode.{PageMode};
ghost use Rattle.ob_parts.specs.Parts.{BeginsWithRoom};
ghost use Rattle.ob_parts.specs.Pages.{IsRoom, is_first, is_single, mode_text};

use crate::split::split_at;

/// Which entries of a directory a `list` asks for: from which on, and how many at most. (this profile)
#[derive(Clone, Copy, PartialEq, Eq, Debug)]
pub enum PageMode {
    /// `first`: from the first entry on, as many as have room.
    First,
    /// `next`: after the entries that were given before, as many as have room.
    Next,
    /// `first1`: the first entry alone.
    FirstSingle,
    /// `next1`: one entry alone, the next after those that were given before.
    NextSingle,
}

impl PageMode {
    /// Whether the listing begins again, with the first entry. Source: this profile.
    pub fn is_first(self) -> bool
        ensures { result ≡ is_first self }
    {
        match self {
            PageMode::First => true,
            PageMode::Next => false,
            PageMode::FirstSingle => true,
            PageMode::NextSingle => false,
        }
    }

    /// Whether one entry alone is asked for. Source: this profile.
    pub fn is_single(self) -> bool
        ensures { result ≡ is_single self }
    {
        match self {
            PageMode::First => false,
            PageMode::Next => false,
            PageMode::FirstSingle => true,
            PageMode::NextSingle => true,
        }
    }
}

/// The mode that the bytes are, `MODE`: none where they are no mode. Source: this profile.
pub fn mode_of(word: &[u8]) -> Option<PageMode>
    ensures found { IfSome result (λ mode. word.now ≡ mode_text mode) }
    ensures none { IfNone result ((mode : PageMode) → word.now ≢ mode_text mode) }
{
    match word {
        b"first" => Some(PageMode::First),
        b"next" => Some(PageMode::Next),
        b"first1" => Some(PageMode::FirstSingle),
        b"next1" => Some(PageMode::NextSingle),
        _ => None,
    }
}

/// The room with which the bytes begin, `ROOM`, and what follows it and a space: none where they begin with no
/// decimal number below 2^32, or with one that has needless zeros. Source: this profile.
pub fn take_room(bytes: &[u8]) -> Option<(u32, &[u8])>
    ensures found { IfSome result (λ found. BeginsWithRoom bytes.now found.0 found.1.now) }
    ensures shorter { IfSome result (λ found. length found.1.now ≤ length bytes.now) }
    ensures none { IfNone result ((room : ℕ) (rest : List ℕ)
        → ¬ BeginsWithRoom bytes.now room rest) }
{
    let (spelled, rest) = split_at(bytes, b' ')?;
    let room = room_of(spelled)?;
    Some((room, rest))
}

// The number that decimal digits write, without a needless zero.
fn room_of(spelled: &[u8]) -> Option<u32>
    ensures found { IfSome result (λ room. IsRoom spelled.now room) }
    ensures none { IfNone result ((room : ℕ) → ¬ IsRoom spelled.now room) }
{
    if spelled == b"0".as_slice() {
        return Some(0);
    }
    match *spelled.first()? {
        b'1'..=b'9' => number_of(spelled),
        _ => None,
    }
}

// The number that decimal digits write of which the first is no zero. Such digits have no sign, which
// `parse` would take.
fn number_of(digits: &[u8]) -> Option<u32>
    requires { 49 ≤ slice_index digits.now 0 }
    ensures found { IfSome result (λ room. IsRoom digits.now room) }
    ensures none { IfNone result ((room : ℕ) → ¬ IsRoom digits.now room) }
{
    let text = std::str::from_utf8(digits).ok()?;
    text.parse::<u32>().ok()
}
