//! Which arguments can be read, and their pieces.

ghost use Rattle.std.specs.Prelude.{◌≡◌, ◌==◌, ◌∷◌, [], ◌<◌, true, false, map, length, All, IfOk, IfNone, IfSome, IsTrue};
ghost use Rattle.std.specs.List.{slice_split, before_first, after_first};
ghost use Rattle.std.specs.Option.{option_map_or};
ghost use Rattle.ob_model.specs.Names.{is_profile_text};
ghost use Rattle.ob_plain.specs.Arguments as arguments;
ghost use Rattle.ob_plain.specs.Arguments.{IsFirst, has_byte};

use ob_names::is_profile_text;
use std::alloc::{AllocError, Global};

/// The most bytes of arguments that can be read: 65,535. (this profile)
pub const LONGEST_ARGUMENTS: usize = 65_535;

/// Whether arguments can be read: at most 65,535 bytes, each from 0x20 to 0x7E. (this profile)
pub fn is_readable(args: &[u8]) -> bool
    ensures { result ≡ arguments.is_readable args.now }
{
    args.len() <= LONGEST_ARGUMENTS && is_profile_text(args)
}

/// The part before the first byte of a value in a text, and what follows it where there is one.
pub fn cut(text: &[u8], byte: u8) -> (&[u8], Option<&[u8]>)
    ensures before { result.0.now ≡ before_first (λ b. b == byte) text.now }
    ensures behind { IfSome result.1 (λ rest. rest.now ≡ after_first (λ b. b == byte) text.now) }
    ensures found { IfSome result.1 (λ _. has_byte byte text.now ≡ true) }
    ensures none { IfNone result.1 (has_byte byte text.now ≡ false) }
    ensures shorter { IfSome result.1 (λ rest. length rest.now < length text.now) }

    // The same, in the words of the text's parts.
    ensures parts { slice_split (λ b. b == byte) text.now
        ≡ result.0.now ∷ option_map_or (λ rest. slice_split (λ b. b == byte) rest.now) result.1 [] }
{
    let place = first_place(text, byte);
    if place == text.len() {
        (text, None)
    } else {
        (&text[..place], Some(&text[place + 1..]))
    }
}

// Where the first byte of a value is, or the text's length where there is none.
fn first_place(text: &[u8], byte: u8) -> usize
    ensures { IsFirst byte text.now result }
{
    text.iter()
        .position(|&other| other == byte)
        .unwrap_or(text.len())
}

/// The pieces of arguments: what is between the semicolons, in order; empty arguments have none. A
/// piece may be empty. The only error is out of memory. (this profile)
pub fn split(alloc: Global, args: &[u8]) -> Result<Vec<&[u8]>, AllocError>
    ensures pieces { IfOk result (λ pieces. map (λ piece. piece.now) pieces.items
        ≡ arguments.pieces args.now) }
    ensures profile { IsTrue (is_profile_text args.now) → IfOk result (λ pieces.
        All (λ piece. IsTrue (is_profile_text piece.now)) pieces.items) }
{
    let mut pieces = Vec::new(alloc);
    let mut left = if args.is_empty() { None } else { Some(args) };
    while let Some(text) = left {
        let (piece, behind) = cut(text, b';');
        pieces.push(piece)?;
        left = behind;
    }
    Ok(pieces)
}
