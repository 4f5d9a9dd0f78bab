//! Handles in a line: a handle variable, or one with a number that is added to its value.

ghost use Rattle.std.specs.Prelude.{◌≡◌, ◌≢◌, ◌++◌, ℕ, List, codes, IfSome, IfNone};
ghost use Rattle.ob_parts.specs.declared.handle.HandleForm.{HandleForm};
ghost use Rattle.ob_parts.specs.declared.handle.Offset.{Offset};
ghost use Rattle.ob_parts.specs.Parts.{IsHandle, handle_seen, offset_text, offset_value};

use crate::split::split_at;
use crate::text::is_variable;

/// A number that is added to the value of a handle variable. (this profile)
#[derive(Clone, Copy, PartialEq, Eq, Debug)]
pub enum Offset {
    /// Nothing after the variable: 0.
    Zero,
    /// `+1`.
    One,
    /// `+2`.
    Two,
    /// `+3`.
    Three,
}

/// A handle in a line: `V`, `V+1`, `V+2` or `V+3`. `T` is how bytes are held: as slices of the line,
/// or, in contracts, as lists.
#[derive(Clone, Copy, PartialEq, Eq, Debug)]
pub struct HandleForm<T> {
    /// The handle variable.
    pub variable: T,
    /// The number that is added to its value.
    pub offset: Offset,
}

/// The handle that the bytes are, `H`: none where they are no handle variable, and none with `+1`, `+2` or `+3` after
/// it. Source: this profile.
pub fn handle_of(bytes: &[u8]) -> Option<HandleForm<&[u8]>>
    ensures found { IfSome result (λ handle. IsHandle bytes.now (handle_seen handle)) }
    ensures none { IfNone result ((handle : HandleForm (List ℕ)) → ¬ IsHandle bytes.now handle) }
{
    if is_variable(bytes) {
        return Some(HandleForm {
            variable: bytes,
            offset: Offset::Zero,
        });
    }
    let (variable, number) = split_at(bytes, b'+')?;
    if !is_variable(variable) {
        return None;
    }
    let offset = offset_of(number)?;
    Some(HandleForm { variable, offset })
}

// The number that follows a `+`.
fn offset_of(number: &[u8]) -> Option<Offset>
    ensures found { IfSome result (λ offset. codes "+" ++ number.now ≡ offset_text offset) }
    ensures none { IfNone result ((offset : Offset) → codes "+"
        ++ number.now ≢ offset_text offset) }
{
    match number {
        b"1" => Some(Offset::One),
        b"2" => Some(Offset::Two),
        b"3" => Some(Offset::Three),
        _ => None,
    }
}

/// The number that is added to the value of a handle variable: 0 to 3. Source: this profile.
pub fn offset_value(offset: Offset) -> u32
    ensures { result ≡ offset_value offset }
{
    match offset {
        Offset::Zero => 0,
        Offset::One => 1,
        Offset::Two => 2,
        Offset::Three => 3,
    }
}
