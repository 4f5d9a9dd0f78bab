//! Parts of the lines that speak of processes: process variables, handles in front of them, and inheritance.

ghost use Rattle.std.specs.Prelude.{◌≡◌, ◌≢◌, ◌≤◌, ◌++◌, ℕ, Bool, List, length, codes, IfSome, IfNone};
ghost use Rattle.ob_parts.specs.declared.handle.HandleForm.{HandleForm};
ghost use Rattle.ob_parts.specs.Parts.{BeginsWithHandle, BeginsWithInherit, BeginsWithProcess, SetsProcess, handle_seen};

use crate::handle::{HandleForm, handle_of};
use crate::split::{behind, split_at};
use crate::text::is_process_variable;

/// The handle with which the bytes begin, `H`, and what follows it and a space: none where they begin with no
/// handle. Source: this profile.
pub fn take_handle(bytes: &[u8]) -> Option<(HandleForm<&[u8]>, &[u8])>
    ensures found { IfSome result (λ found.
        BeginsWithHandle bytes.now (handle_seen found.0) found.1.now) }
    ensures shorter { IfSome result (λ found. length found.1.now ≤ length bytes.now) }
    ensures none { IfNone result ((handle : HandleForm (List ℕ)) (rest : List ℕ)
        → ¬ BeginsWithHandle bytes.now handle rest) }
{
    let (spelled, rest) = split_at(bytes, b' ')?;
    let handle = handle_of(spelled)?;
    Some((handle, rest))
}

/// The process variable with which the bytes begin, `P` or `Q`, and what follows it and a space: none where they
/// begin with no variable, or with one of the language's own. Source: this profile.
pub fn take_process(bytes: &[u8]) -> Option<(&[u8], &[u8])>
    ensures found { IfSome result (λ found. BeginsWithProcess bytes.now found.0.now found.1.now) }
    ensures shorter { IfSome result (λ found. length found.1.now ≤ length bytes.now) }
    ensures none { IfNone result ((process rest : List ℕ)
        → ¬ BeginsWithProcess bytes.now process rest) }
{
    let (process, rest) = split_at(bytes, b' ')?;
    if !is_process_variable(process) {
        return None;
    }
    Some((process, rest))
}

/// The inheritance with which the bytes begin, and what follows it and a space: true for `inherit`, false for
/// `plain`, none where they begin with neither. Source: this profile.
pub fn take_inherit(bytes: &[u8]) -> Option<(bool, &[u8])>
    ensures found { IfSome result (λ found. BeginsWithInherit bytes.now found.0 found.1.now) }
    ensures shorter { IfSome result (λ found. length found.1.now ≤ length bytes.now) }
    ensures none { IfNone result ((inherit : Bool) (rest : List ℕ)
        → ¬ BeginsWithInherit bytes.now inherit rest) }
{
    if let Some(rest) = behind(bytes, b"plain ") {
        return Some((false, rest));
    }
    let rest = behind(bytes, b"inherit ")?;
    Some((true, rest))
}

/// The process variable that is set, where the bytes are `=Q`: none where they aren't. Source: this
/// profile.
pub fn process_set(bytes: &[u8]) -> Option<&[u8]>
    ensures found { IfSome result (λ process. SetsProcess bytes.now process.now) }
    ensures none { IfNone result ((process : List ℕ) → ¬ SetsProcess bytes.now process) }
{
    match bytes {
        [b'=', process @ ..] if is_process_variable(process) => Some(process),
        _ => None,
    }
}
