//! Texts, names, places, flags and the variable that is set, and parts after one another that several lines have.

ghost use Rattle.std.specs.Prelude.{◌≡◌, ◌≤◌, ℕ, List, Option, length, IfSome, IfNone};
ghost use Rattle.ob_parts.specs.declared.kind.KindForm.{KindForm};
ghost use Rattle.ob_parts.specs.declared.name.NameForm.{NameForm};
ghost use Rattle.ob_parts.specs.declared.name.PlaceForm.{PlaceForm};
ghost use Rattle.ob_parts.specs.Parts.{BeginsWithText, BeginsWithName, BeginsWithPlace, BeginsWithFlags, IsSetting, name_seen, place_seen, IsFlagsAndVariable, IsFlagsTextAndVariable, IsNameFlagsAndVariable, IsPlaceFlagsTextAndVariable, IsWantNameFlagsAndVariable};

use crate::flags::flags_of;
use crate::handle::handle_of;
use crate::kind::{KindForm, take_want};
use crate::name::{NameForm, PlaceForm};
use crate::split::{behind_byte, split_at};
use crate::text::{is_text, is_variable};

// The text between double quotes with which the bytes begin, and what follows it and a space.
pub(crate) fn take_text(bytes: &[u8]) -> Option<(&[u8], &[u8])>
    ensures found { IfSome result (λ found. BeginsWithText bytes.now found.0.now found.1.now) }
    ensures shorter { IfSome result (λ found. length found.1.now ≤ length bytes.now) }
    ensures none { IfNone result ((text rest : List ℕ) → ¬ BeginsWithText bytes.now text rest) }
{
    let quoted = behind_byte(bytes, b'"')?;
    let (text, rest) = split_at(quoted, b'"')?;
    let rest = behind_byte(rest, b' ')?;
    if !is_text(text) {
        return None;
    }
    Some((text, rest))
}

// The name with which the bytes begin, and what follows it and a space.
pub(crate) fn take_name(bytes: &[u8]) -> Option<(NameForm<&[u8]>, &[u8])>
    ensures found { IfSome result (λ found.
        BeginsWithName bytes.now (name_seen found.0) found.1.now) }
    ensures shorter { IfSome result (λ found. length found.1.now ≤ length bytes.now) }
    ensures none { IfNone result ((name : NameForm (List ℕ)) (rest : List ℕ)
        → ¬ BeginsWithName bytes.now name rest) }
{
    if let Some((text, rest)) = take_text(bytes) {
        return Some((NameForm::Absolute(text), rest));
    }
    let (spelled, quoted) = split_at(bytes, b':')?;
    let root = handle_of(spelled)?;
    let (text, rest) = take_text(quoted)?;
    Some((NameForm::Relative { root, text }, rest))
}

/// The place with which the bytes begin, `PLACE`, and what follows it and a space: none where they begin with
/// no place. Source: this profile.
pub fn take_place(bytes: &[u8]) -> Option<(PlaceForm<&[u8]>, &[u8])>
    ensures found { IfSome result (λ found.
        BeginsWithPlace bytes.now (place_seen found.0) found.1.now) }
    ensures shorter { IfSome result (λ found. length found.1.now ≤ length bytes.now) }
    ensures none { IfNone result ((place : PlaceForm (List ℕ)) (rest : List ℕ)
        → ¬ BeginsWithPlace bytes.now place rest) }
{
    if let [b'n', b'o', b'n', b'e', b' ', rest @ ..] = bytes {
        return Some((PlaceForm::Unnamed, rest));
    }
    let (name, rest) = take_name(bytes)?;
    Some((PlaceForm::Named(name), rest))
}

// The bits of the flags with which the bytes begin, and what follows them and a space.
pub(crate) fn take_flags(bytes: &[u8]) -> Option<(u32, &[u8])>
    requires { length bytes.now ≤ 262144 }
    ensures found { IfSome result (λ found. BeginsWithFlags bytes.now found.0 found.1.now) }
    ensures shorter { IfSome result (λ found. length found.1.now ≤ length bytes.now) }
    ensures none { IfNone result ((attrs : ℕ) (rest : List ℕ)
        → ¬ BeginsWithFlags bytes.now attrs rest) }
{
    let (flags, rest) = split_at(bytes, b' ')?;
    let attrs = flags_of(flags)?;
    Some((attrs, rest))
}

/// The handle variable that is set, where the bytes are `=V`: none where they aren't. Source: this
/// profile.
pub fn variable_set(bytes: &[u8]) -> Option<&[u8]>
    ensures found { IfSome result (λ variable. IsSetting bytes.now variable.now) }
    ensures none { IfNone result ((variable : List ℕ) → ¬ IsSetting bytes.now variable) }
{
    match bytes {
        [b'=', variable @ ..] if is_variable(variable) => Some(variable),
        _ => None,
    }
}

/// The parts of `FLAGS =V`: the bits of the flags, and the variable that is set. None where the bytes aren't that.
/// Source: this profile.
pub fn flags_and_variable(bytes: &[u8]) -> Option<(u32, &[u8])>
    requires { length bytes.now ≤ 262144 }
    ensures found { IfSome result (λ parts. IsFlagsAndVariable bytes.now parts.0 parts.1.now) }
    ensures none { IfNone result ((attrs : ℕ) (variable : List ℕ)
        → ¬ IsFlagsAndVariable bytes.now attrs variable) }
{
    let (attrs, rest) = take_flags(bytes)?;
    let variable = variable_set(rest)?;
    Some((attrs, variable))
}

// The parts of `FLAGS TEXT =V`.
fn flags_text_and_variable(bytes: &[u8]) -> Option<(u32, &[u8], &[u8])>
    requires { length bytes.now ≤ 262144 }
    ensures found { IfSome result (λ parts.
        IsFlagsTextAndVariable bytes.now parts.0 parts.1.now parts.2.now) }
    ensures none { IfNone result ((attrs : ℕ) (text variable : List ℕ)
        → ¬ IsFlagsTextAndVariable bytes.now attrs text variable) }
{
    let (attrs, rest) = take_flags(bytes)?;
    let (text, rest) = take_text(rest)?;
    let variable = variable_set(rest)?;
    Some((attrs, text, variable))
}

/// The parts of `NAME FLAGS =V`: the name, the bits of the flags, and the variable that is set. None where the bytes
/// aren't that. Source: this profile.
pub fn name_flags_and_variable(bytes: &[u8]) -> Option<(NameForm<&[u8]>, u32, &[u8])>
    requires { length bytes.now ≤ 262144 }
    ensures found { IfSome result (λ parts.
        IsNameFlagsAndVariable bytes.now (name_seen parts.0) parts.1 parts.2.now) }
    ensures none { IfNone result ((name : NameForm (List ℕ)) (attrs : ℕ) (variable : List ℕ)
        → ¬ IsNameFlagsAndVariable bytes.now name attrs variable) }
{
    let (name, rest) = take_name(bytes)?;
    let (attrs, variable) = flags_and_variable(rest)?;
    Some((name, attrs, variable))
}

/// The parts of `WANT NAME FLAGS =V`: the kind that is wanted, which is none for `any`, the name, the bits of the
/// flags, and the variable that is set. None where the bytes aren't that. Source: this profile.
pub fn want_name_flags_and_variable(
    bytes: &[u8],
) -> Option<(Option<KindForm>, NameForm<&[u8]>, u32, &[u8])>
    requires { length bytes.now ≤ 262144 }
    ensures found { IfSome result (λ parts.
        IsWantNameFlagsAndVariable bytes.now parts.0 (name_seen parts.1) parts.2 parts.3.now) }
    ensures none { IfNone result ((want : Option KindForm) (name : NameForm (List ℕ)) (attrs : ℕ)
        (variable : List ℕ)
        → ¬ IsWantNameFlagsAndVariable bytes.now want name attrs variable) }
{
    let (want, rest) = take_want(bytes)?;
    let (name, attrs, variable) = name_flags_and_variable(rest)?;
    Some((want, name, attrs, variable))
}

/// The parts of `PLACE FLAGS TEXT =V`: the place, the bits of the flags, the text, and the variable that is set. None
/// where the bytes aren't that. Source: this profile.
pub fn place_flags_text_and_variable(bytes: &[u8]) -> Option<(PlaceForm<&[u8]>, u32, &[u8], &[u8])>
    requires { length bytes.now ≤ 262144 }
    ensures found { IfSome result (λ parts.
        IsPlaceFlagsTextAndVariable bytes.now (place_seen parts.0) parts.1 parts.2.now parts.3.now) }
    ensures none { IfNone result ((place : PlaceForm (List ℕ)) (attrs : ℕ) (text variable : List ℕ)
        → ¬ IsPlaceFlagsTextAndVariable bytes.now place attrs text variable) }
{
    let (place, rest) = take_place(bytes)?;
    let (attrs, text, variable) = flags_text_and_variable(rest)?;
    Some((place, attrs, text, variable))
}
