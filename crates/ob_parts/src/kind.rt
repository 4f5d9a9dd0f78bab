//! Kinds of objects.

ghost use Rattle.std.specs.Prelude.{◌≡◌, ◌≢◌, ◌≤◌, ℕ, List, Option, length, IfSome, IfNone};
ghost use Rattle.ob_parts.specs.declared.kind.KindForm.{KindForm};
ghost use Rattle.ob_parts.specs.Kinds.{name_of};
ghost use Rattle.ob_parts.specs.Parts.{BeginsWithKind, BeginsWithWant};

use crate::split::split_at;

/// A kind of objects as a line names it: by the name of its type. (this profile)
#[derive(Clone, Copy, PartialEq, Eq, Debug)]
pub enum KindForm {
    /// `Event`.
    Event,
    /// `Mutant`.
    Mutant,
    /// `Section`.
    Section,
    /// `Device`.
    Device,
    /// `File`.
    File,
    /// `Key`.
    Key,
}

/// The kind with which the bytes begin, `KIND`, and what follows it and a space: none where they begin with no
/// kind. Source: this profile.
pub fn take_kind(bytes: &[u8]) -> Option<(KindForm, &[u8])>
    ensures found { IfSome result (λ found. BeginsWithKind bytes.now found.0 found.1.now) }
    ensures shorter { IfSome result (λ found. length found.1.now ≤ length bytes.now) }
    ensures none { IfNone result ((kind : KindForm) (rest : List ℕ)
        → ¬ BeginsWithKind bytes.now kind rest) }
{
    let (word, rest) = split_at(bytes, b' ')?;
    let kind = kind_of(word)?;
    Some((kind, rest))
}

// The wanted kind of an open, with which the bytes begin, and the bytes after it and a space: a kind, or
// none for `any`.
pub fn take_want(bytes: &[u8]) -> Option<(Option<KindForm>, &[u8])>
    ensures found { IfSome result (λ found. BeginsWithWant bytes.now found.0 found.1.now) }
    ensures shorter { IfSome result (λ found. length found.1.now ≤ length bytes.now) }
    ensures none { IfNone result ((want : Option KindForm) (rest : List ℕ)
        → ¬ BeginsWithWant bytes.now want rest) }
{
    if let [b'a', b'n', b'y', b' ', rest @ ..] = bytes {
        return Some((None, rest));
    }
    let (kind, rest) = take_kind(bytes)?;
    Some((Some(kind), rest))
}

// The kind of a word.
fn kind_of(word: &[u8]) -> Option<KindForm>
    ensures found { IfSome result (λ kind. word.now ≡ name_of kind) }
    ensures none { IfNone result ((kind : KindForm) → word.now ≢ name_of kind) }
{
    match word {
        b"Event" => Some(KindForm::Event),
        b"Mutant" => Some(KindForm::Mutant),
        b"Section" => Some(KindForm::Section),
        b"Device" => Some(KindForm::Device),
        b"File" => Some(KindForm::File),
        b"Key" => Some(KindForm::Key),
        _ => None,
    }
}
