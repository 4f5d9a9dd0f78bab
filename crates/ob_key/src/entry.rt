//! The entries of keys.

ghost use Rattle.std.specs.Prelude.{◌≡◌, IfOk, IsTrue, is_some};
ghost use Rattle.std.specs.Cmp.{partial_equiv_from_equiv};
ghost use Rattle.std.specs.Cmp.Lexicographic.{nat_list_eq_equiv};
ghost use Rattle.ob_model.specs.Names.{is_profile_text, begins_with_separator};
ghost use Rattle.ob_plain.specs.Arguments.{same_path};
ghost use Rattle.ob_key.specs.Entries as entries;

use ob_plain::{Path, cut};
use std::alloc::{AllocError, Global};
use std::marker::Model;

/// The target of a link among keys: any number of bytes, each from 0x20 to 0x7E. A contract sees a
/// `KeyTarget` as the list of its bytes. (this profile)
#[derive(Debug, Drop)]
pub struct KeyTarget {
    bytes: Vec<u8>,
}

impl Model for KeyTarget {
    ghost use Rattle.std.specs.Prelude.{List, ℕ, IsTrue};
    ghost use Rattle.ob_model.specs.Names.{is_profile_text};

    ghost Value = { List ℕ };

    ghost view = { λ target. target.bytes.items };

    ghost invariant = { λ target. IsTrue (is_profile_text target.bytes.items) };
}

impl KeyTarget {
    /// A target with a copy of these bytes. The only error is out of memory.
    pub(crate) fn new(alloc: Global, bytes: &[u8]) -> Result<KeyTarget, AllocError>
        requires { IsTrue (is_profile_text bytes.now) }
        ensures { IfOk result (λ target. target ≡ bytes.now) }
    {
        Ok(KeyTarget {
            bytes: bytes.to_vec(alloc)?,
        })
    }

    /// The target's bytes.
    pub(crate) fn as_slice(&self) -> &[u8]
        ensures bytes { result.now ≡ self.now }
        ensures profile { IsTrue (is_profile_text result.now) }
    {
        self.bytes.as_slice()
    }
}

/// Two targets are equal byte by byte. (this profile)
impl PartialEq for KeyTarget {
    ghost eq = { same_path };

    ghost laws = { partial_equiv_from_equiv nat_list_eq_equiv };

    fn eq(&self, other: &KeyTarget) -> bool {
        self.bytes == other.bytes
    }
}

impl Eq for KeyTarget {
    ghost laws = { nat_list_eq_equiv };
}

/// One entry of a table of keys. (this profile)
#[derive(PartialEq, Eq, Debug, Drop)]
pub struct KeyEntry {
    /// The entry's path.
    pub path: Path,
    /// Where it leads, if the entry is a link; an entry without a target is a key.
    pub target: Option<KeyTarget>,
}

impl KeyEntry {
    /// The entry that a piece of arguments says: a path, or a path and a target after the first `>`. Either may
    /// be empty here. The only error is out of memory. (this profile)
    pub(crate) fn read(alloc: Global, piece: &[u8]) -> Result<KeyEntry, AllocError>
        requires { IsTrue (is_profile_text piece.now) }
        ensures { IfOk result (λ entry. entry ≡ entries.entry_of piece.now) }
    {
        let (path, target) = cut(piece, b'>');
        let target = match target {
            Some(target) => Some(KeyTarget::new(alloc, target)?),
            None => None,
        };
        Ok(KeyEntry {
            path: Path::new(alloc, path)?,
            target,
        })
    }

    /// Whether the entry is a link.
    pub(crate) fn is_link(&self) -> bool
        ensures { result ≡ entries.is_link self.now }
    {
        self.target.is_some()
    }

    /// Whether the entry may be in a table: its path is components joined by single backslashes, none of them
    /// empty, and a target has at least one byte. (this profile)
    pub(crate) fn is_fit(&self) -> bool
        ensures { result ≡ entries.is_fit self.now }
    {
        is_path(self.path.as_slice()) && !has_empty_target(&self.target)
    }

    /// Whether two entries may be in one table: their paths differ, and neither continues after the path of
    /// the other and a backslash where the other is a link. (this profile)
    pub(crate) fn is_apart(&self, other: &KeyEntry) -> bool
        ensures { result ≡ entries.are_apart self.now other.now }
    {
        self.path != other.path && !self.is_below_link(other) && !other.is_below_link(self)
    }

    /// Whether the other entry is a link, and this one's path continues after its path and a backslash.
    pub(crate) fn is_below_link(&self, other: &KeyEntry) -> bool
        ensures { result ≡ entries.is_below_link self.now other.now }
    {
        other.is_link() && goes_on(self.path.as_slice(), other.path.as_slice())
    }

    /// Whether a key is there by this entry: the key's path is the entry's, which is no link, or a front of it that
    /// ends before a backslash. (this profile)
    pub(crate) fn makes(&self, path: &[u8]) -> bool
        ensures { result ≡ entries.makes self.now path.now }
    {
        (!self.is_link() && self.path.as_slice() == path) || goes_on(self.path.as_slice(), path)
    }
}

// Whether there is a target, and it is empty.
fn has_empty_target(target: &Option<KeyTarget>) -> bool
    ensures { result ≡ entries.is_empty_target target.now }
{
    match target {
        Some(target) => target.as_slice().is_empty(),
        None => false,
    }
}

// Whether the text is components joined by single backslashes, none of them empty.
fn is_path(path: &[u8]) -> bool
    ensures { result ≡ entries.is_path path.now }
{
    let mut left = Some(path);
    while let Some(text) = left {
        let (component, behind) = cut(text, b'\\');
        if component.is_empty() {
            return false;
        }
        left = behind;
    }
    true
}

// Whether a path continues after another and a backslash.
fn goes_on(path: &[u8], front: &[u8]) -> bool
    ensures { result ≡ entries.goes_on path.now front.now }
{
    path.starts_with(front) && begins_with_separator(&path[front.len()..])
}

// Whether the first byte is a backslash.
fn begins_with_separator(text: &[u8]) -> bool
    ensures { result ≡ begins_with_separator text.now }
{
    matches!(text, [b'\\', ..])
}
