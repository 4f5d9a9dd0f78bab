//! Paths, and the rest of a name that names one.

ghost use Rattle.std.specs.Prelude.{◌≡◌, IfOk};
ghost use Rattle.std.specs.Cmp.{partial_equiv_from_equiv};
ghost use Rattle.std.specs.Cmp.Lexicographic.{nat_list_eq_equiv};
ghost use Rattle.ob_plain.specs.Arguments as arguments;
ghost use Rattle.ob_plain.specs.Arguments.{same_path};

use std::alloc::{AllocError, Global};
use std::marker::Model;

/// A path that owns its bytes: any number of them, with any values. A contract sees a `Path` as the list
/// of its bytes. (this profile)
#[derive(Debug, Drop)]
pub struct Path {
    bytes: Vec<u8>,
}

impl Model for Path {
    ghost use Rattle.std.specs.Prelude.{List, ℕ};

    ghost Value = { List ℕ };

    ghost view = { λ path. path.bytes.items };
}

impl Path {
    /// A path with a copy of these bytes. The only error is out of memory.
    pub fn new(alloc: Global, bytes: &[u8]) -> Result<Path, AllocError>
        ensures { IfOk result (λ path. path ≡ bytes.now) }
    {
        Ok(Path {
            bytes: bytes.to_vec(alloc)?,
        })
    }

    /// The path with these bytes, which are taken as they are.
    pub fn from_vec(bytes: Vec<u8>) -> Path
        ensures { result ≡ bytes.items }
    {
        Path { bytes }
    }

    /// The path's bytes.
    pub fn as_slice(&self) -> &[u8]
        ensures { result.now ≡ self.now }
    {
        self.bytes.as_slice()
    }
}

/// Two paths are equal byte by byte. (this profile)
impl PartialEq for Path {
    ghost eq = { same_path };

    ghost laws = { partial_equiv_from_equiv nat_list_eq_equiv };

    fn eq(&self, other: &Path) -> bool {
        self.bytes == other.bytes
    }
}

impl Eq for Path {
    ghost laws = { nat_list_eq_equiv };
}

/// The rest of a name without one leading backslash. (this profile)
pub fn without_separator(rest: &[u8]) -> &[u8]
    ensures { result.now ≡ arguments.without_separator rest.now }
{
    rest.strip_prefix(b"\\").unwrap_or(rest)
}
