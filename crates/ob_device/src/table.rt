//! The paths of a device.

ghost use Rattle.std.specs.Prelude.{◌≡◌, ◌==◌, IfOk, length};
ghost use Rattle.std.specs.Cmp.{partial_equiv_from_equiv};
ghost use Rattle.std.specs.Cmp.Lexicographic.{lists_equiv, nat_list_eq_equiv};
ghost use Rattle.ob_plain.specs.Arguments.{pieces};
ghost use Rattle.ob_device.specs.Paths.{has_path, has_empty_path, same_tables};

use ob_plain::{Path, split};
use std::alloc::{AllocError, Global};
use std::marker::Model;

/// The paths of a device's files, in the order of the arguments that they were read from. A path that is there
/// twice is found as one that is there once. A contract sees a table as the list of its paths.
///
/// A path is found in a time that grows with the number of the paths. (this profile)
#[derive(Debug, Drop)]
pub struct PathTable {
    paths: Vec<Path>,
}

impl Model for PathTable {
    ghost use Rattle.std.specs.Prelude.{List, ℕ};

    ghost Value = { List (List ℕ) };

    ghost view = { λ table. table.paths.items };
}

impl PathTable {
    /// The paths between the semicolons of arguments; empty arguments have none. A path may be
    /// empty. The only error is out of memory. (this profile)
    pub(crate) fn read(alloc: Global, args: &[u8]) -> Result<PathTable, AllocError>
        ensures { IfOk result (λ table. table ≡ pieces args.now) }
    {
        let mut paths = Vec::new(alloc);
        for piece in &split(alloc, args)? {
            paths.push(Path::new(alloc, piece)?)?;
        }
        Ok(PathTable { paths })
    }

    /// Whether the path is one of the table's, byte by byte.
    pub(crate) fn has(&self, path: &[u8]) -> bool
        ensures { result ≡ has_path self.now path.now }
    {
        self.paths.iter().any(|other| other.as_slice() == path)
    }

    /// Whether one of the paths is empty.
    pub(crate) fn has_empty(&self) -> bool
        ensures { result ≡ has_empty_path self.now }
    {
        self.paths.iter().any(|path| path.as_slice().is_empty())
    }
}

/// Two tables are equal where they have the same paths in the same order, byte by byte. (this profile)
impl PartialEq for PathTable {
    ghost eq = { same_tables };

    ghost laws = { partial_equiv_from_equiv (lists_equiv nat_list_eq_equiv) };

    fn eq(&self, other: &PathTable) -> bool {
        self.paths == other.paths
    }
}

impl Eq for PathTable {
    ghost laws = { lists_equiv nat_list_eq_equiv };
}
