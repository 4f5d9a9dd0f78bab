//! The part of a key that never changes.

ghost use Rattle.std.specs.Prelude.{◌≡◌, IfOk, [], List};
ghost use Rattle.ob_key.specs.Entries as entries;

use crate::KeyTable;
use ob_plain::Path;
use std::alloc::{AllocError, Global};
use std::marker::Model;
use std::sync::Arc;

/// A key: the table of its root, which all keys below one root share, and its own path there, which is empty for the
/// root. A contract sees a face as the list of the table's entries and the path. (this profile)
#[derive(Drop)]
pub struct KeyFace {
    table: Arc<KeyTable, Global>,
    path: Path,
}

impl Model for KeyFace {
    ghost use Rattle.std.specs.Arc.{arc_value};
    ghost use Rattle.ob_key.specs.Entries.{KeyPlace};

    ghost Value = { KeyPlace };

    ghost view = { λ face. record { entries = arc_value face.table; path = face.path } };
}

impl KeyFace {
    /// The root of a table. The only error is out of memory.
    pub(crate) fn root(alloc: Global, table: KeyTable) -> Result<KeyFace, AllocError>
        ensures { IfOk result (λ face. face ≡ record { entries = table; path = [] }) }
    {
        Ok(KeyFace {
            table: Arc::new(alloc, table)?,
            path: Path::new(alloc, b"")?,
        })
    }

    /// Another key of the same table, which is shared and not copied. The only error is out of memory.
    pub(crate) fn at(&self, path: Path) -> Result<KeyFace, AllocError>
        ensures { IfOk result (λ face. face ≡ record { entries = self.now.entries; path = path }) }
    {
        Ok(KeyFace {
            table: Arc::try_clone(&self.table)?,
            path,
        })
    }

    /// The table of the key's root.
    pub(crate) fn table(&self) -> &KeyTable
        ensures { result.now ≡ self.now.entries }
    {
        &self.table
    }

    /// The key's path; empty for the root.
    pub fn path(&self) -> &Path
        ensures { result.now ≡ self.now.path }
    {
        &self.path
    }

    /// The path of a name below the key: the key's path and the name, with a backslash between them, or the name
    /// alone below the root. The only error is out of memory. (this profile)
    pub(crate) fn path_of(&self, alloc: Global, name: &[u8]) -> Result<Path, AllocError>
        ensures { IfOk result (λ path. path ≡ entries.path_below self.now.path name.now) }
    {
        let front = self.path.as_slice();
        if front.is_empty() {
            return Path::new(alloc, name);
        }
        let mut bytes = Vec::with_capacity(alloc, front.len() + 1 + name.len())?;
        bytes.extend_from_slice(front)?;
        bytes.push(b'\\')?;
        bytes.extend_from_slice(name)?;
        Ok(Path::from_vec(bytes))
    }
}
