//! The names that were removed, for who keeps a copy of all names.

use ob_base::ObjId;
use std::alloc::{AllocError, Global};

/// A name that was removed. (this profile)
#[derive(Clone, Copy, Debug)]
pub struct RemovedName {
    /// The id of the object that had it.
    pub object: ObjId,
    /// The stamp of its entry.
    pub stamp: u64,
}

/// The names that were removed, where they are listed. Nothing rests on it: it may lack a name for which there was no
/// memory.
#[derive(Drop)]
pub(crate) struct Removals {
    listed: Option<Vec<RemovedName>>,
}

impl Removals {
    /// No list: names that are removed are forgotten.
    pub(crate) fn unlisted() -> Removals {
        Removals { listed: None }
    }

    /// A list with no name yet.
    pub(crate) fn listed(alloc: Global) -> Removals {
        Removals {
            listed: Some(Vec::new(alloc)),
        }
    }

    /// Another list of the same names, or none where there is none. The only error is out of memory.
    pub(crate) fn copy(&self) -> Result<Removals, AllocError> {
        let listed = match &self.listed {
            Some(names) => Some(names.clone()?),
            None => None,
        };
        Ok(Removals { listed })
    }

    /// Lists a name that was removed, where there is a list and memory.
    pub(crate) fn list(&mut self, object: ObjId, stamp: u64) {
        if let Some(names) = &mut self.listed {
            let _ = names.push(RemovedName { object, stamp });
        }
    }

    /// The names that are listed.
    pub(crate) fn names(&self) -> &[RemovedName] {
        match &self.listed {
            Some(names) => names.as_slice(),
            None => &[],
        }
    }

    /// Clears the list, where there is one.
    pub(crate) fn clear(&mut self) {
        if let Some(names) = &mut self.listed {
            names.clear();
        }
    }
}
