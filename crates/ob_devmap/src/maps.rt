//! Which processes have a device map, and of which directory.

ghost use Rattle.std.specs.Prelude.{◌≡◌, [], None, Some, IfOk, OnOk, OnErr, IsTrue, ◌↔◌};
ghost use Rattle.ob_model.specs.State.{global_id};
ghost use Rattle.ob_devmap.specs.Maps.{map_in, MapChanges, IsMapped};

use crate::View;
use ob_base::{ObjId, Proc};
use ob_handles::Counts;
use std::alloc::{AllocError, Global};
use std::collections::BTreeMap;
use std::marker::Model;

/// The directory `\GLOBAL??`.
const GLOBAL: ObjId = ObjId(2);

/// The device maps of processes: for each process that has one, the directory of its map. A contract
/// sees them as the list of these directories under the numbers of their processes, which rise.
///
/// How many maps a directory is the one of is kept and not counted: each call takes a time that grows
/// with the logarithm of the maps. (this profile)
///
/// Source: Windows Internals, Object Manager (session namespace: DOS device names, device maps).
#[derive(Drop)]
pub struct Maps {
    directories: BTreeMap<u32, u64>,
    counts: Counts,
}

impl Model for Maps {
    ghost use Rattle.ob_devmap.specs.Maps.{Directories, AreMaps};

    ghost Value = { Directories };

    ghost view = { λ maps. maps.directories.entries };

    ghost invariant = { λ maps. AreMaps maps.directories.entries maps.counts };
}

impl Maps {
    /// No process has a map. Takes no memory.
    pub fn new(alloc: Global) -> Maps
        ensures { result ≡ [] }
    {
        Maps {
            directories: BTreeMap::new(alloc),
            counts: Counts::new(alloc),
        }
    }

    /// Other maps, of which each process has the same. It takes a time that grows with their number. The only error is
    /// out of memory. (this profile)
    pub fn copy(&self) -> Result<Maps, AllocError>
        ensures { IfOk result (λ copy. copy ≡ self.now) }
    {
        Ok(Maps {
            directories: self.directories.clone()?,
            counts: self.counts.copy()?,
        })
    }

    /// Gives a process a map of a directory, in place of the one that it had. Where memory runs out
    /// nothing has changed.
    pub fn set(&mut self, process: Proc, directory: ObjId) -> Result<(), AllocError>
        ensures set { OnOk result (MapChanges process (Some directory) self.old self.new) }
        ensures unchanged { OnErr result (self.new ≡ self.old) }
    {
        self.counts.add(directory)?;
        match self.directories.insert(process.0, directory.0) {
            Ok(Some(before)) => self.counts.lower(ObjId(before)),
            Ok(None) => {}
            Err(want) => {
                self.counts.lower(directory);
                return Err(AllocError::from(want));
            }
        }
        Ok(())
    }

    /// Takes the map of a process away, where it has one. Takes no memory.
    pub fn clear(&mut self, process: Proc)
        ensures { MapChanges process None self.old self.new }
    {
        if let Some(before) = self.directories.remove(&process.0) {
            self.counts.lower(ObjId(before));
        }
    }

    /// The directories that `\??` means to a process: that of its map, where it has one, and
    /// `\GLOBAL??`. Takes no memory.
    pub fn view(&self, process: Proc) -> View
        ensures local { result.local ≡ map_in self.now process }
        ensures global { result.global ≡ global_id }
    {
        View {
            local: self
                .directories
                .get(&process.0)
                .map(|directory| ObjId(*directory)),
            global: GLOBAL,
        }
    }

    /// Whether a process has this directory as its map. Takes no memory.
    pub fn is_mapped(&self, directory: ObjId) -> bool
        ensures { IsTrue result ↔ IsMapped self.now directory }
    {
        self.counts.get(directory) > 0
    }
}
