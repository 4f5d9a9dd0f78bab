//! The cache of prefixes that led to directories.

ghost use Rattle.std.specs.Prelude.{◌≡◌, [], Some, IfOk, OnOk, OnErr};
ghost use Rattle.std.specs.Map.{lookup};
ghost use Rattle.ob_prefixes.specs.Prefix.{same_prefix};
ghost use Rattle.std.specs.Prelude.{false};
ghost use Rattle.ob_prefixes.specs.Cache.{kept, most, after_find, after_put, NoneIsLocal};

use crate::prefix::Prefix;
use lru::LruCache;
use ob_base::ObjId;
use std::alloc::{AllocError, Global};
use std::marker::Model;
use std::num::NonZeroUsize;

/// The prefixes for which a cache has room, where nothing else is said. (this profile)
const MOST: usize = 256;

/// Prefixes of texts that were looked up, each with the directory to which its components led: at most so many as it has
/// room for, of which the least recently used makes room for another. A contract sees a `Cache` as that room, the list of
/// the prefixes, the most recently used first, and the number of hits. (this profile)
#[derive(Drop)]
pub struct Cache {
    prefixes: LruCache<Prefix, ObjId>,
    hits: u64,
    // Whether a prefix may be there of a view whose local directory is another than `\GLOBAL??`.
    local: bool,
}

impl Model for Cache {
    ghost use Rattle.std.specs.Prelude.{◌≡◌};
    ghost use Rattle.ob_prefixes.specs.Cache.{Kept, kept, TellsLocal};

    ghost Value = { Kept };

    ghost view = { λ cache. kept cache.prefixes.cap cache.prefixes.entries cache.hits };

    ghost invariant = { λ cache. TellsLocal cache.local cache.prefixes.entries };
}

impl Cache {
    /// A cache of no prefix, with room for 256, and with no hit. The only error is out of memory. (this profile)
    pub fn new(alloc: Global) -> Result<Cache, AllocError>
        ensures { IfOk result (λ cache. cache ≡ kept most [] 0) }
    {
        let Some(most) = NonZeroUsize::new(MOST) else {
            unreachable!();
        };
        Cache::with_room(alloc, most)
    }

    /// A cache of no prefix, with room for so many, and with no hit. The only error is out of memory. (this profile)
    pub fn with_room(alloc: Global, room: NonZeroUsize) -> Result<Cache, AllocError>
        ensures { IfOk result (λ cache. cache ≡ kept room.value [] 0) }
    {
        Ok(Cache {
            prefixes: LruCache::new(alloc, room)?,
            hits: 0,
            local: false,
        })
    }

    /// A cache of no prefix, with the same room, and with no hit. The only error is out of memory. (this profile)
    pub fn emptied(&self, alloc: Global) -> Result<Cache, AllocError>
        ensures { IfOk result (λ cache. cache ≡ kept self.now.room [] 0) }
    {
        Cache::with_room(alloc, self.prefixes.cap())
    }

    /// How often a prefix that was asked for was there: a count from 0, which stops at 2^64 - 1. (this profile)
    pub fn hits(&self) -> u64
        ensures { result ≡ self.now.hits }
    {
        self.hits
    }

    /// Takes every prefix away. The hits stay. (this profile)
    pub fn clear(&mut self)
        ensures { self.new ≡ kept self.old.room [] self.old.hits }
    {
        self.prefixes.clear();
        self.local = false;
    }

    /// Whether a prefix may be there of a view whose local directory is another than `\GLOBAL??`: there a name that comes may
    /// come before one of `\GLOBAL??`. Where it is false, none is. (this profile)
    pub fn may_be_local(&self) -> bool
        ensures { result ≡ false → NoneIsLocal self.now.entries }
    {
        self.local
    }

    /// The directory to which a prefix led, where it is there: then it becomes the most recently used, and is a hit. (this
    /// profile)
    pub fn find(&mut self, prefix: &Prefix) -> Option<ObjId>
        ensures found { result ≡ lookup (same_prefix prefix.now) self.old.entries }
        ensures cache { self.new ≡ after_find prefix.now self.old }
    {
        let found = self.prefixes.get(prefix).copied();
        if found.is_some() {
            self.hits = self.hits.saturating_add(1);
        }
        found
    }

    /// Keeps a prefix with the directory to which it led, so that it is found. The only error is out of memory, and then
    /// nothing has changed. (this profile)
    pub fn put(&mut self, prefix: Prefix, directory: ObjId) -> Result<(), AllocError>
        ensures cache { OnOk result (self.new ≡ after_put prefix directory self.old) }
        ensures found { OnOk result
            (lookup (same_prefix prefix) self.new.entries ≡ Some directory) }
        ensures unchanged { OnErr result (self.new ≡ self.old) }
    {
        let is_local = prefix.is_local();
        self.prefixes.put(prefix, directory)?;
        self.local |= is_local;
        Ok(())
    }
}
