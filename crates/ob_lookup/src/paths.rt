//! Caches by which a lookup may be made.

ghost use Rattle.ob_lookup.specs.Prefixes.{PathsAreShown, NoneArePaths};

/// The law that a lookup may be made in a store by a cache each of whose prefixes leads to its directory in a state that
/// shows the store. Takes nothing and does nothing.
pub fn paths_are_shown<K, T, F, I>()
    ensures { PathsAreShown K T F I }
{}

/// The law that a lookup may be made in any store by a cache of no prefix. Takes nothing and does nothing.
pub fn no_paths_are_shown<K, T, F, I>()
    ensures { NoneArePaths K T F I }
{}
