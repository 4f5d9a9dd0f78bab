//! Looking a name up in a store: components walked through directories, links followed, and what a
//! lookup ends with.
#![tactic(auto)]

mod cached;
mod cached_store;
mod closed;
mod lookup;
mod next;
mod onward;
mod paths;
mod removals;
mod start;
mod terms;
mod walk;

pub use cached::look_cached;
pub use cached_store::CachedStore;
pub use closed::{closed_stays, sound_has_views, sound_is_closed};
pub use lookup::look;
pub use ob_prefixes::Cache;
pub use paths::{no_paths_are_shown, paths_are_shown};
pub use removals::RemovedName;
pub use terms::{Look, Remainder};
