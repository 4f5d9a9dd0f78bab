//! Prefixes of names that led to directories, in a cache that keeps the most recently used.
#![tactic(auto)]

mod cache;
mod prefix;

pub use cache::Cache;
pub use prefix::Prefix;
