//! Tests of lookups by a cache: which of them are hits. That names end where they should is tried by runs of the program.
//! The crate holds tests alone, since a crate with tests is proved twice.
#![tactic(auto)]

#[cfg(test)]
mod hits;
#[cfg(test)]
mod space;
