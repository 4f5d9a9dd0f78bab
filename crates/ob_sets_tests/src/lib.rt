//! Tests of sets of types: sets that count, record and refuse, sums of sets, and a caller's own objects, by their public
//! functions; and of what else no crate above calls. Runs of the program try what the objects of the standard set do.
//! The crate holds tests alone, since a crate with tests is proved twice.
#![tactic(auto)]

#[cfg(test)]
mod base;
#[cfg(test)]
mod host;
#[cfg(test)]
mod laws;
#[cfg(test)]
mod led;
#[cfg(test)]
mod lives;
