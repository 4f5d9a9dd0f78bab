//! Tests of the threads of a script with workers, over namespaces that are none: that workers run at the same time, that seat 0 goes on after
//! them, and which end is reported of several. The crate holds tests alone, since a crate with tests is proved twice.
#![tactic(auto)]

#[cfg(test)]
mod ends;
#[cfg(test)]
mod meeting;
