//! Tests of viewers and of the rows that they read, by their public functions. The crate holds tests alone, since a crate with
//! tests is proved twice.
#![tactic(auto)]

#[cfg(test)]
mod paths;
#[cfg(test)]
mod rows;
#[cfg(test)]
mod viewers;
