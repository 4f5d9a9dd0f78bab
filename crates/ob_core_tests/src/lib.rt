//! Tests of the namespace by its public functions: what no clause says, played on a stage (`ob_stage`). The crate holds tests alone, since a
//! crate with tests is proved twice.
#![tactic(auto)]

#[cfg(test)]
mod copies;
#[cfg(test)]
mod doors;
#[cfg(test)]
mod played;
#[cfg(test)]
mod scenes;
#[cfg(test)]
mod told;
