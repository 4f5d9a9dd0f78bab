//! Tests of what is below a namespace: the words and numbers of statuses, both handle tables, and counts where room
//! is made for them, by their public functions. The crate holds tests alone, since a crate with tests is proved twice.
#![tactic(auto)]

#[cfg(test)]
mod counts;
#[cfg(test)]
mod handles;
#[cfg(test)]
mod statuses;
