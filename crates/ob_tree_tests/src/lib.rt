//! Tests of trees: the text of a namespace in its opening state, and with objects, handles and a link.
//! The crate holds tests alone, since a crate with tests is proved twice.
#![tactic(auto)]

#[cfg(test)]
mod trees;
