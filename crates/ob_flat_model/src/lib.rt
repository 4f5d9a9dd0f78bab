//! A plain model of the namespace over flat lists, and what processes may ask of it: random commands of a namespace are judged beside it
//! (`ob_random_tests`). It searches its lists from their beginning, knows no crate of the namespace except the
//! vocabulary, and has no contracts: what it says is compared with what the proved namespace replies.
#![tactic(auto)]

mod asks;
mod model;
mod names;

pub use asks::{
    Ask, CASE_INSENSITIVE, Deed, EXCLUSIVE, FlatKind, FlatPart, INHERIT, LARGEST_ROOM, OPENIF,
    OPENLINK, PERMANENT, Waiting,
};
pub use model::{FlatObject, Model};
pub use names::{FlatName, FlatPath, text};
