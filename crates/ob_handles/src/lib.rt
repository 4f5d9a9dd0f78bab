//! The handle tables of processes: a table is the handles of one process, in the order in which they
//! were opened, each under a value of its own.
//!
//! Counts of objects, kept so that none is counted again.
#![tactic(auto)]

mod counts;
mod free;
pub mod laws;
mod open_table;
mod openings;
mod places;
mod slab_table;
mod table;
mod touched;
mod values;

pub use counts::Counts;
pub use open_table::OpenTable;
pub use slab_table::SlabTable;
pub use table::{HandleTable, MOST_HANDLES};
pub use touched::Touched;
