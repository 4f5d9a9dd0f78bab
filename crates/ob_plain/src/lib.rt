//! The plain types, events, mutants and sections, and sets that count and record the calls of another, or refuse its opens.
//!
//! Arguments of objects whose types parse: which arguments can be read, their pieces between semicolons,
//! and paths that own their bytes.
#![tactic(auto)]

mod calls;
mod counting;
mod handles;
mod limit;
mod path;
mod pieces;
mod plain;
mod recorder;
mod refusing;

pub use calls::{Call, CallKind, first_calls_are_kept};
pub use counting::{Counting, accepted_opens_count};
pub use handles::HandleCount;
pub use limit::{limit_of, limits_are_decimal};
pub use path::{Path, without_separator};
pub use pieces::{LONGEST_ARGUMENTS, cut, is_readable, split};
pub use plain::{Plain, PlainFace, PlainInner, PlainKind};
pub use recorder::{Recorded, Recorder, accepted_opens_are_noted};
pub use refusing::Refusing;
