//! The promises of a set of types: the procedures of its types, what each of them gives, and the
//! laws that make a set lawful.
//!
//! A set of types is a value whose type has an `impl` of [`TypeSet`]. One record of
//! functions, of `ob_model`'s `Procedures`, says what its procedures mean, and each method's contract is by it.
//!
//! Parses that callers run: taken out of the namespace, and brought back with their ends.
//!
//! An open that reaches an object whose kind parses is pending until the parse is brought. Whoever asked takes
//! the parse as a [`Parsing`], runs it between two steps, and brings its end as a [`Parsed`].
#![tactic(auto)]

mod answer;
mod asked;
mod both;
mod copied;
mod drains;
pub mod laws;
mod parsed;
mod parsing;
mod pending;
mod refusal;
mod run;
mod set;
mod uses;

pub use answer::ParseAnswer;
pub use both::{Both, calls_go_to_their_part};
pub use copied::Copied;
pub use drains::{
    Drains, unnoticed_changes_leave_runs, unnoticed_changes_leave_steps, what_is_taken_is_unnoticed,
};
pub use ob_model::Reason;
pub use parsed::Parsed;
pub use parsing::Parsing;
pub use pending::Pending;
pub use refusal::Refusal;
pub use run::{Outcome, a_parse_run_has_one_end, run_parse, same_faces_end_alike};
pub use set::TypeSet;
pub use uses::{close_last, is_one_kind, open_or_leave};
