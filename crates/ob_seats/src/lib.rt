//! A seat of a script with workers: its lines are run one after another, by a pass, beside those of other seats.
//!
//! A [`Seat`] keeps the variables of its script, and the opens that wait under them. Its steps go through [`Callers`], the little of a shared
//! namespace that it asks for: a start, a resume and an abandon, each of which hands the pass back with its receipt,
//! and a seal, which makes no step. The effects of its lines are specified by these receipts alone, whatever other
//! seats do meanwhile, and nothing here knows what follows [`Callers`].
#![tactic(auto)]

mod asking;
mod callers;
mod changes;
mod copies;
mod seat;
mod stop;
mod waiting;
mod waits;

pub use callers::{CallOutcome, Callers};
pub use seat::{Seat, run_seat};
pub use stop::{Stop, Stopped};
