//! The publications of a namespace to viewers: a history that only grows, and a copy of the rows after the
//! latest of them, which viewers read without a lock.
#![tactic(auto)]

mod book;
mod leads;
mod publication;
mod published;
mod publishing;
mod rule;
mod showing;
mod shown;

pub use book::{Add, Book, Law, Naming, Nothing, Opened};
pub use leads::publications_lead_through_runs;
pub use publication::{Publication, publications_follow_one_another};
pub use published::Published;
pub use publishing::Publishing;
pub use rule::{Of, Sees};
pub use showing::Showing;
pub use shown::{Op, Reach, Shown};
