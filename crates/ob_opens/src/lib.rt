//! Opens: of an object that a name leads to, and those that wait for a parse.
//!
//! [`open_name`] opens the object that a name leads to. Where the name reaches an object whose kind parses, the open is
//! pending: it is handed out as a [`Started`] with the parse, which the caller runs between two steps. The caller then brings its end,
//! [`resume`], or gives the open up: [`abandon`]. Only the parse that the open waits for is taken: one under its ticket,
//! of the face of the object that it pins, over its rest. Each is a step of the abstract machine, from the state that
//! the namespace represents.
//!
//! Inside, a pending open pins its object and draws the number of the object that its parse may make (`pin`). One whose parse
//! ended with that object itself opens it (`pinned`). One whose parse made an instance opens that, which is an object from then
//! on (`made`). One whose parse ended with a name is looked up again (`look_again`), and then opens what is found, waits again, or is
//! refused (`reparse`). One that ends with nothing to open is pending no longer, and what it alone held goes (`unpin`), with
//! an instance that its parse made (`give_up`).
#![tactic(auto)]

mod abandoning;
mod awaited;
mod begin;
mod give_up;
mod look_again;
mod made;
mod open;
mod pin;
mod pinned;
mod reparse;
mod resuming;
mod started;
mod unpin;

pub use abandoning::abandon;
pub use awaited::is_awaited;
pub use open::{open_name, type_wanted};
pub use resuming::resume;
pub use started::Started;
