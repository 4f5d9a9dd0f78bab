//! Commands that are run to their replies.
//!
//! A [`Core`](ob_core::Core) hands the parse of an open out, so that it can be run between two steps. A caller with
//! nothing to do between them calls [`run_command`]: it runs each parse and brings it, until the command has its reply.
//!
//! Opens that are begun and wait for a parse.
//!
//! A [`Core`](ob_core::Core) hands the parse of an open out, so that it can be run between two steps. A caller with
//! other steps to make meanwhile keeps the parse in [`Waits`], under the ticket of its open: [`begin_open`] begins an
//! open, [`end_open`] runs the parse of one and goes on with it, [`drop_open`] gives one up, and [`give_all_up`] gives
//! up all that still wait. A parse that is kept stays the one that its open waits for, whatever other steps are made:
//! [`parses_stay_awaited`].
//!
//! A caller that makes the steps of a history again, as a journal has them, calls [`repeat_step`].
#![tactic(auto)]

mod again;
mod begun;
mod complete;
mod laws;
mod opens;
mod told;
mod waits;

pub use again::repeat_step;
pub use begun::Begun;
pub use complete::run_command;
pub use laws::parses_stay_awaited;
pub use ob_core::{Core, OpenTable, SlabTable, Started};
pub use opens::{begin_open, drop_open, end_open, give_all_up};
pub use waits::Waits;
