//! The one choice of the machine, which unused value a new handle gets; and which opens are pending after a step.
//!
//! Each function has an empty body: its contract is a law about the definitions alone, stated in `specs/Choice.antt` and
//! `specs/Waiting.antt`. By these laws all ways to make a step differ in the value of the handle that the step gives, and
//! in nothing else.

ghost use Rattle.ob_model.specs.Choice.{AnyUnusedValueWillDo, NewHandleIsLast, NothingElseIsChosen};
ghost use Rattle.ob_model.specs.Waiting.{OpensWaitByTheirTickets};

/// Where a step gives a handle, it may give it under each value that the process which gets it doesn't use: the answer
/// and the state that it leaves are the same except for that value.
///
/// Source: handles are values of the system's choice (Windows Driver Kit); this profile leaves it open.
pub fn any_unused_value_will_do<K, T, F, I>()
    ensures { AnyUnusedValueWillDo K T F I }
{}

/// The handle that a step gives is the one that was opened last, of the process that gets it and under the value that
/// is the answer; all others are as they were.
pub fn a_new_handle_is_last<K, T, F, I>()
    ensures { NewHandleIsLast K T F I }
{}

/// From a sound state one event has one answer except for the value of the handle that it gives, where it gives one; and
/// each such value is one that the process which gets it didn't use.
pub fn nothing_else_is_chosen<K, T, F, I>()
    ensures { NothingElseIsChosen K T F I }
{}

/// After a step those opens wait that waited before it and weren't ended by it, in their order; and where a ticket is
/// answered one more, the last, under that ticket.
///
/// Source: Windows Internals, Object Manager (parse methods); the ticket is this profile.
pub fn opens_wait_by_their_tickets<K, T, F, I>()
    ensures { OpensWaitByTheirTickets K T F I }
{}
