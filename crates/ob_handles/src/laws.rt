//! The laws that the lists of handles of tables are finite maps from values, with an order.
//!
//! Each function has an empty body: its contract is a law about the definitions alone, stated in
//! `specs/Laws.antt`. They do nothing when they run.

ghost use Rattle.ob_handles.specs.Laws.{
  NewHandleIsFound,
  OthersAreFoundBeside,
  NewHandleIsTakenBack,
  TakenHandleIsGone,
  OthersAreFoundWithout,
  OldestIsBeforeAll,
};

/// A handle that comes under an unused value is found under it, and every other one as before; where
/// it is taken again, the handles are as they were.
pub fn a_new_handle_is_found()
    ensures found { NewHandleIsFound }
    ensures others { OthersAreFoundBeside }
    ensures back { NewHandleIsTakenBack }
{}

/// A handle that was taken is no longer found, and every other one as before.
pub fn a_taken_handle_is_gone()
    ensures gone { TakenHandleIsGone }
    ensures others { OthersAreFoundWithout }
{}

/// The first handle of a table was opened before all others.
pub fn the_oldest_was_opened_first()
    ensures { OldestIsBeforeAll }
{}
