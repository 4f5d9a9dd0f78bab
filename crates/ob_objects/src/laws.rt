//! How a store and the abstract state that shows it go together.
//!
//! Each function has an empty body: its contract is a law about the definitions alone, stated in
//! `specs/Laws.antt`. The type parameters are those of the state: the kinds, the value, the faces
//! and the inner values of any set of types. They do nothing when they run.

ghost use Rattle.ob_objects.specs.Laws.{
  StoredIsTheObject,
  StoreFindsWhatTheStateFinds,
  OpenedIsTheMachines,
  ClosedIsTheMachines,
  RowsAreByStamp,
  RowsAreTheEntries,
  NewObjectHasNoRow,
  RowsGoWithTheirDirectory,
  NewNameIsTheLastRow,
  RowGoesWithItsName,
  NamesChangeNoObject,
  PermanenceIsTheObjects,
};
ghost use Rattle.ob_objects.specs.Laws.{
  FoundIsStored,
  ObjectsAreAsMany,
  IdsRise,
  NewObjectStandsInOrder,
  ObjectGoesAlone,
  NewestIsFree,
  NewestIsLast,
  StoreWithObjectIsStore,
  NewObjectIsStored,
  OthersStayStored,
  NameMayBeInserted,
  RefusalIsTheMachines,
  SetAfterOpenIsTheMachines,
  SetAfterCloseIsTheMachines,
  NewObjectOpens,
  ObjectIsTakenBack,
  NameIsTakenBack,
  BothAreTakenBack,
};

/// The object of a number in the state is what the store has under it.
pub fn stored_is_the_object<K, T, F, I>()
    ensures { StoredIsTheObject K T F I }
{}

/// A name that the state finds in a directory is the row of the entry that is found there.
pub(crate) fn store_finds_what_the_state_finds<K, T, F, I>()
    ensures { StoreFindsWhatTheStateFinds K T F I }
{}

/// Opening and closing an object of the store does to the state's objects what the machine does, and
/// leaves the rows as they were.
pub(crate) fn opens_and_closes_are_the_machines<K, T, F, I>()
    ensures opened { OpenedIsTheMachines K T F I }
    ensures closed { ClosedIsTheMachines K T F I }
{}

/// The rows of a store are by rising stamps, and those of each directory are its entries, in their
/// order.
pub(crate) fn rows_are_the_entries<F, I>()
    ensures by_stamp { RowsAreByStamp F I }
    ensures entries { RowsAreTheEntries F I }
{}

/// The rows follow the objects as these come and go: a new object without an entry brings no row,
/// and with an object go the rows that are in it.
pub(crate) fn rows_follow_the_objects<F, I>()
    ensures new { NewObjectHasNoRow F I }
    ensures gone { RowsGoWithTheirDirectory F I }
{}

/// The rows follow the names as these come and go: a new one of the greatest stamp is the last row,
/// and the row of one that is taken away goes. The objects stay as they were.
pub(crate) fn rows_follow_the_names<F, I>()
    ensures new { NewNameIsTheLastRow F I }
    ensures gone { RowGoesWithItsName F I }
    ensures objects { NamesChangeNoObject F I }
{}

/// Permanence is a part of one object, and of no row.
pub(crate) fn permanence_is_the_objects<F, I>()
    ensures { PermanenceIsTheObjects F I }
{}

/// The objects of a store are what it has under their ids, as many, by rising ids.
pub(crate) fn objects_are_stored<F, I>()
    ensures found { FoundIsStored F I }
    ensures count { ObjectsAreAsMany F I }
    ensures rising { IdsRise F I }
{}

/// The objects follow what is stored as it comes and goes: a new one of a free id is put in order of
/// ids, and what is left is a store; one that is taken out goes alone.
pub(crate) fn objects_follow<F, I>()
    ensures new { NewObjectStandsInOrder F I }
    ensures gone { ObjectGoesAlone F I }
    ensures store { StoreWithObjectIsStore F I }
{}

/// An object that comes under a free id is stored under it, and the others stay as they are.
pub(crate) fn a_new_object_is_stored<F, I>()
    ensures new { NewObjectIsStored F I }
    ensures others { OthersStayStored F I }
{}

/// An id above those of all objects is free, and its object is the last of the store.
pub(crate) fn the_newest_is_the_last<F, I>()
    ensures free { NewestIsFree F I }
    ensures last { NewestIsLast F I }
{}

/// Where the state finds nothing in a directory, with `fold` or without, a name of these bytes may be
/// put there.
pub(crate) fn a_name_may_be_inserted<K, T, F, I>()
    ensures { NameMayBeInserted K T F I }
{}

/// The set is asked to open and to close an object as the machine asks it, and its value then is the
/// machine's.
pub(crate) fn set_is_the_machines<K, T, F, I>()
    ensures refused { RefusalIsTheMachines K T F I }
    ensures opened { SetAfterOpenIsTheMachines K T F I }
    ensures closed { SetAfterCloseIsTheMachines K T F I }
{}

/// An object that came under a free id is opened as its body says, and the others stay.
pub(crate) fn a_new_object_opens<K, T, F, I>()
    ensures { NewObjectOpens K T F I }
{}

/// An addition can be taken back: an object of a free id, a name that came last, and an object with such
/// a name.
pub(crate) fn what_came_last_is_taken_back<F, I>()
    ensures object { ObjectIsTakenBack F I }
    ensures name { NameIsTakenBack F I }
    ensures both { BothAreTakenBack F I }
{}
