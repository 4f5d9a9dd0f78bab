//! Stores that a lookup may be made in.

ghost use Rattle.ob_lookup.specs.Closed.{SoundIsClosed, SoundHasViews, ClosedWithObject, ClosedWithName};

/// The law that the store which a sound state shows is closed: its root is a directory, and each row
/// names an object that is there. Takes nothing and does nothing.
pub fn sound_is_closed<K, T, F, I>()
    ensures { SoundIsClosed K T F I }
{}

/// The law that in the store which a sound state shows the directories of each process's view are
/// directories. Takes nothing and does nothing.
pub fn sound_has_views<K, T, F, I>()
    ensures { SoundHasViews K T F I }
{}

/// The laws by which a closed store stays closed: a further object has a free id and brings no entry,
/// and a further name is for an object that is there. Takes nothing and does nothing.
pub fn closed_stays<F, I>()
    ensures object { ClosedWithObject F I }
    ensures name { ClosedWithName F I }
{}
