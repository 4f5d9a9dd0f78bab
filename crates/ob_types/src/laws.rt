//! The laws of a lawful set, each as a function that hands its law to the caller. They hold of
//! every set of types, since each `impl` of `TypeSet` proves them, and do nothing when they run.

ghost use Rattle.std.specs.Prelude.{◌≡◌};
ghost use Rattle.ob_model.specs.Procedures as model;

use crate::TypeSet;

/// An open that is refused leaves the set and the inner value as they were. (this profile)
pub fn refused_open<T: TypeSet>()
    ensures { model.RefusedOpenKeeps T.procedures }
{}

/// A new object counts no open handle. (this profile)
pub fn made_idle<T: TypeSet>()
    ensures { model.MadeIsIdle T.procedures T.idle }
{}

/// A close that leaves no handle in the system leaves an inner value that has no open
/// handle. (this profile)
pub fn closed_idle<T: TypeSet>()
    ensures { model.LastClosedIsIdle T.procedures T.idle }
{}

/// Kinds that are found the same are one kind. (this profile)
pub fn one_kind<T: TypeSet>()
    ensures { model.SameKindIsOne T.procedures }
{}

/// A kind is found the same as itself. (this profile)
pub fn own_kind<T: TypeSet>()
    ensures { model.OwnKindIsSame T.procedures }
{}

/// `==` of kinds finds the same what the procedures find the same. (this profile)
pub fn equal_kinds<T: TypeSet>()
    ensures { (a b : T.Kind) → T.Kind.PartialEq.eq a b ≡ (T.procedures).same_kind a b }
{}

/// A parse procedure uses a front of the rest, at least a byte of one that isn't empty, and leaves what is
/// after it only to an instance that parses. (this profile)
pub fn front_is_used<T: TypeSet>()
    ensures { model.FrontIsUsed T.procedures }
{}

/// The object itself is answered only to the empty rest. (this profile)
pub fn itself_at_end<T: TypeSet>()
    ensures { model.ItselfIsAtEnd T.procedures }
{}

/// An instance that a parse procedure makes counts no open handle. (this profile)
pub fn parsed_idle<T: TypeSet>()
    ensures { model.ParsedIsIdle T.procedures T.idle }
{}

/// A face is found the same as itself. (this profile)
pub fn own_face<T: TypeSet>()
    ensures { model.OwnFaceIsSame T.procedures }
{}

/// Faces that are found the same answer every rest alike. (this profile)
pub fn same_answers<T: TypeSet>()
    ensures { model.SameFacesAnswerAlike T.procedures }
{}

/// Each set of types is lawful: these laws together are what makes it so. (this profile)
pub fn is_lawful<T: TypeSet>()
    ensures { model.IsLawful T.procedures T.idle }
{}
