//! Laws of whole runs of the machine: what holds of the calls on an object through its life, that they are those that
//! are made, and those that a recorder lists, and what holds of a directory that is listed page by page while other
//! steps change it.
//!
//! Each function has an empty body: its contract is a law about the definitions of `ob_model`, and of the recorder of
//! `ob_plain`, stated in `specs/WholeRuns.antt`, `specs/CallsMade.antt` and `specs/Recorded.antt`. The type parameters
//! are those of the state: the kinds, the value, the faces and the inner values of any set of types.

#![tactic(auto)]

ghost use Rattle.ob_laws.specs.CallsMade.{CallsAreMade};
ghost use Rattle.ob_laws.specs.Names.{NamesOnlyGo};
ghost use Rattle.ob_laws.specs.Recorded.{RecordersHaveTheirCalls};
ghost use Rattle.ob_laws.specs.WholeRuns.{Lifetimes, ScansAreWhole};

/// In each run, of each object: a close is given as handles left in the system the accepted opens before it less the
/// closes up to and with it, and as handles left in its process those that its step leaves there and closes after
/// it; a delete comes at most once and last, after a close with none left or where no open was accepted at all, and
/// no pending open pins the object then. All handles of an exclusive object are in one process.
///
/// Source: Windows Internals, Object Manager (object methods, object retention).
pub fn lifetime_law<K, T, F, I>()
    ensures { Lifetimes K T F I }
{}

/// In each run, for every set of types, the calls on its objects are those that the machine makes: in an
/// order in which each object's are as in its steps, each is on an object that has an inner value then, each open is one
/// that the set accepts then, and one after another they make of the set's first value, and of the inner values with
/// which objects come to be, the set's value and the inner values that the run leaves.
///
/// Source: Windows Internals, Object Manager (object methods).
pub fn calls_are_made<K, T, F, I>()
    ensures { CallsAreMade K T F I }
{}

/// In each run over a recorder of any set, begun with no call and no serial drawn, the recorder's list is those calls, in
/// their order, where it lost none, each under the serial of its object: the number of the object's first open among the
/// first opens, from 1 up to the greatest u64; 0 of an object that is never opened. Where it lost some the list is the
/// first calls that it had room for, and `lost` is the number of the others, up to the greatest u64. (this profile)
pub fn a_recorder_has_the_calls_of_its_run<K, T, F, I>()
    ensures { RecordersHaveTheirCalls K T F I }
{}

/// A scan of a directory, page after page from the beginning, shows no row twice, and each that it shows is in the
/// directory at that step, whatever steps come between. Once a page says that no entry is left, each row that was
/// throughout was shown exactly once.
///
/// Source: ZwQueryDirectoryObject (Windows Driver Kit).
pub fn scan_law<K, T, F, I>()
    ensures { ScansAreWhole K T F I }
{}

/// In each run names come with new objects alone, and a name that goes never comes again: each name of a state is one of
/// an earlier state, or its object and its stamp were drawn since. The names of a state rise by the ids of their objects.
///
/// Source: Windows Internals, Object Manager (object names, object retention).
pub fn names_only_go<K, T, F, I>()
    ensures { NamesOnlyGo K T F I }
{}
