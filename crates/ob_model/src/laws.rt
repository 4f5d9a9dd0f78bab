//! Laws, which show that the definitions say what they should.
//!
//! Each function has an empty body: its contract is a law about the definitions alone, stated in
//! `specs/Laws.antt`. The type parameters are those of the state: the kinds, the value, the faces
//! and the inner values of any set of types.

ghost use Rattle.ob_model.specs.Laws.{
  NewestIsLast,
  NumbersStayRising,
  NewIsFound,
  OthersAreFound,
  OneObjectMore,
};
ghost use Rattle.ob_model.specs.Laws.{
  SplitIsUnique,
  SplitJoinsBack,
  SubstitutedLength,
  SubstitutedDropsOne,
  FoundIsLeast,
  PathIsUnique,
  LookIsUnique,
  LookIsTotal,
  NameLookIsUnique,
  NameLookIsTotal,
  PathsNameTheirObjects,
  AnswersNameTheirObjects,
  SettleIsIdempotent,
  RootStays,
  HeldStays,
  OpeningIsSound,
  StepStaysSound,
  StepIsTotal,
  ParseHasAnEnd,
  ParseHasOneEnd,
  StepHasOneEnd,
  RunHasOneEnd,
  RunIsTotal,
  RunIsPassed,
};
ghost use Rattle.ob_model.specs.Laws.{
  ExclusiveIsAlone,
  ProcessesStaySound,
  ChildHoldsTheAccepted,
  DuplicateStaysSound,
  EndedHoldsNothing,
  EndedIsGone,
  BeginsWithoutHandles,
  MadeTemporary,
  MadePermanent,
  NamelessIsLeft,
  OthersAreLeft,
  MapIsSet,
  OtherMapsAreLeft,
  MappedStays,
  MapIsDirectory,
  ChildHasItsMap,
  ShadowIsDirectory,
  ShadowStays,
  MadeHasItsShadow,
  OpenedKeepsItsShadow,
  SettlingSettles,
  SettledStays,
  OpeningIsSettled,
  StepStaysSettled,
  GrantStaysSettled,
  CreateStaysSettled,
  ChildStaysSettled,
  TurnStaysSettled,
  CloseStaysSettled,
  StepsStayAlike,
  ResumesStayAlike,
  AbandonsStayAlike,
  HandlesLeadOn,
  HandlesHoldOn,
};

/// A text has one split at each length.
pub fn split_is_unique()
    ensures { SplitIsUnique }
{}

/// Joining the components of a split and the rest gives the text back.
pub fn split_joins_back()
    ensures { SplitJoinsBack }
{}

/// A substitution has the bytes of the target and of the rest, except for one separator of two that
/// meet.
pub fn substituted_length()
    ensures { SubstitutedLength }
{}

/// Where two separators meet, one is dropped.
pub fn substituted_drops_one()
    ensures { SubstitutedDropsOne }
{}

/// Found is the row of least stamp among those whose names are equal, and none where there is none.
pub fn found_is_least<K, T, F, I>()
    ensures { FoundIsLeast K T F I }
{}

/// Components lead from a place to at most one object.
pub fn path_is_unique<K, T, F, I>()
    ensures { PathIsUnique K T F I }
{}

/// A lookup has at most one end, in each state, sound or not, for each process, mode, number of
/// reparses left, place and text.
pub fn look_is_unique<K, T, F, I>()
    ensures { LookIsUnique K T F I }
{}

/// In a sound state a lookup has an end, from a place that is a directory and of a text that begins
/// with a separator or is empty.
pub fn look_is_total<K, T, F, I>()
    ensures { LookIsTotal K T F I }
{}

/// A name is looked up with at most one end, in each state, for each process, mode, number of
/// reparses left and root handle.
pub fn name_look_is_unique<K, T, F, I>()
    ensures { NameLookIsUnique K T F I }
{}

/// In a sound state every name has an end, with any number of reparses left, where the object of its
/// root handle, if any, is there.
pub fn name_look_is_total<K, T, F, I>()
    ensures { NameLookIsTotal K T F I }
{}

/// The path of an object, which is the names on the way from it up to the root, names it: looked up as it is,
/// absolute and with case, it ends at the object, a link too, for every process and with any number of reparses
/// left. So does each text that a query of a path answers in a run, except for the empty one.
pub fn paths_name_their_objects<K, T, F, I>()
    ensures paths { PathsNameTheirObjects K T F I }
    ensures answers { AnswersNameTheirObjects K T F I }
{}

/// An object more is put in order of numbers: it is the last where its number is the greatest; and where its
/// number is free, numbers that rise still do, and it is found under its own. Any other number leads to what
/// it led to.
pub fn objects_stand_in_order<F, I>()
    ensures last { NewestIsLast F I }
    ensures rising { NumbersStayRising F I }
    ensures found { NewIsFound F I }
    ensures others { OthersAreFound F I }
    ensures count { OneObjectMore F I }
{}

/// Settling a settled state changes nothing.
pub fn settle_is_idempotent<K, T, F, I>()
    ensures { SettleIsIdempotent K T F I }
{}

/// The root always stays.
pub fn root_stays<K, T, F, I>()
    ensures { RootStays K T F I }
{}

/// An object with a handle always stays.
pub fn held_stays<K, T, F, I>()
    ensures { HeldStays K T F I }
{}

/// The opening state is sound.
pub fn opening_is_sound<K, T, F, I>()
    ensures { OpeningIsSound K T F I }
{}

/// A step from a sound state leads to a sound state.
pub fn step_stays_sound<K, T, F, I>()
    ensures { StepStaysSound K T F I }
{}

/// In a sound state every event has an answer, and a state that it leads to: each process may start
/// each command, each pending open may be resumed with what its parse ended with, or given up, and there is always
/// one thing that the machine may do.
pub fn step_is_total<K, T, F, I>()
    ensures { StepIsTotal K T F I }
{}

/// A parse of an object of a lawful set ends, whatever the rest is: each front that a parse procedure uses makes
/// the rest shorter. Every parse has one end, so that no history has to say which it was.
pub fn parse_has_one_end<K, T, F, I>()
    ensures total { ParseHasAnEnd K T F I }
    ensures unique { ParseHasOneEnd K T F I }
{}

/// A step with its answer leads to one state alone, from each state, sound or not: the value of a new
/// handle is the machine's one choice, and the answer has it.
pub fn step_has_one_end<K, T, F, I>()
    ensures { StepHasOneEnd K T F I }
{}

/// So does a list of entries: a history says which state it leads to.
pub fn run_has_one_end<K, T, F, I>()
    ensures { RunHasOneEnd K T F I }
{}

/// Every list of commands has a run from the opening state: whatever is asked, in whatever order and by whatever
/// processes, there is a history of it.
pub fn run_is_total<K, T, F, I>()
    ensures { RunIsTotal K T F I }
{}

/// A run is made of steps that were passed one after another, so that each run has its calls.
pub fn run_is_passed<K, T, F, I>()
    ensures { RunIsPassed K T F I }
{}

/// In every state of a run all handles of an exclusive object are in one process, and none of them is one
/// that a child inherits.
pub fn exclusive_objects_have_one_process<K, T, F, I>()
    ensures { ExclusiveIsAlone K T F I }
{}

/// A process that begins or ends leaves a sound state, and so does a handle that is duplicated.
pub fn processes_stay_sound<K, T, F, I>()
    ensures processes { ProcessesStaySound K T F I }
    ensures duplicate { DuplicateStaysSound K T F I }
{}

/// A process that has ended has no handle, and is live no longer.
pub fn ended_process_is_gone<K, T, F, I>()
    ensures handles { EndedHoldsNothing K T F I }
    ensures gone { EndedIsGone K T F I }
{}

/// A child has the handles of its parent that are inherited and whose opens the set accepts, in the order in
/// which its parent opened them, each under the same value and to the same object, and can hand them on.
pub fn child_holds_what_is_accepted<K, T, F, I>()
    ensures { ChildHoldsTheAccepted K T F I }
{}

/// A child that inherits nothing begins without a handle: the handles are as they were.
pub fn child_begins_without_handles<K, T, F, I>()
    ensures { BeginsWithoutHandles K T F I }
{}

/// An object that is made temporary isn't permanent, and one with a name that is made permanent is. Making an
/// object without a name permanent changes nothing, and every other object is left as it was.
pub fn permanence_is_of_one_object<K, T, F, I>()
    ensures temporary { MadeTemporary K T F I }
    ensures permanent { MadePermanent K T F I }
    ensures nameless { NamelessIsLeft K T F I }
    ensures others { OthersAreLeft K T F I }
{}

/// A process that sets its device map with success has the directory of its handle as its map. Every other
/// process is left as it was, and so has the map that it had.
pub fn map_is_of_one_process<K, T, F, I>()
    ensures set { MapIsSet K T F I }
    ensures others { OtherMapsAreLeft K T F I }
{}

/// The directory of a live process's map stays, whatever drops it: after each step from a sound state it
/// is there, and is a directory.
pub fn mapped_directory_stays<K, T, F, I>()
    ensures stays { MappedStays K T F I }
    ensures directory { MapIsDirectory K T F I }
{}

/// The shadow of a directory remains as long as the directory: in a sound state it is there, and is a directory, and
/// settling leaves it where it leaves the directory.
pub fn shadow_stays<K, T, F, I>()
    ensures directory { ShadowIsDirectory K T F I }
    ensures stays { ShadowStays K T F I }
{}

/// A directory that a create makes with a shadow has that shadow. A directory that such a create finds and opens is
/// left as it is, with the shadow that it has or without one.
pub fn shadow_is_set_at_creation<K, T, F, I>()
    ensures made { MadeHasItsShadow K T F I }
    ensures opened { OpenedKeepsItsShadow K T F I }
{}

/// A child has its parent's map.
pub fn child_has_the_map_of_its_parent<K, T, F, I>()
    ensures { ChildHasItsMap K T F I }
{}

/// Settling leaves a settled state, and leaves a settled state as it is.
pub fn settling_settles<K, T, F, I>()
    ensures settled { SettlingSettles K T F I }
    ensures stays { SettledStays K T F I }
{}

/// The opening state is settled, and a step from a settled state leads to a settled one.
pub fn step_stays_settled<K, T, F, I>()
    ensures opening { OpeningIsSettled K T F I }
    ensures step { StepStaysSettled K T F I }
{}

/// A handle that is granted leaves a settled state, and so does an object that comes with a handle, and a
/// child with what it inherits: at the end of an open, a create or a new process there is nothing that
/// doesn't stay.
pub fn what_comes_stays<K, T, F, I>()
    ensures grant { GrantStaysSettled K T F I }
    ensures create { CreateStaysSettled K T F I }
    ensures child { ChildStaysSettled K T F I }
{}

/// So does an object that is made permanent or temporary while it has a handle, as it has where a process
/// asks for that by one: what loses its permanence goes with its last handle, and not before.
pub fn what_turns_stays<K, T, F, I>()
    ensures { TurnStaysSettled K T F I }
{}

/// Nor does a close let anything go where its object's names stay: it is permanent, or another handle
/// leads to it.
pub fn what_is_kept_stays<K, T, F, I>()
    ensures { CloseStaysSettled K T F I }
{}

/// A process's view of the machine doesn't depend on which values new handles were given: from two sound
/// states that differ in the values of handles alone, alike commands of one process get answers that differ in
/// the values of handles alone, and leave such states again. Values that lead to a handle at the same place in
/// both states go on to, and so do those of the handles that the answers give, and those that a child inherits.
pub fn steps_stay_alike<K, T, F, I>()
    ensures steps { StepsStayAlike K T F I }
    ensures handles { HandlesLeadOn K T F I }
{}

/// So it is where a pending open is resumed, or given up, in two states that differ in the values of handles alone, and
/// the same became of its parse: the answers and the states that are left differ in the values of handles alone, and
/// values of the process that asked that lead to a handle at the same place go on to.
pub fn resumes_stay_alike<K, T, F, I>()
    ensures resumes { ResumesStayAlike K T F I }
    ensures abandons { AbandonsStayAlike K T F I }
{}

/// A step leaves each handle that it doesn't close under the value that names it; the value of a handle that it
/// gives was free; and the values in the answer to a new process are those of its handles.
pub fn handles_hold_on<K, T, F, I>()
    ensures { HandlesHoldOn K T F I }
{}
