//! Laws of the runs of scripts, and of their variables.

ghost use Rattle.ob_scripts.specs.Alike.{FormsShowTheSame, ScriptsShowTheSame};
ghost use Rattle.ob_scripts.specs.Offsets.{OffsetsAreAddedInFull};

/// The law that in a run what is added to the value of a handle variable is added in full: no variable holds more
/// than the greatest handle value, 262,140, so no sum is cut. The call does nothing; a caller makes it to
/// have the fact.
pub fn offsets_are_added_in_full()
    ensures { OffsetsAreAddedInFull }
{}

/// The law that what a script shows doesn't depend on the values that the machine chose for its handles: two runs
/// of one script that find memory print the same and end alike, and so do two of lines of the same forms. The call
/// does nothing; a caller makes it to have the fact. (this profile)
pub fn shown_law()
    ensures forms { FormsShowTheSame }
    ensures scripts { ScriptsShowTheSame }
{}
