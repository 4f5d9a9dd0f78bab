//! The law of all checks.

ghost use Rattle.ob_check.specs.Report.{CleanScriptsAreCut};

/// The law that nothing is reported of a script exactly where it can be cut into the lines of its seats, as `ntns threads` cuts it before it runs it.
/// The call does nothing. (this profile)
pub fn clean_scripts_are_cut()
    ensures { CleanScriptsAreCut }
{}
