//! The meaning of a refusal of a journal, and how lines say entries.
//!
//! Each function's contract is a law about the definitions alone, stated in `specs/Journal.antt`. They do nothing when they
//! run.

ghost use Rattle.ob_journal.specs.Journal.{WhatIsToldIsCounted, WhatIsToldIsInSegments, WhatIsToldWholeIsFew, WhatStopsIsNoRun, WhatStopsIsRefused};

use ob_base::codes_tell_statuses;

/// Where a journal stops being that of a run, no run has the lines up to there: whatever values the machine chose. (this
/// profile)
pub fn what_stops_is_no_run()
    ensures { WhatStopsIsNoRun }
{
    codes_tell_statuses();
}

/// A journal that stops being that of a run is not accepted. (this profile)
pub fn what_stops_is_refused()
    ensures { WhatStopsIsRefused }
{
    codes_tell_statuses();
}

/// The position after the lines of a journal counts the entries that they say, in all segments; in version 1 each line
/// after the first says one, and there are at most 1,048,576. (this profile)
pub fn what_is_told_is_counted()
    ensures counted { WhatIsToldIsCounted }
    ensures whole { WhatIsToldWholeIsFew }
{}

/// The entries that a journal of version 2 says are cut into segments at its headers: each segment except the last has
/// an entry, and none has more than 1,048,576. (this profile)
pub fn what_is_told_is_in_segments()
    ensures { WhatIsToldIsInSegments }
{}
