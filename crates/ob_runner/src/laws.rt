//! The laws of parses that are kept.

ghost use Rattle.ob_runner.specs.Begun.{StayAwaited};

use ob_types::TypeSet;

/// The law that what a caller keeps of parses stays awaited over other steps: from a sound state, as that of each core is,
/// a parse that an open waits for is still the one that it waits for after every step that doesn't end that open,
/// whoever makes it. The call does nothing; a caller makes it to have the fact.
///
/// Source: Windows Internals, Object Manager (parse methods); that a parse is run between two steps is this profile.
pub fn parses_stay_awaited<T: TypeSet>()
    ensures { StayAwaited T.procedures }
{}
