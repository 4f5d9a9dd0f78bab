//! Why nothing is made.

ghost use Rattle.std.specs.Prelude.{◌≡◌};
ghost use Rattle.ob_types.specs.declared.refusal.Refusal.TheVariants.{Memory};

use std::alloc::AllocError;

/// Why a make procedure makes nothing. (this profile)
#[derive(Clone, Copy, PartialEq, Eq, Debug)]
pub enum Refusal {
    /// The type refuses the arguments, with a number from 0 to 65,535 of its own.
    Code(u16),
    /// Memory was wanted and there was none.
    Memory,
}

/// Out of memory is the refusal `Memory`, so that `?` passes it on.
impl From<AllocError> for Refusal {
    ghost from_gives = { λ _ refusal. refusal ≡ Memory };

    fn from(_want: AllocError) -> Refusal {
        Refusal::Memory
    }
}
