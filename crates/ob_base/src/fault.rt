//! The fault of a call that grows.

ghost use Rattle.std.specs.Prelude.{◌≡◌};
ghost use Rattle.ob_base.specs.declared.fault.Fault.TheVariants.{Memory, Refused};

use crate::Status;
use std::alloc::{AllocError, AllocFailed};

/// Why a call that may need memory did not do what it was called for. (this profile)
#[derive(Clone, Copy, PartialEq, Eq, Debug)]
pub enum Fault {
    /// Memory was wanted and there was none. The call changed nothing.
    Memory,
    /// The request was refused, with this status.
    Refused(Status),
}

/// Out of memory is the fault `Memory`, so that `?` passes it on.
impl From<AllocError> for Fault {
    ghost from_gives = { λ _ fault. fault ≡ Memory };

    fn from(_want: AllocError) -> Fault {
        Fault::Memory
    }
}

/// So is an element that found no memory to be stored in; the element is dropped.
impl<T: Drop> From<AllocFailed<T>> for Fault {
    ghost from_gives = { λ _ fault. fault ≡ Memory };

    fn from(want: AllocFailed<T>) -> Fault {
        Fault::from(AllocError::from(want))
    }
}

/// A status is the fault that refuses with it.
impl From<Status> for Fault {
    ghost from_gives = { λ status fault. fault ≡ Refused status };

    fn from(status: Status) -> Fault {
        Fault::Refused(status)
    }
}
