//! The faults that end what is done over streams.

ghost use Rattle.std.specs.Prelude.{◌≡◌};
ghost use Rattle.std.specs.IoError.{error_kind};
ghost use Rattle.ob_output.specs.declared.fault.ShellFault.TheVariants.{Write, Memory};
ghost use Rattle.ob_output.specs.Fault.{fault_text_of, unread_of};

use crate::writing::Unwritten;
use std::alloc::{AllocError, AllocFailed};
use std::io;
use std::io::ErrorKind;
use thiserror::Error;

/// Why the run of a script, or the check of a journal, ended before its end. The state after one is
/// described at the call that reports it. (this profile)
#[derive(PartialEq, Eq, Debug, Drop, Error)]
#[error("{}", self.text())]
pub enum ShellFault {
    /// A read of the input failed, or was interrupted.
    Read(Unread),
    /// A write of the output failed, was interrupted, or took no byte. A beginning of the output
    /// was written.
    Write(Unwritten),
    /// The input is longer than its limit.
    TooLong,
    /// Memory ran out.
    Memory,
    /// The receipts of the seats differ from the journal.
    Mismatch,
}

impl ShellFault {
    /// The fault in words, as the program prints them: `cannot read`, `cannot write`,
    /// `input too long`, `want of memory` or `journal mismatch`. No two faults share a text.
    /// (this profile)
    pub fn text(&self) -> &'static str
        ensures { result.now ≡ fault_text_of self.now }
    {
        match self {
            ShellFault::Read(_) => "cannot read",
            ShellFault::Write(_) => "cannot write",
            ShellFault::TooLong => "input too long",
            ShellFault::Memory => "want of memory",
            ShellFault::Mismatch => "journal mismatch",
        }
    }
}

/// Why input was not read: the kind of the error that a reader, or what opens one, answered. (this profile)
#[derive(PartialEq, Eq, Debug, Drop)]
pub struct Unread {
    kind: ErrorKind,
}

impl From<io::Error> for Unread {
    ghost from_gives = { λ error unread. unread ≡ unread_of (error_kind error) };

    fn from(error: io::Error) -> Unread {
        Unread { kind: error.kind() }
    }
}

/// An unwritten output is the fault `Write`, so that `?` passes it on.
impl From<Unwritten> for ShellFault {
    ghost from_gives = { λ unwritten fault. fault ≡ Write unwritten };

    fn from(unwritten: Unwritten) -> ShellFault {
        ShellFault::Write(unwritten)
    }
}

/// So is a lack of memory the fault `Memory`.
impl From<AllocError> for ShellFault {
    ghost from_gives = { λ _ fault. fault ≡ Memory };

    fn from(_want: AllocError) -> ShellFault {
        ShellFault::Memory
    }
}

/// And an element that found no memory to be stored in; the element is dropped.
impl<T: Drop> From<AllocFailed<T>> for ShellFault {
    ghost from_gives = { λ _ fault. fault ≡ Memory };

    fn from(want: AllocFailed<T>) -> ShellFault {
        ShellFault::from(AllocError::from(want))
    }
}
