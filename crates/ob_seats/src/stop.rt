//! Why a seat stops before the end of its lines.

ghost use Rattle.std.specs.Prelude.{◌≡◌};
ghost use Rattle.ob_seats.specs.Stopped.{stop_of};

use ob_base::Fault;

/// Why a seat stops. (this profile)
#[derive(Clone, Copy, PartialEq, Eq, Debug)]
pub enum Stop {
    /// A step, or what a line needs beside its steps, found no memory.
    Memory,
    /// A step was refused: the journal is full, or the pass or the parse is a stranger's.
    Refused,
}

/// Where a seat stopped, and why. (this profile)
#[derive(Clone, Copy, PartialEq, Eq, Debug)]
pub struct Stopped {
    /// The number of the line, as its part numbers it; where all lines were run and what waited was not given up by a step, the number of the
    /// line after the last.
    pub line: u64,
    /// Why.
    pub why: Stop,
}

/// A seat stops for memory where a call finds none, and else since a step was refused.
impl From<Fault> for Stop {
    ghost from_gives = { λ fault stop. stop ≡ stop_of fault };

    fn from(fault: Fault) -> Stop {
        match fault {
            Fault::Memory => Stop::Memory,
            Fault::Refused(_) => Stop::Refused,
        }
    }
}
