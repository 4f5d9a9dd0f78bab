//! The notice in place of a step.

ghost use Rattle.std.specs.Prelude.{◌≡◌, ◌≤◌, length};
ghost use Rattle.ob_effects.specs.Effects.{notice_text};

/// Why a line of an open that waits makes no step. (this profile)
#[derive(Clone, Copy, PartialEq, Eq, Debug)]
pub enum Notice {
    /// `begin` on a variable under which an open waits already.
    Busy,
    /// `end` or `drop` on a variable under which none waits.
    NoPending,
}

impl Notice {
    /// The notice in variables, as it is printed: `BUSY` or `NO PENDING`. (this profile)
    pub fn text(self) -> &'static [u8]
        ensures text { result.now ≡ notice_text self }
        ensures short { length result.now ≤ 22 }
    {
        match self {
            Notice::Busy => b"BUSY",
            Notice::NoPending => b"NO PENDING",
        }
    }
}
