//! Numbers that look random.

ghost use Rattle.std.specs.Prelude.{◌<◌};

/// Numbers that look random: each state is the next one of a linear congruence.
#[derive(Drop)]
pub(crate) struct Dice {
    pub(crate) state: u64,
}

impl Dice {
    /// The next number below so many.
    pub(crate) fn below(&mut self, sides: u64) -> u64
        requires { 0 < sides }
        ensures { result < sides }
    {
        self.state = self
            .state
            .wrapping_mul(6_364_136_223_846_793_005)
            .wrapping_add(1_442_695_040_888_963_407);
        (self.state >> 33) % sides
    }
}
