ghost use Rattle.std.specs.Prelude.{◌<◌, ◌≤◌};

/// Numbers that look drawn at random, each from the one before it: those of a linear congruential
/// generator, as `bench/slots.c` has it.
#[derive(Clone, Copy, Debug, PartialEq, Eq)]
pub struct Chance {
    state: u64,
}

impl Chance {
    pub fn new() -> Self {
        Chance { state: 1 }
    }

    /// The next number, below a bound.
    pub fn below(&mut self, bound: u32) -> u32
        requires { 1 ≤ bound }
        ensures { result < bound }
    {
        self.state = self
            .state
            .wrapping_mul(6_364_136_223_846_793_005)
            .wrapping_add(1_442_695_040_888_963_407);
        (self.state >> 32) as u32 % bound
    }
}
