/// Numbers that look drawn at random, and are the same from the same seed.
#[derive(Clone, Copy, Debug)]
pub struct Chance {
    state: u64,
}

impl Chance {
    pub fn seeded(seed: u64) -> Chance {
        Chance { state: seed }
    }

    /// The next number, below the end; 0 where that is 0.
    pub fn below(&mut self, end: u32) -> u32 {
        self.state = self
            .state
            .wrapping_mul(6_364_136_223_846_793_005)
            .wrapping_add(1_442_695_040_888_963_407);
        let drawn = u32::try_from(self.state / 4_294_967_296).unwrap_or(0);
        if end == 0 {
            return 0;
        }
        drawn % end
    }

    /// Whether one in so many came.
    pub fn once_in(&mut self, count: u32) -> bool {
        self.below(count) == 0
    }
}
