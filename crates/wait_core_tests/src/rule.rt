//! The written rule by which sequences and scripts are made.
ghost use Rattle.std.specs.Prelude.{◌<◌};

/// Numbers by the rule `x * 6364136223846793005 + 1442695040888963407`, of which the upper half is told.
#[derive(Drop)]
pub struct Rule {
    x: u64,
}

impl Rule {
    /// The numbers that the rule makes of this one.
    pub fn new(x: u64) -> Rule {
        Rule { x }
    }

    /// The next number below the bound.
    pub fn below(&mut self, bound: u64) -> u64
        requires { 0 < bound }
        ensures { result < bound }
    {
        self.x = self
            .x
            .wrapping_mul(6_364_136_223_846_793_005)
            .wrapping_add(1_442_695_040_888_963_407);
        (self.x >> 32) % bound
    }
}
