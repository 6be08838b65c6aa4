//! The written rule by which sequences of calls and scripts are made.
ghost use Rattle.std.specs.Prelude.{◌<◌};

use super::calls::Bytes;
use lock_server::Mode;

/// Numbers by the rule `x * 6364136223846793005 + 1442695040888963407`, of which the upper half is told.
#[derive(Drop)]
pub(super) struct Rule {
    pub(super) x: u64,
}

impl Rule {
    /// The next number below the bound.
    pub(super) fn below(&mut self, bound: u64) -> u64
        requires { 0 < bound }
        ensures { result < bound }
    {
        self.x = self
            .x
            .wrapping_mul(6_364_136_223_846_793_005)
            .wrapping_add(1_442_695_040_888_963_407);
        (self.x >> 32) % bound
    }

    /// One or more of the bytes from 0 to 9.
    pub(super) fn bytes(&mut self) -> Bytes {
        let first = self.below(7);
        (first, first + self.below(4))
    }

    /// A mode.
    pub(super) fn mode(&mut self) -> Mode {
        match self.below(2) {
            0 => Mode::Read,
            _ => Mode::Write,
        }
    }
}
