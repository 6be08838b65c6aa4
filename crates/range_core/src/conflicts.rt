//! Which modes conflict.
ghost use Rattle.std.specs.Prelude.{◌↔◌, IsTrue};
ghost use Rattle.range_core.specs.Ranges.{Conflict};

use crate::Mode;

impl Mode {
    /// Whether locks of these two modes and of different owners can't stand together: one of them at least is a write
    /// lock (POSIX.1-2017 fcntl, `F_SETLK`).
    pub fn conflicts_with(self, other: Mode) -> bool
        ensures { IsTrue result ↔ Conflict self other }
    {
        match (self, other) {
            (Mode::Read, Mode::Read) => false,
            (Mode::Write, _) | (_, Mode::Write) => true,
        }
    }
}
