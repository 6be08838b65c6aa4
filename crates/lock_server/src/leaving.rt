//! Which waits leave a file.
ghost use Rattle.std.specs.Prelude.{◌≡◌};
ghost use Rattle.lock_server.specs.Leaving.{is_leaving};

use crate::owners::Owners;
use crate::{Family, Pending};

/// Which waits leave a file.
#[derive(Clone, Copy)]
pub enum Leaving {
    /// Those of the owner for byte locks.
    BytesOf(u64),
    /// Those of the owners.
    Of(Owners),
    /// All.
    All,
}

impl Leaving {
    /// Whether the wait is one of them.
    pub fn contains(self, wait: &Pending) -> bool
        ensures { result ≡ is_leaving self wait.now }
    {
        match self {
            Leaving::BytesOf(owner) => wait.family == Family::Bytes && wait.owner == owner,
            Leaving::Of(owners) => owners.contains(wait.owner),
            Leaving::All => true,
        }
    }
}
