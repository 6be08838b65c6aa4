//! The owners of a client: a range of their numbers.
ghost use Rattle.std.specs.Prelude.{◌≡◌};
ghost use Rattle.lock_server.specs.Clients.{is_within};
ghost use Rattle.lock_server.specs.Listing.{number_behind};

/// The owners from the first number to the last, both among them; nobody where the first is above the last.
#[derive(Clone, Copy)]
pub struct Owners {
    pub first: u64,
    pub last: u64,
}

impl Owners {
    /// Whether the owner is among them.
    pub fn contains(self, owner: u64) -> bool
        ensures { result ≡ is_within self.first self.last owner }
    {
        self.first <= owner && owner <= self.last
    }

    /// The number before the first one; `None` where that is 0.
    pub fn before(self) -> Option<u64>
        ensures { number_behind result ≡ self.first }
    {
        self.first.checked_sub(1)
    }
}
