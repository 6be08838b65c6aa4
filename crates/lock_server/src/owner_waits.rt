//! The order of waits by owner, file and ticket.
ghost use Rattle.std.specs.Prelude.{◌≡◌, ◌≤◌, ◌↔◌, IsTrue};
ghost use Rattle.lock_server.specs.Listing.{IsEarlier, IsEarlierOf, IsNextFrom, wait_place};

use crate::OwnerWait;

impl OwnerWait {
    /// Whether the wait comes before the other: by owner, then by file, and then by ticket.
    pub(crate) fn is_before(self, other: OwnerWait) -> bool
        ensures { IsTrue result ↔ IsEarlier (wait_place self) (wait_place other) }
    {
        self.owner < other.owner
            || self.owner == other.owner
                && (self.file < other.file || self.file == other.file && self.ticket < other.ticket)
    }

    /// The wait, where it isn't before the one from which on waits are asked for, and of an owner up to the last.
    pub(crate) fn asked_for(self, from: OwnerWait, last: u64) -> Option<OwnerWait>
        ensures { IsNextFrom wait_place (λ wait. (wait ≡ self) × (wait.owner ≤ last)) (wait_place from) result }
    {
        if self.owner <= last && !self.is_before(from) {
            Some(self)
        } else {
            None
        }
    }
}

/// The earlier one of two waits, or the one that there is.
pub(crate) fn earlier_of(found: Option<OwnerWait>, next: Option<OwnerWait>) -> Option<OwnerWait>
    ensures { IsEarlierOf found next result }
{
    let Some(wait) = next else {
        return found;
    };
    match found {
        Some(earlier) if !wait.is_before(earlier) => Some(earlier),
        _ => Some(wait),
    }
}
