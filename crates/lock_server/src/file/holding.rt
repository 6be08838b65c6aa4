//! Who has something on one file.
ghost use Rattle.std.specs.Prelude.{◌≡◌, ◌<◌, ◌≤◌, ◌↔◌, ℕ, IfNone, IfSome, IsTrue};
ghost use Rattle.lock_server.specs.FileView.{file_state};
ghost use Rattle.lock_server.specs.Holding.{AreOfOthers, HasNoLock, HasNothing};
ghost use Rattle.lock_server.specs.Listing.{number_behind};

use super::LockFile;
use crate::asking::Kind;

#[tactic(auto, unfolding(crate::specs::FileView::file_state))]
impl LockFile {
    /// Whether the owner has neither a lock nor a wait.
    pub fn has_nothing(&self, owner: u64) -> bool
        ensures { IsTrue result ↔ HasNothing (file_state self.now) owner }
    {
        !self.has_byte_lock(owner) && !self.has_flock_lock(owner) && !self.is_waiting(owner)
    }

    /// Whether the owner waits.
    fn is_waiting(&self, owner: u64) -> bool
        ensures { IsTrue result ↔ ¬ AreOfOthers (file_state self.now).waits owner }
    {
        self.may_wait(owner) && self.first_of(owner, Kind::Any, 0).is_some()
    }

    /// The least owner that has a lock or room for one, above this one where one is given: among those with room is each that waits.
    pub fn next_known(&self, above: Option<u64>) -> Option<u64>
        ensures above { IfSome result (λ owner. number_behind above ≤ owner) }
        ensures least { IfSome result (λ owner. (other : ℕ) → number_behind above ≤ other → other < owner → HasNoLock (file_state self.now) other) }
        ensures none { IfNone result ((owner : ℕ) → number_behind above ≤ owner → HasNoLock (file_state self.now) owner) }
    {
        match (self.next_listed(above), self.next_flock_owner(above)) {
            (Some(one), Some(other)) => Some(one.min(other)),
            (Some(owner), None) | (None, Some(owner)) => Some(owner),
            (None, None) => None,
        }
    }
}
