//! The locks that clients have on one file.
ghost use Rattle.std.specs.Prelude.{◌≡◌, ◌≤◌, ◌↔◌, ℕ, IsTrue, None};
ghost use Rattle.lock_server.specs.Clients.{HasByteLock, HasFlockLock, HaveLocksOn, is_within, StripsBytes, StripsFlocks, StripsLocks};
ghost use Rattle.lock_server.specs.FileView.{file_state};
ghost use Rattle.lock_server.specs.Listing.{number_behind};

use super::LockFile;
use crate::owners::Owners;
use lock_book::Owner;

#[tactic(auto, unfolding(crate::specs::FileView::file_state))]
impl LockFile {
    /// Removes all locks of the owners; their waits stay, with their room. It takes no memory.
    pub fn strip_locks(&mut self, owners: Owners)
        ensures strips { StripsLocks (file_state self.old) (is_within owners.first owners.last) (file_state self.new) }
        ensures waits { (file_state self.new).waits ≡ (file_state self.old).waits }
    {
        self.strip_bytes(owners);
        self.strip_flocks(owners);
    }

    /// Removes all byte locks of the owners, and the room of those that don't wait.
    fn strip_bytes(&mut self, owners: Owners)
        ensures strips { StripsBytes (file_state self.old) (is_within owners.first owners.last) (file_state self.new) }
        ensures waits { (file_state self.new).waits ≡ (file_state self.old).waits }
    {
        let mut above = owners.before();
        while let Some(owner) = self.next_listed(above) {
            if owners.last < owner {
                return;
            }
            self.release(owner);
            above = Some(owner);
        }
    }

    /// Removes all flock locks of the owners, and the places of those that don't wait.
    fn strip_flocks(&mut self, owners: Owners)
        ensures strips { StripsFlocks (file_state self.old) (is_within owners.first owners.last) (file_state self.new) }
        ensures waits { (file_state self.new).waits ≡ (file_state self.old).waits }
    {
        let mut above = owners.before();
        while let Some(owner) = self.next_flock_owner(above) {
            if owners.last < owner {
                return;
            }
            self.release_flock(owner);
            above = Some(owner);
        }
    }

    /// Whether one of the owners has a byte lock or a flock lock.
    pub fn has_locks(&self, owners: Owners) -> bool
        ensures { IsTrue result ↔ HaveLocksOn (file_state self.now) owners.first owners.last }
    {
        self.has_byte_locks(owners) || self.has_flock_locks(owners)
    }

    /// Whether one of the owners has a byte lock.
    fn has_byte_locks(&self, owners: Owners) -> bool
        ensures { IsTrue result ↔ ((owner : ℕ) × IsTrue (is_within owners.first owners.last owner) × HasByteLock (file_state self.now) owner) }
    {
        let mut above = owners.before();
        while let Some(owner) = self.next_listed(above) {
            if owners.last < owner {
                return false;
            }
            if self.has_byte_lock(owner) {
                return true;
            }
            above = Some(owner);
        }
        false
    }

    /// Whether one of the owners has a flock lock.
    fn has_flock_locks(&self, owners: Owners) -> bool
        ensures { IsTrue result ↔ ((owner : ℕ) × IsTrue (is_within owners.first owners.last owner) × HasFlockLock (file_state self.now) owner) }
    {
        let mut above = owners.before();
        while let Some(owner) = self.next_flock_owner(above) {
            if owners.last < owner {
                return false;
            }
            if self.has_flock_lock(owner) {
                return true;
            }
            above = Some(owner);
        }
        false
    }

    /// Whether the owner has a byte lock.
    pub fn has_byte_lock(&self, owner: u64) -> bool
        ensures { IsTrue result ↔ HasByteLock (file_state self.now) owner }
    {
        match self.book.list(Owner::Description(owner)) {
            Some(list) => !list.is_empty(),
            None => false,
        }
    }

    /// Whether the owner has a flock lock.
    pub(super) fn has_flock_lock(&self, owner: u64) -> bool
        ensures { IsTrue result ↔ HasFlockLock (file_state self.now) owner }
    {
        self.flock_mode(owner).is_some()
    }
}
