//! What a server lists: files, locks and waits, each time the next one from a place on.
ghost use Rattle.std.specs.Prelude.{◌≤◌, [], ◌∷◌, IfSome, IfNone, length};
ghost use Rattle.lock_server.specs.Listing.{file_place, flock_place, IsByteLock, IsFlockLock, IsInUse, IsNextFrom, IsWaitAt, IsWaitUpTo, lock_place, wait_place};
ghost use Rattle.lock_server.specs.ServerView.{rules_of, state_of};

use super::LockServer;
use crate::{FlockLock, Lock, OwnerWait, Waiting};

#[tactic(auto, unfolding(crate::specs::ServerView::state_of, crate::specs::ServerView::rules_of))]
impl LockServer {
    /// The least file that has a lock or a wait, from this number on (this project's choice). It takes no memory.
    pub fn next_file(&self, from: u64) -> Option<u64>
        ensures { IsNextFrom file_place (IsInUse (state_of self.now)) (from ∷ []) result }
    {
        self.table.next_file(from.checked_sub(1))
    }

    /// The first byte lock on the file, by owner and then by first byte, of those that begin at this owner's byte or come behind it: the
    /// largest range on which its owner has the one mode (fcntl_locking(2), "Advisory record locking"; the order is this project's
    /// choice). It takes no memory, and passes over the owners that have no lock and wait for one.
    pub fn next_lock(&self, file: u64, owner: u64, first: u64) -> Option<Lock>
        ensures { IsNextFrom lock_place (IsByteLock ((state_of self.now).files file)) (owner ∷ first ∷ []) result }
    {
        self.table.next_lock(file, owner, first)
    }

    /// The flock lock on the file of the least owner that has one, from this owner on (flock(2); the order is this project's choice).
    /// It takes no memory, and passes over the owners that wait for theirs.
    pub fn next_flock(&self, file: u64, from: u64) -> Option<FlockLock>
        ensures { IsNextFrom flock_place (IsFlockLock ((state_of self.now).files file)) (from ∷ []) result }
    {
        self.table.next_flock(file, from.checked_sub(1))
    }

    /// The wait on the file at this place in order of arrival, from 0 on, with what is in its way; `None` where no more than so many
    /// wait (this project's choice). It takes no memory.
    pub fn wait_at(&self, file: u64, place: usize) -> Option<Waiting>
        ensures some { IfSome result (IsWaitAt (rules_of self.now).policy ((state_of self.now).files file) place) }
        ensures none { IfNone result (length ((state_of self.now).files file).waits ≤ place) }
    {
        self.table.wait_at(self.rules.policy, file, place)
    }

    /// The first of the waits of owners up to the last, by owner, then by file, and then by ticket, from this one on (this project's
    /// choice): so a caller learns which requests [`LockServer::forget`] would end. It takes no memory, and looks at each wait on each file.
    pub fn next_wait(&self, from: OwnerWait, last: u64) -> Option<OwnerWait>
        ensures { IsNextFrom wait_place (IsWaitUpTo (state_of self.now) last) (wait_place from) result }
    {
        self.table.next_wait(from, last)
    }
}
