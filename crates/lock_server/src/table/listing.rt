//! What is listed of all files.
ghost use Rattle.std.specs.Prelude.{◌≡◌, ◌≤◌, [], ◌∷◌, IfSome, IfNone, length};
ghost use Rattle.lock_server.specs.Listing.{flock_place, IsByteLock, IsFlockLock, IsNextFrom, IsWaitAt, IsWaitUpTo, lock_place, number_behind, wait_place};
ghost use Rattle.lock_server.specs.Settling.{IsSettled};
ghost use Rattle.lock_server.specs.TableView.{table_state};

use super::Table;
use crate::owner_waits::earlier_of;
use crate::{FlockLock, Lock, OwnerWait, Policy, Waiting};

#[tactic(auto, unfolding(crate::specs::TableView::table_state, crate::specs::TableView::entry_of))]
impl Table {
    /// The first byte lock on the file, by owner and then by first byte, from this owner and byte on.
    pub fn next_lock(&self, file: u64, owner: u64, byte: u64) -> Option<Lock>
        ensures { IsNextFrom lock_place (IsByteLock ((table_state self.now).files file)) (owner ∷ byte ∷ []) result }
    {
        self.files.get(&file)?.next_lock(owner, byte)
    }

    /// The flock lock on the file of the least owner that has one, above this one where one is given.
    pub fn next_flock(&self, file: u64, above: Option<u64>) -> Option<FlockLock>
        ensures { IsNextFrom flock_place (IsFlockLock ((table_state self.now).files file)) (number_behind above ∷ []) result }
    {
        self.files.get(&file)?.next_flock(above)
    }

    /// The wait on the file at this place in order of arrival, with what is in its way.
    pub fn wait_at(&self, policy: Policy, file: u64, place: usize) -> Option<Waiting>
        requires { ∥ IsSettled policy ((table_state self.now).files file) ∥₁ }
        ensures some { IfSome result (IsWaitAt policy ((table_state self.now).files file) place) }
        ensures none { IfNone result (length ((table_state self.now).files file).waits ≤ place) }
    {
        self.files.get(&file)?.wait_at(policy, place as u64)
    }

    /// The first of the waits of owners up to the last, by owner, file and ticket, from this one on. It looks at each wait on each file.
    pub fn next_wait(&self, from: OwnerWait, last: u64) -> Option<OwnerWait>
        ensures { IsNextFrom wait_place (IsWaitUpTo (table_state self.now) last) (wait_place from) result }
    {
        let mut found = None;
        let mut above = None;
        while let Some(file) = self.next_file(above) {
            found = earlier_of(found, self.next_wait_on(file, from, last));
            above = Some(file);
        }
        found
    }

    /// The same of the waits on one file.
    fn next_wait_on(&self, file: u64, from: OwnerWait, last: u64) -> Option<OwnerWait>
        ensures { IsNextFrom wait_place (λ wait. (wait.file ≡ file) × IsWaitUpTo (table_state self.now) last wait) (wait_place from) result }
    {
        self.files.get(&file)?.next_wait(file, from, last)
    }
}
