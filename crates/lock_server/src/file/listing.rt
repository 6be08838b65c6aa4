//! What is listed of one file.
ghost use Rattle.std.specs.Prelude.{◌≡◌, ℕ, ◌<◌, ◌≤◌, [], ◌∷◌, Any, List, IfSome, IfNone, None, Some, false, length, slice_get, take};
ghost use Rattle.std.specs.BTreeSet.{contains};
ghost use Rattle.std.specs.Ordering.{nat_cmp};
ghost use Rattle.owner_runs.specs.Lists.{modes_of};
ghost use Rattle.range_core.specs.Ranges.{IsByteRange};
ghost use Rattle.lock_server.specs.FileView.{file_state};
ghost use Rattle.lock_server.specs.Listing.{BeginBefore, flock_place, IsByteLock, IsFirstConflict, IsFirstRunFrom, IsFlockInTheWay, IsFlockLock, IsNextFrom, IsObstacle, IsWaitAmong, IsWaitAt, lock_place, number_behind, wait_place};
ghost use Rattle.lock_server.specs.Settling.{IsHeldBack, IsSettled, IsWaitBlocked, PendingsConflict};

use super::LockFile;
use crate::hull::Hull;
use crate::owner_waits::earlier_of;
use crate::{Family, FlockLock, Lock, Mode, Obstacle, OwnerWait, Pending, Policy, Span, Waiting};
use lock_book::Owner;
use owner_runs::OwnerRuns;
use range_core::OFFMAX;
use std::collections::BTreeSet;
use std::ops::Bound;
use summary_tree::Walk;

#[tactic(auto, unfolding(crate::specs::FileView::file_state))]
impl LockFile {
    /// The first byte lock, by owner and then by first byte, from this owner and byte on. It passes over the owners that have none and
    /// wait for one.
    pub fn next_lock(&self, owner: u64, byte: u64) -> Option<Lock>
        ensures { IsNextFrom lock_place (IsByteLock (file_state self.now)) (owner ∷ byte ∷ []) result }
    {
        if let Some(lock) = self.lock_from(owner, byte) {
            return Some(lock);
        }
        let mut above = owner;
        while let Some(other) = self.next_listed(Some(above)) {
            if let Some(lock) = self.lock_from(other, 0) {
                return Some(lock);
            }
            above = other;
        }
        None
    }

    /// The owner's first byte lock that begins at this byte or behind it.
    fn lock_from(&self, owner: u64, byte: u64) -> Option<Lock>
        ensures owner { IfSome result (λ lock. lock.owner ≡ owner) }
        ensures first { IfSome result (λ lock. IsFirstRunFrom ((file_state self.now).bytes owner) byte (lock.mode, lock.span)) }
        ensures none { IfNone result (BeginBefore ((file_state self.now).bytes owner) byte) }
    {
        let list = self.book.list(Owner::Description(owner))?;
        let (mode, span) = run_from(list, byte)?;
        Some(Lock { owner, mode, span })
    }

    /// The least owner that has a byte lock or room for one, above this one where one is given.
    pub(super) fn next_listed(&self, above: Option<u64>) -> Option<u64>
        ensures above { IfSome result (λ owner. number_behind above ≤ owner) }
        ensures least { IfSome result (λ owner. (other byte : ℕ) → number_behind above ≤ other → other < owner → (file_state self.now).bytes other byte ≡ None) }
        ensures none { IfNone result ((owner byte : ℕ) → number_behind above ≤ owner → (file_state self.now).bytes owner byte ≡ None) }
    {
        let first = match above {
            None => Bound::Included(Owner::Description(0)),
            Some(owner) => Bound::Excluded(Owner::Description(owner)),
        };
        let (owner, _) = self.book.lists_from(first).next()?;
        match *owner {
            Owner::Description(owner) => Some(owner),
            // A process comes before each description.
            Owner::Process(_) => None,
        }
    }

    /// The flock lock of the least owner that has one, above this one where one is given. It passes over those that wait for theirs.
    pub fn next_flock(&self, above: Option<u64>) -> Option<FlockLock>
        ensures { IsNextFrom flock_place (IsFlockLock (file_state self.now)) (number_behind above ∷ []) result }
    {
        let mut above = above;
        while let Some(owner) = self.next_flock_owner(above) {
            if let Some(mode) = self.flock_mode(owner) {
                return Some(FlockLock { owner, mode });
            }
            above = Some(owner);
        }
        None
    }

    /// The least owner for whose flock lock a place is kept, above this one where one is given.
    pub(super) fn next_flock_owner(&self, above: Option<u64>) -> Option<u64>
        ensures above { IfSome result (λ owner. number_behind above ≤ owner) }
        ensures least { IfSome result (λ owner. (other : ℕ) → number_behind above ≤ other → other < owner → (file_state self.now).flocks other ≡ None) }
        ensures none { IfNone result ((owner : ℕ) → number_behind above ≤ owner → (file_state self.now).flocks owner ≡ None) }
    {
        next_in(&self.flock_owners, above)
    }

    /// The first of the waits on the file, here of this number, of owners up to the last, by owner, file and ticket, from this one on.
    pub fn next_wait(&self, file: u64, from: OwnerWait, last: u64) -> Option<OwnerWait>
        ensures { IsNextFrom wait_place (λ wait. (wait.file ≡ file) × IsWaitAmong (file_state self.now).waits last wait) (wait_place from) result }
    {
        let mut found = None;
        self.waits.walk(AskedFor { file, from, last }, &mut found);
        found
    }

    /// Of the flock locks of other owners that are in the way of one of this mode that of the least (flock(2)).
    fn flock_blocker(&self, owner: u64, mode: Mode) -> Option<FlockLock>
        ensures { IsNextFrom flock_place (IsFlockInTheWay (file_state self.now) owner mode) (0 ∷ []) result }
    {
        let mut above = None;
        while let Some(lock) = self.next_flock(above) {
            if lock.owner != owner && lock.mode.conflicts_with(mode) {
                return Some(lock);
            }
            above = Some(lock.owner);
        }
        None
    }

    /// The first lock that is in the way of the wait.
    fn lock_in_the_way(&self, wait: &Pending) -> Option<Obstacle>
        requires { IsByteRange wait.now.span }
        ensures some { (policy : Policy) (earlier : List Pending) → IfSome result (IsObstacle policy (file_state self.now) earlier wait.now) }
        ensures none { IfNone result (¬ IsHeldBack (file_state self.now) wait.now) }
    {
        match wait.family {
            Family::Bytes => {
                let lock = self.blocker(wait.owner, wait.span, wait.mode)?;
                Some(Obstacle::Lock(lock))
            }
            Family::Whole => {
                let lock = self.flock_blocker(wait.owner, wait.mode)?;
                Some(Obstacle::Flock(lock))
            }
        }
    }

    /// The wait at this place in order of arrival, with what is in its way; `None` where there are no more waits than so many.
    pub fn wait_at(&self, policy: Policy, place: u64) -> Option<Waiting>
        requires { ∥ IsSettled policy (file_state self.now) ∥₁ }
        ensures some { IfSome result (IsWaitAt policy (file_state self.now) place) }
        ensures none { IfNone result (length (file_state self.now).waits ≤ place) }
    {
        let pending = self.waits.get(place)?;
        match self.obstacle(policy, place, &pending) {
            Some(obstacle) => Some(Waiting { pending, obstacle }),
            None => unreachable!(),
        }
    }

    /// What is in the way of the wait, where so many came before it.
    fn obstacle(&self, policy: Policy, before: u64, wait: &Pending) -> Option<Obstacle>
        requires { IsByteRange wait.now.span }
        ensures some { IfSome result (IsObstacle policy (file_state self.now) (take before (file_state self.now).waits) wait.now) }
        ensures none { IfNone result (¬ IsWaitBlocked policy (file_state self.now) (take before (file_state self.now).waits) wait.now) }
    {
        if let Some(obstacle) = self.lock_in_the_way(wait) {
            return Some(obstacle);
        }
        match policy {
            Policy::Held => None,
            Policy::Queue => {
                let ticket = self.first_conflict(before, wait)?;
                Some(Obstacle::Wait(ticket))
            }
        }
    }

    /// Of so many waits, the earliest, the ticket of the first that conflicts with the wait.
    fn first_conflict(&self, before: u64, wait: &Pending) -> Option<u64>
        ensures some { IfSome result (IsFirstConflict (take before (file_state self.now).waits) wait.now) }
        ensures none { IfNone result (¬ Any (λ v. PendingsConflict v wait.now) (take before (file_state self.now).waits)) }
    {
        let place = self.next_conflicting(0, before, wait)?;
        let other = self.waits.get(place)?;
        Some(other.ticket)
    }
}

/// The least of the owners, above this one where one is given.
fn next_in(owners: &BTreeSet<u64>, above: Option<u64>) -> Option<u64>
    ensures above { IfSome result (λ owner. number_behind above ≤ owner) }
    ensures least { IfSome result (λ owner. (other : ℕ) → number_behind above ≤ other → other < owner → contains nat_cmp owners.now other ≡ false) }
    ensures none { IfNone result ((owner : ℕ) → number_behind above ≤ owner → contains nat_cmp owners.now owner ≡ false) }
{
    let first = match above {
        None => Bound::Unbounded,
        Some(owner) => Bound::Excluded(owner),
    };
    let owner = owners.range((first, Bound::Unbounded)).next()?;
    Some(*owner)
}

/// The first of the runs that begin at this byte or behind it.
fn run_from(list: &OwnerRuns, byte: u64) -> Option<(Mode, Span)>
    ensures first { IfSome result (IsFirstRunFrom (modes_of list.now) byte) }
    ensures none { IfNone result (BeginBefore (modes_of list.now) byte) }
{
    // The proof reads from all runs that none reaches beyond the last byte of a file.
    let all = list.runs();
    if OFFMAX < byte {
        return None;
    }
    let mut runs = list.touching(Span {
        first: byte,
        last: OFFMAX,
    });
    let run = runs.next()?;
    if byte <= run.1.first {
        return Some(run);
    }
    // No other one begins before the byte.
    runs.next()
}

/// The waits on a file, here of this number, that are asked for: of owners up to the last, from this one on.
#[derive(Clone, Copy)]
struct AskedFor {
    file: u64,
    from: OwnerWait,
    last: u64,
}

impl Walk<Pending, Hull, Option<OwnerWait>> for AskedFor {
    ghost gathers = { λ asked found seen. IsNextFrom wait_place (λ wait. (wait.file ≡ asked.file) × IsWaitAmong seen asked.last wait) (wait_place asked.from) found };

    fn see(&self, found: &mut Option<OwnerWait>, pending: &Pending) {
        let wait = OwnerWait {
            owner: pending.owner,
            file: self.file,
            ticket: pending.ticket,
        };
        *found = earlier_of(*found, wait.asked_for(self.from, self.last));
    }

    fn see_all(&self, _found: &mut Option<OwnerWait>, _hull: &Hull) -> bool {
        false
    }
}
