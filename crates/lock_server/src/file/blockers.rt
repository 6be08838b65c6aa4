//! For which owners a wait on the file waits, or would wait.
ghost use Rattle.std.specs.Prelude.{◌≡◌, ◌<◌, ◌≤◌, Any, IfOk, MatchOption, OnOk, Some, slice_get, take};
ghost use Rattle.wait_core.specs.Blocking.{WaitsConflict};
ghost use Rattle.lock_server.specs.Pendings.{as_wait};
ghost use Rattle.range_core.specs.Ranges.{IsByteRange};
ghost use Rattle.lock_server.specs.Blockers.{AddsOwners, BlocksBefore, BlocksOn, IsFlockHolder};
ghost use Rattle.lock_server.specs.Deadlock.{BlocksIn, IsBlockedByOwner, WaitsForOn};
ghost use Rattle.lock_server.specs.FileView.{file_state};

use super::LockFile;
use crate::asking::Kind;
use crate::{Family, Memory, Mode, Pending, Policy, Span};
use lock_book::Owner;

#[tactic(auto, unfolding(crate::specs::FileView::file_state))]
impl LockFile {
    /// Adds the owners for which this one waits on the file: those that block a detected wait of it (POSIX.1-2017 fcntl,
    /// `EDEADLK`).
    pub fn add_steps(&self, owners: &mut Vec<u64>, policy: Policy, owner: u64) -> Result<(), Memory>
        ensures { OnOk result (AddsOwners owners.old.items owners.new.items (WaitsForOn policy (file_state self.now) owner)) }
    {
        let mut from = 0;
        while let Some(place) = self.first_of(owner, Kind::Detected, from) {
            self.add_blockers_at(owners, policy, place)?;
            from = place + 1;
        }
        Ok(())
    }

    /// Adds the owners that block the wait at this place.
    fn add_blockers_at(
        &self,
        owners: &mut Vec<u64>,
        policy: Policy,
        place: u64,
    ) -> Result<(), Memory>
        ensures { (wait : Pending) → slice_get (file_state self.now).waits place ≡ Some wait
            → OnOk result (AddsOwners owners.old.items owners.new.items (IsBlockedByOwner policy (file_state self.now) (take place (file_state self.now).waits) wait)) }
    {
        match self.waits.get(place) {
            Some(wait) => self.add_blockers(owners, policy, place, &wait),
            None => Ok(()),
        }
    }

    /// Adds the owners that block the wait, where so many came before it: by a lock and, under the queue policy, also by an earlier
    /// wait (POSIX.1-2017 fcntl, `EDEADLK`).
    pub fn add_blockers(
        &self,
        owners: &mut Vec<u64>,
        policy: Policy,
        before: u64,
        wait: &Pending,
    ) -> Result<(), Memory>
        requires { IsByteRange wait.now.span }
        ensures { OnOk result (AddsOwners owners.old.items owners.new.items (IsBlockedByOwner policy (file_state self.now) (take before (file_state self.now).waits) wait.now)) }
    {
        self.add_holders(owners, wait)?;
        match policy {
            Policy::Held => Ok(()),
            Policy::Queue => self.add_conflicting(owners, before, wait),
        }
    }

    /// Adds the owners of those of so many waits, the earliest, that conflict with the wait.
    pub fn add_conflicting(
        &self,
        owners: &mut Vec<u64>,
        before: u64,
        wait: &Pending,
    ) -> Result<(), Memory>
        ensures { OnOk result (AddsOwners owners.old.items owners.new.items
            (λ other. Any (λ v. (v.owner ≡ other) × WaitsConflict (as_wait v) (as_wait wait.now)) (take before (file_state self.now).waits))) }
    {
        let mut from = 0;
        while let Some(place) = self.next_conflicting(from, before, wait) {
            self.add_owner_at(owners, place)?;
            from = place + 1;
        }
        Ok(())
    }

    /// Adds the owner of the wait at this place.
    fn add_owner_at(&self, owners: &mut Vec<u64>, place: u64) -> Result<(), Memory>
        ensures { (wait : Pending) → slice_get (file_state self.now).waits place ≡ Some wait
            → OnOk result (AddsOwners owners.old.items owners.new.items (λ other. wait.owner ≡ other)) }
    {
        match self.waits.get(place) {
            Some(wait) => {
                owners.push(wait.owner)?;
                Ok(())
            }
            None => Ok(()),
        }
    }

    /// Adds the owners of the locks that block the wait.
    fn add_holders(&self, owners: &mut Vec<u64>, wait: &Pending) -> Result<(), Memory>
        requires { IsByteRange wait.now.span }
        ensures { OnOk result (AddsOwners owners.old.items owners.new.items (BlocksIn wait.now.family (file_state self.now) wait.now)) }
    {
        match wait.family {
            Family::Bytes => self.add_byte_holders(owners, wait.owner, wait.span, wait.mode),
            Family::Whole => self.add_flock_holders(owners, wait.owner, wait.mode),
        }
    }

    /// Adds the other owners that have a byte lock on the span which conflicts with one of this mode.
    pub fn add_byte_holders(
        &self,
        owners: &mut Vec<u64>,
        owner: u64,
        span: Span,
        mode: Mode,
    ) -> Result<(), Memory>
        requires { IsByteRange span }
        ensures { OnOk result (AddsOwners owners.old.items owners.new.items (BlocksOn (file_state self.now) owner span mode)) }
    {
        let mut rest = span;
        while let Some(next) = self.add_first_holders(owners, owner, rest, mode)? {
            rest.first = next;
        }
        Ok(())
    }

    /// The same on the first bytes of the span, up to one, which is told; `None` where that is all of it.
    fn add_first_holders(
        &self,
        owners: &mut Vec<u64>,
        owner: u64,
        span: Span,
        mode: Mode,
    ) -> Result<Option<u64>, Memory>
        requires { IsByteRange span }
        ensures { IfOk result (λ next. MatchOption next (AddsOwners owners.old.items owners.new.items (BlocksOn (file_state self.now) owner span mode))
            (λ byte. (span.first < byte) × (byte ≤ span.last) × AddsOwners owners.old.items owners.new.items (BlocksBefore (file_state self.now) owner span mode byte))) }
    {
        let Some(lock) = self.blocker(owner, span, mode) else {
            return Ok(None);
        };
        let run = Span {
            first: lock.span.first.max(span.first),
            last: lock.span.last.min(span.last),
        };
        // Where several have locks on the run, the lists of all owners tell who.
        if self.blocker(lock.owner, run, mode).is_some() {
            self.add_listed_holders(owners, owner, span, mode)?;
            return Ok(None);
        }
        owners.push(lock.owner)?;
        if span.last <= run.last {
            return Ok(None);
        }
        Ok(Some(run.last + 1))
    }

    /// What [`LockFile::add_byte_holders`] adds, by the lists of all owners in turn.
    fn add_listed_holders(
        &self,
        owners: &mut Vec<u64>,
        owner: u64,
        span: Span,
        mode: Mode,
    ) -> Result<(), Memory>
        requires { IsByteRange span }
        ensures { OnOk result (AddsOwners owners.old.items owners.new.items (BlocksOn (file_state self.now) owner span mode)) }
    {
        for (other, list) in self.book.lists() {
            // No process has a lock here.
            let Owner::Description(number) = *other else {
                continue;
            };
            if number != owner && list.first_hit(span, mode).is_some() {
                owners.push(number)?;
            }
        }
        Ok(())
    }

    /// Adds the other owners that have a flock lock which conflicts with one of this mode.
    pub fn add_flock_holders(
        &self,
        owners: &mut Vec<u64>,
        owner: u64,
        mode: Mode,
    ) -> Result<(), Memory>
        ensures { OnOk result (AddsOwners owners.old.items owners.new.items (IsFlockHolder (file_state self.now) owner mode)) }
    {
        let mut above = None;
        while let Some(lock) = self.next_flock(above) {
            if lock.owner != owner && lock.mode.conflicts_with(mode) {
                owners.push(lock.owner)?;
            }
            above = Some(lock.owner);
        }
        Ok(())
    }
}
