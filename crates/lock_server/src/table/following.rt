//! From an owner that a search reached on to those for which it waits.
ghost use Rattle.std.specs.Prelude.{◌≡◌, ◌+◌, ◌<◌, ◌^◌, ℕ, Any, Contains, IfSome, IfNone, OnOk, Some, slice_get, take};
ghost use Rattle.range_core.specs.Ranges.{IsByteRange};
ghost use Rattle.wait_core.specs.Blocking.{WaitsConflict};
ghost use Rattle.lock_server.specs.Blockers.{AddsOwners, BlocksOn, IsFlockHolder, IsNextDetected, IsNoneDetected};
ghost use Rattle.lock_server.specs.Deadlock.{BlocksIn, IsBlockedByOwner, WaitsFor, WaitsForOn};
ghost use Rattle.lock_server.specs.LookedAt.{AreTold, Follows};
ghost use Rattle.lock_server.specs.Pendings.{as_wait};
ghost use Rattle.lock_server.specs.TableView.{table_state};

use super::Table;
use super::reached::Reached;
use crate::asking::Kind;
use crate::{Family, Memory, Mode, Pending, Policy, Span};

#[tactic(auto, unfolding(crate::specs::TableView::table_state, crate::specs::TableView::entry_of))]
impl Table {
    /// Reaches those of the owners for which this one waits that go on.
    pub(super) fn follow(
        &self,
        reached: &mut Reached,
        policy: Policy,
        target: u64,
        owner: u64,
    ) -> Result<(), Memory>
        requires told { AreTold self.now target reached.old }
        requires among { Contains reached.old.owners.items owner }
        ensures { OnOk result (Follows self.now target (WaitsFor policy (table_state self.now) owner) reached.old reached.new) }
    {
        for file in self.waiters.files(owner) {
            self.follow_on(reached, policy, target, *file, owner)?;
        }
        Ok(())
    }

    /// The same of its waits on one file.
    fn follow_on(
        &self,
        reached: &mut Reached,
        policy: Policy,
        target: u64,
        file: u64,
        owner: u64,
    ) -> Result<(), Memory>
        requires told { AreTold self.now target reached.old }
        requires among { Contains reached.old.owners.items owner }
        ensures { OnOk result (Follows self.now target (WaitsForOn policy ((table_state self.now).files file) owner) reached.old reached.new) }
    {
        let mut from = 0;
        while let Some(place) = self.next_detected(file, owner, from) {
            self.follow_at(reached, policy, target, file, place)?;
            from = place + 1;
        }
        Ok(())
    }

    /// Reaches those of the owners that block the wait at this place on the file which go on.
    fn follow_at(
        &self,
        reached: &mut Reached,
        policy: Policy,
        target: u64,
        file: u64,
        place: u64,
    ) -> Result<(), Memory>
        requires told { AreTold self.now target reached.old }
        requires among { (wait : Pending) → slice_get ((table_state self.now).files file).waits place ≡ Some wait
            → Contains reached.old.owners.items wait.owner }
        ensures { (wait : Pending) → slice_get ((table_state self.now).files file).waits place ≡ Some wait
            → OnOk result (Follows self.now target
            (IsBlockedByOwner policy ((table_state self.now).files file) (take place ((table_state self.now).files file).waits) wait)
            reached.old reached.new) }
    {
        match self.wait_on(file, place) {
            Some(wait) => self.follow_wait(reached, policy, target, file, place, &wait),
            None => Ok(()),
        }
    }

    /// The wait on the file at this place in order of arrival; `None` where there are no more than so many.
    pub fn wait_on(&self, file: u64, place: u64) -> Option<Pending>
        ensures is { result ≡ slice_get ((table_state self.now).files file).waits place }
        ensures range { IfSome result (λ wait. IsByteRange wait.span) }
        ensures behind { IfSome result (λ wait. place + 1 < 2 ^ 64) }
    {
        self.files.get(&file)?.wait(place)
    }

    /// The place of the first detected wait of the owner on the file from this place on.
    fn next_detected(&self, file: u64, owner: u64, from: u64) -> Option<u64>
        ensures some { IfSome result (IsNextDetected ((table_state self.now).files file).waits owner from) }
        ensures none { IfNone result (IsNoneDetected ((table_state self.now).files file).waits owner from) }
        ensures behind { IfSome result (λ place. place + 1 < 2 ^ 64) }
    {
        self.files.get(&file)?.first_of(owner, Kind::Detected, from)
    }

    /// Reaches those of the owners that block the wait which go on, where so many came before it.
    fn follow_wait(
        &self,
        reached: &mut Reached,
        policy: Policy,
        target: u64,
        file: u64,
        before: u64,
        wait: &Pending,
    ) -> Result<(), Memory>
        requires range { IsByteRange wait.now.span }
        requires told { AreTold self.now target reached.old }
        requires among { Contains reached.old.owners.items wait.now.owner }
        ensures { OnOk result (Follows self.now target
            (IsBlockedByOwner policy ((table_state self.now).files file) (take before ((table_state self.now).files file).waits) wait.now)
            reached.old reached.new) }
    {
        self.follow_holders(reached, target, file, wait)?;
        match policy {
            Policy::Held => Ok(()),
            Policy::Queue => self.follow_earlier(reached, target, file, before, wait),
        }
    }

    /// Reaches those of the owners of locks that block the wait which go on.
    fn follow_holders(
        &self,
        reached: &mut Reached,
        target: u64,
        file: u64,
        wait: &Pending,
    ) -> Result<(), Memory>
        requires range { IsByteRange wait.now.span }
        requires told { AreTold self.now target reached.old }
        requires among { Contains reached.old.owners.items wait.now.owner }
        ensures { OnOk result (Follows self.now target (BlocksIn wait.now.family ((table_state self.now).files file) wait.now) reached.old reached.new) }
    {
        match wait.family {
            Family::Bytes => self.follow_bytes(reached, target, file, wait),
            Family::Whole => self.follow_flocks(reached, target, file, wait),
        }
    }

    /// Reaches those of the owners that block the wait by byte locks which go on; it looks on no byte again.
    fn follow_bytes(
        &self,
        reached: &mut Reached,
        target: u64,
        file: u64,
        wait: &Pending,
    ) -> Result<(), Memory>
        requires range { IsByteRange wait.now.span }
        requires told { AreTold self.now target reached.old }
        requires among { Contains reached.old.owners.items wait.now.owner }
        ensures { OnOk result (Follows self.now target
            (BlocksOn ((table_state self.now).files file) wait.now.owner wait.now.span wait.now.mode) reached.old reached.new) }
    {
        let mut rest = wait.span;
        while let Some(part) = reached.looked_at.first_left(file, rest, wait.mode) {
            self.follow_part(reached, target, file, wait, part)?;
            if rest.last <= part.last {
                return Ok(());
            }
            rest.first = part.last + 1;
        }
        Ok(())
    }

    /// The same on a part of the bytes, on which it looks.
    fn follow_part(
        &self,
        reached: &mut Reached,
        target: u64,
        file: u64,
        wait: &Pending,
        part: Span,
    ) -> Result<(), Memory>
        requires range { IsByteRange part }
        requires told { AreTold self.now target reached.old }
        requires among { Contains reached.old.owners.items wait.now.owner }
        ensures { OnOk result (Follows self.now target
            (BlocksOn ((table_state self.now).files file) wait.now.owner part wait.now.mode) reached.old reached.new) }
    {
        let mut next = Vec::new(self.alloc);
        self.add_byte_holders(&mut next, file, wait.owner, part, wait.mode)?;
        self.add_going_on(reached, &next, target)?;
        reached.looked_at.note(file, part, wait.mode)
    }

    /// Adds the other owners that have a byte lock on the span of the file which conflicts with one of this mode.
    fn add_byte_holders(
        &self,
        owners: &mut Vec<u64>,
        file: u64,
        owner: u64,
        span: Span,
        mode: Mode,
    ) -> Result<(), Memory>
        requires { IsByteRange span }
        ensures { OnOk result (AddsOwners owners.old.items owners.new.items (BlocksOn ((table_state self.now).files file) owner span mode)) }
    {
        match self.files.get(&file) {
            Some(locks) => locks.add_byte_holders(owners, owner, span, mode),
            None => Ok(()),
        }
    }

    /// Reaches those of the owners that block the wait by flock locks which go on.
    fn follow_flocks(
        &self,
        reached: &mut Reached,
        target: u64,
        file: u64,
        wait: &Pending,
    ) -> Result<(), Memory>
        requires { AreTold self.now target reached.old }
        ensures { OnOk result (Follows self.now target (IsFlockHolder ((table_state self.now).files file) wait.now.owner wait.now.mode) reached.old reached.new) }
    {
        let mut next = Vec::new(self.alloc);
        self.add_flock_holders(&mut next, file, wait.owner, wait.mode)?;
        self.add_going_on(reached, &next, target)
    }

    /// Adds the other owners that have a flock lock on the file which conflicts with one of this mode.
    fn add_flock_holders(
        &self,
        owners: &mut Vec<u64>,
        file: u64,
        owner: u64,
        mode: Mode,
    ) -> Result<(), Memory>
        ensures { OnOk result (AddsOwners owners.old.items owners.new.items (IsFlockHolder ((table_state self.now).files file) owner mode)) }
    {
        match self.files.get(&file) {
            Some(locks) => locks.add_flock_holders(owners, owner, mode),
            None => Ok(()),
        }
    }

    /// Reaches those of the owners of so many waits on the file, the earliest, that conflict with this one which go on.
    fn follow_earlier(
        &self,
        reached: &mut Reached,
        target: u64,
        file: u64,
        before: u64,
        wait: &Pending,
    ) -> Result<(), Memory>
        requires { AreTold self.now target reached.old }
        ensures { OnOk result (Follows self.now target
            (λ other. Any (λ v. (v.owner ≡ other) × WaitsConflict (as_wait v) (as_wait wait.now)) (take before ((table_state self.now).files file).waits))
            reached.old reached.new) }
    {
        let mut next = Vec::new(self.alloc);
        self.add_conflicting(&mut next, file, before, wait)?;
        self.add_going_on(reached, &next, target)
    }

    /// Adds the owners of so many waits on the file, the earliest, that conflict with this one.
    fn add_conflicting(
        &self,
        owners: &mut Vec<u64>,
        file: u64,
        before: u64,
        wait: &Pending,
    ) -> Result<(), Memory>
        ensures { OnOk result (AddsOwners owners.old.items owners.new.items
            (λ other. Any (λ v. (v.owner ≡ other) × WaitsConflict (as_wait v) (as_wait wait.now)) (take before ((table_state self.now).files file).waits))) }
    {
        match self.files.get(&file) {
            Some(locks) => locks.add_conflicting(owners, before, wait),
            None => Ok(()),
        }
    }
}
