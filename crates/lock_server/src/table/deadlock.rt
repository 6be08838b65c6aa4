//! Whether a wait would close a cycle.
ghost use Rattle.std.specs.Prelude.{◌≡◌, ◌↔◌, ℕ, Contains, IsTrue, IfOk, OnOk};
ghost use Rattle.range_core.specs.Ranges.{IsByteRange};
ghost use Rattle.lock_server.specs.Blockers.{AddsGoingOn, AddsOwners, IsGoingOn, SomeLeadsTo};
ghost use Rattle.lock_server.specs.Deadlock.{ClosesCycle, IsBlockedByOwner, WaitsFor};
ghost use Rattle.lock_server.specs.LookedAt.{AreTold};
ghost use Rattle.lock_server.specs.TableView.{table_state};

use super::Table;
use super::reached::Reached;
use crate::{Memory, Pending, Policy};

#[tactic(auto, unfolding(crate::specs::TableView::table_state, crate::specs::TableView::entry_of))]
impl Table {
    /// Whether the request, were it to wait, would close a cycle: some owner that blocks it is led to its own by detected waits
    /// (POSIX.1-2017 fcntl, `EDEADLK`).
    pub fn would_cycle(&self, policy: Policy, file: u64, wanted: &Pending) -> Result<bool, Memory>
        requires { IsByteRange wanted.now.span }
        ensures { IfOk result (λ cycle. IsTrue cycle ↔ ClosesCycle policy (table_state self.now) file wanted.now) }
    {
        let mut blockers = Vec::new(self.alloc);
        self.add_blockers(&mut blockers, policy, file, wanted)?;
        let mut reached = Reached::new(self.alloc);
        self.add_going_on(&mut reached, &blockers, wanted.owner)?;
        self.leads_to(reached, policy, wanted.owner)
    }

    /// Adds the owners that block the request, were it to wait on the file.
    fn add_blockers(
        &self,
        owners: &mut Vec<u64>,
        policy: Policy,
        file: u64,
        wanted: &Pending,
    ) -> Result<(), Memory>
        requires { IsByteRange wanted.now.span }
        ensures { OnOk result (AddsOwners owners.old.items owners.new.items
            (IsBlockedByOwner policy ((table_state self.now).files file) ((table_state self.now).files file).waits wanted.now)) }
    {
        match self.files.get(&file) {
            Some(locks) => locks.add_blockers(owners, policy, locks.waits(), wanted),
            None => Ok(()),
        }
    }

    /// Whether some of these owners is the target, or is led to it by detected waits.
    fn leads_to(&self, mut reached: Reached, policy: Policy, target: u64) -> Result<bool, Memory>
        requires { AreTold self.now target reached }
        ensures { IfOk result (λ leads. IsTrue leads ↔ SomeLeadsTo policy (table_state self.now) reached.owners.items target) }
    {
        let mut looked_at = 0;
        while let Some(owner) = reached.get(looked_at) {
            if owner == target {
                return Ok(true);
            }
            self.follow(&mut reached, policy, target, owner)?;
            looked_at += 1;
        }
        Ok(false)
    }

    /// Adds the owners for which this one waits.
    pub(super) fn add_steps(
        &self,
        owners: &mut Vec<u64>,
        policy: Policy,
        owner: u64,
    ) -> Result<(), Memory>
        ensures { OnOk result (AddsOwners owners.old.items owners.new.items (WaitsFor policy (table_state self.now) owner)) }
    {
        for file in self.waiters.files(owner) {
            if let Some(locks) = self.files.get(file) {
                locks.add_steps(owners, policy, owner)?;
            }
        }
        Ok(())
    }

    /// Adds those of the owners that are not there yet, and are the target or have a detected wait: no others lead on.
    pub(super) fn add_going_on(
        &self,
        reached: &mut Reached,
        owners: &[u64],
        target: u64,
    ) -> Result<(), Memory>
        ensures adds { OnOk result (AddsGoingOn self.now.waiters target (Contains owners.now) reached.old.owners.items reached.new.owners.items) }
        ensures looked_at { reached.new.looked_at ≡ reached.old.looked_at }
    {
        for owner in owners {
            if self.goes_on(*owner, target) {
                reached.add(*owner)?;
            }
        }
        Ok(())
    }

    /// Whether the owner is the target, or has a detected wait.
    fn goes_on(&self, owner: u64, target: u64) -> bool
        ensures { IsTrue result ↔ IsGoingOn self.now.waiters target owner }
    {
        owner == target || self.waiters.contains(owner)
    }
}
