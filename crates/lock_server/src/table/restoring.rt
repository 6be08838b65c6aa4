//! What bytes tell of is put into a table without locks and waits: no wait is granted.
ghost use Rattle.std.specs.Prelude.{◌≡◌, [], ◌∷◌, All, IfOk, OnOk, IfSome, IfNone, IsTrue, Some, ℕ, slice_get};
ghost use Rattle.range_core.specs.Ranges.{IsByteRange};
ghost use Rattle.lock_server.specs.Restoring.{AreSettled, CrossesEach, flock_lock_request, JoinsUpTo, lock_request, QueuesEach, QueuesUpTo, SetsUpTo};
ghost use Rattle.lock_server.specs.Settling.{IsSettled};
ghost use Rattle.lock_server.specs.States.{IsTaken};
ghost use Rattle.lock_server.specs.TableView.{AreSwept, KeepsEntries, KeepsOthers, table_state};

use super::Table;
use crate::freed::Known;
use crate::requests::{NO_TICKET, byte_request, flock_request};
use crate::{FlockLock, Lock, Memory, Pending, Policy};

#[tactic(auto, unfolding(crate::specs::TableView::table_state, crate::specs::TableView::entry_of))]
impl Table {
    /// Sets these byte locks on the file, up to the first one that is held back, whose place is told.
    pub fn restore_locks(&mut self, file: u64, locks: &[Lock]) -> Result<Option<usize>, Memory>
        requires { All (λ lock. IsByteRange lock.span) locks.now }
        ensures sets { IfOk result (λ held_back. SetsUpTo lock_request (table_state self.old) file locks.now held_back (table_state self.new)) }
        ensures swept { AreSwept self.old → AreSwept self.new }
    {
        for (i, lock) in locks.iter().enumerate() {
            let wanted = byte_request(NO_TICKET, lock.owner, lock.span, lock.mode, false);
            if self.holds_back(file, &wanted) {
                return Ok(Some(i));
            }
            self.set(file, lock.owner, lock.span, Some(lock.mode))?;
        }
        Ok(None)
    }

    /// Sets these flock locks on the file, up to the first one that is held back, whose place is told.
    pub fn restore_flocks(
        &mut self,
        file: u64,
        locks: &[FlockLock],
    ) -> Result<Option<usize>, Memory>
        ensures sets { IfOk result (λ held_back. SetsUpTo flock_lock_request (table_state self.old) file locks.now held_back (table_state self.new)) }
        ensures swept { AreSwept self.old → AreSwept self.new }
    {
        for (i, lock) in locks.iter().enumerate() {
            let wanted = flock_request(NO_TICKET, lock.owner, lock.mode);
            if self.holds_back(file, &wanted) {
                return Ok(Some(i));
            }
            self.place_flock(file, lock.owner)?;
            self.set_flock(file, lock.owner, Some(lock.mode));
        }
        Ok(None)
    }

    /// These waits join on the file, up to the first one whose ticket is taken, whose place is told.
    pub fn restore_waits(&mut self, file: u64, waits: &[Pending]) -> Result<Option<usize>, Memory>
        requires { All (λ wait. IsByteRange wait.span) waits.now }
        ensures joins { IfOk result (λ taken. JoinsUpTo (table_state self.old) file waits.now taken (table_state self.new)) }
        ensures swept { AreSwept self.old → AreSwept self.new }
    {
        for (i, wait) in waits.iter().enumerate() {
            if self.is_taken(wait.ticket) {
                return Ok(Some(i));
            }
            self.reserve(file, wait)?;
            self.join(file, *wait);
        }
        Ok(None)
    }

    /// These grants are queued, up to the first one whose ticket is taken, whose place is told.
    pub fn restore_grants(&mut self, tickets: &[u64]) -> Result<Option<usize>, Memory>
        ensures queues { IfOk result (λ taken. QueuesUpTo (table_state self.old) tickets.now taken (table_state self.new)) }
        ensures entries { KeepsEntries self.old self.new }
    {
        for (i, ticket) in tickets.iter().enumerate() {
            if self.is_taken(*ticket) {
                return Ok(Some(i));
            }
            self.queue(*ticket)?;
        }
        Ok(None)
    }

    /// A grant is queued whose ticket is free.
    fn queue(&mut self, ticket: u64) -> Result<(), Memory>
        requires { ¬ IsTaken (table_state self.old) ticket }
        ensures queues { OnOk result (QueuesEach (table_state self.old) (ticket ∷ []) (table_state self.new)) }
        ensures entries { KeepsEntries self.old self.new }
    {
        self.tickets.queue(ticket)
    }

    /// These owners are crossed, where they have detected waits. It takes no memory.
    pub fn restore_crossed(&mut self, owners: &[u64])
        ensures crosses { CrossesEach (table_state self.old) owners.now (table_state self.new) }
        ensures entries { KeepsEntries self.old self.new }
    {
        for owner in owners {
            self.cross(*owner);
        }
    }

    /// The owner is crossed, where it has a detected wait.
    fn cross(&mut self, owner: u64)
        ensures crosses { CrossesEach (table_state self.old) (owner ∷ []) (table_state self.new) }
        ensures entries { KeepsEntries self.old self.new }
    {
        self.waiters.cross(owner);
    }

    /// The place of the first of these owners that isn't crossed.
    pub fn first_uncrossed(&self, owners: &[u64]) -> Option<usize>
        ensures some { IfSome result (λ place. (owner : ℕ) × (slice_get owners.now place ≡ Some owner) × ¬ IsTrue ((table_state self.now).crossed owner)) }
        ensures none { IfNone result (All (λ owner. IsTrue ((table_state self.now).crossed owner)) owners.now) }
    {
        owners
            .iter()
            .position(|owner| !self.waiters.is_crossed(*owner))
    }

    /// The first file with a wait that nothing blocks, and the place of the first such wait there.
    pub fn first_ready(&self, policy: Policy) -> Option<(u64, usize)>
        ensures some { IfSome result (λ found. ¬ IsSettled policy ((table_state self.now).files found.0)) }
        ensures none { IfNone result (AreSettled policy (table_state self.now)) }
    {
        let mut above = None;
        while let Some(file) = self.next_file(above) {
            if let Some(place) = self.next_ready(policy, file, Known::nothing()) {
                return Some((file, place as usize));
            }
            above = Some(file);
        }
        None
    }
}
