//! A server as lists of the bytes and waits there are, each looked through whole at each question.
mod listing;

use super::calls::{Bytes, Call, Told};
use lock_server::{Conversion, Memory, Mode, Policy, Rules};
use std::alloc::Global;
use std::collections::BTreeSet;

/// How many owners the model knows, from 0 on.
pub(super) const OWNERS: u64 = 4;

/// How many files the model knows, from 0 on.
pub(super) const FILES: u64 = 2;

/// How many bytes of a file the model knows, from 0 on.
pub(super) const BYTES: u64 = 16;

/// A flock lock is the lock of a byte past the others.
const FLOCK: Bytes = (BYTES, BYTES);

/// A lock that an owner has or waits for.
#[derive(Clone, Copy)]
struct Claim {
    ticket: u64,
    file: u64,
    owner: u64,
    first: u64,
    last: u64,
    mode: Mode,
    detect: bool,
}

/// All locks and waits, the grants that were not fetched, and of each file and owner through which open file it was last seen.
#[derive(Drop)]
pub(super) struct Model {
    rules: Rules,
    alloc: Global,
    /// Each of one byte.
    locks: Vec<Claim>,
    waits: Vec<Claim>,
    grants: Vec<u64>,
    seen: Vec<(u64, u64, u64)>,
}

/// The owners that are in the way of a claim, by way of others too: in the order in which they were come to, and to be looked up.
#[derive(Drop)]
struct Reached {
    owners: Vec<u64>,
    known: BTreeSet<u64>,
}

/// A claim that no wait is made of.
fn claim_on(file: u64, owner: u64, bytes: Bytes, mode: Mode) -> Claim {
    Claim {
        ticket: 0,
        file,
        owner,
        first: bytes.0,
        last: bytes.1,
        mode,
        detect: false,
    }
}

/// Whether two owners could not both have what they claim.
fn clash(one: &Claim, other: &Claim) -> bool {
    one.file == other.file
        && one.owner != other.owner
        && (one.mode == Mode::Write || other.mode == Mode::Write)
        && one.first <= other.last
        && other.first <= one.last
}

impl Model {
    /// No lock and no wait.
    pub(super) fn new(alloc: Global, rules: Rules) -> Model {
        Model {
            rules,
            alloc,
            locks: Vec::new(alloc),
            waits: Vec::new(alloc),
            grants: Vec::new(alloc),
            seen: Vec::new(alloc),
        }
    }

    /// What the model tells of the call on the file.
    pub(super) fn serve(&mut self, file: u64, call: Call) -> Result<Told, Memory> {
        match call {
            Call::Set(owner, bytes, Some(mode)) => self.set(&claim_on(file, owner, bytes, mode)),
            Call::Set(owner, bytes, None) => self.clear(file, owner, bytes),
            Call::Wait(ticket, owner, bytes, mode, detect) => self.wait(&Claim {
                ticket,
                detect,
                ..claim_on(file, owner, bytes, mode)
            }),
            Call::Get(owner, bytes, mode) => Ok(self.get(&claim_on(file, owner, bytes, mode))),
            Call::Flock(owner, Some(mode)) => self.set(&claim_on(file, owner, FLOCK, mode)),
            Call::FlockWait(ticket, owner, mode) => self.wait(&Claim {
                ticket,
                ..claim_on(file, owner, FLOCK, mode)
            }),
            Call::Flock(owner, None) => self.clear(file, owner, FLOCK),
            other => self.go_on_with(file, other),
        }
    }

    /// The same of a call that asks for no lock and removes none by its bytes.
    fn go_on_with(&mut self, file: u64, call: Call) -> Result<Told, Memory> {
        match call {
            Call::Cancel(ticket) => self.cancel(ticket),
            Call::Grant => Ok(self.next_grant()),
            Call::HasLocks(first, last) => Ok(self.has_locks(first, last)),
            Call::Counts(first, last) => Ok(self.counts(first, last)),
            other => self.end(file, other),
        }
    }

    /// The same of a call that tells nothing else than that it is done.
    fn end(&mut self, file: u64, call: Call) -> Result<Told, Memory> {
        match call {
            Call::FlockRelease(owner) => self.clear(file, owner, FLOCK),
            Call::Flush(owner) => self.flush(file, owner),
            Call::Forget(owner) => self.forget(owner),
            Call::Note(owner, open_file) => self.note(file, owner, open_file),
            Call::Release(open_file, flock_owner) => self.release(file, open_file, flock_owner),
            Call::ForgetOwners(first, last) => self.forget_owners(first, last),
            Call::ForgetFile => Ok(self.forget_file(file)),
            _ => Ok(Told::Done),
        }
    }

    /// The mode that the owner has on the byte.
    fn mode_at(&self, file: u64, owner: u64, byte: u64) -> Option<Mode> {
        for lock in &self.locks {
            if lock.file == file && lock.owner == owner && lock.first == byte {
                return Some(lock.mode);
            }
        }
        None
    }

    /// Whether the owner of the claim has at least its mode on each of its bytes.
    fn has(&self, claim: &Claim) -> bool {
        for byte in claim.first..=claim.last {
            match self.mode_at(claim.file, claim.owner, byte) {
                Some(held) if held == Mode::Write || held == claim.mode => {}
                _ => return false,
            }
        }
        true
    }

    /// How many of so many waits that came before can be in the way of the claim: under the queue policy all of them, where the claim is
    /// for more than its owner has.
    fn waits_before(&self, claim: &Claim, before: usize) -> usize {
        if self.rules.policy == Policy::Queue && !self.has(claim) {
            before
        } else {
            0
        }
    }

    /// Whether a lock or one of so many waits that came before is in the way of the claim.
    fn is_blocked(&self, claim: &Claim, before: usize) -> bool {
        let waits = self.waits_before(claim, before);
        for other in self.locks.iter().chain(self.waits.iter().take(waits)) {
            if clash(other, claim) {
                return true;
            }
        }
        false
    }

    /// Adds the owners of the locks and of so many waits that came before that are in the way of the claim.
    fn reach(&self, reached: &mut Reached, claim: &Claim, before: usize) -> Result<(), Memory> {
        let waits = self.waits_before(claim, before);
        for other in self.locks.iter().chain(self.waits.iter().take(waits)) {
            if clash(other, claim) && reached.known.insert(other.owner)? {
                reached.owners.push(other.owner)?;
            }
        }
        Ok(())
    }

    /// Adds those that are in the way of a wait of the owner that is looked at for deadlocks.
    fn go_on(&self, reached: &mut Reached, owner: u64) -> Result<(), Memory> {
        for (place, wait) in self.waits.iter().enumerate() {
            if wait.detect && wait.owner == owner {
                self.reach(reached, wait, place)?;
            }
        }
        Ok(())
    }

    /// Whether the claim, were it to wait, would close a cycle of owners that wait for each other.
    fn would_cycle(&self, claim: &Claim) -> Result<bool, Memory> {
        let mut reached = Reached {
            owners: Vec::new(self.alloc),
            known: BTreeSet::new(self.alloc),
        };
        self.reach(&mut reached, claim, self.waits.len())?;
        for next in 0..usize::MAX {
            let Some(owner) = reached.owners.get(next).copied() else {
                break;
            };
            self.go_on(&mut reached, owner)?;
        }
        Ok(reached.known.contains(&claim.owner))
    }

    /// The lock of the owner on the byte, with what it has in the same mode on both sides.
    fn lock_at(&self, file: u64, owner: u64, byte: u64) -> Told {
        let Some(mode) = self.mode_at(file, owner, byte) else {
            return Told::Nothing;
        };
        let mut first = 0;
        for at in 0..BYTES {
            if self.mode_at(file, owner, at) == Some(mode) {
                continue;
            }
            if byte < at {
                return Told::Lock(owner, mode, (first, at - 1));
            }
            first = at + 1;
        }
        Told::Lock(owner, mode, (first, BYTES - 1))
    }

    /// The lock that is told of a byte in the way: of the least owner that is.
    fn get_at(&self, claim: &Claim) -> Told {
        let mut least = None;
        for lock in &self.locks {
            if clash(lock, claim) && least.is_none_or(|owner| lock.owner < owner) {
                least = Some(lock.owner);
            }
        }
        match least {
            Some(owner) => self.lock_at(claim.file, owner, claim.first),
            None => Told::Nothing,
        }
    }

    /// The first lock that is in the way of the claim.
    fn get(&self, claim: &Claim) -> Told {
        for byte in claim.first..=claim.last {
            let told = self.get_at(&Claim {
                first: byte,
                last: byte,
                ..*claim
            });
            if told != Told::Nothing {
                return told;
            }
        }
        Told::Nothing
    }
}

impl Model {
    /// The owner has no lock on the bytes.
    fn unlock(&mut self, file: u64, owner: u64, bytes: Bytes) {
        let (first, last) = bytes;
        self.locks.retain(|lock| {
            lock.file != file || lock.owner != owner || lock.first < first || last < lock.first
        });
    }

    /// The owner gets what it claims.
    fn give(&mut self, claim: &Claim) -> Result<(), Memory> {
        self.unlock(claim.file, claim.owner, (claim.first, claim.last));
        for byte in claim.first..=claim.last {
            self.locks.push(Claim {
                first: byte,
                last: byte,
                ..*claim
            })?;
        }
        Ok(())
    }

    /// The place of the earliest wait that is not blocked.
    fn next_ready(&self) -> Option<usize> {
        for (place, wait) in self.waits.iter().enumerate() {
            if !self.is_blocked(wait, place) {
                return Some(place);
            }
        }
        None
    }

    /// The earliest wait that is not blocked is granted, again and again.
    fn settle(&mut self) -> Result<Told, Memory> {
        for _ in 0..self.waits.len() {
            match self.next_ready() {
                Some(place) if place < self.waits.len() => {
                    let wait = self.waits.remove(place);
                    self.give(&wait)?;
                    self.grants.push(wait.ticket)?;
                }
                _ => return Ok(Told::Done),
            }
        }
        Ok(Told::Done)
    }

    /// The locks of the owner on the bytes go.
    fn clear(&mut self, file: u64, owner: u64, bytes: Bytes) -> Result<Told, Memory> {
        self.unlock(file, owner, bytes);
        self.settle()
    }

    /// What a claim comes to for a flock lock that its owner has in this mode already, or converts at once; a lock that is converted step
    /// by step goes, and the claim is still to be tested.
    fn convert(&mut self, claim: &Claim, may_wait: bool) -> Result<Option<Told>, Memory> {
        let held = self.mode_at(claim.file, claim.owner, BYTES);
        if claim.first != BYTES || held.is_none() {
            return Ok(None);
        }
        if held == Some(claim.mode) {
            return Ok(Some(Told::Done));
        }
        if self.rules.conversion == Conversion::Atomic {
            return Ok(Some(self.convert_at_once(claim, may_wait)?));
        }
        self.clear(claim.file, claim.owner, FLOCK)?;
        Ok(None)
    }

    /// The lock goes, and the claim is tested before any wait is granted.
    fn convert_at_once(&mut self, claim: &Claim, may_wait: bool) -> Result<Told, Memory> {
        let before = if may_wait && !self.has(claim) {
            self.waits.len()
        } else {
            0
        };
        self.unlock(claim.file, claim.owner, FLOCK);
        let told = if !self.is_blocked(claim, before) {
            self.give(claim)?;
            Told::Done
        } else if may_wait {
            self.waits.push(*claim)?;
            Told::Waits
        } else {
            Told::Blocked
        };
        self.settle()?;
        Ok(told)
    }

    /// A claim that doesn't wait.
    fn set(&mut self, claim: &Claim) -> Result<Told, Memory> {
        if let Some(told) = self.convert(claim, false)? {
            return Ok(told);
        }
        if self.is_blocked(claim, 0) {
            return Ok(Told::Blocked);
        }
        self.give(claim)?;
        self.settle()
    }

    /// The place of the wait with the ticket.
    fn place_of(&self, ticket: u64) -> Option<usize> {
        for (place, wait) in self.waits.iter().enumerate() {
            if wait.ticket == ticket {
                return Some(place);
            }
        }
        None
    }

    /// A claim that may wait.
    fn wait(&mut self, claim: &Claim) -> Result<Told, Memory> {
        if self.grants.contains(&claim.ticket) || self.place_of(claim.ticket).is_some() {
            return Ok(Told::Taken);
        }
        if let Some(told) = self.convert(claim, true)? {
            return Ok(told);
        }
        if !self.is_blocked(claim, self.waits.len()) {
            self.give(claim)?;
            return self.settle();
        }
        if claim.detect && self.would_cycle(claim)? {
            return Ok(Told::Deadlock);
        }
        self.waits.push(*claim)?;
        Ok(Told::Waits)
    }

    /// The wait with the ticket goes, where there is one.
    fn cancel(&mut self, ticket: u64) -> Result<Told, Memory> {
        match self.place_of(ticket) {
            Some(place) if place < self.waits.len() => {
                self.waits.remove(place);
                self.settle()
            }
            _ => Ok(Told::Nothing),
        }
    }

    /// The owner was seen through no open file of the file.
    fn unsee(&mut self, file: u64, owner: u64) {
        self.seen.retain(|seen| seen.0 != file || seen.1 != owner);
    }

    /// The owner has no byte lock on the file, and was seen through no open file of it.
    fn drop_bytes(&mut self, file: u64, owner: u64) {
        self.unlock(file, owner, (0, BYTES - 1));
        self.unsee(file, owner);
    }

    /// The byte locks of the owner on the file go.
    fn flush(&mut self, file: u64, owner: u64) -> Result<Told, Memory> {
        self.drop_bytes(file, owner);
        self.settle()
    }

    /// The byte locks and the waits for them of the owner go, on each file in turn.
    fn forget(&mut self, owner: u64) -> Result<Told, Memory> {
        for file in 0..FILES {
            self.waits.retain(|wait| {
                wait.file != file || wait.owner != owner || wait.first == BYTES
            });
            self.flush(file, owner)?;
        }
        Ok(Told::Done)
    }

    /// The owner is seen through the open file of the file.
    fn note(&mut self, file: u64, owner: u64, open_file: u64) -> Result<Told, Memory> {
        self.unsee(file, owner);
        self.seen.push((file, owner, open_file))?;
        Ok(Told::Done)
    }

    /// The byte locks of those that were last seen through the open file go, and the flock lock of the flock owner.
    fn release(
        &mut self,
        file: u64,
        open_file: u64,
        flock_owner: Option<u64>,
    ) -> Result<Told, Memory> {
        for owner in 0..OWNERS {
            if self.seen.contains(&(file, owner, open_file)) {
                self.drop_bytes(file, owner);
            }
        }
        if let Some(owner) = flock_owner {
            self.unlock(file, owner, FLOCK);
        }
        self.settle()
    }

    /// The earliest wait on the file that is not blocked is granted, where there is one.
    fn grant_on(&mut self, file: u64) -> Result<(), Memory> {
        for (place, wait) in self.waits.iter().enumerate() {
            if wait.file == file && !self.is_blocked(wait, place) {
                return self.grant_at(place);
            }
        }
        Ok(())
    }

    /// The wait at this place is granted.
    fn grant_at(&mut self, place: usize) -> Result<(), Memory> {
        if place < self.waits.len() {
            let wait = self.waits.remove(place);
            self.give(&wait)?;
            self.grants.push(wait.ticket)?;
        }
        Ok(())
    }

    /// All that the owners from the first to the last have goes, and then each file is settled, one after the other.
    fn forget_owners(&mut self, first: u64, last: u64) -> Result<Told, Memory> {
        self.locks
            .retain(|lock| lock.owner < first || last < lock.owner);
        self.waits
            .retain(|wait| wait.owner < first || last < wait.owner);
        self.seen.retain(|seen| seen.1 < first || last < seen.1);
        for file in 0..FILES {
            for _ in 0..self.waits.len() {
                self.grant_on(file)?;
            }
        }
        Ok(Told::Done)
    }

    /// All that is on the file goes.
    fn forget_file(&mut self, file: u64) -> Told {
        self.locks.retain(|lock| lock.file != file);
        self.waits.retain(|wait| wait.file != file);
        self.seen.retain(|seen| seen.0 != file);
        Told::Done
    }

    /// Whether one of the owners has a lock.
    fn has_locks(&self, first: u64, last: u64) -> Told {
        for lock in &self.locks {
            if first <= lock.owner && lock.owner <= last {
                return Told::Having(true);
            }
        }
        Told::Having(false)
    }

    /// Whether the lock of a byte is the first one of a range of its mode.
    fn is_first(&self, lock: &Claim) -> bool {
        lock.first == 0 || self.mode_at(lock.file, lock.owner, lock.first - 1) != Some(lock.mode)
    }

    /// How many ranges, flock locks and waits the owners have.
    fn counts(&self, first: u64, last: u64) -> Told {
        let (mut runs, mut flock_locks, mut waits) = (0usize, 0usize, 0usize);
        for lock in &self.locks {
            if lock.owner < first || last < lock.owner {
                continue;
            }
            if lock.first == BYTES {
                flock_locks = flock_locks.wrapping_add(1);
            } else if self.is_first(lock) {
                runs = runs.wrapping_add(1);
            }
        }
        for wait in &self.waits {
            if first <= wait.owner && wait.owner <= last {
                waits = waits.wrapping_add(1);
            }
        }
        Told::Counts(runs, flock_locks, waits)
    }

    /// The oldest grant, which is told once.
    fn next_grant(&mut self) -> Told {
        if self.grants.is_empty() {
            return Told::Nothing;
        }
        Told::Granted(self.grants.remove(0))
    }
}
