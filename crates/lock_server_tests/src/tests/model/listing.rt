//! What the model has to list.
use super::{BYTES, Claim, FLOCK, Model, clash};
use crate::tests::calls::Told;
use lock_server::{FlockLock, Lock, Obstacle, Span};

impl Model {
    /// Whether the file has a lock or a wait.
    pub(crate) fn has_file(&self, file: u64) -> bool {
        for claim in self.locks.iter().chain(&self.waits) {
            if claim.file == file {
                return true;
            }
        }
        false
    }

    /// The byte lock of the owner that begins at the byte.
    pub(crate) fn lock_from(&self, file: u64, owner: u64, byte: u64) -> Option<Lock> {
        match self.lock_at(file, owner, byte) {
            Told::Lock(owner, mode, (first, last)) if first == byte => Some(Lock {
                owner,
                mode,
                span: Span { first, last },
            }),
            _ => None,
        }
    }

    /// The flock lock of the owner.
    pub(crate) fn flock_of(&self, file: u64, owner: u64) -> Option<FlockLock> {
        let mode = self.mode_at(file, owner, BYTES)?;
        Some(FlockLock { owner, mode })
    }

    /// Whether a wait of the owner on the file has the ticket.
    pub(crate) fn waits_by(&self, owner: u64, file: u64, ticket: u64) -> bool {
        for wait in &self.waits {
            if wait.owner == owner && wait.file == file && wait.ticket == ticket {
                return true;
            }
        }
        false
    }

    /// The place among all waits of the wait on the file at this place in order of arrival.
    fn place_on(&self, file: u64, place: usize) -> Option<usize> {
        let mut before: usize = 0;
        for (at, wait) in self.waits.iter().enumerate() {
            if wait.file == file {
                if before == place {
                    return Some(at);
                }
                before = before.wrapping_add(1);
            }
        }
        None
    }

    /// The ticket of the wait on the file at this place in order of arrival, and what is in its way.
    pub(crate) fn wait_at(&self, file: u64, place: usize) -> Option<(u64, Option<Obstacle>)> {
        let at = self.place_on(file, place)?;
        let wait = self.waits.get(at)?;
        Some((wait.ticket, self.obstacle(wait, at)))
    }

    /// What is in the way of the wait, before which so many stand: the first lock, and else the first of those waits.
    fn obstacle(&self, wait: &Claim, before: usize) -> Option<Obstacle> {
        match self.get(wait) {
            Told::Lock(owner, mode, _) if wait.first == FLOCK.0 => {
                Some(Obstacle::Flock(FlockLock { owner, mode }))
            }
            Told::Lock(owner, mode, (first, last)) => Some(Obstacle::Lock(Lock {
                owner,
                mode,
                span: Span { first, last },
            })),
            _ => self.first_clash(wait, before),
        }
    }

    /// The first of so many waits that clashes with the wait.
    fn first_clash(&self, wait: &Claim, before: usize) -> Option<Obstacle> {
        for other in self.waits.iter().take(before) {
            if clash(other, wait) {
                return Some(Obstacle::Wait(other.ticket));
            }
        }
        None
    }
}
