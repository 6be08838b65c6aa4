//! The locks on a file that its happenings leave.
ghost use Rattle.std.specs.Prelude.{◌≡◌, IfOk, OnErr, MatchOption, map, true, false};

use crate::byte_locks::ByteLock;
use crate::order::{Deed, Happening};
use crate::possibility::Possibility;
use range_core::{Memory, Mode};
use std::alloc::Global;

/// A lock of the whole file (flock(2)).
#[derive(Clone, Copy, Debug, PartialEq, Eq)]
pub struct FlockLock {
    /// Whose it is.
    pub owner: u64,
    /// The mode.
    pub mode: Mode,
}

/// The locks on a file as happenings leave them, one after another.
#[derive(Drop)]
pub struct HeldLocks {
    /// The locks, with no open request.
    possibility: Possibility,
}

impl HeldLocks {
    ghost use Rattle.history_core.specs.Locks.{FileLocks, no_locks};
    ghost use Rattle.history_core.specs.Orders.{MayHappen};
    ghost use Rattle.history_core.specs.ByteLists.{bytes_in};
    ghost use Rattle.history_core.specs.HeldView.{flock_of, flocks_in, locks_in};
    ghost use Rattle.history_core.specs.PossibilityView.{locks_of};

    /// Nobody has a lock.
    pub fn new(alloc: Global) -> HeldLocks
        ensures { locks_in result ≡ no_locks }
    {
        HeldLocks {
            possibility: Possibility::new(alloc),
        }
    }

    /// What the happening leaves; `false` where it isn't possible under these locks, which stay then.
    ///
    /// `Memory` leaves the locks as they were.
    pub fn apply(&mut self, happening: Happening) -> Result<bool, Memory>
        ensures leaves { IfOk result (λ may. may ≡ true → MayHappen (locks_in self.old) happening (locks_in self.new)) }
        ensures may_not { IfOk result (λ may. may ≡ false → (after : FileLocks) → ¬ MayHappen (locks_in self.old) happening after) }
        ensures stays { IfOk result (λ may. may ≡ false → locks_in self.new ≡ locks_in self.old) }
        ensures err { OnErr result (locks_in self.new ≡ locks_in self.old) }
    {
        let Some(next) = self.behind(happening)? else {
            return Ok(false);
        };
        self.possibility = next;
        Ok(true)
    }

    /// The locks behind the happening; none where it isn't possible under these.
    fn behind(&self, happening: Happening) -> Result<Option<Possibility>, Memory>
        ensures { IfOk result (λ next. MatchOption next
            ((after : FileLocks) → ¬ MayHappen (locks_in self.now) happening after)
            (λ p. MayHappen (locks_in self.now) happening (locks_of p))) }
    {
        match happening.deed {
            Deed::Effect => self.possibility.behind_request(happening.request),
            Deed::LetGo => self.possibility.behind_conversion(happening.request),
        }
    }

    /// The byte locks, by owner and first byte, in largest ranges of one mode.
    pub fn byte_locks(&self) -> &[ByteLock]
        ensures { bytes_in result.now ≡ (locks_in self.now).bytes }
    {
        self.possibility.byte_locks()
    }

    /// The flock locks, by owner (flock(2)).
    pub fn flock_locks(&self, alloc: Global) -> Result<Vec<FlockLock>, Memory>
        ensures { IfOk result (λ locks. flocks_in locks.items ≡ (locks_in self.now).flocks) }
    {
        let locks = self.flock_list(alloc)?;
        Ok(locks)
    }

    /// Each flock lock without its byte.
    fn flock_list(&self, alloc: Global) -> Result<Vec<FlockLock>, Memory>
        ensures { IfOk result (λ locks. locks.items ≡ map flock_of self.now.possibility.flocks.locks.runs.items) }
    {
        let locks = self
            .possibility
            .flock_locks()
            .iter()
            .map(|lock| FlockLock {
                owner: lock.owner,
                mode: lock.mode,
            })
            .collect(alloc)?;
        Ok(locks)
    }
}
