//! The whole-file locks of a file by description, counted by mode.
ghost use Rattle.std.specs.Prelude.{ℕ, ◌≡◌, ◌+◌, ◌^◌, ◌<◌, ◌≤◌, ◌↔◌, IsTrue, IsSome, IsOk, None, Option, Some, OnOk, OnErr};
ghost use Rattle.std.specs.BTreeMap.{IsOrdered};
ghost use Rattle.std.specs.Ordering.{nat_cmp};
ghost use Rattle.std.proofs.Props.{props};
ghost use Rattle.range_core.specs.declared.Mode.TheVariants.{Read, Write};
ghost use Rattle.lock_book.specs.Conflicts.{FlockConflict};
ghost use Rattle.lock_book.specs.Holders.{Places, PutsAmong, StandsAmong, conflicting, flock_modes_among, locks_among, locks_in, mode_in_place, place_among};

use crate::Owner;
use range_core::{Memory, Mode};
use std::alloc::Global;
use std::collections::BTreeMap;

/// How many flock locks there are of each mode.
#[derive(Clone, Copy)]
pub struct LockCount {
    shared: usize,
    exclusive: usize,
}

impl LockCount {
    /// The count with one lock more, if that is one.
    fn with(self, lock: Option<Mode>) -> LockCount
        requires shared_fits { self.shared + locks_in Mode.Read lock < 2 ^ 64 }
        requires exclusive_fits { self.exclusive + locks_in Mode.Write lock < 2 ^ 64 }
        ensures shared { result.shared ≡ self.shared + locks_in Mode.Read lock }
        ensures exclusive { result.exclusive ≡ self.exclusive + locks_in Mode.Write lock }
    {
        let mut count = self;
        match lock {
            Some(Mode::Read) => count.shared += 1,
            Some(Mode::Write) => count.exclusive += 1,
            None => {}
        }
        count
    }

    /// The count with one lock less, if that is one.
    fn without(self, lock: Option<Mode>) -> LockCount
        requires shared_counted { locks_in Mode.Read lock ≤ self.shared }
        requires exclusive_counted { locks_in Mode.Write lock ≤ self.exclusive }
        ensures shared { result.shared + locks_in Mode.Read lock ≡ self.shared }
        ensures exclusive { result.exclusive + locks_in Mode.Write lock ≡ self.exclusive }
    {
        let mut count = self;
        match lock {
            Some(Mode::Read) => count.shared -= 1,
            Some(Mode::Write) => count.exclusive -= 1,
            None => {}
        }
        count
    }

    /// Whether one of these locks conflicts with one of the wanted mode.
    fn conflicts_with(self, wanted: Mode) -> bool
        ensures { IsTrue result ↔ (0 < conflicting self wanted) }
    {
        match wanted {
            Mode::Read => self.exclusive > 0,
            Mode::Write => self.exclusive > 0 || self.shared > 0,
        }
    }

    /// Whether two of these locks conflict with one of the wanted mode.
    fn conflict_twice(self, wanted: Mode) -> bool
        ensures { IsTrue result ↔ (2 ≤ conflicting self wanted) }
    {
        match wanted {
            Mode::Read => self.exclusive > 1,
            Mode::Write => self.exclusive.saturating_add(self.shared) > 1,
        }
    }
}

/// A description's flock lock.
#[derive(Clone, Copy)]
pub struct FlockLock {
    description: u64,
    mode: Mode,
}

/// The places that are kept for the flock locks on one file, by description, with the mode that stands in each, how many
/// locks of each mode that makes, and the lock that was set last, while it stands.
#[derive(Drop)]
pub struct FlockHolders {
    places: BTreeMap<u64, Option<Mode>>,
    locks: LockCount,
    latest: Option<FlockLock>,
    ghost ordered: { IsOrdered nat_cmp places } by { Prim.hlevel props },
    ghost shared: { locks.shared ≡ locks_among Read places.entries },
    ghost exclusive: { locks.exclusive ≡ locks_among Write places.entries },
    ghost stands: { StandsAmong latest places.entries },
}

impl FlockHolders {
    /// No place. It takes no memory.
    pub fn new(alloc: Global) -> FlockHolders
        ensures { (description : ℕ) → place_among result.places.entries description ≡ None }
    {
        FlockHolders {
            places: BTreeMap::new(alloc),
            locks: LockCount {
                shared: 0,
                exclusive: 0,
            },
            latest: None,
        }
    }

    /// The place of the description. One that is newer than all that have a place, as a description at its first lock mostly is,
    /// isn't searched for.
    pub fn place(&self, description: u64) -> Option<Option<Mode>>
        ensures { result ≡ place_among self.now.places.entries description }
    {
        if self.is_beyond_all(description) {
            return None;
        }
        self.places.get(&description).copied()
    }

    /// Whether each description that has a place is of a lower number.
    fn is_beyond_all(&self, description: u64) -> bool
        ensures { IsTrue result → place_among self.now.places.entries description ≡ None }
    {
        match self.places.last_key_value() {
            Some((last, _)) => *last < description,
            None => true,
        }
    }

    /// All places, by description.
    pub fn places(&self) -> &BTreeMap<u64, Option<Mode>>
        ensures { result.now ≡ self.now.places }
    {
        &self.places
    }

    /// Puts the mode into the place of the description, which is made where there is none.
    ///
    /// `Memory`, which never comes where that place is there, leaves the places as they were.
    pub fn put(&mut self, description: u64, mode: Option<Mode>) -> Result<(), Memory>
        ensures ok { OnOk result (PutsAmong self.old.places.entries self.new.places.entries description (Some mode)) }
        ensures there { IsSome (place_among self.old.places.entries description) → IsOk result }
        ensures err { OnErr result (self.new.places.entries ≡ self.old.places.entries) }
    {
        let before = self.places.insert(description, mode)?.flatten();
        // A count is at most the number of places.
        prove!(self.places.len() < usize::MAX);
        self.locks = self.locks.without(before).with(mode);
        self.latest = latest_after(self.latest, description, mode);
        Ok(())
    }

    /// Puts the mode into the place of the description, and hands back that place as it was; without a place it changes
    /// nothing. It takes no memory.
    pub fn replace(&mut self, description: u64, mode: Option<Mode>) -> Option<Option<Mode>>
        ensures before { result ≡ place_among self.old.places.entries description }
        ensures puts { IsSome result → PutsAmong self.old.places.entries self.new.places.entries description (Some mode) }
        ensures absent { result ≡ None → self.new.places.entries ≡ self.old.places.entries }
    {
        let place = self.places.get_mut(&description)?;
        let old = *place;
        *place = mode;
        prove!(self.places.len() < usize::MAX);
        self.locks = self.locks.without(old).with(mode);
        self.latest = latest_after(self.latest, description, mode);
        Some(old)
    }

    /// Removes the place of the description, with the mode that stands there. It takes no memory.
    pub fn remove(&mut self, description: u64)
        ensures { PutsAmong self.old.places.entries self.new.places.entries description None }
    {
        let old = self.places.remove(&description);
        self.locks = self.locks.without(old.flatten());
        self.latest = latest_after(self.latest, description, None);
    }

    /// Whether no description has a lock, however many places are kept.
    pub fn is_empty(&self) -> bool
        ensures { IsTrue result ↔ ((description : ℕ) → flock_modes_among self.now.places.entries description ≡ None) }
    {
        !self.locks.conflicts_with(Mode::Write)
    }

    /// Whether each description is kept from a lock of the wanted mode by another one's.
    pub fn blocks_all(&self, wanted: Mode) -> bool
        ensures { IsTrue result
            ↔ ((description : ℕ) → FlockConflict (flock_modes_among self.now.places.entries) (Owner.Description description) wanted) }
    {
        self.locks.conflict_twice(wanted)
    }

    /// Whether a lock of another description conflicts with one of the wanted mode. It looks for the description's own place only
    /// where one lock conflicts that may be its own.
    pub fn blocked(&self, description: u64, wanted: Mode) -> bool
        ensures { IsTrue result
            ↔ FlockConflict (flock_modes_among self.now.places.entries) (Owner.Description description) wanted }
    {
        self.locks.conflict_twice(wanted)
            || self.locks.conflicts_with(wanted)
                && (self.latest_blocks(description, wanted)
                    || self.blocked_by_others(description, wanted))
    }

    /// Whether the lock that was set last is another description's and conflicts with one of the wanted mode.
    fn latest_blocks(&self, description: u64, wanted: Mode) -> bool
        ensures { IsTrue result
            → FlockConflict (flock_modes_among self.now.places.entries) (Owner.Description description) wanted }
    {
        match self.latest {
            Some(lock) => lock.description != description && lock.mode.conflicts_with(wanted),
            None => false,
        }
    }

    /// Whether a lock of another description conflicts with one of the wanted mode, by the count of all locks but its own.
    fn blocked_by_others(&self, description: u64, wanted: Mode) -> bool
        ensures { IsTrue result
            ↔ FlockConflict (flock_modes_among self.now.places.entries) (Owner.Description description) wanted }
    {
        let own = self.place(description).flatten();
        self.locks.without(own).conflicts_with(wanted)
    }
}

/// The lock that was set last, and stands, once this mode stands in the place of the description.
fn latest_after(
    latest: Option<FlockLock>,
    description: u64,
    mode: Option<Mode>,
) -> Option<FlockLock>
    ensures { (before after : Places) (place : Option (Option Mode)) → StandsAmong latest before
        → PutsAmong before after description place → mode_in_place place ≡ mode → StandsAmong result after }
{
    match (mode, latest) {
        (Some(mode), _) => Some(FlockLock { description, mode }),
        (None, Some(lock)) if lock.description == description => None,
        (None, latest) => latest,
    }
}
