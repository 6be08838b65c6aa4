//! The owners with waits that take part in the search for deadlocks.
ghost use Rattle.std.specs.Prelude.{◌≡◌, ◌≢◌, ◌++◌, ◌↔◌, ℕ, [], ◌∷◌, false, None, IsTrue, OnOk, length};

mod crossing;
mod export;

use crate::{Memory, Mode, Pending};
use std::alloc::Global;
use std::collections::BTreeMap;

/// The owners with detected waits: on which files, and whether a lock was given to them while one was pending.
#[derive(Drop)]
pub struct Waiters {
    owners: BTreeMap<u64, Waiter>,
    alloc: Global,
}

/// One owner of them.
#[derive(Drop)]
pub struct Waiter {
    files: Vec<u64>,
    crossed: bool,
}

#[tactic(auto, unfolding(crate::specs::WaitersView::files_of, crate::specs::WaitersView::crossed_of, crate::specs::WaitersView::waiter_of))]
impl Waiters {
    ghost use Rattle.lock_server.specs.WaitersView.{files_of, crossed_of, Begins, Crosses, Ends, HasWaiterRoom, SameWaiters, Sweeps, waiter_of, BeginsIf, CrossesIf, EndsIf, HasRoomIf};

    /// No owner. It takes no memory.
    pub fn new(alloc: Global) -> Waiters
        ensures files { (owner : ℕ) → files_of result owner ≡ [] }
        ensures crossed { (owner : ℕ) → crossed_of result owner ≡ false }
    {
        Waiters {
            owners: BTreeMap::new(alloc),
            alloc,
        }
    }

    /// Whether the owner has a detected wait.
    pub fn contains(&self, owner: u64) -> bool
        ensures { IsTrue result ↔ files_of self.now owner ≢ [] }
    {
        match self.owners.get(&owner) {
            Some(waiter) => !waiter.files.is_empty(),
            None => false,
        }
    }

    /// The file of each detected wait of the owner.
    pub fn files(&self, owner: u64) -> &[u64]
        ensures { result.now ≡ files_of self.now owner }
    {
        match self.owners.get(&owner) {
            Some(waiter) => &waiter.files,
            None => &[],
        }
    }

    /// Holds room for one detected wait more of the owner.
    ///
    /// `Memory` leaves all as it was.
    pub fn reserve(&mut self, owner: u64) -> Result<(), Memory>
        ensures same { SameWaiters self.old self.new }
        ensures ok { OnOk result (HasWaiterRoom self.new owner) }
    {
        match self.owners.get_mut(&owner) {
            Some(waiter) => {
                waiter.files.reserve(1)?;
                Ok(())
            }
            None => self.enter(owner),
        }
    }

    /// Holds room for the wait, where it is detected.
    ///
    /// `Memory` leaves all as it was.
    pub fn reserve_for(&mut self, wait: &Pending) -> Result<(), Memory>
        ensures same { SameWaiters self.old self.new }
        ensures ok { OnOk result (HasRoomIf wait.now.detect self.new wait.now.owner) }
    {
        if wait.detect {
            self.reserve(wait.owner)
        } else {
            Ok(())
        }
    }

    /// Makes an entry for the owner, which has none, with room for one detected wait.
    ///
    /// `Memory` leaves all as it was.
    fn enter(&mut self, owner: u64) -> Result<(), Memory>
        requires { waiter_of self.old owner ≡ None }
        ensures same { SameWaiters self.old self.new }
        ensures ok { OnOk result (HasWaiterRoom self.new owner) }
    {
        let mut files = Vec::new(self.alloc);
        files.reserve(1)?;
        let waiter = Waiter {
            files,
            crossed: false,
        };
        self.owners.insert(owner, waiter)?;
        Ok(())
    }

    /// A detected wait of the owner on the file begins, in room that was held.
    pub fn begin(&mut self, owner: u64, file: u64)
        requires { HasWaiterRoom self.old owner }
        ensures { Begins self.old self.new owner file }
    {
        let waiter = self.owners.get_mut(&owner).unwrap();
        waiter.files.push_reserved(file);
    }

    /// The wait on the file begins, in room that was held; it is noted where it is detected. It takes no memory.
    pub fn begin_for(&mut self, wait: &Pending, file: u64)
        requires { HasRoomIf wait.now.detect self.old wait.now.owner }
        ensures { BeginsIf wait.now.detect self.old self.new wait.now.owner file }
    {
        if wait.detect {
            self.begin(wait.owner, file);
        }
    }

    /// The wait on the file is over, and was noted where it is detected. It takes no memory.
    pub fn end_for(&mut self, wait: &Pending, file: u64)
        ensures { EndsIf wait.now.detect self.old self.new wait.now.owner file }
    {
        if wait.detect {
            self.end(wait.owner, file);
        }
    }

    /// A detected wait of the owner on the file is over; after its last one the owner isn't crossed. It takes no memory.
    pub fn end(&mut self, owner: u64, file: u64)
        ensures { Ends self.old self.new owner file }
    {
        let Some(waiter) = self.owners.get_mut(&owner) else {
            return;
        };
        waiter.leave(file);
        self.sweep(owner);
    }

    /// Drops the entry of the owner, where it has no detected wait. It takes no memory.
    pub fn sweep(&mut self, owner: u64)
        ensures { Sweeps self.old self.new owner }
    {
        if !self.contains(owner) {
            self.owners.remove(&owner);
        }
    }

    /// The owner is given a lock of this mode, or none. It takes no memory.
    pub fn cross_by(&mut self, owner: u64, mode: Option<Mode>)
        ensures { CrossesIf mode self.old self.new owner }
    {
        if mode.is_some() {
            self.cross(owner);
        }
    }

    /// A lock is given to the owner: it is crossed, where it has a detected wait. It takes no memory.
    pub fn cross(&mut self, owner: u64)
        ensures { Crosses self.old self.new owner }
    {
        if let Some(waiter) = self.owners.get_mut(&owner)
            && !waiter.files.is_empty()
        {
            waiter.crossed = true;
        }
    }
}

impl Waiter {
    ghost use Rattle.std.specs.Prelude.{◌==◌, position};
    ghost use Rattle.lock_server.specs.WaitersView.{LeavesFile};

    /// One detected wait on the file less, where there is one. It takes no memory.
    fn leave(&mut self, file: u64)
        ensures { LeavesFile self.old self.new file }
    {
        if let Some(place) = self.place_of(file) {
            self.files.remove(place);
        }
    }

    /// The first place of the file.
    fn place_of(&self, file: u64) -> Option<usize>
        ensures { result ≡ position (λ other. other == file) self.now.files.items }
    {
        self.files.iter().position(|other| *other == file)
    }
}
