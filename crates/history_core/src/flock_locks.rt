//! The flock locks on a file.
ghost use Rattle.std.specs.Prelude.{◌≡◌, ◌↔◌, ◌<◌, ℕ, IsTrue, IfOk, None};
ghost use Rattle.history_core.specs.ByteView.{bytes_of};

use crate::byte_locks::{ByteLock, ByteLocks};
use range_core::{Memory, Mode, Span};
use std::alloc::Global;

/// The byte that stands for the whole file.
const WHOLE_FILE: Span = Span { first: 0, last: 0 };

/// The flock locks on a file, one at most of an owner. They conflict by the table of byte locks, and meet always: so each is kept as a lock
/// on one byte (flock(2)).
#[derive(Drop)]
pub struct FlockLocks {
    locks: ByteLocks,
    ghost on_first: { (owner byte : ℕ) → 0 < byte → bytes_of locks owner byte ≡ None },
}

impl FlockLocks {
    ghost use Rattle.history_core.specs.FlockView.{flocks_of};
    ghost use Rattle.history_core.specs.Locks.{BlocksFlock, flocks_with};

    /// Nobody has a lock.
    pub fn new(alloc: Global) -> FlockLocks
        ensures { flocks_of result ≡ (λ owner. None) }
    {
        FlockLocks {
            locks: ByteLocks::new(alloc),
        }
    }

    /// The locks, by owner: each on byte 0.
    pub fn runs(&self) -> &[ByteLock]
        ensures { result.now ≡ self.now.locks.runs.items }
    {
        self.locks.runs()
    }

    /// These locks once more.
    pub fn copy(&self) -> Result<FlockLocks, Memory>
        ensures { IfOk result (λ copy. flocks_of copy ≡ flocks_of self.now) }
    {
        Ok(FlockLocks {
            locks: self.locks.copy()?,
        })
    }

    /// Whether these are the same locks.
    pub fn is_same(&self, other: &FlockLocks) -> bool
        ensures { IsTrue result ↔ (flocks_of self.now ≡ flocks_of other.now) }
    {
        self.locks.is_same(&other.locks)
    }

    /// The owner's lock (flock(2)).
    pub fn of(&self, owner: u64) -> Option<Mode>
        ensures { result ≡ flocks_of self.now owner }
    {
        self.locks.mode_at(owner, WHOLE_FILE.first)
    }

    /// Whether a lock of another owner conflicts with this one (flock(2)).
    pub fn blocks(&self, owner: u64, mode: Mode) -> bool
        ensures { IsTrue result ↔ BlocksFlock (flocks_of self.now) owner mode }
    {
        self.locks.blocks(owner, mode, WHOLE_FILE)
    }

    /// The owner's lock set, or removed (flock(2)).
    pub fn with(&self, owner: u64, mode: Option<Mode>) -> Result<FlockLocks, Memory>
        ensures { IfOk result (λ next. flocks_of next ≡ flocks_with (flocks_of self.now) owner mode) }
    {
        Ok(FlockLocks {
            locks: self.locks.with(owner, WHOLE_FILE, mode)?,
        })
    }
}
