//! Waits for locks: who waits, what blocks a wait, and when a wait would close a cycle.
#![tactic(auto)]

mod blocking;
mod files;
mod laws;
mod pairs;
mod processes;
mod queues;
mod waits;

pub use laws::stay_free_of_cycles;
use lock_book::Owner;
pub use processes::ProcessSet;
use range_core::{Mode, Span};
pub use waits::Waits;

/// Which locks a wait is for: the two families never meet (fcntl_locking(2); flock(2)).
#[derive(Clone, Copy, Debug, PartialEq, Eq)]
pub enum Family {
    /// Record locks, traditional ones and those of open file descriptions, on ranges of bytes.
    Bytes,
    /// flock locks, on whole files.
    Whole,
}

/// What a wait stands behind (this project's choice).
#[derive(Clone, Copy, Debug, PartialEq, Eq)]
pub enum Policy {
    /// Held locks alone.
    Held,
    /// Held locks, and the earlier waits that conflict with it.
    Queue,
}

/// A pending request for a lock (POSIX.1-2017 fcntl, `F_SETLKW`; fcntl_locking(2), `F_OFD_SETLKW`; flock(2)).
#[derive(Clone, Copy, Debug, PartialEq, Eq)]
pub struct Wait {
    /// The process that waits.
    pub p: u8,
    /// The number of its request.
    pub n: u64,
    /// The file, from 0 to 63.
    pub file: u8,
    /// Which locks it is for.
    pub family: Family,
    /// Whose the lock would be.
    pub owner: Owner,
    /// The bytes, resolved when the request was taken; for a flock lock the whole file.
    pub span: Span,
    /// What the lock would allow.
    pub mode: Mode,
}
