//! The advisory locks of a file server: of any number of files and of opaque owners, with waits that are named by tickets and
//! answered later.
#![tactic(auto)]

mod asking;
mod blocking;
mod closing;
mod converting;
mod file;
mod files;
mod freed;
mod holdings;
mod hull;
mod import;
mod laws;
mod leaving;
mod openings;
mod owner_waits;
mod owners;
mod requests;
mod server;
mod table;
mod tickets;
mod waiters;
mod words;

pub use laws::{
    exports_tell_states, files_are_kept_while_in_use, listings_tell_all, queue_is_kept,
    replicas_agree, servers_are_safe,
};
pub use range_core::{Memory, Mode, OFFMAX, Span};
pub use server::LockServer;
use thiserror::Error;
pub use wait_core::{Family, Policy};

/// What a server goes by; it stays from its making on (this project's choice).
#[derive(Clone, Copy, Debug, PartialEq, Eq)]
pub struct Rules {
    /// Whether a wait is blocked by locks alone, or also by the earlier waits.
    pub policy: Policy,
    /// How a flock lock gets another mode.
    pub conversion: Conversion,
}

/// How a flock lock gets another mode: the old lock goes first, and may be lost (flock(2), "Converting a lock").
#[derive(Clone, Copy, Debug, PartialEq, Eq)]
pub enum Conversion {
    /// The old lock goes and the waits are settled; then the request is tested as any other (flock(2)).
    Stepwise,
    /// The old lock goes and the request is tested before any wait is granted; then the waits are settled, once (what Linux does).
    Atomic,
}

/// A byte lock that is in the way of another one (POSIX.1-2017 fcntl, `F_GETLK`).
#[derive(Clone, Copy, Debug, PartialEq, Eq)]
pub struct Lock {
    /// Whose lock it is, as the server was given the owner's number.
    pub owner: u64,
    /// The one mode that the owner has on the whole span.
    pub mode: Mode,
    /// The largest range of this mode round the byte that is blocked, also past the range that was asked for.
    pub span: Span,
}

/// A flock lock (flock(2)).
#[derive(Clone, Copy, Debug, PartialEq, Eq)]
pub struct FlockLock {
    /// Whose lock it is, as the server was given the owner's number.
    pub owner: u64,
    /// `Read` is `LOCK_SH`, `Write` is `LOCK_EX`.
    pub mode: Mode,
}

/// A wait, by who waits and where. Waits are ordered by owner, then by file, and then by ticket (this project's choice).
#[derive(Clone, Copy, Debug, PartialEq, Eq)]
pub struct OwnerWait {
    /// Whose the lock would be.
    pub owner: u64,
    /// On which file.
    pub file: u64,
    /// The caller's name for the request.
    pub ticket: u64,
}

/// How many locks and waits the owners of a client have, on all files. A count past the largest number is told as that.
#[derive(Clone, Copy, Debug, PartialEq, Eq)]
pub struct Counts {
    /// Byte locks: of each owner and file the largest ranges of one mode (fcntl_locking(2), "splitting, shrinking, or coalescing").
    pub runs: usize,
    /// flock locks (flock(2)).
    pub flock_locks: usize,
    /// Requests that wait, for byte locks and for flock locks.
    pub waits: usize,
}

/// A request for a lock on one file, as it waits or would wait (POSIX.1-2017 fcntl, `F_SETLKW`; flock(2)).
#[derive(Clone, Copy, Debug, PartialEq, Eq)]
pub struct Pending {
    /// The caller's name for the request (FUSE: the `unique` of the request).
    pub ticket: u64,
    /// Whose the lock would be (FUSE: `lock_owner`).
    pub owner: u64,
    /// The bytes; for a flock lock the whole file.
    pub span: Span,
    // Fields lie in order: the small ones come last, so that each wait is smaller by 8 bytes.
    /// Which locks it is for.
    pub family: Family,
    /// What the lock would allow.
    pub mode: Mode,
    /// Whether it takes part in the search for deadlocks.
    pub detect: bool,
}

/// What is in the way of a wait (POSIX.1-2017 fcntl, `F_SETLKW`; flock(2)).
#[derive(Clone, Copy, Debug, PartialEq, Eq)]
pub enum Obstacle {
    /// A byte lock: the first one, as [`LockServer::get`] tells it.
    Lock(Lock),
    /// A flock lock: that of the least owner.
    Flock(FlockLock),
    /// No lock, but under [`Policy::Queue`] a wait that came before: the ticket of the first.
    Wait(u64),
}

/// A wait, and what is in its way.
#[derive(Clone, Copy, Debug, PartialEq, Eq)]
pub struct Waiting {
    /// The request that waits.
    pub pending: Pending,
    /// What is in its way.
    pub obstacle: Obstacle,
}

/// What a request that doesn't wait is told (POSIX.1-2017 fcntl, `F_SETLK`; flock(2), `LOCK_NB`).
#[derive(Clone, Copy, Debug, PartialEq, Eq)]
pub enum Answer {
    /// The lock is set or removed.
    Done,
    /// Another owner's lock is in the way, `EAGAIN`.
    Blocked,
}

/// What a request that may wait is told (POSIX.1-2017 fcntl, `F_SETLKW`; flock(2)).
#[derive(Clone, Copy, Debug, PartialEq, Eq)]
pub enum WaitAnswer {
    /// The lock is set.
    Done,
    /// The request waits: its ticket comes from [`LockServer::next_grant`] once it is granted.
    Waits,
    /// The wait would close a cycle of owners that wait for each other, `EDEADLK`.
    Deadlock,
}

/// Why a request that may wait couldn't be taken; nothing has changed (this project's choice).
#[derive(Clone, Copy, Debug, PartialEq, Eq, Error)]
pub enum WaitFault {
    /// A wait has this ticket already, or a grant that wasn't fetched.
    #[error("the ticket is taken")]
    TicketTaken,
    /// A growth was refused, `ENOLCK`.
    #[error(transparent)]
    Memory(Memory),
}

impl From<Memory> for WaitFault {
    ghost use Rattle.std.specs.Prelude.{◌≡◌};
    ghost use Rattle.lock_server.specs.declared.WaitFault.{WaitFault};

    ghost from_gives = { λ memory fault. fault ≡ WaitFault.Memory memory };

    fn from(memory: Memory) -> WaitFault {
        WaitFault::Memory(memory)
    }
}

/// Why bytes are no state of a server; no server was made (this project's choice).
#[derive(Clone, Copy, Debug, PartialEq, Eq, Error)]
pub enum ImportFault {
    /// No server has this export.
    #[error(transparent)]
    Invalid(Fault),
    /// A growth was refused, `ENOLCK`.
    #[error(transparent)]
    Memory(Memory),
}

impl From<Memory> for ImportFault {
    ghost use Rattle.std.specs.Prelude.{◌≡◌};
    ghost use Rattle.lock_server.specs.declared.ImportFault.{ImportFault};

    ghost from_gives = { λ memory fault. fault ≡ ImportFault.Memory memory };

    fn from(memory: Memory) -> ImportFault {
        ImportFault::Memory(memory)
    }
}

/// The first thing that is wrong with bytes that no server exports, and where: of the first kind of flaw that they have, in the order of
/// [`Flaw`], the first one in the bytes (this project's choice).
#[derive(Clone, Copy, Debug, PartialEq, Eq, Error)]
#[error("{flaw}, at byte {offset}")]
pub struct Fault {
    /// What is wrong.
    pub flaw: Flaw,
    /// At which byte the word, or what the words tell, begins that is wrong.
    pub offset: usize,
}

/// What is wrong with bytes that no server exports (this project's choice).
#[derive(Clone, Copy, Debug, PartialEq, Eq, Error)]
pub enum Flaw {
    /// They aren't of the format: a word is none that may stand there, or the bytes end too early or too late.
    #[error("the bytes are not of the format")]
    Form,
    /// Two things on a list are not in its order, or locks of one owner overlap or should be one.
    #[error("a list is not in its order")]
    Order,
    /// A lock conflicts with one before it on the same file.
    #[error("two locks conflict")]
    Conflict,
    /// A wait or a grant has the ticket of another one.
    #[error("a ticket is there twice")]
    Ticket,
    /// Nothing blocks a wait.
    #[error("nothing blocks a wait")]
    Unblocked,
    /// The owner of a wait waits for itself, by way of owners that aren't crossed.
    #[error("owners wait for each other")]
    Cycle,
    /// A crossed owner has no wait that takes part in the search for deadlocks.
    #[error("a crossed owner doesn't wait")]
    Crossed,
}
