//! Ranges of bytes of a file, and the modes of one lock owner on them.
#![tactic(auto)]

mod conflicts;
mod laws;
mod list;
mod memory;
mod replacement;
mod resolving;
mod splice;

pub use laws::lists_stand_for_runs;
pub use list::RangeList;
pub use memory::{Memory, counted};
pub use resolving::resolve;
use thiserror::Error;

/// The largest offset of a file, in bytes: the largest value of a 64-bit `off_t` (this project's choice).
pub const OFFMAX: u64 = i64::MAX as u64;

/// What a lock allows: others may hold read locks beside it, or it excludes every other owner
/// (POSIX.1-2017 fcntl, `F_SETLK`; flock(2): `LOCK_SH` is `Read` and `LOCK_EX` is `Write`).
#[derive(Clone, Copy, Debug, Default, PartialEq, Eq)]
pub enum Mode {
    /// A shared lock, `F_RDLCK`; the default, for what wants a blank.
    #[default]
    Read,
    /// An exclusive lock, `F_WRLCK`.
    Write,
}

/// What a lock description asks for: the member `l_type` of `struct flock` (POSIX.1-2017 fcntl).
#[derive(Clone, Copy, Debug, PartialEq, Eq)]
pub enum Kind {
    /// A shared lock, `F_RDLCK`.
    Read,
    /// An exclusive lock, `F_WRLCK`.
    Write,
    /// The removal of locks, `F_UNLCK`.
    Unlock,
}

/// What the start of a range is counted from: the member `l_whence` of `struct flock` (POSIX.1-2017 fcntl).
#[derive(Clone, Copy, Debug, PartialEq, Eq)]
pub enum Whence {
    /// The first byte of the file, `SEEK_SET`.
    Set,
    /// The current file offset, `SEEK_CUR`.
    Cur,
    /// The end of the file, `SEEK_END`.
    End,
}

/// A range of bytes of a file, both ends within it. Calls that take one ask that `first` is at most `last` and `last` at
/// most [`OFFMAX`].
#[derive(Clone, Copy, Debug, Default, PartialEq, Eq)]
pub struct Span {
    /// The offset of the first byte.
    pub first: u64,
    /// The offset of the last byte.
    pub last: u64,
}

impl Span {
    /// All bytes that a file may have.
    pub const WHOLE_FILE: Span = Span {
        first: 0,
        last: OFFMAX,
    };
}

/// Why a lock description names no range (POSIX.1-2017 fcntl, ERRORS).
#[derive(Clone, Copy, Debug, PartialEq, Eq, Error)]
pub enum RangeFault {
    /// The first byte would lie before the file, `EINVAL`.
    #[error("the first byte would lie before the file")]
    Invalid = 1,
    /// A byte would lie past the largest offset, `EOVERFLOW`.
    #[error("a byte would lie past the largest offset")]
    Overflow = 2,
}
