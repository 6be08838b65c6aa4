//! The file descriptors of all processes, the open file descriptions that they refer to, and what a close releases.
#![tactic(auto)]

mod laws;
mod releases;
mod rows;
mod tables;

pub use laws::tables_stand_for_some;
use range_core::Memory;
pub use releases::{Release, Releases};
use std::alloc::{AllocError, AllocFailed};
pub use tables::{Look, Tables};
use thiserror::Error;

/// The number of files, which are numbered from 0 (this project's choice).
pub const FILES: u8 = 64;

/// The same number, as the length of an array.
const FILE_COUNT: usize = FILES as usize;

/// The most descriptors that a process may have under any limits.
const MOST_DESCRIPTORS: u32 = 256;

/// The number of open file descriptions that may ever be made (this project's choice).
pub const DESCRIPTIONS: u64 = 1 << 62;

/// What a file descriptor was opened for: the access mode of its description (POSIX.1-2017 open).
#[derive(Clone, Copy, Debug, PartialEq, Eq)]
pub enum Access {
    /// For reading only, `O_RDONLY`.
    R,
    /// For writing only, `O_WRONLY`.
    W,
    /// For both, `O_RDWR`.
    Rw,
}

/// How many processes there may be, and how many descriptors each may have (this project's choice; POSIX.1-2017 has
/// `OPEN_MAX` and `CHILD_MAX`).
#[derive(Clone, Copy, Debug, PartialEq, Eq)]
pub enum Limits {
    /// 1 to 16 processes, each with descriptors 0 to 31.
    Small,
    /// 1 to 64 processes, each with descriptors 0 to 255.
    Wide,
}

impl Limits {
    ghost use Rattle.std.specs.Prelude.{◌≡◌};
    ghost use Rattle.fd_table.specs.Descriptors.{process_limit, descriptor_limit};

    /// How many processes there may be.
    pub fn processes(self) -> u8
        ensures { result ≡ process_limit self }
    {
        match self {
            Limits::Small => 16,
            Limits::Wide => 64,
        }
    }

    /// How many descriptors a process may have.
    pub fn descriptors(self) -> u32
        ensures { result ≡ descriptor_limit self }
    {
        match self {
            Limits::Small => 32,
            Limits::Wide => MOST_DESCRIPTORS,
        }
    }
}

/// Why a call on descriptors is refused. A refused call changes nothing.
#[derive(Clone, Copy, Debug, PartialEq, Eq, Error)]
pub enum FdFault {
    /// The descriptor isn't open, or is no number of a descriptor, `EBADF`.
    #[error("the descriptor is not open")]
    BadFd,
    /// Each number of a descriptor is taken, or too many descriptions were made, `EMFILE`.
    #[error("no descriptor is free, or too many files were opened")]
    TooMany,
    /// A file number, an offset or a size out of range, `EINVAL`.
    #[error("the file, offset or size is out of range")]
    Invalid,
    /// The number of the child is taken or out of range, `EAGAIN`.
    #[error("the process number is taken or out of range")]
    Taken,
    /// Want of memory.
    #[error(transparent)]
    Memory(Memory),
}

impl From<Memory> for FdFault {
    ghost use Rattle.std.specs.Prelude.{◌≡◌};
    ghost use Rattle.fd_table.specs.declared.FdFault.{FdFault};

    ghost from_gives = { λ memory fault. fault ≡ FdFault.Memory memory };

    fn from(memory: Memory) -> FdFault {
        FdFault::Memory(memory)
    }
}

impl From<AllocError> for FdFault {
    ghost use Rattle.std.specs.Prelude.{◌≡◌};
    ghost use Rattle.range_core.specs.declared.Memory.{Memory as Want};
    ghost use Rattle.fd_table.specs.declared.FdFault.{FdFault};

    ghost from_gives = { λ refused fault. (memory : Want) × (fault ≡ FdFault.Memory memory) };

    fn from(refused: AllocError) -> FdFault {
        FdFault::Memory(Memory::from(refused))
    }
}

impl<T: Drop> From<AllocFailed<T>> for FdFault {
    ghost use Rattle.std.specs.Prelude.{◌≡◌};
    ghost use Rattle.range_core.specs.declared.Memory.{Memory as Want};
    ghost use Rattle.fd_table.specs.declared.FdFault.{FdFault};

    ghost from_gives = { λ refused fault. (memory : Want) × (fault ≡ FdFault.Memory memory) };

    fn from(refused: AllocFailed<T>) -> FdFault {
        FdFault::Memory(Memory::from(refused))
    }
}
