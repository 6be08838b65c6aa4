//! What the caller of a request is told.
use fd_table::FdFault;
use lock_manager::{Errno, Note, Reply};
use range_core::{Memory, RangeFault};

/// What the caller is told of a request that isn't refused.
#[derive(Clone, Copy)]
pub(super) enum Told {
    /// The answer.
    Reply(Reply),
    /// That it waits.
    Waits,
    /// Nothing, since it has ended.
    Nothing,
}

impl Told {
    /// The request succeeded.
    pub(super) const OK: Told = Told::Reply(Reply::Ok);

    /// The request succeeded with this descriptor.
    pub(super) fn descriptor(fd: u32) -> Told {
        Told::Reply(Reply::Fd(fd))
    }

    /// The note of it to request number `n` of the process.
    pub(super) fn note(self, p: u8, n: u64) -> Option<Note> {
        match self {
            Told::Reply(reply) => Some(Note::Answer { p, n, reply }),
            Told::Waits => Some(Note::Waits { p, n }),
            Told::Nothing => None,
        }
    }
}

/// Why a request is refused, or can't be served.
#[derive(Clone, Copy, Debug)]
pub(super) enum Refusal {
    /// By the rules.
    Errno(Errno),
    /// For want of memory.
    Memory(Memory),
}

impl From<Memory> for Refusal {
    fn from(memory: Memory) -> Refusal {
        Refusal::Memory(memory)
    }
}

impl From<FdFault> for Refusal {
    fn from(fault: FdFault) -> Refusal {
        match fault {
            FdFault::BadFd => Refusal::Errno(Errno::EBADF),
            FdFault::TooMany => Refusal::Errno(Errno::EMFILE),
            FdFault::Invalid => Refusal::Errno(Errno::EINVAL),
            FdFault::Taken => Refusal::Errno(Errno::EAGAIN),
            FdFault::Memory(memory) => Refusal::Memory(memory),
        }
    }
}

impl From<RangeFault> for Refusal {
    fn from(fault: RangeFault) -> Refusal {
        match fault {
            RangeFault::Invalid => Refusal::Errno(Errno::EINVAL),
            RangeFault::Overflow => Refusal::Errno(Errno::EOVERFLOW),
        }
    }
}
