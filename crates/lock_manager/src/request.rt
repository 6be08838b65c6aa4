//! The words of the surface: requests, replies, notes, rules.
use fd_table::{Access, Limits};
use lock_book::Held;
use range_core::{Kind, Mode, Whence};
use wait_core::{Policy, Wait};

/// The rules of a run (this project's choice).
#[derive(Clone, Copy, Debug, PartialEq, Eq)]
pub struct Rules {
    /// What a request that would wait is tested against.
    pub policy: Policy,
    /// How many processes and descriptors there may be.
    pub limits: Limits,
}

/// A lock description: `struct flock` (POSIX.1-2017 fcntl).
#[derive(Clone, Copy, Debug, PartialEq, Eq)]
pub struct Lock {
    /// `l_type`.
    pub kind: Kind,
    /// `l_whence`.
    pub whence: Whence,
    /// `l_start`, in bytes from where `whence` counts.
    pub start: i64,
    /// `l_len`, in bytes; 0 goes to the largest offset, and a negative length back from the start.
    pub len: i64,
    /// `l_pid`, which the traditional commands ignore, and which must be 0 for those of OFD locks (fcntl_locking(2)).
    pub pid: i64,
}

/// A lock command of fcntl.
#[derive(Clone, Copy, Debug, PartialEq, Eq)]
pub enum LkCmd {
    /// `F_GETLK`: asks for the first lock that would block (POSIX.1-2017 fcntl).
    GetLk,
    /// `F_SETLK`: sets or removes a traditional lock, which belongs to the process (POSIX.1-2017 fcntl).
    SetLk,
    /// `F_SETLKW`: the same, and waits while a lock blocks it (POSIX.1-2017 fcntl).
    SetLkW,
    /// `F_OFD_GETLK`: asks on behalf of the open file description (fcntl_locking(2)).
    OGetLk,
    /// `F_OFD_SETLK`: sets or removes a lock of the open file description (fcntl_locking(2)).
    OSetLk,
    /// `F_OFD_SETLKW`: the same, and waits while a lock blocks it (fcntl_locking(2)).
    OSetLkW,
}

/// An operation of flock (flock(2)).
#[derive(Clone, Copy, Debug, PartialEq, Eq)]
pub enum FlockOp {
    /// `LOCK_SH`: a shared lock on the whole file.
    Sh,
    /// `LOCK_EX`: an exclusive lock on the whole file.
    Ex,
    /// `LOCK_UN`: removes the lock.
    Un,
}

/// How many sections there are, numbered from 0 (this project's choice).
pub const SECTIONS: u8 = 64;

/// How a process is in a section (this project's choice).
#[derive(Clone, Copy, Debug, PartialEq, Eq)]
pub enum Visit {
    /// It is meant to be there alone.
    Sole,
    /// Others may be there too, by such a visit.
    Shared,
}

/// What a process asks for.
#[derive(Clone, Copy, Debug, PartialEq, Eq)]
pub enum Request {
    /// open: a new open file description of the file, under the lowest free descriptor (POSIX.1-2017 open; that files are
    /// named by numbers, 0 to 63, is this project's choice).
    OpenFile { file: u8, access: Access },
    /// dup: the lowest free descriptor refers to the same description (POSIX.1-2017 dup).
    Dup { fd: u32 },
    /// dup2: the descriptor `to`, closed first where it is open, refers to the same description (POSIX.1-2017 dup2).
    DupTo { fd: u32, to: u32 },
    /// close (POSIX.1-2017 close).
    CloseFd { fd: u32 },
    /// lseek to an offset in bytes from the start, for all who share the description (POSIX.1-2017 lseek).
    Seek { fd: u32, offset: i64 },
    /// ftruncate to a size in bytes (POSIX.1-2017 ftruncate).
    Resize { fd: u32, size: i64 },
    /// fcntl with a lock command on a descriptor (POSIX.1-2017 fcntl; fcntl_locking(2)).
    Lk { fd: u32, cmd: LkCmd, lock: Lock },
    /// flock on a descriptor; `nb` is `LOCK_NB`, by which it never waits: it is refused where a held lock is in the way
    /// (flock(2)).
    Flock { fd: u32, op: FlockOp, nb: bool },
    /// fork, in which the caller names the child (POSIX.1-2017 fork; the name is this project's choice).
    Fork { child: u8 },
    /// _Exit, which is never answered (POSIX.1-2017 _Exit).
    Exit,
    /// A signal that is caught: it ends the wait of the process, and does nothing else (POSIX.1-2017 kill).
    Signal { target: u8 },
    /// `SIGKILL`: the process ends (POSIX.1-2017 kill). Of itself it is an exit.
    Kill { target: u8 },
    /// The process is in the section from now on: refused with EINVAL where it is in it by whichever visit, and where there is
    /// no such section. It touches no lock (this project's choice).
    Enter { section: u8, visit: Visit },
    /// The process is no longer in the section: refused with EINVAL where it isn't in it (this project's choice).
    Leave { section: u8 },
    /// Where the last answer to the process was an error it ends, as by `Exit`; else it is answered, and nothing changes (this
    /// project's choice).
    Bail,
}

/// The errors of the answers, by their names in `<errno.h>`; the numbers are this project's choice.
#[derive(Clone, Copy, Debug, PartialEq, Eq)]
pub enum Errno {
    /// The descriptor isn't open, or isn't open for such a lock.
    EBADF = 1,
    /// An argument is out of range, or none that the command takes.
    EINVAL = 2,
    /// A byte of the range would lie past the largest offset.
    EOVERFLOW = 3,
    /// A lock of another owner stands in the way, or the number of a child can't be had.
    EAGAIN = 4,
    /// The wait would close a cycle of processes that wait for each other's traditional locks.
    EDEADLK = 5,
    /// A signal ended the wait, and the lock isn't set.
    EINTR = 6,
    /// The process has no free descriptor, or no further description can be made.
    EMFILE = 7,
    /// There is no such process: it was never alive, or has ended.
    ESRCH = 8,
}

/// What a process is answered.
#[derive(Clone, Copy, Debug, PartialEq, Eq)]
pub enum Reply {
    /// The request succeeded.
    Ok,
    /// The request succeeded with this descriptor.
    Fd(u32),
    /// A get command: nothing blocks (POSIX.1-2017 fcntl, `F_GETLK`, `F_UNLCK`).
    Free,
    /// A get command: this lock blocks, from byte `start` on, `len` bytes long; 0 is the length of one that ends at the
    /// largest offset. `pid` is the process of a traditional lock, and -1 for an OFD lock (POSIX.1-2017 fcntl, `F_GETLK`;
    /// fcntl_locking(2), `F_OFD_GETLK`).
    Held {
        mode: Mode,
        start: u64,
        len: u64,
        pid: i64,
    },
    /// The request was refused, or a signal ended its wait: it set nothing. A conversion by flock has lost its old lock all
    /// the same, and others may have been granted theirs; nothing else has changed (flock(2), "converting a lock").
    Err(Errno),
}

/// One part of what an event tells (this project's choice).
#[derive(Clone, Copy, Debug, PartialEq, Eq)]
pub enum Note {
    /// Process `p` is answered its request number `n`.
    Answer { p: u8, n: u64, reply: Reply },
    /// Process `p` waits with its request number `n`. If the wait is granted or a signal ends it, a later note is the answer; a
    /// kill of the process ends it without one.
    Waits { p: u8, n: u64 },
}

/// Where a process stands (this project's choice).
#[derive(Clone, Copy, Debug, PartialEq, Eq)]
pub enum ProcState {
    /// It was never alive.
    Unborn,
    /// Its next request may be taken.
    Live,
    /// Its last request waits for a lock, and none is taken until it is answered.
    Waiting,
    /// It has ended: none of its requests is taken any more.
    Ended,
}

/// What stands in the way of a request for a lock (this project's choice).
#[derive(Clone, Copy, Debug, PartialEq, Eq)]
pub enum InTheWay {
    /// A lock that is held, as the report tells it.
    Lock(Held),
    /// An earlier wait, under the queue policy.
    Wait(Wait),
}
