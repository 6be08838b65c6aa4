//! The calls of a server as data, and what the server tells of each.
ghost use Rattle.range_core.specs.Ranges.{IsByteRange};

use lock_server::{
    Answer, Conversion, LockServer, Memory, Mode, Policy, Rules, Span, WaitAnswer, WaitFault,
};
use range_core::OFFMAX;
use std::fmt::Debug;
use std::process::Abort;

/// The first and the last byte of a range.
pub(super) type Bytes = (u64, u64);

/// The rules of this policy by which conversions go step by step.
pub(super) const fn stepwise(policy: Policy) -> Rules {
    Rules {
        policy,
        conversion: Conversion::Stepwise,
    }
}

/// The rules of this policy by which conversions are atomic.
pub(super) const fn atomic(policy: Policy) -> Rules {
    Rules {
        policy,
        conversion: Conversion::Atomic,
    }
}

/// All bytes that a file can have.
pub(super) const ALL: Bytes = (0, OFFMAX);

/// A call on a file.
#[derive(Clone, Copy)]
pub(super) enum Call {
    /// The owner sets the mode on the bytes, or removes it.
    Set(u64, Bytes, Option<Mode>),
    /// The ticket, the owner, the bytes, the mode, and whether a deadlock is looked for.
    Wait(u64, u64, Bytes, Mode, bool),
    /// What is in the way of the owner.
    Get(u64, Bytes, Mode),
    Cancel(u64),
    Grant,
    Flock(u64, Option<Mode>),
    /// The ticket, the owner and the mode.
    FlockWait(u64, u64, Mode),
    FlockRelease(u64),
    Flush(u64),
    Forget(u64),
    /// The owner comes through the open file.
    Note(u64, u64),
    /// The last close of the open file, with the owner of a flock lock.
    Release(u64, Option<u64>),
    /// The first and the last owner of a client that is gone.
    ForgetOwners(u64, u64),
    /// The file is gone.
    ForgetFile,
    /// Whether the owners from the first to the last have a lock.
    HasLocks(u64, u64),
    /// How much they have.
    Counts(u64, u64),
}

/// What a call tells.
#[derive(Clone, Copy, PartialEq)]
pub(super) enum Told {
    Done,
    Blocked,
    Waits,
    Deadlock,
    /// The ticket is one of a wait or of a grant.
    Taken,
    /// The ticket of the grant.
    Granted(u64),
    /// The owner, the mode and the bytes of the lock that is in the way.
    Lock(u64, Mode, Bytes),
    /// There is no wait, no grant or no lock in the way.
    Nothing,
    /// Whether there is a lock.
    Having(bool),
    /// How many runs, flock locks and waits there are.
    Counts(usize, usize, usize),
}

/// The file, the call, and what it tells.
pub(super) type Row = (u64, Call, Told);

/// The bytes of a range; each row has ones that a file can have.
fn range(bytes: Bytes) -> Span
    ensures { IsByteRange result }
{
    let last = bytes.1.min(OFFMAX);
    Span {
        first: bytes.0.min(last),
        last,
    }
}

/// What is told of a request that doesn't wait.
fn answer_told(answer: Answer) -> Told {
    match answer {
        Answer::Done => Told::Done,
        Answer::Blocked => Told::Blocked,
    }
}

/// What is told of a request that may wait.
fn wait_told(answer: Result<WaitAnswer, WaitFault>) -> Result<Told, Memory> {
    match answer {
        Ok(WaitAnswer::Done) => Ok(Told::Done),
        Ok(WaitAnswer::Waits) => Ok(Told::Waits),
        Ok(WaitAnswer::Deadlock) => Ok(Told::Deadlock),
        Err(WaitFault::TicketTaken) => Ok(Told::Taken),
        Err(WaitFault::Memory(memory)) => Err(memory),
    }
}

/// What the server tells of the call on the file.
pub(super) fn serve(server: &mut LockServer, file: u64, call: Call) -> Result<Told, Memory> {
    match call {
        Call::Set(owner, bytes, mode) => Ok(answer_told(server.set(
            file,
            owner,
            range(bytes),
            mode,
        )?)),
        Call::Wait(ticket, owner, bytes, mode, detect) => {
            wait_told(server.wait(ticket, file, owner, range(bytes), mode, detect))
        }
        Call::Get(owner, bytes, mode) => Ok(in_the_way(server, file, owner, bytes, mode)),
        Call::Flock(owner, mode) => Ok(answer_told(server.flock(file, owner, mode)?)),
        Call::FlockWait(ticket, owner, mode) => {
            wait_told(server.flock_wait(ticket, file, owner, mode))
        }
        Call::Grant => match server.next_grant() {
            Some(ticket) => Ok(Told::Granted(ticket)),
            None => Ok(Told::Nothing),
        },
        Call::Cancel(ticket) => match server.cancel(ticket) {
            true => Ok(Told::Done),
            false => Ok(Told::Nothing),
        },
        Call::HasLocks(first, last) => Ok(Told::Having(server.has_locks(first, last))),
        Call::Counts(first, last) => Ok(counts_told(server, first, last)),
        other => end(server, file, other),
    }
}

/// How much the owners have.
fn counts_told(server: &LockServer, first: u64, last: u64) -> Told {
    let counts = server.counts(first, last);
    Told::Counts(counts.runs, counts.flock_locks, counts.waits)
}

/// What is in the way of the owner.
fn in_the_way(server: &LockServer, file: u64, owner: u64, bytes: Bytes, mode: Mode) -> Told {
    let Some(lock) = server.get(file, owner, range(bytes), mode) else {
        return Told::Nothing;
    };
    Told::Lock(lock.owner, lock.mode, (lock.span.first, lock.span.last))
}

/// The same of a call that tells nothing else than that it is done.
fn end(server: &mut LockServer, file: u64, call: Call) -> Result<Told, Memory> {
    match call {
        Call::FlockRelease(owner) => server.flock_release(file, owner),
        Call::Flush(owner) => server.flush(file, owner),
        Call::Forget(owner) => server.forget(owner),
        Call::Note(owner, open_file) => server.note(file, owner, open_file)?,
        Call::Release(open_file, flock_owner) => server.release(file, open_file, flock_owner),
        Call::ForgetOwners(first, last) => server.forget_owners(first, last),
        Call::ForgetFile => server.forget_file(file),
        _ => {}
    }
    Ok(Told::Done)
}

/// The server tells of each call what its row says.
pub(super) fn tells(rt: &impl Abort, server: &mut LockServer, rows: &[Row]) -> Result<(), Memory> {
    for (file, call, wanted) in rows {
        let told = serve(server, *file, *call)?;
        same(rt, (*file, told == *wanted), (*file, true));
    }
    Ok(())
}

/// The two are the same.
pub(super) fn same<T: PartialEq + Debug + Drop>(rt: &impl Abort, left: T, right: T) {
    assert_eq!(rt; left, right);
}
