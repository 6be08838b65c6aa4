//! What a request is answered, and how that is told.
ghost use Rattle.std.specs.Prelude.{◌≡◌, ℕ, ◌≤◌, ◌+◌, if◌then◌else◌, length, vec_capacity, IfOk, OnErr};
ghost use Rattle.lock_manager.specs.Outcomes.{range_error as range_error_of, IsRefusal, answered as answered_of};
ghost use Rattle.lock_manager.specs.Replies.{IsReplied};
ghost use Rattle.lock_manager.specs.State.{State};

use crate::{Errno, Note, Reply};
use fd_table::FdFault;
use range_core::{Memory, RangeFault};

/// The error of a range that there isn't (POSIX.1-2017 fcntl, ERRORS).
pub fn range_error(fault: RangeFault) -> Errno
    ensures { result ≡ range_error_of fault }
{
    match fault {
        RangeFault::Invalid => Errno::EINVAL,
        RangeFault::Overflow => Errno::EOVERFLOW,
    }
}

/// The reply to a call on descriptors that was refused; want of memory is no reply.
pub fn refusal(fault: FdFault) -> Result<Reply, Memory>
    ensures refused { IfOk result (λ reply. (S : State) (p n : ℕ) → IsRefusal S p n fault (answered_of S p n reply)) }
    ensures memory { OnErr result ((memory : Memory) × (fault ≡ FdFault.Memory memory)) }
{
    match fault {
        FdFault::BadFd => Ok(Reply::Err(Errno::EBADF)),
        FdFault::TooMany => Ok(Reply::Err(Errno::EMFILE)),
        FdFault::Invalid => Ok(Reply::Err(Errno::EINVAL)),
        FdFault::Taken => Ok(Reply::Err(Errno::EAGAIN)),
        FdFault::Memory(memory) => Err(memory),
    }
}

/// Request number `n` of process `p` is answered.
pub fn answered(p: u8, n: u64, reply: Reply) -> Note
    ensures { result ≡ Note.Answer p n reply }
{
    Note::Answer { p, n, reply }
}

/// Request number `n` of process `p` is refused.
pub fn refused(p: u8, n: u64, error: Errno) -> Note
    ensures { result ≡ Note.Answer p n (Reply.Err error) }
{
    answered(p, n, Reply::Err(error))
}

/// Request number `n` of process `p` is answered, or refused with EINVAL where it isn't allowed.
pub fn allowed(p: u8, n: u64, is_allowed: bool) -> Note
    ensures { result ≡ Note.Answer p n (if is_allowed then Reply.Ok else Reply.Err Errno.EINVAL) }
{
    if is_allowed {
        answered(p, n, Reply::Ok)
    } else {
        refused(p, n, Errno::EINVAL)
    }
}

/// Tells the process the reply to its request number `n`, behind what was told. It takes no memory.
pub fn tell(
    p: u8,
    n: u64,
    reply: Result<Reply, Memory>,
    notes: &mut Vec<Note>,
) -> Result<(), Memory>
    requires { length notes.old.items + 1 ≤ vec_capacity notes.old }
    ensures told { IsReplied p n reply result notes.old.items notes.new.items }
    ensures capacity { vec_capacity notes.new ≡ vec_capacity notes.old }
{
    notes.push_reserved(answered(p, n, reply?));
    Ok(())
}
