//! What a request is told, as a number (`enum dehokuna_status`).
ghost use Rattle.std.specs.Prelude.{◌≡◌};
ghost use Rattle.lock_server_c.specs.Told.{status_of, wait_status_of};

use lock_server::{Answer, Memory, WaitAnswer, WaitFault};

/// The lock is set, or removed.
pub const DONE: u32 = 0;
/// A lock of another owner is in the way, `EAGAIN`.
pub const BLOCKED: u32 = 1;
/// The request waits.
pub const WAITS: u32 = 2;
/// The wait would close a cycle, `EDEADLK`.
pub const DEADLOCK: u32 = 3;
/// A wait has the ticket already, or a grant that wasn't fetched.
pub const TICKET_TAKEN: u32 = 4;
/// A growth was refused, `ENOLCK`.
pub const NO_MEMORY: u32 = 5;
/// The range has no bytes or begins behind a file, or the mode is none that can be asked for, `EINVAL`.
pub const INVALID: u32 = 6;

/// The status of a request that doesn't wait.
pub(crate) fn status(answer: Result<Answer, Memory>) -> u32
    ensures { result ≡ status_of answer }
{
    match answer {
        Ok(Answer::Done) => DONE,
        Ok(Answer::Blocked) => BLOCKED,
        Err(_) => NO_MEMORY,
    }
}

/// The status of a request that may wait.
pub(crate) fn wait_status(answer: Result<WaitAnswer, WaitFault>) -> u32
    ensures { result ≡ wait_status_of answer }
{
    match answer {
        Ok(WaitAnswer::Done) => DONE,
        Ok(WaitAnswer::Waits) => WAITS,
        Ok(WaitAnswer::Deadlock) => DEADLOCK,
        Err(WaitFault::TicketTaken) => TICKET_TAKEN,
        Err(WaitFault::Memory(_)) => NO_MEMORY,
    }
}
