//! What clients ask for on one file, and what they are told.
use range_core::{Mode, Span};

/// What a request asks for (this project's choice of words).
#[derive(Clone, Copy, Debug, PartialEq, Eq)]
pub enum Action {
    /// A byte lock, without waiting (POSIX.1-2017 fcntl, `F_SETLK`).
    Set(Mode, Span),
    /// A byte lock, for which the request may wait (POSIX.1-2017 fcntl, `F_SETLKW`).
    Wait(Mode, Span),
    /// What is in the way of a byte lock (POSIX.1-2017 fcntl, `F_GETLK`).
    Get(Mode, Span),
    /// The removal of byte locks (POSIX.1-2017 fcntl, `F_UNLCK`).
    Unlock(Span),
    /// A lock of the whole file, without waiting (flock(2), `LOCK_NB`).
    Flock(Mode),
    /// A lock of the whole file, for which the request may wait (flock(2)).
    FlockWait(Mode),
    /// The removal of a lock of the whole file (flock(2), `LOCK_UN`).
    FlockUnlock,
    /// The removal of all the owner's locks on the file (POSIX.1-2017 close; flock(2)).
    Close,
    /// The owner's death (POSIX.1-2017 fcntl: the process terminates).
    Gone,
}

impl Action {
    ghost use Rattle.std.specs.Prelude.{◌≡◌, ◌↔◌, IsTrue};
    ghost use Rattle.history_core.specs.Permitted.{Converts, may_deadlock as may_deadlock_of, may_wait as may_wait_of};
    ghost use Rattle.history_core.specs.Moments.{is_death as is_death_of};

    /// Whether the request may wait.
    pub fn may_wait(self) -> bool
        ensures { result ≡ may_wait_of self }
    {
        matches!(self, Action::Wait(..) | Action::FlockWait(_))
    }

    /// Whether it is a death.
    pub fn is_death(self) -> bool
        ensures { result ≡ is_death_of self }
    {
        matches!(self, Action::Gone)
    }

    /// Whether the request may be told of a deadlock (POSIX.1-2017 fcntl, `EDEADLK`).
    pub fn may_deadlock(self) -> bool
        ensures { result ≡ may_deadlock_of self }
    {
        matches!(self, Action::Wait(..))
    }

    /// Whether the request converts its owner's flock lock, which is this one (flock(2)).
    pub fn converts(self, held: Option<Mode>) -> bool
        ensures { IsTrue result ↔ Converts held self }
    {
        match (self, held) {
            (Action::Flock(mode), Some(held)) => held != mode,
            (Action::FlockWait(mode), Some(held)) => held != mode,
            _ => false,
        }
    }
}

/// A request of one owner on one file.
#[derive(Clone, Copy, Debug, PartialEq, Eq)]
pub struct Request {
    /// The client's name for the request, free again behind its answer.
    pub id: u64,
    /// The owner's number: a process and an open file description are owners of different numbers.
    pub owner: u64,
    /// What is asked for.
    pub action: Action,
}

impl Request {
    ghost use Rattle.std.specs.Prelude.{◌≡◌};
    ghost use Rattle.history_core.specs.Moments.{ends};

    /// Whether the other request is a death that ends this one, where it is open then.
    pub fn is_ended_by(self, death: Request) -> bool
        ensures { result ≡ ends death self }
    {
        death.action.is_death() && self.owner == death.owner && !self.action.is_death()
    }
}

/// What a request was told.
#[derive(Clone, Copy, Debug, PartialEq, Eq)]
pub enum Answer {
    /// `ok`: it is done.
    Done,
    /// `busy`: another owner's lock was in the way, `EAGAIN`.
    Busy,
    /// `EINTR`: a signal ended the wait.
    Interrupted,
    /// `EDEADLK`: the wait would have closed a cycle.
    Deadlock,
    /// `free`: nothing was in the way, `F_UNLCK`.
    Free,
    /// `held`: this lock was in the way; no owner where the system doesn't tell whose it was.
    Held(Option<u64>, Mode, Span),
    /// `error`: it failed for another reason, and may or may not have had its effect.
    Error,
}
