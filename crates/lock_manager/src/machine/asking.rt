//! What a request asks for, and what is in its way: nothing is changed.
ghost use Rattle.std.specs.Prelude.{◌≡◌, ◌<◌, ◌↔◌, IfOk, IfSome, IsTrue, MatchOption, All};
ghost use Rattle.fd_table.specs.declared.TheConstants.{FILES};
ghost use Rattle.range_core.specs.Ranges.{IsByteRange};
ghost use Rattle.lock_book.specs.Books.{byte_modes_of};
ghost use Rattle.lock_book.specs.Conflicts.{ByteConflict};
ghost use Rattle.wait_core.specs.Blocking.{IsBlocked, IsBlockedByLock, IsQueued, WaitsConflict};
ghost use Rattle.lock_manager.specs.Asking.{AsksFor, AsksForBytes, AsksForWhole, IsFirstOf, IsFirstByteLock, IsFlockAgainst, IsFirstLockOf, IsFirstInTheWay};
ghost use Rattle.lock_manager.specs.State.{State, locks_held};
ghost use Rattle.lock_manager.specs.MachineView.{Shows, machine_rules, machine_waits, machine_locks};

use super::Machine;
use super::flock_calls::wanted_flock;
use crate::lock_words::wanted_mode;
use crate::{FlockOp, InTheWay, LkCmd, Lock, Request};
use lock_book::{Blocker, Book, Held};
use range_core::{Memory, resolve};
use wait_core::{Family, Policy, Wait};

impl Machine {
    /// The lock that the request asks for, as it would wait: none where it is of another kind, unlocks, or has no open descriptor or
    /// no range.
    pub fn wanted(&self, p: u8, n: u64, request: Request) -> Option<Wait>
        ensures asks { (S : State) → Shows self.now S → MatchOption result ((wait : Wait) → ¬ AsksFor S p n request wait) (AsksFor S p n request) }
        ensures file { IfSome result (λ wait. wait.file < FILES) }
        ensures range { IfSome result (λ wait. IsByteRange wait.span) }
    {
        match request {
            Request::Lk { fd, cmd, lock } => self.wanted_bytes(p, n, fd, cmd, lock),
            Request::Flock { fd, op, .. } => self.wanted_whole(p, n, fd, op),
            _ => None,
        }
    }

    /// The lock that a lock command asks for.
    fn wanted_bytes(&self, p: u8, n: u64, fd: u32, cmd: LkCmd, lock: Lock) -> Option<Wait>
        ensures asks { (S : State) → Shows self.now S →
            MatchOption result ((wait : Wait) → ¬ AsksForBytes S p n fd cmd lock wait) (AsksForBytes S p n fd cmd lock) }
        ensures file { IfSome result (λ wait. wait.file < FILES) }
        ensures range { IfSome result (λ wait. IsByteRange wait.span) }
    {
        let look = self.tables.look(p, fd)?;
        let mode = wanted_mode(lock.kind)?;
        match resolve(lock.whence, lock.start, lock.len, look.offset, look.size) {
            Ok(span) => Some(Wait {
                p,
                n,
                file: look.file,
                family: Family::Bytes,
                owner: cmd.owner(p, look),
                span,
                mode,
            }),
            Err(_) => None,
        }
    }

    /// The lock that a flock asks for.
    fn wanted_whole(&self, p: u8, n: u64, fd: u32, op: FlockOp) -> Option<Wait>
        ensures asks { (S : State) → Shows self.now S →
            MatchOption result ((wait : Wait) → ¬ AsksForWhole S p n fd op wait) (AsksForWhole S p n fd op) }
        ensures file { IfSome result (λ wait. wait.file < FILES) }
        ensures range { IfSome result (λ wait. IsByteRange wait.span) }
    {
        let look = self.tables.look(p, fd)?;
        let mode = op.mode()?;
        Some(wanted_flock(p, n, look, mode))
    }

    /// What is the first in the way of the request: a held lock or, where none is, an earlier wait under the queue policy. `None`
    /// where it isn't blocked.
    pub fn first_in_the_way(&self, wait: &Wait) -> Result<Option<InTheWay>, Memory>
        requires file { wait.now.file < FILES }
        requires range { IsByteRange wait.now.span }
        ensures first { IfOk result (λ first. (S : State) → Shows self.now S → MatchOption first
            (¬ IsBlocked (machine_rules self.now).policy (locks_held S) S.waits wait.now)
            (IsFirstInTheWay (machine_rules self.now).policy (locks_held S) S.waits wait.now)) }
    {
        match self.first_lock(wait)? {
            Some(held) => Ok(Some(InTheWay::Lock(held))),
            None => Ok(self.first_queued(wait).map(InTheWay::Wait)),
        }
    }

    /// The first held lock that is in the way.
    fn first_lock(&self, wait: &Wait) -> Result<Option<Held>, Memory>
        requires file { wait.now.file < FILES }
        requires range { IsByteRange wait.now.span }
        ensures { IfOk result (λ first. MatchOption first
            (¬ IsBlockedByLock (machine_locks self.now) wait.now)
            (IsFirstLockOf wait.now.family (machine_locks self.now) wait.now)) }
    {
        let book = &self.books[usize::from(wait.file)];
        match wait.family {
            Family::Bytes => Ok(first_byte_lock(book, wait)),
            Family::Whole => Ok(first_flock(&book.held(wait.file)?, wait)),
        }
    }

    /// Of the earlier waits the first that conflicts with the request; under the held policy it stands behind none.
    fn first_queued(&self, wait: &Wait) -> Option<Wait>
        ensures { MatchOption result
            (¬ IsQueued (machine_rules self.now).policy (machine_waits self.now) wait.now)
            (λ other. ((machine_rules self.now).policy ≡ Policy.Queue) × IsFirstOf (λ v. WaitsConflict v wait.now) (machine_waits self.now) other) }
    {
        match self.rules.policy {
            Policy::Held => None,
            Policy::Queue => first_conflicting(self.waits.list(), wait),
        }
    }
}

/// The byte lock that a get command would report.
fn first_byte_lock(book: &Book, wait: &Wait) -> Option<Held>
    requires { IsByteRange wait.now.span }
    ensures { MatchOption result
        (¬ ByteConflict (byte_modes_of book.now) wait.now.owner wait.now.span wait.now.mode)
        (IsFirstByteLock (byte_modes_of book.now) wait.now) }
{
    let Blocker { owner, mode, span } = book.first_blocker(wait.owner, wait.span, wait.mode)?;
    Some(Held {
        file: wait.file,
        whole: false,
        owner,
        mode,
        span,
    })
}

/// The first of the lines that says a flock lock in the way.
fn first_flock(lines: &[Held], wait: &Wait) -> Option<Held>
    ensures { MatchOption result (All (λ line. ¬ IsFlockAgainst wait.now line) lines.now) (IsFirstOf (IsFlockAgainst wait.now) lines.now) }
{
    for line in lines {
        if is_flock_against(wait, line) {
            return Some(*line);
        }
    }
    None
}

/// Whether the line says a flock lock of another description that conflicts with the one that is asked for.
fn is_flock_against(wait: &Wait, line: &Held) -> bool
    ensures { IsTrue result ↔ IsFlockAgainst wait.now line.now }
{
    line.whole && line.owner != wait.owner && line.mode.conflicts_with(wait.mode)
}

/// The first of the waits that conflicts with the request.
fn first_conflicting(waits: &[Wait], wait: &Wait) -> Option<Wait>
    ensures { MatchOption result (All (λ v. ¬ WaitsConflict v wait.now) waits.now) (IsFirstOf (λ v. WaitsConflict v wait.now) waits.now) }
{
    for other in waits {
        if other.conflicts_with(wait) {
            return Some(*other);
        }
    }
    None
}
