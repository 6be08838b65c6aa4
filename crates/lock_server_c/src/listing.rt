//! What a server lists. These calls only read it.
ghost use Rattle.std.specs.Prelude.{◌≡◌, ℕ, ◌≤◌, [], ◌∷◌, IsSome, IsTrue, IsFalse, length};
ghost use Rattle.lock_server.specs.Listing.{EndsBefore, file_place, flock_place, IsByteLock, IsFirstFrom, IsFlockLock, IsInUse, IsWaitAt, IsWaitUpTo, lock_place, wait_place};
ghost use Rattle.lock_server.specs.ServerView.{rules_of, state_of};
ghost use Rattle.lock_server_c.specs.Listed.{blocker_of, family_number, flock_out_of, obstacle_number, owner_wait, owner_wait_of, ticket_behind, Told, waiting_of};
ghost use Rattle.lock_server_c.specs.Owned.{Has};
ghost use Rattle.lock_server_c.specs.Told.{out_of};

use crate::bytes::{BlockerOut, told};
use crate::handle::Handle;
use crate::numbers;
use lock_server::{Family, FlockLock, Obstacle, OwnerWait, Span, Waiting};

/// A flock lock, as C is told of it (`struct dehokuna_flock_lock`).
#[repr(C)]
#[derive(Drop)]
pub struct FlockOut {
    /// Whose lock it is.
    pub owner: u64,
    /// 1 is a shared lock, 2 an exclusive one.
    pub mode: u32,
}

/// A wait, with what is in its way, as C is told of it (`struct dehokuna_waiting`).
#[repr(C)]
#[derive(Drop)]
pub struct WaitingOut {
    /// The request's ticket.
    pub ticket: u64,
    /// Whose the lock would be.
    pub owner: u64,
    /// Its first byte.
    pub first: u64,
    /// Its last byte.
    pub last: u64,
    /// 1 is a read lock or a shared one, 2 a write lock or an exclusive one.
    pub mode: u32,
    /// 0 is a byte lock, 1 a flock lock.
    pub family: u32,
    /// Whether it takes part in the search for deadlocks.
    pub detect: bool,
    /// What is in the way: 0 is a byte lock, 1 a flock lock, 2 a wait.
    pub obstacle: u32,
    /// The lock that is in the way, or all zero.
    pub blocker: BlockerOut,
    /// The ticket of the wait that is in the way, or zero.
    pub behind: u64,
}

/// A wait of an owner, as C is told of it (`struct dehokuna_owner_wait`).
#[repr(C)]
#[derive(Drop)]
pub struct OwnerWaitOut {
    /// Whose the lock would be.
    pub owner: u64,
    /// On which file.
    pub file: u64,
    /// The request's ticket.
    pub ticket: u64,
}

/// Writes the least file from this number on that has a lock or a wait; `false`, and `file` as it was, where there is none.
#[unsafe(no_mangle)]
pub extern "C" fn dehokuna_next_file(handle: &mut Handle, from: u64, file: &mut u64) -> bool
    requires { IsSome handle.old.server }
    ensures some { IsTrue result → Has handle.old.server (λ server. IsFirstFrom file_place (IsInUse (state_of server)) (from ∷ []) file.new) }
    ensures none { IsFalse result → Has handle.old.server (λ server. EndsBefore file_place (IsInUse (state_of server)) (from ∷ [])) }
    ensures as_it_was { IsFalse result → file.new ≡ file.old }
    ensures kept { handle.new.server ≡ handle.old.server }
{
    match handle.server().next_file(from) {
        Some(next) => {
            *file = next;
            true
        }
        None => false,
    }
}

/// Writes the first byte lock on the file, by owner and then by first byte, from this owner and byte on; `false`, and `lock` as it was,
/// where there is none.
#[unsafe(no_mangle)]
pub extern "C" fn dehokuna_next_lock(
    handle: &mut Handle,
    file: u64,
    owner: u64,
    first: u64,
    lock: &mut BlockerOut,
) -> bool
    requires { IsSome handle.old.server }
    ensures some { IsTrue result → Has handle.old.server (λ server. Told out_of lock.new
        (IsFirstFrom lock_place (IsByteLock ((state_of server).files file)) (owner ∷ first ∷ []))) }
    ensures none { IsFalse result → Has handle.old.server (λ server.
        EndsBefore lock_place (IsByteLock ((state_of server).files file)) (owner ∷ first ∷ [])) }
    ensures as_it_was { IsFalse result → lock.new ≡ lock.old }
    ensures kept { handle.new.server ≡ handle.old.server }
{
    match handle.server().next_lock(file, owner, first) {
        Some(next) => {
            *lock = told(next);
            true
        }
        None => false,
    }
}

/// Writes the flock lock on the file of the least owner that has one, from this owner on; `false`, and `lock` as it was, where there is
/// none.
#[unsafe(no_mangle)]
pub extern "C" fn dehokuna_next_flock(
    handle: &mut Handle,
    file: u64,
    from: u64,
    lock: &mut FlockOut,
) -> bool
    requires { IsSome handle.old.server }
    ensures some { IsTrue result → Has handle.old.server (λ server. Told flock_out_of lock.new
        (IsFirstFrom flock_place (IsFlockLock ((state_of server).files file)) (from ∷ []))) }
    ensures none { IsFalse result → Has handle.old.server (λ server.
        EndsBefore flock_place (IsFlockLock ((state_of server).files file)) (from ∷ [])) }
    ensures as_it_was { IsFalse result → lock.new ≡ lock.old }
    ensures kept { handle.new.server ≡ handle.old.server }
{
    match handle.server().next_flock(file, from) {
        Some(next) => {
            *lock = flock_told(next);
            true
        }
        None => false,
    }
}

/// Writes the wait on the file at this place in order of arrival, from 0 on, with what is in its way; `false`, and `waiting` as it was,
/// where no more than so many wait.
#[unsafe(no_mangle)]
pub extern "C" fn dehokuna_wait_at(
    handle: &mut Handle,
    file: u64,
    place: u64,
    waiting: &mut WaitingOut,
) -> bool
    requires { IsSome handle.old.server }
    ensures some { IsTrue result → Has handle.old.server (λ server. Told waiting_of waiting.new
        (IsWaitAt (rules_of server).policy ((state_of server).files file) place)) }
    ensures none { IsFalse result → Has handle.old.server (λ server. length ((state_of server).files file).waits ≤ place) }
    ensures as_it_was { IsFalse result → waiting.new ≡ waiting.old }
    ensures kept { handle.new.server ≡ handle.old.server }
{
    match handle.server().wait_at(file, place as usize) {
        Some(there) => {
            *waiting = waiting_told(there);
            true
        }
        None => false,
    }
}

/// Writes the first wait of the owners up to the last, by owner, file and ticket, from these on; `false`, and `wait` as it was, where
/// there is none.
#[unsafe(no_mangle)]
pub extern "C" fn dehokuna_next_wait(
    handle: &mut Handle,
    owner: u64,
    file: u64,
    ticket: u64,
    last: u64,
    wait: &mut OwnerWaitOut,
) -> bool
    requires { IsSome handle.old.server }
    ensures some { IsTrue result → Has handle.old.server (λ server. Told owner_wait_of wait.new
        (IsFirstFrom wait_place (IsWaitUpTo (state_of server) last) (wait_place (owner_wait owner file ticket)))) }
    ensures none { IsFalse result → Has handle.old.server (λ server.
        EndsBefore wait_place (IsWaitUpTo (state_of server) last) (wait_place (owner_wait owner file ticket))) }
    ensures as_it_was { IsFalse result → wait.new ≡ wait.old }
    ensures kept { handle.new.server ≡ handle.old.server }
{
    let from = OwnerWait {
        owner,
        file,
        ticket,
    };
    match handle.server().next_wait(from, last) {
        Some(next) => {
            *wait = owner_wait_told(next);
            true
        }
        None => false,
    }
}

/// What C is told of a flock lock.
fn flock_told(lock: FlockLock) -> FlockOut
    ensures { result ≡ flock_out_of lock }
{
    FlockOut {
        owner: lock.owner,
        mode: numbers::number(lock.mode),
    }
}

/// What C is told of a wait of an owner.
fn owner_wait_told(wait: OwnerWait) -> OwnerWaitOut
    ensures { result ≡ owner_wait_of wait }
{
    OwnerWaitOut {
        owner: wait.owner,
        file: wait.file,
        ticket: wait.ticket,
    }
}

/// What C is told of a wait.
fn waiting_told(waiting: Waiting) -> WaitingOut
    ensures { result ≡ waiting_of waiting }
{
    let pending = waiting.pending;
    WaitingOut {
        ticket: pending.ticket,
        owner: pending.owner,
        first: pending.span.first,
        last: pending.span.last,
        mode: numbers::number(pending.mode),
        family: family(pending.family),
        detect: pending.detect,
        obstacle: obstacle(waiting.obstacle),
        blocker: blocker(waiting.obstacle),
        behind: behind(waiting.obstacle),
    }
}

/// The number of a family.
fn family(family: Family) -> u32
    ensures { result ≡ family_number family }
{
    match family {
        Family::Bytes => 0,
        Family::Whole => 1,
    }
}

/// The number of what is in the way.
fn obstacle(obstacle: Obstacle) -> u32
    ensures { result ≡ obstacle_number obstacle }
{
    match obstacle {
        Obstacle::Lock(_) => 0,
        Obstacle::Flock(_) => 1,
        Obstacle::Wait(_) => 2,
    }
}

/// The lock that is in the way, or all zero.
fn blocker(obstacle: Obstacle) -> BlockerOut
    ensures { result ≡ blocker_of obstacle }
{
    match obstacle {
        Obstacle::Lock(lock) => told(lock),
        Obstacle::Flock(lock) => BlockerOut {
            owner: lock.owner,
            first: Span::WHOLE_FILE.first,
            last: Span::WHOLE_FILE.last,
            mode: numbers::number(lock.mode),
        },
        Obstacle::Wait(_) => BlockerOut {
            owner: 0,
            first: 0,
            last: 0,
            mode: 0,
        },
    }
}

/// The ticket of the wait that is in the way, or zero.
fn behind(obstacle: Obstacle) -> u64
    ensures { result ≡ ticket_behind obstacle }
{
    match obstacle {
        Obstacle::Lock(_) | Obstacle::Flock(_) => 0,
        Obstacle::Wait(ticket) => ticket,
    }
}
