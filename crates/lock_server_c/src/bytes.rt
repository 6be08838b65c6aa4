//! The calls on byte locks.
ghost use Rattle.std.specs.Prelude.{◌≡◌, ◌≢◌, ◌↔◌, None, IsSome, MatchOption};
ghost use Rattle.range_core.specs.Ranges.{IsByteRange};
ghost use Rattle.wait_core.specs.declared.Family.TheVariants.{Bytes};
ghost use Rattle.lock_server.specs.Calls.{byte_request as byte_request_of, Forgets, Releases, SetComesTo, WaitComesTo};
ghost use Rattle.lock_server.specs.Openings.{ForgetsOwner, SameOpenings, SeesOn};
ghost use Rattle.lock_server.specs.ServerView.{state_of};
ghost use Rattle.lock_server.specs.States.{IsTaken};
ghost use Rattle.lock_server_c.specs.Numbers.{change_of, lock_of};
ghost use Rattle.lock_server_c.specs.Owned.{Has};
ghost use Rattle.lock_server_c.specs.Told.{Answers, AnswersWait, Asks, GetTold, Goes, out_of, Seen, SplitsLock};
ghost use Rattle.lock_server_c.specs.declared.status.TheConstants.{INVALID, NO_MEMORY, TICKET_TAKEN};

use crate::handle::Handle;
use crate::{numbers, status};
use lock_server::{Lock, Mode, Span};

/// A byte lock that blocks, or that is listed, as C is told of it (`struct dehokuna_blocker`).
#[repr(C)]
#[derive(Drop)]
pub struct BlockerOut {
    /// Whose lock it is.
    pub owner: u64,
    /// Its first byte.
    pub first: u64,
    /// Its last byte.
    pub last: u64,
    /// 1 is a read lock, 2 a write lock.
    pub mode: u32,
}

/// Writes the first lock that blocks to `out`; `out` is as it was where none does (POSIX.1-2017 fcntl, `F_GETLK`). The server is only
/// read.
#[unsafe(no_mangle)]
pub extern "C" fn dehokuna_get(
    handle: &mut Handle,
    file: u64,
    owner: u64,
    first: u64,
    last: u64,
    mode: u32,
    out: &mut BlockerOut,
) -> u32
    requires { IsSome handle.old.server }
    ensures ok { MatchOption (lock_of first last mode) ((result ≡ INVALID) × (out.new ≡ out.old))
        (λ asked. Has handle.old.server (λ server. GetTold result server file owner asked.0 asked.1 out.old out.new)) }
    ensures kept { handle.new.server ≡ handle.old.server }
{
    match numbers::lock(first, last, mode) {
        Some((span, mode)) => get(handle, file, owner, span, mode, out),
        None => status::INVALID,
    }
}

/// The same of a range and a mode.
fn get(
    handle: &mut Handle,
    file: u64,
    owner: u64,
    span: Span,
    mode: Mode,
    out: &mut BlockerOut,
) -> u32
    requires server { IsSome handle.old.server }
    requires range { IsByteRange span }
    ensures ok { Has handle.old.server (λ server. GetTold result server file owner span mode out.old out.new) }
    ensures kept { handle.new.server ≡ handle.old.server }
{
    match handle.server().get(file, owner, span, mode) {
        Some(lock) => {
            *out = told(lock);
            status::BLOCKED
        }
        None => status::DONE,
    }
}

/// What C is told of a byte lock.
pub(crate) fn told(lock: Lock) -> BlockerOut
    ensures { result ≡ out_of lock }
{
    BlockerOut {
        owner: lock.owner,
        first: lock.span.first,
        last: lock.span.last,
        mode: numbers::number(lock.mode),
    }
}

/// Sets the owner's mode on the range, or removes it where `mode` is 0 (POSIX.1-2017 fcntl, `F_SETLK`).
#[unsafe(no_mangle)]
pub extern "C" fn dehokuna_set(
    handle: &mut Handle,
    file: u64,
    owner: u64,
    first: u64,
    last: u64,
    mode: u32,
) -> u32
    requires { IsSome handle.old.server }
    ensures ok { Asks (change_of first last mode) handle.old handle.new result
        (λ asked. Answers handle.old handle.new result (λ rules S. SetComesTo rules.policy S file owner asked.0 asked.1)) }
    ensures unlock { MatchOption (change_of first last mode) (Unit {0}) (λ asked. Has handle.old.server (λ server.
        asked.1 ≡ None → (¬ SplitsLock server file owner asked.0) → result ≢ NO_MEMORY)) }
    ensures openings { Seen handle.old handle.new SameOpenings }
{
    match numbers::change(first, last, mode) {
        Some((span, mode)) => set(handle, file, owner, span, mode),
        None => status::INVALID,
    }
}

/// The same of a range and a mode.
#[tactic(auto, using(crate::proofs::ToldLemmas::answer_told))]
fn set(handle: &mut Handle, file: u64, owner: u64, span: Span, mode: Option<Mode>) -> u32
    requires server { IsSome handle.old.server }
    requires range { IsByteRange span }
    ensures ok { Answers handle.old handle.new result (λ rules S. SetComesTo rules.policy S file owner span mode) }
    ensures unlock { Has handle.old.server (λ server. mode ≡ None → (¬ SplitsLock server file owner span) → result ≢ NO_MEMORY) }
    ensures openings { Seen handle.old handle.new SameOpenings }
{
    let answer = handle.server().set(file, owner, span, mode);
    status::status(answer)
}

/// The same for a lock that may be waited for (POSIX.1-2017 fcntl, `F_SETLKW`).
#[unsafe(no_mangle)]
pub extern "C" fn dehokuna_wait(
    handle: &mut Handle,
    ticket: u64,
    file: u64,
    owner: u64,
    first: u64,
    last: u64,
    mode: u32,
    detect: bool,
) -> u32
    requires { IsSome handle.old.server }
    ensures ok { Asks (lock_of first last mode) handle.old handle.new result (λ asked. AnswersWait handle.old handle.new result
        (λ rules S. WaitComesTo rules.policy S file (byte_request_of ticket owner asked.0 asked.1 detect))) }
    ensures taken { MatchOption (lock_of first last mode) (Unit {0}) (λ asked. Has handle.old.server (λ server.
        (result ≡ TICKET_TAKEN) ↔ IsTaken (state_of server) ticket)) }
    ensures openings { Seen handle.old handle.new SameOpenings }
{
    match numbers::lock(first, last, mode) {
        Some((span, mode)) => wait(handle, ticket, file, owner, span, mode, detect),
        None => status::INVALID,
    }
}

/// The same of a range and a mode.
#[tactic(auto, using(crate::proofs::ToldLemmas::wait_told))]
fn wait(
    handle: &mut Handle,
    ticket: u64,
    file: u64,
    owner: u64,
    span: Span,
    mode: Mode,
    detect: bool,
) -> u32
    requires server { IsSome handle.old.server }
    requires range { IsByteRange span }
    ensures ok { AnswersWait handle.old handle.new result
        (λ rules S. WaitComesTo rules.policy S file (byte_request_of ticket owner span mode detect)) }
    ensures taken { Has handle.old.server (λ server. (result ≡ TICKET_TAKEN) ↔ IsTaken (state_of server) ticket) }
    ensures openings { Seen handle.old handle.new SameOpenings }
{
    let answer = handle
        .server()
        .wait(ticket, file, owner, span, mode, detect);
    status::wait_status(answer)
}

/// Removes the owner's byte locks on the file; its waits stay (POSIX.1-2017 close).
#[unsafe(no_mangle)]
pub extern "C" fn dehokuna_flush(handle: &mut Handle, file: u64, owner: u64)
    requires { IsSome handle.old.server }
    ensures flushes { Goes handle.old handle.new (λ rules S T. Releases rules.policy S file Bytes owner T) }
    ensures openings { Seen handle.old handle.new (λ old new. SeesOn old new file owner None) }
{
    handle.server().flush(file, owner);
}

/// Removes the owner's byte locks and its waits for them, on all files (POSIX.1-2017 _Exit).
#[unsafe(no_mangle)]
pub extern "C" fn dehokuna_forget(handle: &mut Handle, owner: u64)
    requires { IsSome handle.old.server }
    ensures forgets { Goes handle.old handle.new (λ rules S T. Forgets rules.policy S owner T) }
    ensures openings { Seen handle.old handle.new (λ old new. ForgetsOwner old new owner) }
{
    handle.server().forget(owner);
}
