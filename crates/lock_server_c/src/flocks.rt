//! The calls on flock locks.
ghost use Rattle.std.specs.Prelude.{◌≡◌, ◌≢◌, ◌↔◌, Some, None, IsSome, MatchOption};
ghost use Rattle.wait_core.specs.declared.Family.TheVariants.{Whole};
ghost use Rattle.lock_server.specs.Calls.{flock_request as flock_request_of, FlockOpComesTo, FlockWaitComesTo, Releases};
ghost use Rattle.lock_server.specs.Openings.{SameOpenings};
ghost use Rattle.lock_server.specs.ServerView.{state_of};
ghost use Rattle.lock_server.specs.States.{IsTaken};
ghost use Rattle.lock_server_c.specs.Numbers.{mode_of, wanted_of};
ghost use Rattle.lock_server_c.specs.Owned.{Has};
ghost use Rattle.lock_server_c.specs.Told.{Answers, AnswersWait, Asks, Goes, Seen, flock_mode};
ghost use Rattle.lock_server_c.specs.declared.status.TheConstants.{NO_MEMORY, TICKET_TAKEN};

use crate::handle::Handle;
use crate::{numbers, status};
use lock_server::Mode;

/// Sets the owner's flock lock on the file, or removes it where `mode` is 0 (flock(2), `LOCK_NB`, `LOCK_UN`).
#[unsafe(no_mangle)]
pub extern "C" fn dehokuna_flock(handle: &mut Handle, file: u64, owner: u64, mode: u32) -> u32
    requires { IsSome handle.old.server }
    ensures ok { Asks (wanted_of mode) handle.old handle.new result
        (λ asked. Answers handle.old handle.new result (λ rules S. FlockOpComesTo rules S file owner asked)) }
    ensures unlock { wanted_of mode ≡ Some None → result ≢ NO_MEMORY }
    ensures openings { Seen handle.old handle.new SameOpenings }
{
    match numbers::wanted(mode) {
        Some(mode) => flock(handle, file, owner, mode),
        None => status::INVALID,
    }
}

/// The same of a mode.
#[tactic(auto, using(crate::proofs::ToldLemmas::answer_told))]
fn flock(handle: &mut Handle, file: u64, owner: u64, mode: Option<Mode>) -> u32
    requires { IsSome handle.old.server }
    ensures ok { Answers handle.old handle.new result (λ rules S. FlockOpComesTo rules S file owner mode) }
    ensures unlock { mode ≡ None → result ≢ NO_MEMORY }
    ensures openings { Seen handle.old handle.new SameOpenings }
{
    let answer = handle.server().flock(file, owner, mode);
    status::status(answer)
}

/// The same for a flock lock that may be waited for (flock(2)).
#[unsafe(no_mangle)]
pub extern "C" fn dehokuna_flock_wait(
    handle: &mut Handle,
    ticket: u64,
    file: u64,
    owner: u64,
    mode: u32,
) -> u32
    requires { IsSome handle.old.server }
    ensures ok { Asks (mode_of mode) handle.old handle.new result (λ asked. AnswersWait handle.old handle.new result
        (λ rules S. FlockWaitComesTo rules S file (flock_request_of ticket owner asked) (flock_mode S file owner))) }
    ensures taken { MatchOption (mode_of mode) (Unit {0}) (λ asked. Has handle.old.server (λ server.
        (result ≡ TICKET_TAKEN) ↔ IsTaken (state_of server) ticket)) }
    ensures openings { Seen handle.old handle.new SameOpenings }
{
    match numbers::mode(mode) {
        Some(mode) => flock_wait(handle, ticket, file, owner, mode),
        None => status::INVALID,
    }
}

/// The same of a mode.
#[tactic(auto, using(crate::proofs::ToldLemmas::wait_told))]
fn flock_wait(handle: &mut Handle, ticket: u64, file: u64, owner: u64, mode: Mode) -> u32
    requires { IsSome handle.old.server }
    ensures ok { AnswersWait handle.old handle.new result
        (λ rules S. FlockWaitComesTo rules S file (flock_request_of ticket owner mode) (flock_mode S file owner)) }
    ensures taken { Has handle.old.server (λ server. (result ≡ TICKET_TAKEN) ↔ IsTaken (state_of server) ticket) }
    ensures openings { Seen handle.old handle.new SameOpenings }
{
    let answer = handle.server().flock_wait(ticket, file, owner, mode);
    status::wait_status(answer)
}

/// Removes the owner's flock lock on the file; its waits stay (flock(2), last close).
#[unsafe(no_mangle)]
pub extern "C" fn dehokuna_flock_release(handle: &mut Handle, file: u64, owner: u64)
    requires { IsSome handle.old.server }
    ensures releases { Goes handle.old handle.new (λ rules S T. Releases rules.policy S file Whole owner T) }
    ensures openings { Seen handle.old handle.new SameOpenings }
{
    handle.server().flock_release(file, owner);
}
