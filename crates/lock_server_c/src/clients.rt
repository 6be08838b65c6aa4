//! Clients and files that are gone, and what clients have.
ghost use Rattle.std.specs.Prelude.{◌≡◌, ◌↔◌, IsSome, IsTrue};
ghost use Rattle.lock_server.specs.Clients.{ForgetsFile, ForgetsOwners, ForgetsSeen, ForgetsSeenOn, HaveLocks, is_within};
ghost use Rattle.lock_server.specs.ServerView.{state_of};
ghost use Rattle.lock_server_c.specs.Owned.{Has};
ghost use Rattle.lock_server_c.specs.Told.{CountsTold, Goes, Seen, counts_out_of};

use crate::handle::Handle;
use lock_server::Counts;

/// What C is told of a client's locks and waits (`struct dehokuna_counts`).
#[repr(C)]
#[derive(Drop)]
pub struct CountsOut {
    /// Byte locks: of each owner and file the largest ranges of one mode.
    pub runs: u64,
    /// flock locks.
    pub flock_locks: u64,
    /// Requests that wait, of both kinds.
    pub waits: u64,
}

/// A client is gone: the byte locks, flock locks and waits of the owners from the first to the last leave all files
/// (POSIX.1-2017 _Exit; flock(2)).
#[unsafe(no_mangle)]
pub extern "C" fn dehokuna_forget_owners(handle: &mut Handle, first_owner: u64, last_owner: u64)
    requires { IsSome handle.old.server }
    ensures forgets { Goes handle.old handle.new (λ rules S T. ForgetsOwners rules.policy S first_owner last_owner T) }
    ensures openings { Seen handle.old handle.new (λ old new. ForgetsSeen old new (is_within first_owner last_owner)) }
{
    handle.server().forget_owners(first_owner, last_owner);
}

/// A file is gone: its locks and waits go, and no wait is granted (this project's choice).
#[unsafe(no_mangle)]
pub extern "C" fn dehokuna_forget_file(handle: &mut Handle, file: u64)
    requires { IsSome handle.old.server }
    ensures forgets { Goes handle.old handle.new (λ rules S T. ForgetsFile S file T) }
    ensures openings { Seen handle.old handle.new (λ old new. ForgetsSeenOn old new file) }
{
    handle.server().forget_file(file);
}

/// Whether one of the owners from the first to the last has a byte lock or a flock lock. The server is only read (this project's
/// choice).
#[unsafe(no_mangle)]
pub extern "C" fn dehokuna_has_locks(handle: &mut Handle, first_owner: u64, last_owner: u64) -> bool
    requires { IsSome handle.old.server }
    ensures told { Has handle.old.server (λ server. IsTrue result ↔ HaveLocks (state_of server) first_owner last_owner) }
    ensures kept { handle.new.server ≡ handle.old.server }
{
    handle.server().has_locks(first_owner, last_owner)
}

/// Writes how many locks and waits the owners from the first to the last have. The server is only read (this project's choice).
#[unsafe(no_mangle)]
pub extern "C" fn dehokuna_counts(
    handle: &mut Handle,
    first_owner: u64,
    last_owner: u64,
    out: &mut CountsOut,
)
    requires { IsSome handle.old.server }
    ensures told { Has handle.old.server (λ server. CountsTold server first_owner last_owner out.new) }
    ensures kept { handle.new.server ≡ handle.old.server }
{
    let counts = handle.server().counts(first_owner, last_owner);
    *out = told(counts);
}

/// What C is told of counts.
fn told(counts: Counts) -> CountsOut
    ensures { result ≡ counts_out_of counts }
{
    CountsOut {
        runs: counts.runs as u64,
        flock_locks: counts.flock_locks as u64,
        waits: counts.waits as u64,
    }
}
