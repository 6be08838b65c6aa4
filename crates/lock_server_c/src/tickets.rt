//! The calls on waits by their tickets.
ghost use Rattle.std.specs.Prelude.{◌≡◌, IsSome, IsTrue, IsFalse, Some, None};
ghost use Rattle.lock_server.specs.Calls.{CancelComesTo, FetchComesTo};
ghost use Rattle.lock_server.specs.Openings.{SameOpenings};
ghost use Rattle.lock_server_c.specs.Told.{Goes, Seen};

use crate::handle::Handle;

/// Ends the wait with the ticket; `false` where there is none, be it granted or unknown (POSIX.1-2017 fcntl, `EINTR`).
#[unsafe(no_mangle)]
pub extern "C" fn dehokuna_cancel(handle: &mut Handle, ticket: u64) -> bool
    requires { IsSome handle.old.server }
    ensures comes_to { Goes handle.old handle.new (λ rules S T. CancelComesTo rules.policy S ticket result T) }
    ensures openings { Seen handle.old handle.new SameOpenings }
{
    handle.server().cancel(ticket)
}

/// Writes the ticket of the oldest grant that wasn't told yet to `ticket`; `false`, and `ticket` as it was, where there is none.
#[unsafe(no_mangle)]
pub extern "C" fn dehokuna_next_grant(handle: &mut Handle, ticket: &mut u64) -> bool
    requires { IsSome handle.old.server }
    ensures some { IsTrue result → Goes handle.old handle.new (λ rules S T. FetchComesTo S (Some ticket.new) T) }
    ensures none { IsFalse result → Goes handle.old handle.new (λ rules S T. FetchComesTo S None T) }
    ensures kept { IsFalse result → ticket.new ≡ ticket.old }
    ensures openings { Seen handle.old handle.new SameOpenings }
{
    match handle.server().next_grant() {
        Some(oldest) => {
            *ticket = oldest;
            true
        }
        None => false,
    }
}
