//! Requests, as they would wait.
ghost use Rattle.std.specs.Prelude.{◌≡◌};
ghost use Rattle.lock_server.specs.Calls.{byte_request as byte_request_of, flock_request as flock_request_of};

use crate::{Family, Mode, Pending, Span};

/// The ticket of a request that doesn't wait, which is never told.
pub(crate) const NO_TICKET: u64 = 0;

/// A request for byte locks, as it would wait.
pub(crate) fn byte_request(ticket: u64, owner: u64, span: Span, mode: Mode, detect: bool) -> Pending
    ensures { result ≡ byte_request_of ticket owner span mode detect }
{
    Pending {
        ticket,
        owner,
        family: Family::Bytes,
        span,
        mode,
        detect,
    }
}

/// A request for a flock lock, as it would wait.
pub(crate) fn flock_request(ticket: u64, owner: u64, mode: Mode) -> Pending
    ensures { result ≡ flock_request_of ticket owner mode }
{
    Pending {
        ticket,
        owner,
        family: Family::Whole,
        span: Span::WHOLE_FILE,
        mode,
        detect: false,
    }
}
