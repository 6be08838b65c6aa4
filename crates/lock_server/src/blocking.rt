//! What stands in the way of a wait on one file.
ghost use Rattle.std.specs.Prelude.{◌↔◌, IsTrue};
ghost use Rattle.range_core.specs.Ranges.{IsByteRange};
ghost use Rattle.wait_core.specs.Blocking.{IsBlockedIn, Meet};
ghost use Rattle.lock_server.specs.Settling.{PendingsConflict};
ghost use Rattle.lock_book.specs.Books.{byte_modes_of, flock_modes_of};
ghost use Rattle.lock_server.specs.Pendings.{as_wait};

use crate::{Family, Pending, Span};
use lock_book::{Book, Owner};

impl Pending {
    /// Whether a lock of another owner blocks the wait (POSIX.1-2017 fcntl, `F_SETLK`; flock(2)).
    pub(crate) fn is_blocked_by_lock(&self, book: &Book) -> bool
        requires { IsByteRange self.now.span }
        ensures { IsTrue result ↔ IsBlockedIn self.now.family
            (record { bytes = λ file. byte_modes_of book.now; flocks = λ file. flock_modes_of book.now }) (as_wait self.now) }
    {
        match self.family {
            Family::Bytes => book.blocked(Owner::Description(self.owner), self.span, self.mode),
            Family::Whole => book.flock_blocked(self.owner, self.mode),
        }
    }

    /// Whether the two waits, on one file, could not both be granted.
    pub(crate) fn conflicts_with(&self, other: &Pending) -> bool
        ensures { IsTrue result ↔ PendingsConflict self.now other.now }
    {
        self.family == other.family
            && self.owner != other.owner
            && self.mode.conflicts_with(other.mode)
            && meet(other.family, self.span, other.span)
    }
}

/// Whether two ranges have a byte in common; whole files always meet.
pub(crate) fn meet(family: Family, one: Span, other: Span) -> bool
    ensures { IsTrue result ↔ Meet family one other }
{
    match family {
        Family::Bytes => one.first <= other.last && other.first <= one.last,
        Family::Whole => true,
    }
}
