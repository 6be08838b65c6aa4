//! Which waits a grant leaves blocked.
ghost use Rattle.std.specs.Prelude.{◌≡◌, ◌≢◌, ◌≤◌, ◌+◌, All, IsTrue, Some, take};
ghost use Rattle.range_core.specs.Ranges.{IsByteRange};
ghost use Rattle.lock_book.specs.Books.{room_in, SetsOwnerMode};
ghost use Rattle.lock_server.specs.Adding.{LeavesBlocked, OnlyAdds};
ghost use Rattle.lock_server.specs.FileView.{file_state};

use super::LockFile;
use crate::asking::Kind;
use crate::freed::Known;
use crate::{Family, Mode, Pending, Policy, Span};
use lock_book::{Book, Owner};

/// A wait that was granted.
#[derive(Clone, Copy)]
pub struct Granted {
    /// As it waited.
    pub wait: Pending,
    /// What is known of those that wait still.
    pub known: Known,
}

#[tactic(auto, unfolding(crate::specs::FileView::file_state))]
impl LockFile {
    /// Whether the waits before this one, where each is blocked, are blocked behind its grant too: it takes nothing from what its owner
    /// has and, where waits are queued, no wait of its owner comes before it. It may be false also where they are.
    pub(super) fn leaves_blocked(&self, policy: Policy, i: u64) -> bool
        ensures { IsTrue result → LeavesBlocked policy (file_state self.now) i }
    {
        let Some(wait) = self.waits.get(i) else {
            return false;
        };
        self.only_adds(&wait) && self.has_none_queued(policy, i, wait.owner)
    }

    /// Whether none of the waits before this place is of the owner, where waits are queued.
    fn has_none_queued(&self, policy: Policy, before: u64, owner: u64) -> bool
        ensures { IsTrue result → policy ≡ Policy.Queue → All (λ wait. wait.owner ≢ owner) (take before (file_state self.now).waits) }
    {
        match policy {
            Policy::Held => true,
            Policy::Queue => match self.first_of(owner, Kind::Any, 0) {
                Some(place) => before <= place,
                None => true,
            },
        }
    }

    /// Whether the lock that the wait is for takes nothing from what its owner has. It is false also of a read lock that takes nothing,
    /// where the owner has a lock.
    fn only_adds(&self, wait: &Pending) -> bool
        ensures { IsTrue result → OnlyAdds (file_state self.now) wait.now }
    {
        match (wait.mode, wait.family) {
            (Mode::Write, _) => true,
            (Mode::Read, Family::Bytes) => !self.has_byte_lock(wait.owner),
            (Mode::Read, Family::Whole) => !self.has_flock_lock(wait.owner),
        }
    }
}

/// Sets the owner's mode on just the bytes of the span, in room that was held. It needs no memory; what the book keeps beside its lists, to be
/// asked quickly, is given room where there is memory, since a settling may make any number of grants.
pub(super) fn set_in_room(book: &mut Book, owner: u64, span: Span, mode: Mode)
    requires range { IsByteRange span }
    requires room { 1 ≤ room_in book.old (Owner.Description owner) }
    ensures sets { SetsOwnerMode book.old book.new (Owner.Description owner) span (Some mode) }
    ensures room { room_in book.old (Owner.Description owner) ≤ room_in book.new (Owner.Description owner) + 1 }
{
    let owner = Owner::Description(owner);
    // Room for no set is there already, so the lists stay as they are.
    let _ = book.reserve(owner, 0);
    book.set_reserved(owner, span, Some(mode));
}
