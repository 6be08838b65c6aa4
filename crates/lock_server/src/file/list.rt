//! The waits on one file.
ghost use Rattle.std.specs.Prelude.{◌≡◌, ◌≢◌, ◌==◌, ◌<◌, ◌≤◌, ◌+◌, ◌^◌, ◌&&◌, ◌↔◌, ℕ, List, [], Some, All, Any, IfSome, IfNone, IsFalse, IsTrue, OnOk, OnErr, length, take, slice_get};
ghost use Rattle.range_core.specs.Ranges.{IsByteRange};
ghost use Rattle.lock_server.specs.Files.{GetsLock, Joins, Leaves, SameFile, SameLocks, FileState};
ghost use Rattle.lock_server.specs.FileView.{file_state};
ghost use Rattle.arrival_list.specs.Places.{IsPlaceFrom};
ghost use Rattle.lock_server.specs.Asking.{is_among, is_of_kind, IsNextConflict, NoneConflicts};
ghost use Rattle.lock_server.specs.Freed.{AreBlockedBut, IsKnown};
ghost use Rattle.lock_server.specs.Holding.{AreOfOthers};
ghost use Rattle.lock_server.specs.Leaving.{is_leaving, is_staying};
ghost use Rattle.lock_server.specs.Settling.{Grants, HasAlready, IsBlockedUnless, IsHeldBack, IsSettled, IsWaitBlocked, PendingsConflict};
ghost use Rattle.lock_server.specs.Waiting.{AreBlockedTo, IsReadyAt, IsReserved, IsReservedIn, KeepsFlockRoom, LeavesAt};

use super::LockFile;
use super::granting::{Granted, set_in_room};
use crate::asking::{Conflicting, Kind, OfOwner, Ticketed};
use crate::freed::{Freed, Known};
use crate::leaving::Leaving;
use crate::{Family, Memory, Pending, Policy};
use lock_book::Owner;
use range_core::counted;

#[tactic(auto, unfolding(crate::specs::FileView::file_state))]
impl LockFile {
    /// How many waits there are.
    pub fn waits(&self) -> u64
        ensures { result ≡ length (file_state self.now).waits }
    {
        self.waits.len()
    }

    /// The wait at this place in order of arrival; `None` where there are no more than so many.
    pub fn wait(&self, place: u64) -> Option<Pending>
        ensures is { result ≡ slice_get (file_state self.now).waits place }
        ensures range { IfSome result (λ wait. IsByteRange wait.span) }
        ensures behind { IfSome result (λ wait. place + 1 < 2 ^ 64) }
    {
        // The proof reads from it that the waits can be counted.
        let count = self.waits.len();
        self.waits.get(place)
    }

    /// The first place from this one on of such a wait of the owner.
    pub fn first_of(&self, owner: u64, kind: Kind, from: u64) -> Option<u64>
        ensures first { IsPlaceFrom (λ wait. is_of_kind kind wait && (wait.owner == owner)) from (file_state self.now).waits result }
        ensures behind { IfSome result (λ place. place + 1 < 2 ^ 64) }
    {
        // The proof reads from it that the waits can be counted.
        let count = self.waits.len();
        self.waits.place_from(from, OfOwner { owner, kind })
    }

    /// The first place, from the one on and before the other, of a wait that conflicts with this one.
    pub(super) fn next_conflicting(&self, from: u64, before: u64, wait: &Pending) -> Option<u64>
        ensures some { IfSome result (λ place. IsNextConflict (file_state self.now).waits wait.now from before place) }
        ensures none { IfNone result (NoneConflicts (file_state self.now).waits wait.now from before) }
    {
        let place = self.waits.place_from(from, Conflicting(*wait))?;
        if before <= place {
            return None;
        }
        Some(place)
    }

    /// Whether a lock of another owner is in the way of the wait (POSIX.1-2017 fcntl, `F_SETLK`; flock(2)).
    pub fn holds_back(&self, wait: &Pending) -> bool
        requires { IsByteRange wait.now.span }
        ensures { IsTrue result ↔ IsHeldBack (file_state self.now) wait.now }
    {
        wait.is_blocked_by_lock(&self.book)
    }

    /// Whether the wait would be blocked, were it to join (POSIX.1-2017 fcntl, `F_SETLKW`; flock(2)).
    pub fn is_wait_blocked(&self, policy: Policy, wait: &Pending) -> bool
        requires { IsByteRange wait.now.span }
        ensures { IsTrue result ↔ IsWaitBlocked policy (file_state self.now) (file_state self.now).waits wait.now }
    {
        self.is_blocked_behind(policy, self.waits.len(), wait)
    }

    /// Whether the wait would be blocked, were it to join and had its owner what it is for, or hadn't.
    pub fn is_blocked_unless(&self, policy: Policy, wait: &Pending, had: bool) -> bool
        requires { IsByteRange wait.now.span }
        ensures { IsTrue result ↔ IsBlockedUnless policy (file_state self.now) (file_state self.now).waits wait.now (IsTrue had) }
    {
        match policy {
            Policy::Held => self.holds_back(wait),
            Policy::Queue => {
                self.holds_back(wait) || (!had && self.conflicts_with_any(self.waits.len(), wait))
            }
        }
    }

    /// Whether the wait is blocked, where so many came before it.
    fn is_blocked_behind(&self, policy: Policy, before: u64, wait: &Pending) -> bool
        requires { IsByteRange wait.now.span }
        ensures { IsTrue result ↔ IsWaitBlocked policy (file_state self.now) (take before (file_state self.now).waits) wait.now }
    {
        match policy {
            Policy::Held => self.holds_back(wait),
            Policy::Queue => self.holds_back(wait) || self.is_queued_behind(before, wait),
        }
    }

    /// Whether one of so many waits, the earliest, conflicts with the wait, which is for more than its owner has.
    fn is_queued_behind(&self, before: u64, wait: &Pending) -> bool
        requires { IsByteRange wait.now.span }
        ensures { IsTrue result ↔ (Any (λ v. PendingsConflict v wait.now) (take before (file_state self.now).waits) × ¬ HasAlready (file_state self.now) wait.now) }
    {
        self.conflicts_with_any(before, wait) && !self.has_already(wait)
    }

    /// Whether one of so many waits, the earliest, conflicts with the wait.
    fn conflicts_with_any(&self, before: u64, wait: &Pending) -> bool
        ensures { IsTrue result ↔ Any (λ v. PendingsConflict v wait.now) (take before (file_state self.now).waits) }
    {
        self.next_conflicting(0, before, wait).is_some()
    }

    /// The place of the earliest wait that nothing blocks, where this is known of them, and `None` where each is blocked (POSIX leaves
    /// open which waiting process gets a lock first; the earliest is this project's choice). Only waits that may have been freed are asked.
    pub fn next_ready(&self, policy: Policy, known: Known) -> Option<u64>
        requires { IsKnown policy (file_state self.now) known }
        ensures ready { IfSome result (IsReadyAt policy (file_state self.now)) }
        ensures settled { IfNone result (IsSettled policy (file_state self.now)) }
    {
        // The proof reads from it that the waits can be counted.
        let count = self.waits.len();
        let mut from = known.blocked;
        while let Some(place) = self.next_among(known.freed, from) {
            if !self.is_blocked_at(policy, place) {
                return Some(place);
            }
            from = place + 1;
        }
        None
    }

    /// The first place, from this one on, of a wait that may have been freed.
    fn next_among(&self, freed: Freed, from: u64) -> Option<u64>
        ensures { IsPlaceFrom (is_among freed) from (file_state self.now).waits result }
    {
        match freed {
            Freed::Of(owner, _) if !self.may_wait(owner) => None,
            _ => self.waits.place_from(from, freed),
        }
    }

    /// Whether the owner may wait: where it has neither room nor a place for a grant it doesn't.
    pub(super) fn may_wait(&self, owner: u64) -> bool
        ensures { IsFalse result → AreOfOthers (file_state self.now).waits owner }
    {
        self.book.room(Owner::Description(owner)) > 0 || self.book.flock_room(owner)
    }

    /// Whether the wait at this place is blocked.
    fn is_blocked_at(&self, policy: Policy, place: u64) -> bool
        ensures { (wait : Pending) → slice_get (file_state self.now).waits place ≡ Some wait
            → IsTrue result ↔ IsWaitBlocked policy (file_state self.now) (take place (file_state self.now).waits) wait }
    {
        match self.waits.get(place) {
            Some(wait) => self.is_blocked_behind(policy, place, &wait),
            None => true,
        }
    }

    /// Holds room for the wait to join and to be granted.
    ///
    /// `Memory` leaves the file as it was.
    pub fn reserve(&mut self, wait: &Pending) -> Result<(), Memory>
        ensures same { SameFile (file_state self.old) (file_state self.new) }
        ensures ok { OnOk result (IsReserved self.new wait.now) }
    {
        self.waits.reserve(1)?;
        match wait.family {
            Family::Bytes => {
                let waits = counted(self.byte_waits(wait.owner), 1)?;
                self.book
                    .reserve(Owner::Description(wait.owner), waits as usize)
            }
            Family::Whole => self.place_flock(wait.owner),
        }
    }

    /// The wait comes last in order of arrival, in room that was held.
    pub fn join(&mut self, wait: Pending)
        requires range { IsByteRange wait.span }
        requires room { IsReserved self.old wait }
        ensures { Joins (file_state self.old) wait (file_state self.new) }
    {
        self.waits.push(wait);
    }

    /// The wait at this place, which nothing blocks, leaves the list and gets its lock, where only these may have been freed. It takes no
    /// memory (POSIX.1-2017 fcntl, `F_SETLKW`; flock(2)).
    pub fn grant(&mut self, policy: Policy, i: u64, freed: Freed) -> Granted
        requires { i < length (file_state self.old).waits }
        ensures is { slice_get (file_state self.old).waits i ≡ Some result.wait }
        ensures granted { IsReadyAt policy (file_state self.old) i → Grants policy (file_state self.old) result.wait (file_state self.new) }
        ensures blocked { IsReadyAt policy (file_state self.old) i → AreBlockedTo policy (file_state self.new) result.known.blocked }
        ensures freed { IsReadyAt policy (file_state self.old) i → AreBlockedBut policy (file_state self.old) freed
            → AreBlockedBut policy (file_state self.new) result.known.freed }
        ensures fewer { length (file_state self.new).waits + 1 ≡ length (file_state self.old).waits }
        ensures room { KeepsFlockRoom self.old self.new }
    {
        let blocked = if self.leaves_blocked(policy, i) { i } else { 0 };
        let wait = self.remove_at(i);
        self.give(&wait);
        Granted {
            wait,
            known: Known {
                blocked,
                freed: freed.behind(&wait),
            },
        }
    }

    /// The wait, which left the list, gets its lock in the room that was held for it. It needs no memory.
    fn give(&mut self, wait: &Pending)
        requires range { IsByteRange wait.now.span }
        requires room { IsReservedIn wait.now.family self.old wait.now }
        ensures gets { GetsLock (file_state self.old) wait.now (file_state self.new) }
        ensures waits { (file_state self.new).waits ≡ (file_state self.old).waits }
        ensures kept { KeepsFlockRoom self.old self.new }
    {
        match wait.family {
            Family::Bytes => {
                set_in_room(&mut self.book, wait.owner, wait.span, wait.mode);
            }
            Family::Whole => {
                self.book.flock_set_reserved(wait.owner, Some(wait.mode));
            }
        }
    }

    /// The wait with the ticket leaves the list, where there is one. It takes no memory.
    pub fn cancel(&mut self, ticket: u64) -> Option<Pending>
        ensures some { IfSome result (λ wait. (wait.ticket ≡ ticket) × (before : List Pending) × (later : List Pending)
            × Leaves (file_state self.old) before wait later (file_state self.new)) }
        ensures none { IfNone result (All (λ wait. wait.ticket ≢ ticket) (file_state self.old).waits
            × SameFile (file_state self.old) (file_state self.new)) }
    {
        let place = self.place_of(ticket)?;
        let wait = self.remove_at(place);
        self.give_back_place(wait.owner);
        Some(wait)
    }

    /// The first of the waits that are to leave leaves the list, where there is one. It takes no memory.
    pub fn dismiss(&mut self, leaving: Leaving) -> Option<Pending>
        ensures some { IfSome result (λ wait. IsTrue (is_leaving leaving wait) × (before : List Pending) × (later : List Pending)
            × Leaves (file_state self.old) before wait later (file_state self.new)) }
        ensures none { IfNone result (All (λ wait. IsTrue (is_staying leaving wait)) (file_state self.old).waits
            × SameFile (file_state self.old) (file_state self.new)) }
    {
        let place = self.place_leaving(leaving)?;
        Some(self.remove_at(place))
    }

    /// The place of the earliest wait with the ticket.
    fn place_of(&self, ticket: u64) -> Option<u64>
        ensures { IsPlaceFrom (λ wait. wait.ticket == ticket) 0 (file_state self.now).waits result }
    {
        self.waits.place_from(0, Ticketed(ticket))
    }

    /// The place of the earliest wait that is to leave.
    fn place_leaving(&self, leaving: Leaving) -> Option<u64>
        ensures { IsPlaceFrom (is_leaving leaving) 0 (file_state self.now).waits result }
    {
        self.waits.place_from(0, leaving)
    }

    /// The wait at this place leaves the list; the room for its lock is still there.
    fn remove_at(&mut self, place: u64) -> Pending
        requires { place < length (file_state self.old).waits }
        ensures is { slice_get (file_state self.old).waits place ≡ Some result }
        ensures leaves { LeavesAt (file_state self.old) place result (file_state self.new) }
        ensures room { IsReservedIn result.family self.new result }
        ensures kept { KeepsFlockRoom self.old self.new }
    {
        match self.waits.take(place) {
            Some(wait) => wait,
            None => unreachable!(),
        }
    }
}
