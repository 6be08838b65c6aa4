//! Requests that may wait, and those that wait no more.
ghost use Rattle.std.specs.Prelude.{◌≡◌, ◌↔◌, List, None, Some, IsTrue, IfSome, IfNone, OnErr, OnOk};
ghost use Rattle.range_core.specs.Ranges.{IsByteRange};
ghost use Rattle.lock_server.specs.Calls.{LeavesOn, Suspends};
ghost use Rattle.lock_server.specs.Files.{Leaves};
ghost use Rattle.lock_server.specs.TableRoom.{HasRoomFor};
ghost use Rattle.lock_server.specs.Settling.{HasAlready, IsBlockedUnless, IsWaitBlocked};
ghost use Rattle.lock_server.specs.States.{IsPending, IsTaken, SameState};
ghost use Rattle.lock_server.specs.TableView.{HasEntry, IsSwept, KeepsEntries, KeepsOthers, table_state};
ghost use Rattle.lock_server.specs.TicketsView.{place_at};

use super::Table;
use crate::tickets::Place;
use crate::{Memory, Pending, Policy};

#[tactic(auto, unfolding(crate::specs::TableView::table_state, crate::specs::TableView::entry_of))]
impl Table {
    /// Whether the request would be blocked, were it to wait (POSIX.1-2017 fcntl, `F_SETLKW`; flock(2)).
    pub fn blocks(&self, policy: Policy, file: u64, wanted: &Pending) -> bool
        requires { IsByteRange wanted.now.span }
        ensures { IsTrue result
            ↔ IsWaitBlocked policy ((table_state self.now).files file) ((table_state self.now).files file).waits wanted.now }
    {
        match self.files.get(&file) {
            Some(locks) => locks.is_wait_blocked(policy, wanted),
            None => false,
        }
    }

    /// Whether the owner of the request has already what it is for.
    pub fn has_already(&self, file: u64, wanted: &Pending) -> bool
        requires { IsByteRange wanted.now.span }
        ensures { IsTrue result ↔ HasAlready ((table_state self.now).files file) wanted.now }
    {
        match self.files.get(&file) {
            Some(locks) => locks.has_already(wanted),
            None => false,
        }
    }

    /// Whether the request would be blocked, were it to wait and had its owner what it is for, or hadn't.
    pub fn blocks_unless(&self, policy: Policy, file: u64, wanted: &Pending, had: bool) -> bool
        requires { IsByteRange wanted.now.span }
        ensures { IsTrue result ↔ IsBlockedUnless policy ((table_state self.now).files file) ((table_state self.now).files file).waits
            wanted.now (IsTrue had) }
    {
        match self.files.get(&file) {
            Some(locks) => locks.is_blocked_unless(policy, wanted, had),
            None => false,
        }
    }

    /// Takes the room that the request needs to wait and to be granted, and its ticket.
    ///
    /// `Memory` leaves the table as it was.
    pub fn reserve(&mut self, file: u64, wanted: &Pending) -> Result<(), Memory>
        requires { ¬ IsTaken (table_state self.old) wanted.now.ticket }
        ensures same { SameState (table_state self.old) (table_state self.new) }
        ensures ok { OnOk result (HasRoomFor self.new file wanted.now) }
        ensures swept { OnErr result (IsSwept self.old file → IsSwept self.new file) }
        ensures others { KeepsOthers self.old self.new file }
    {
        self.open(file)?;
        match self.reserve_all(file, wanted) {
            Ok(()) => Ok(()),
            Err(memory) => {
                self.waiters.sweep(wanted.owner);
                self.give_back_place(file, wanted.owner);
                Err(memory)
            }
        }
    }

    /// The same, of which a part may be left where memory is refused.
    fn reserve_all(&mut self, file: u64, wanted: &Pending) -> Result<(), Memory>
        requires free { ¬ IsTaken (table_state self.old) wanted.now.ticket }
        requires entry { HasEntry self.old file }
        ensures same { SameState (table_state self.old) (table_state self.new) }
        ensures ok { OnOk result (HasRoomFor self.new file wanted.now) }
        ensures others { KeepsOthers self.old self.new file }
    {
        let locks = self.files.get_mut(&file).unwrap();
        locks.reserve(wanted)?;
        self.waiters.reserve_for(wanted)?;
        self.tickets.note(wanted.ticket)?;
        Ok(())
    }

    /// The request waits, last in order of arrival on its file, in room that was taken. It takes no memory.
    pub fn join(&mut self, file: u64, wanted: Pending)
        requires range { IsByteRange wanted.span }
        requires room { HasRoomFor self.old file wanted }
        ensures suspends { Suspends (table_state self.old) file wanted (table_state self.new) }
        ensures others { KeepsOthers self.old self.new file }
    {
        let locks = self.files.get_mut(&file).unwrap();
        locks.join(wanted);
        self.tickets.wait(wanted.ticket, file);
        self.waiters.begin_for(&wanted, file);
    }

    /// The request doesn't wait after all: its ticket is free again. It takes no memory.
    pub fn give_back(&mut self, ticket: u64)
        requires { place_at self.old.tickets ticket ≡ Some Place.Reserved }
        ensures free { place_at self.new.tickets ticket ≡ None }
        ensures same { SameState (table_state self.old) (table_state self.new) }
        ensures entries { KeepsEntries self.old self.new }
    {
        self.tickets.forget(ticket);
    }

    /// The wait with the ticket leaves its file, which is told with the wait; `None` where there is none. No wait is granted. It takes no
    /// memory (FUSE, interrupt).
    pub fn cancel(&mut self, ticket: u64) -> Option<(u64, Pending)>
        ensures some { IfSome result (λ found. LeavesOn (table_state self.old) found.0 ticket (table_state self.new)) }
        ensures wait { IfSome result (λ found. (found.1.ticket ≡ ticket) × (before : List Pending) × (after : List Pending)
            × Leaves ((table_state self.old).files found.0) before found.1 after ((table_state self.new).files found.0)) }
        ensures none { IfNone result ((¬ IsPending (table_state self.old) ticket) × SameState (table_state self.old) (table_state self.new)) }
        ensures others { IfSome result (λ found. KeepsOthers self.old self.new found.0) }
        ensures entries { IfNone result (KeepsEntries self.old self.new) }
    {
        let Some(place) = self.tickets.place(ticket) else {
            return None;
        };
        let file = match place {
            Place::Waits(file) => file,
            Place::Reserved | Place::Granted => return None,
        };
        let locks = self.files.get_mut(&file).unwrap();
        let wait = locks.cancel(ticket).unwrap();
        self.tickets.forget(wait.ticket);
        self.waiters.end_for(&wait, file);
        Some((file, wait))
    }
}
