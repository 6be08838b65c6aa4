//! Settling a file: the earliest wait that nothing blocks is granted, again and again.
ghost use Rattle.std.specs.Prelude.{IfNone, IfSome};
ghost use Rattle.lock_server.specs.Freed.{AreBlockedBut, IsKnown};
ghost use Rattle.lock_server.specs.States.{GrantsOn, SameState, SettlesFile};
ghost use Rattle.lock_server.specs.Settling.{IsSettled};
ghost use Rattle.lock_server.specs.TableRoom.{KeepsRoomOn};
ghost use Rattle.lock_server.specs.Waiting.{IsReadyAt};
ghost use Rattle.lock_server.specs.TableView.{KeepsOthers, table_state};

use super::Table;
use crate::freed::{Freed, Known};
use crate::{Pending, Policy};

#[tactic(auto, unfolding(crate::specs::TableView::table_state, crate::specs::TableView::entry_of))]
impl Table {
    /// Grants the earliest wait on the file that nothing blocks, again and again until each is blocked, and queues the tickets. It
    /// takes no memory (POSIX leaves the order open; this is this project's choice).
    pub fn settle(&mut self, policy: Policy, file: u64)
        ensures settles { SettlesFile policy (table_state self.old) file (table_state self.new) }
        ensures settled { IsSettled policy ((table_state self.new).files file) }
        ensures room { KeepsRoomOn self.old self.new file }
        ensures others { KeepsOthers self.old self.new file }
    {
        self.settle_among(policy, file, Freed::Anybody);
    }

    /// The same where each wait on the file is blocked but for these: no other is asked.
    pub fn settle_among(&mut self, policy: Policy, file: u64, freed: Freed)
        requires { AreBlockedBut policy ((table_state self.old).files file) freed }
        ensures settles { SettlesFile policy (table_state self.old) file (table_state self.new) }
        ensures settled { IsSettled policy ((table_state self.new).files file) }
        ensures room { KeepsRoomOn self.old self.new file }
        ensures others { KeepsOthers self.old self.new file }
    {
        let mut known = Known { blocked: 0, freed };
        while let Some(still) = self.grant_next(policy, file, known) {
            known = still;
        }
    }

    /// The earliest wait on the file that nothing blocks, where this is known of them, gets its lock, and its ticket is queued: what is known
    /// of the waits then. `None` where each is blocked.
    fn grant_next(&mut self, policy: Policy, file: u64, known: Known) -> Option<Known>
        requires { IsKnown policy ((table_state self.old).files file) known }
        ensures granted { IfSome result (λ still. (wait : Pending) × GrantsOn policy (table_state self.old) file wait (table_state self.new)) }
        ensures known { IfSome result (IsKnown policy ((table_state self.new).files file)) }
        ensures settled { IfNone result (IsSettled policy ((table_state self.old).files file)
            × SameState (table_state self.old) (table_state self.new)) }
        ensures room { KeepsRoomOn self.old self.new file }
        ensures others { KeepsOthers self.old self.new file }
    {
        let Some(place) = self.next_ready(policy, file, known) else {
            return None;
        };
        let locks = self.files.get_mut(&file).unwrap();
        let granted = locks.grant(policy, place, known.freed);
        self.tickets.grant(granted.wait.ticket);
        self.waiters.end_for(&granted.wait, file);
        self.waiters.cross(granted.wait.owner);
        Some(granted.known)
    }

    /// The place of the earliest wait on the file that nothing blocks, where this is known of them; `None` where each is blocked.
    pub(super) fn next_ready(&self, policy: Policy, file: u64, known: Known) -> Option<u64>
        requires { IsKnown policy ((table_state self.now).files file) known }
        ensures ready { IfSome result (IsReadyAt policy ((table_state self.now).files file)) }
        ensures settled { IfNone result (IsSettled policy ((table_state self.now).files file)) }
    {
        self.files.get(&file)?.next_ready(policy, known)
    }
}
