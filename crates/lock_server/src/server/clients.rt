//! Clients and files that are gone, and what clients have.
ghost use Rattle.std.specs.Prelude.{◌≡◌, ◌↔◌, ℕ, IsTrue};
ghost use Rattle.lock_server.specs.Clients.{ForgetsFile, ForgetsOwners, ForgetsSeen, ForgetsSeenOn, HaveLocks, is_within};
ghost use Rattle.lock_server.specs.Counting.{AreCounts};
ghost use Rattle.lock_server.specs.Files.{SameFile, untouched};
ghost use Rattle.lock_server.specs.ServerView.{KeepsFile, rules_of, state_of, through_of};

use super::LockServer;
use crate::Counts;
use crate::owners::Owners;

#[tactic(auto, unfolding(crate::specs::ServerView::state_of, crate::specs::ServerView::rules_of, crate::specs::ServerView::through_of, crate::specs::ServerView::KeepsFile))]
impl LockServer {
    /// A client is gone, whose owners are those from the first number to the last, both among them; nobody where the first is above
    /// the last, and then nothing happens. Their byte locks, flock locks and waits of both kinds leave all files, with what was noted
    /// of them ([`LockServer::note`]), and only then waits are granted, on each file that changed, the files rising (POSIX.1-2017
    /// _Exit; flock(2); the order is this project's choice).
    ///
    /// Grants that weren't fetched stay, so a ticket may be told whose lock is gone. A wait that leaves is answered no more. It takes
    /// no memory. It goes through the owners that have something for each file where one has, or, if that is less, through all files.
    pub fn forget_owners(&mut self, first: u64, last: u64)
        ensures forgets { ForgetsOwners (rules_of self.old).policy (state_of self.old) first last (state_of self.new) }
        ensures gone { (file : ℕ) → SameFile ((state_of self.new).files file) untouched → ¬ KeepsFile self.new file }
        ensures rules { rules_of self.new ≡ rules_of self.old }
        ensures openings { ForgetsSeen (through_of self.old) (through_of self.new) (is_within first last) }
    {
        let owners = Owners { first, last };
        self.table
            .forget_owners(self.rules.policy, &self.holdings, owners);
        self.holdings.leave_all(&mut self.openings, owners);
    }

    /// A file is gone, and its number may be used again: its locks and waits go, and what was noted of its owners there
    /// ([`LockServer::note`]). No wait is granted (this project's choice).
    ///
    /// Grants that weren't fetched stay, so a ticket may be told whose lock is gone. A wait that leaves is answered no more. It takes
    /// no memory.
    pub fn forget_file(&mut self, file: u64)
        ensures forgets { ForgetsFile (state_of self.old) file (state_of self.new) }
        ensures gone { ¬ KeepsFile self.new file }
        ensures rules { rules_of self.new ≡ rules_of self.old }
        ensures openings { ForgetsSeenOn (through_of self.old) (through_of self.new) file }
    {
        self.holdings.leave_file(&self.table, &self.openings, file);
        self.table.forget_file(file);
        self.openings.forget_file(file);
    }

    /// Whether one of the owners from the first number to the last, both among them, has a byte lock or a flock lock on some file; a
    /// wait is none (this project's choice). It takes no memory, and looks at the files where these owners have something, until a lock is
    /// found.
    pub fn has_locks(&self, first: u64, last: u64) -> bool
        ensures { IsTrue result ↔ HaveLocks (state_of self.now) first last }
    {
        let mut before = Owners { first, last }.before();
        while let Some(owner) = self.holdings.next_owner(before) {
            if last < owner {
                return false;
            }
            if self.has_lock(owner) {
                return true;
            }
            before = Some(owner);
        }
        false
    }

    /// Whether the owner has a byte lock or a flock lock on some file.
    fn has_lock(&self, owner: u64) -> bool
        ensures { IsTrue result ↔ HaveLocks (state_of self.now) owner owner }
    {
        let alone = Owners {
            first: owner,
            last: owner,
        };
        let mut above = None;
        while let Some(file) = self.holdings.next_file(owner, above) {
            if self.table.has_locks_on(file, alone) {
                return true;
            }
            above = Some(file);
        }
        false
    }

    /// How many locks and waits the owners from the first number to the last have, both among them, on all files (this project's
    /// choice). It takes no memory, goes through files as [`LockServer::forget_owners`] does, and looks at each lock and wait of these
    /// owners.
    pub fn counts(&self, first: u64, last: u64) -> Counts
        ensures { AreCounts (state_of self.now) first last result }
    {
        self.table.counts(&self.holdings, Owners { first, last })
    }
}
