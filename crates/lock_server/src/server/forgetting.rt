//! An owner that is gone.
ghost use Rattle.std.specs.Prelude.{◌≡◌, None};
ghost use Rattle.lock_server.specs.Calls.{Forgets};
ghost use Rattle.lock_server.specs.Holding.{ForgetsThere};
ghost use Rattle.lock_server.specs.Openings.{ForgetsOwner, SeesOn};
ghost use Rattle.lock_server.specs.ServerView.{rules_of, state_of, through_of};

use super::LockServer;

#[tactic(auto, unfolding(crate::specs::ServerView::state_of, crate::specs::ServerView::rules_of, crate::specs::ServerView::through_of))]
impl LockServer {
    /// Removes all byte locks of the owner on all files, and its waits for byte locks, the files rising (POSIX.1-2017 _Exit). It
    /// takes no memory, and looks at the files where the owner has a lock or a wait or was noted.
    pub fn forget(&mut self, owner: u64)
        ensures forgets { Forgets (rules_of self.old).policy (state_of self.old) owner (state_of self.new) }
        ensures rules { rules_of self.new ≡ rules_of self.old }
        ensures openings { ForgetsOwner (through_of self.old) (through_of self.new) owner }
    {
        let mut above = None;
        while let Some(file) = self.holdings.next_file(owner, above) {
            self.forget_on(file, owner);
            above = Some(file);
        }
    }

    /// The same on one file.
    fn forget_on(&mut self, file: u64, owner: u64)
        ensures forgets { ForgetsThere (rules_of self.old).policy (state_of self.old) file owner (state_of self.new) }
        ensures rules { rules_of self.new ≡ rules_of self.old }
        ensures openings { SeesOn (through_of self.old) (through_of self.new) file owner None }
    {
        self.table.dismiss(file, owner);
        self.table.settle(self.rules.policy, file);
        self.table.sweep(file);
        self.openings.forget(file, owner);
        self.holdings.tidy(&self.table, &self.openings, owner, file);
    }
}
