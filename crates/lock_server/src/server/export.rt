//! The state of a server as bytes.
ghost use Rattle.std.specs.Prelude.{◌∷◌};
ghost use Rattle.lock_server.specs.Bytes.{export_words, rules_words, version};
ghost use Rattle.lock_server.specs.Exports.{ExportComesTo, IsExportSize};
ghost use Rattle.lock_server.specs.Inventory.{IsInventory};
ghost use Rattle.lock_server.specs.ServerView.{rules_of, state_of, through_of};
ghost use Rattle.lock_server.specs.Words.{Puts, PutsSome};

use super::LockServer;
use crate::words;

/// The version of the format.
const VERSION: u64 = 1;

#[tactic(auto, unfolding(crate::specs::ServerView::state_of, crate::specs::ServerView::rules_of, crate::specs::ServerView::through_of))]
impl LockServer {
    /// How many bytes the export takes ([`LockServer::export`]); `usize::MAX` where it takes more, which no memory has. It takes no
    /// memory, and goes over the whole state (this project's choice).
    pub fn export_size(&self) -> usize
        ensures { IsExportSize self.now result }
    {
        self.put(&mut [], 0)
    }

    /// Writes the state as bytes to the front of the buffer, and tells how many these are: the rules, the files with their locks and
    /// waits, the grants that weren't fetched, the crossed owners and the notes. Two servers in the same state have the same bytes,
    /// whatever each was told before, and others have others ([`crate::exports_tell_states`]); the format is in `specs/Bytes.antt`.
    ///
    /// A buffer that is shorter than that stays as it was. It takes no memory, and goes over the whole state (this project's choice).
    pub fn export(&self, out: &mut [u8]) -> usize
        ensures { ExportComesTo self.now out.old out.new result }
    {
        let size = self.put(&mut [], 0);
        if size <= out.len() {
            self.put(out, 0);
        }
        size
    }

    /// Puts all that the server has.
    fn put(&self, out: &mut [u8], at: usize) -> usize
        ensures { PutsSome (IsInventory (state_of self.now) (through_of self.now)) (export_words (rules_of self.now)) out.old at out.new result }
    {
        let at = self.put_rules(out, at);
        let at = self.table.put_files(out, at);
        let at = self.table.put_grants(out, at);
        let at = self.table.put_crossed(out, at);
        self.openings.put(out, at)
    }

    /// Puts the version of the format, and the rules.
    fn put_rules(&self, out: &mut [u8], at: usize) -> usize
        ensures { Puts (version ∷ rules_words (rules_of self.now)) out.old at out.new result }
    {
        let policy = words::policy_word(self.rules.policy);
        let conversion = words::conversion_word(self.rules.conversion);
        words::put_all(out, at, &[VERSION, policy, conversion])
    }
}
