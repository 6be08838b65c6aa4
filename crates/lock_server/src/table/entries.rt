//! The entries of files, and the tickets.
ghost use Rattle.std.specs.Prelude.{◌↔◌, IsOk, IsTrue, OnErr, OnOk};
ghost use Rattle.lock_server.specs.Calls.{FetchComesTo};
ghost use Rattle.lock_server.specs.States.{IsTaken, SameState};
ghost use Rattle.lock_server.specs.TableView.{HasEntry, IsSwept, KeepsEntries, KeepsOthers, table_state};

use super::Table;
use crate::Memory;
use crate::file::LockFile;
use crate::tickets::Place;

#[tactic(auto, unfolding(crate::specs::TableView::table_state, crate::specs::TableView::entry_of))]
impl Table {
    /// Whether a wait has the ticket, or a grant that was not fetched.
    pub fn is_taken(&self, ticket: u64) -> bool
        ensures { IsTrue result ↔ IsTaken (table_state self.now) ticket }
    {
        let Some(place) = self.tickets.place(ticket) else {
            return false;
        };
        match place {
            Place::Reserved => false,
            Place::Waits(_) | Place::Granted => true,
        }
    }

    /// Makes an entry for the file, where it has none.
    ///
    /// `Memory`, which never comes where it has one, leaves the table as it was.
    pub(super) fn open(&mut self, file: u64) -> Result<(), Memory>
        ensures same { SameState (table_state self.old) (table_state self.new) }
        ensures entry { OnOk result (HasEntry self.new file) }
        ensures there { HasEntry self.old file → IsOk result }
        ensures swept { OnErr result (IsSwept self.old file → IsSwept self.new file) }
        ensures others { KeepsOthers self.old self.new file }
    {
        if self.files.contains_key(&file) {
            return Ok(());
        }
        self.files.insert(file, LockFile::new(self.alloc))?;
        Ok(())
    }

    /// Drops the entry of the file, where it has neither a lock nor a wait.
    pub fn sweep(&mut self, file: u64)
        ensures same { SameState (table_state self.old) (table_state self.new) }
        ensures gone { IsSwept self.new file }
        ensures others { KeepsOthers self.old self.new file }
    {
        let Some(locks) = self.files.get(&file) else {
            return;
        };
        if locks.is_untouched() {
            self.files.remove(&file);
        }
    }

    /// The ticket of the oldest grant, which is told once; `None` where there is none. It takes no memory.
    pub fn next_grant(&mut self) -> Option<u64>
        ensures fetched { FetchComesTo (table_state self.old) result (table_state self.new) }
        ensures entries { KeepsEntries self.old self.new }
    {
        self.tickets.fetch()
    }
}
