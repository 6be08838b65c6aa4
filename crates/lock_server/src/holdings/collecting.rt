//! All that is kept of a table and of openings that were built up, and of a file that is gone.
ghost use Rattle.std.specs.Prelude.{◌≡◌, IfOk, None, OnOk};
ghost use Rattle.lock_server.specs.Holding.{AreOfOthers, HasNoLock, HasNothing};
ghost use Rattle.lock_server.specs.HoldingsView.{AreKept, EntersAll, EntersOn, LeavesFile};
ghost use Rattle.lock_server.specs.OpeningsView.{through_at};
ghost use Rattle.lock_server.specs.TableView.{table_state};

use super::Holdings;
use crate::Memory;
use crate::openings::Openings;
use crate::table::Table;
use std::alloc::Global;

#[tactic(auto)]
impl Holdings {
    /// The owners that have something on the files of this table, or are noted in these openings.
    pub fn of(alloc: Global, table: &Table, openings: &Openings) -> Result<Holdings, Memory>
        ensures { IfOk result (λ holdings. AreKept holdings (table_state table.now) (through_at openings.now)) }
    {
        let mut holdings = Holdings::new(alloc);
        holdings.enter_holders(table)?;
        holdings.enter_noted(openings)?;
        Ok(holdings)
    }

    /// Each owner is kept with the files on which it has a lock or a wait.
    fn enter_holders(&mut self, table: &Table) -> Result<(), Memory>
        ensures { OnOk result (EntersAll self.old self.new (λ owner file. HasNothing ((table_state table.now).files file) owner)) }
    {
        let mut above = None;
        while let Some(file) = table.next_file(above) {
            self.enter_known(table, file)?;
            self.enter_waiting(table, file)?;
            above = Some(file);
        }
        Ok(())
    }

    /// Each owner that has a lock on the file is kept with it.
    fn enter_known(&mut self, table: &Table, file: u64) -> Result<(), Memory>
        ensures { OnOk result (EntersOn self.old self.new file (HasNoLock ((table_state table.now).files file))) }
    {
        let mut above = None;
        while let Some(owner) = table.next_known(file, above) {
            self.enter(owner, file)?;
            above = Some(owner);
        }
        Ok(())
    }

    /// Each owner of a wait on the file is kept with it.
    fn enter_waiting(&mut self, table: &Table, file: u64) -> Result<(), Memory>
        ensures { OnOk result (EntersOn self.old self.new file (AreOfOthers ((table_state table.now).files file).waits)) }
    {
        let mut place = 0;
        while let Some(wait) = table.wait_on(file, place) {
            self.enter(wait.owner, file)?;
            place += 1;
        }
        Ok(())
    }

    /// Each owner is kept with the files on which it is noted.
    fn enter_noted(&mut self, openings: &Openings) -> Result<(), Memory>
        ensures { OnOk result (EntersAll self.old self.new (λ owner file. through_at openings.now file owner ≡ None)) }
    {
        let mut above = None;
        while let Some(file) = openings.next_file(above) {
            self.enter_noted_on(openings, file)?;
            above = Some(file);
        }
        Ok(())
    }

    /// Each owner that is noted on the file is kept with it.
    fn enter_noted_on(&mut self, openings: &Openings, file: u64) -> Result<(), Memory>
        ensures { OnOk result (EntersOn self.old self.new file (λ owner. through_at openings.now file owner ≡ None)) }
    {
        let mut above = None;
        while let Some(owner) = openings.next_owner(file, above) {
            self.enter(owner, file)?;
            above = Some(owner);
        }
        Ok(())
    }

    /// No owner that has a lock or a wait on the file, or is noted there, is kept with it any more. It takes no memory.
    pub fn leave_file(&mut self, table: &Table, openings: &Openings, file: u64)
        ensures { LeavesFile self.old self.new file }
    {
        self.leave_known(table, file);
        self.leave_noted(openings, file);
    }

    /// No owner that has a lock or room on the file is kept with it any more.
    fn leave_known(&mut self, table: &Table, file: u64)
        ensures { LeavesFile self.old self.new file }
    {
        let mut above = None;
        while let Some(owner) = table.next_known(file, above) {
            self.leave(owner, file);
            above = Some(owner);
        }
    }

    /// No owner that is noted on the file is kept with it any more.
    fn leave_noted(&mut self, openings: &Openings, file: u64)
        ensures { LeavesFile self.old self.new file }
    {
        let mut above = None;
        while let Some(owner) = openings.next_owner(file, above) {
            self.leave(owner, file);
            above = Some(owner);
        }
    }
}
