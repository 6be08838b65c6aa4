//! The table and the notes of an export, built up from nothing.
ghost use Rattle.std.specs.Prelude.{◌≡◌, ℕ, Option, IfOk, OnOk, IsTrue, All};
ghost use Rattle.lock_server.specs.Deadlock.{IsFreeOfCycles};
ghost use Rattle.lock_server.specs.Importing.{AreFilesOf, AreNotesOf, AreOf, HasLocksAlone, HasWaitsOf, JoinsAll, SetsAll};
ghost use Rattle.lock_server.specs.Openings.{SameOpenings};
ghost use Rattle.lock_server.specs.OpeningsView.{through_at};
ghost use Rattle.lock_server.specs.Reading.{Always, Succeeds};
ghost use Rattle.lock_server.specs.Restoring.{AreCompatible, AreSettled, QueuesEach};
ghost use Rattle.lock_server.specs.Safety.{AreTicketsOnce, IsSafe};
ghost use Rattle.lock_server.specs.States.{SameState, State, opening};
ghost use Rattle.lock_server.specs.TableView.{AreSwept, KeepsEntries, table_state};

use super::fault;
use super::parts::Parts;
use crate::openings::Openings;
use crate::table::Table;
use crate::{Flaw, ImportFault, Memory};
use std::alloc::Global;

impl Parts {
    /// The table that the parts tell of.
    pub fn table(&self, alloc: Global) -> Result<Table, ImportFault>
        ensures safe { IfOk result (λ table. ∥ IsSafe self.now.rules.policy (table_state table) ∥₁) }
        ensures swept { IfOk result AreSwept }
        ensures again { (S : State) → AreOf S self.now → Succeeds result (λ table. SameState S (table_state table)) }
    {
        let mut table = Table::new(alloc);
        self.put_locks(&mut table)?;
        self.put_waits(&mut table)?;
        self.put_grants(&mut table)?;
        self.check_waits(&table)?;
        table.restore_crossed(&self.crossed);
        self.check_cycles(&table)?;
        self.check_crossed(&table)?;
        Ok(table)
    }

    /// The notes that the parts tell of.
    pub fn openings(&self, alloc: Global) -> Result<Openings, Memory>
        ensures { (through : ℕ → ℕ → Option ℕ) → AreNotesOf through self.now.notes.items
            → IfOk result (λ openings. SameOpenings through (through_at openings)) }
    {
        let mut openings = Openings::new(alloc);
        for note in &self.notes {
            openings.note(note.file, note.owner, note.open_file)?;
        }
        Ok(openings)
    }

    /// Sets the locks on all files, where none conflicts with one before it.
    fn put_locks(&self, table: &mut Table) -> Result<(), ImportFault>
        ensures sets { OnOk result (SetsAll (table_state table.old) self.now.files.items (table_state table.new)) }
        ensures again { (S : State) → AreFilesOf S self.now.files.items → AreCompatible S → SameState opening (table_state table.old)
            → Succeeds result Always }
        ensures swept { AreSwept table.old → AreSwept table.new }
    {
        for (i, file) in self.files.iter().enumerate() {
            if let Some(place) = table.restore_locks(file.number, &file.locks)? {
                return Err(self.fault_in(i, Flaw::Conflict, file.lock_offset(place)));
            }
            if let Some(place) = table.restore_flocks(file.number, &file.flocks)? {
                return Err(self.fault_in(i, Flaw::Conflict, file.flock_offset(place)));
            }
        }
        Ok(())
    }

    /// The waits join on all files, where none has a ticket that was there before.
    fn put_waits(&self, table: &mut Table) -> Result<(), ImportFault>
        ensures joins { OnOk result (JoinsAll (table_state table.old) self.now.files.items (table_state table.new)) }
        ensures again { (S : State) → AreFilesOf S self.now.files.items → AreTicketsOnce S → HasLocksAlone (table_state table.old)
            → Succeeds result Always }
        ensures swept { AreSwept table.old → AreSwept table.new }
    {
        for (i, file) in self.files.iter().enumerate() {
            if let Some(place) = table.restore_waits(file.number, &file.waits)? {
                return Err(self.fault_in(i, Flaw::Ticket, file.wait_offset(place)));
            }
        }
        Ok(())
    }

    /// The grants are queued, where none has a ticket that was there before.
    fn put_grants(&self, table: &mut Table) -> Result<(), ImportFault>
        ensures queues { OnOk result (QueuesEach (table_state table.old) self.now.grants.items (table_state table.new)) }
        ensures again { (S : State) → self.now.grants.items ≡ S.grants → AreTicketsOnce S → HasWaitsOf S (table_state table.old)
            → Succeeds result Always }
        ensures entries { KeepsEntries table.old table.new }
    {
        match table.restore_grants(&self.grants)? {
            Some(place) => Err(fault(Flaw::Ticket, self.grant_offset(place))),
            None => Ok(()),
        }
    }

    /// Whether each wait is blocked.
    fn check_waits(&self, table: &Table) -> Result<(), ImportFault>
        ensures settled { OnOk result (AreSettled self.now.rules.policy (table_state table.now)) }
        ensures again { AreSettled self.now.rules.policy (table_state table.now) → Succeeds result Always }
    {
        let Some((number, place)) = table.first_ready(self.rules.policy) else {
            return Ok(());
        };
        Err(self.fault_on_wait(Flaw::Unblocked, number, place))
    }

    /// Whether no owner that isn't crossed waits for itself, by way of such.
    fn check_cycles(&self, table: &Table) -> Result<(), ImportFault>
        ensures free { OnOk result (IsFreeOfCycles self.now.rules.policy (table_state table.now)) }
        ensures again { IsFreeOfCycles self.now.rules.policy (table_state table.now) → Succeeds result Always }
    {
        match table.owner_on_cycle(self.rules.policy)? {
            Some(owner) => Err(self.fault_of_waiter(owner)),
            None => Ok(()),
        }
    }

    /// Whether each crossed owner has a detected wait.
    fn check_crossed(&self, table: &Table) -> Result<(), ImportFault>
        ensures crossed { OnOk result (All (λ owner. IsTrue ((table_state table.now).crossed owner)) self.now.crossed.items) }
        ensures again { All (λ owner. IsTrue ((table_state table.now).crossed owner)) self.now.crossed.items → Succeeds result Always }
    {
        match table.first_uncrossed(&self.crossed) {
            Some(place) => Err(fault(Flaw::Crossed, self.crossed_offset(place))),
            None => Ok(()),
        }
    }

    /// What is wrong with a thing at this place of the bytes of a file.
    fn fault_in(&self, file: usize, flaw: Flaw, offset: usize) -> ImportFault {
        fault(flaw, self.file_offset(file).saturating_add(offset))
    }

    /// What is wrong with the wait at this place on the file with the number.
    fn fault_on_wait(&self, flaw: Flaw, number: u64, place: usize) -> ImportFault {
        for (i, file) in self.files.iter().enumerate() {
            if file.number == number {
                return self.fault_in(i, flaw, file.wait_offset(place));
            }
        }
        fault(flaw, 0)
    }

    /// That the owner of a wait is on a cycle, at its first detected wait.
    fn fault_of_waiter(&self, owner: u64) -> ImportFault {
        for (i, file) in self.files.iter().enumerate() {
            let place = file
                .waits
                .iter()
                .position(|wait| wait.detect && wait.owner == owner);
            if let Some(place) = place {
                return self.fault_in(i, Flaw::Cycle, file.wait_offset(place));
            }
        }
        fault(Flaw::Cycle, 0)
    }
}
