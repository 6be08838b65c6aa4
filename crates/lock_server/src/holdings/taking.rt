//! Locks and waits that owners get on a file: each owner is kept with the file from then on.
ghost use Rattle.std.specs.Prelude.{ℕ, ◌≡◌, true, Option, None, IsOk, OnErr, OnOk};
ghost use Rattle.range_core.specs.Ranges.{IsByteRange, SplitsRun};
ghost use Rattle.lock_server.specs.Calls.{SetsOn};
ghost use Rattle.lock_server.specs.HoldingsView.{AreKept, keeps};
ghost use Rattle.lock_server.specs.OpeningsView.{through_at};
ghost use Rattle.lock_server.specs.States.{IsTaken, SameState};
ghost use Rattle.lock_server.specs.TableRoom.{HasFlockPlace, HasRoomFor};
ghost use Rattle.lock_server.specs.TableView.{IsSwept, KeepsOthers, table_state};

use super::Holdings;
use crate::openings::Openings;
use crate::table::Table;
use crate::{Family, Memory, Mode, Pending, Span};

#[tactic(auto)]
impl Holdings {
    /// Sets the mode on just the bytes of the span, or removes it ([`Table::set`]), and an owner that has got its first byte lock on the
    /// file is kept with it.
    ///
    /// `Memory`, which never comes where an unlock splits no run of the owner, leaves the table as it was.
    pub fn set(
        &mut self,
        table: &mut Table,
        file: u64,
        owner: u64,
        span: Span,
        mode: Option<Mode>,
    ) -> Result<(), Memory>
        requires { IsByteRange span }
        ensures ok { OnOk result (SetsOn (table_state table.old) file Family.Bytes owner span mode (table_state table.new)) }
        ensures unlock { mode ≡ None → (¬ SplitsRun (((table_state table.old).files file).bytes owner) span) → IsOk result }
        ensures err { OnErr result (SameState (table_state table.old) (table_state table.new)) }
        ensures kept { (through : ℕ → ℕ → Option ℕ) → AreKept self.old (table_state table.old) through → AreKept self.new (table_state table.new) through }
        ensures swept { OnErr result (IsSwept table.old file → IsSwept table.new file) }
        ensures others { KeepsOthers table.old table.new file }
    {
        let had = table.set_uncrossed(file, owner, span, mode)?;
        match self.enter_for(owner, file, mode, had) {
            Ok(()) => {
                table.cross_by(owner, mode);
                Ok(())
            }
            Err(memory) => {
                // The owner had no byte lock there, and has none again.
                table.release(file, owner);
                table.sweep(file);
                Err(memory)
            }
        }
    }

    /// Takes the room that the request needs to wait and to be granted, and its ticket ([`Table::reserve`]), and its owner is kept with
    /// the file.
    ///
    /// `Memory` leaves the table as it was.
    pub fn reserve(
        &mut self,
        table: &mut Table,
        openings: &Openings,
        file: u64,
        wanted: &Pending,
    ) -> Result<(), Memory>
        requires { ¬ IsTaken (table_state table.old) wanted.now.ticket }
        ensures same { SameState (table_state table.old) (table_state table.new) }
        ensures ok { OnOk result (HasRoomFor table.new file wanted.now) }
        ensures entered { OnOk result (keeps self.new wanted.now.owner file ≡ true) }
        ensures kept { AreKept self.old (table_state table.old) (through_at openings.now) → AreKept self.new (table_state table.new) (through_at openings.now) }
        ensures swept { OnErr result (IsSwept table.old file → IsSwept table.new file) }
        ensures others { KeepsOthers table.old table.new file }
    {
        self.enter(wanted.owner, file)?;
        match table.reserve(file, wanted) {
            Ok(()) => Ok(()),
            Err(memory) => {
                self.tidy(table, openings, wanted.owner, file);
                Err(memory)
            }
        }
    }

    /// Keeps a place for the flock lock of the owner on the file ([`Table::place_flock`]), and the owner with the file.
    ///
    /// `Memory` leaves the table as it was.
    pub fn place_flock(
        &mut self,
        table: &mut Table,
        openings: &Openings,
        file: u64,
        owner: u64,
    ) -> Result<(), Memory>
        ensures same { SameState (table_state table.old) (table_state table.new) }
        ensures ok { OnOk result (HasFlockPlace table.new file owner) }
        ensures entered { OnOk result (keeps self.new owner file ≡ true) }
        ensures kept { AreKept self.old (table_state table.old) (through_at openings.now) → AreKept self.new (table_state table.new) (through_at openings.now) }
        ensures swept { OnErr result (IsSwept table.old file → IsSwept table.new file) }
        ensures others { KeepsOthers table.old table.new file }
    {
        self.enter(owner, file)?;
        match table.place_flock(file, owner) {
            Ok(()) => Ok(()),
            Err(memory) => {
                self.tidy(table, openings, owner, file);
                Err(memory)
            }
        }
    }
}
