//! flock locks.
ghost use Rattle.std.specs.Prelude.{◌≡◌, false, None, OnErr, OnOk};
ghost use Rattle.lock_book.specs.Changes.{whole_file};
ghost use Rattle.lock_server.specs.Calls.{ReleasesOn, SetsOn};
ghost use Rattle.lock_server.specs.Closing.{ClosesOn};
ghost use Rattle.lock_server.specs.States.{SameState};
ghost use Rattle.lock_server.specs.TableRoom.{HasFlockPlace, KeepsRoomOn};
ghost use Rattle.lock_server.specs.TableView.{IsSwept, KeepsOthers, table_state};

use super::Table;
use crate::{Family, Memory, Mode};

#[tactic(auto, unfolding(crate::specs::TableView::table_state, crate::specs::TableView::entry_of))]
impl Table {
    /// The flock mode of the owner on the file (flock(2)).
    pub fn flock_mode(&self, file: u64, owner: u64) -> Option<Mode>
        ensures { result ≡ ((table_state self.now).files file).flocks owner }
    {
        self.files.get(&file)?.flock_mode(owner)
    }

    /// Removes the flock lock of the owner on the file; its waits stay. No wait is granted. It takes no memory (flock(2)).
    pub fn release_flock(&mut self, file: u64, owner: u64)
        ensures releases { ReleasesOn (table_state self.old) file Family.Whole owner (table_state self.new) }
        ensures others { KeepsOthers self.old self.new file }
    {
        if let Some(locks) = self.files.get_mut(&file) {
            locks.release_flock(owner);
        }
    }

    /// The same of the flock owner that is given, if any.
    pub fn release_flock_of(&mut self, file: u64, owner: Option<u64>)
        ensures closes { ClosesOn (table_state self.old) file (λ other. false) owner (table_state self.new) }
        ensures others { KeepsOthers self.old self.new file }
    {
        if let Some(owner) = owner {
            self.release_flock(file, owner);
        }
    }

    /// Keeps a place for the flock lock of the owner on the file.
    ///
    /// `Memory` leaves the table as it was.
    pub fn place_flock(&mut self, file: u64, owner: u64) -> Result<(), Memory>
        ensures same { SameState (table_state self.old) (table_state self.new) }
        ensures ok { OnOk result (HasFlockPlace self.new file owner) }
        ensures swept { OnErr result (IsSwept self.old file → IsSwept self.new file) }
        ensures others { KeepsOthers self.old self.new file }
    {
        self.open(file)?;
        let locks = self.files.get_mut(&file).unwrap();
        match locks.place_flock(owner) {
            Ok(()) => Ok(()),
            Err(memory) => {
                self.sweep(file);
                Err(memory)
            }
        }
    }

    /// Gives back the place of the owner on the file, where it has neither a flock lock there nor a wait for one, and drops the entry of
    /// the file, where that has neither a lock nor a wait. It takes no memory.
    pub fn give_back_place(&mut self, file: u64, owner: u64)
        ensures same { SameState (table_state self.old) (table_state self.new) }
        ensures gone { IsSwept self.new file }
        ensures others { KeepsOthers self.old self.new file }
    {
        if let Some(locks) = self.files.get_mut(&file) {
            locks.give_back_place(owner);
        }
        self.sweep(file);
    }

    /// Sets or removes the flock lock of the owner on the file, in the place that is kept, which stays. No conflict is looked for,
    /// and no wait is granted. It takes no memory (flock(2)).
    pub fn set_flock(&mut self, file: u64, owner: u64, mode: Option<Mode>)
        requires { HasFlockPlace self.old file owner }
        ensures sets { SetsOn (table_state self.old) file Family.Whole owner whole_file mode (table_state self.new) }
        ensures room { KeepsRoomOn self.old self.new file }
        ensures others { KeepsOthers self.old self.new file }
    {
        let locks = self.files.get_mut(&file).unwrap();
        locks.set_flock(owner, mode);
        self.waiters.cross_by(owner, mode);
    }
}
