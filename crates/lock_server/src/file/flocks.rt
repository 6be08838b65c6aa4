//! The flock locks of one file.
ghost use Rattle.std.specs.Prelude.{◌≡◌, ◌↔◌, ℕ, None, false, IsTrue, Any, OnOk};
ghost use Rattle.lock_server.specs.Files.{SameFile, SetsFlock, Unlocks};
ghost use Rattle.lock_server.specs.FileView.{file_state, keeps_place};
ghost use Rattle.lock_server.specs.Pendings.{is_flock_wait};
ghost use Rattle.lock_server.specs.Waiting.{KeepsFlockRoom};

use super::LockFile;
use crate::asking::Kind;
use crate::{Family, Memory, Mode};

#[tactic(auto, unfolding(crate::specs::FileView::file_state, crate::specs::FileView::keeps_place))]
impl LockFile {
    /// The flock mode of the owner (flock(2)).
    pub fn flock_mode(&self, owner: u64) -> Option<Mode>
        ensures { result ≡ (file_state self.now).flocks owner }
    {
        self.book.flock_mode(owner)
    }

    /// Keeps a place for the flock lock of the owner.
    ///
    /// `Memory` leaves the file as it was.
    pub fn place_flock(&mut self, owner: u64) -> Result<(), Memory>
        ensures same { SameFile (file_state self.old) (file_state self.new) }
        ensures ok { OnOk result (IsTrue (keeps_place self.new owner)) }
        ensures room { KeepsFlockRoom self.old self.new }
    {
        let is_new = self.flock_owners.insert(owner)?;
        match self.book.flock_reserve(owner) {
            Ok(()) => Ok(()),
            Err(memory) => {
                if is_new {
                    self.flock_owners.remove(&owner);
                }
                Err(memory)
            }
        }
    }

    /// Sets the flock mode of the owner, or removes it, in the place that is kept, which stays. No conflict is looked for, and no
    /// wait is granted. It takes no memory (flock(2)).
    pub fn set_flock(&mut self, owner: u64, mode: Option<Mode>)
        requires { IsTrue (keeps_place self.old owner) }
        ensures sets { SetsFlock (file_state self.old) owner mode (file_state self.new) }
        ensures waits { (file_state self.new).waits ≡ (file_state self.old).waits }
        ensures room { KeepsFlockRoom self.old self.new }
    {
        self.book.flock_set_reserved(owner, mode);
    }

    /// Removes the flock lock of the owner; its waits stay, with their place. It takes no memory (flock(2)).
    pub fn release_flock(&mut self, owner: u64)
        ensures unlocks { Unlocks Family.Whole (file_state self.old) owner (file_state self.new) }
        ensures waits { (file_state self.new).waits ≡ (file_state self.old).waits }
    {
        if self.waits_for_flock(owner) {
            self.book.flock_set_reserved(owner, None);
        } else {
            self.book.release_flock(owner);
            self.flock_owners.remove(&owner);
        }
    }

    /// Gives back the place of the owner, where it has neither a flock lock nor a wait for one. It takes no memory.
    pub fn give_back_place(&mut self, owner: u64)
        ensures same { SameFile (file_state self.old) (file_state self.new) }
        ensures gone { (file_state self.old).flocks owner ≡ None → (¬ Any (λ wait. IsTrue (is_flock_wait owner wait)) (file_state self.old).waits)
            → keeps_place self.new owner ≡ false }
    {
        if self.flock_mode(owner).is_none() && !self.waits_for_flock(owner) {
            self.book.release_flock(owner);
            self.flock_owners.remove(&owner);
        }
    }

    /// Whether the owner waits for a flock lock.
    fn waits_for_flock(&self, owner: u64) -> bool
        ensures { IsTrue result ↔ Any (λ wait. IsTrue (is_flock_wait owner wait)) (file_state self.now).waits }
    {
        self.book.flock_room(owner) && self.first_of(owner, Kind::Flock, 0).is_some()
    }
}
