//! Setting, reserving and releasing whole-file locks.
ghost use Rattle.std.specs.Prelude.{ℕ, ◌≡◌, ◌↔◌, IsTrue, IsSome, IsOk, OnOk, OnErr, is_some};
ghost use Rattle.std.specs.Option.{option_flatten};
ghost use Rattle.lock_book.specs.Conflicts.{FlockConflict};
ghost use Rattle.lock_book.specs.Books.{flock_modes_of, has_flock_place, ReleasesFlock, ReservesFlock, SameBook, SetsFlock};

use super::Book;
use crate::Owner;
use range_core::{Memory, Mode};

impl Book {
    /// The mode of the flock lock that the description holds: `LOCK_SH` is `Read` and `LOCK_EX` is `Write` (flock(2)). A
    /// lock stands in a place that is kept for it. It takes no memory.
    pub fn flock_mode(&self, description: u64) -> Option<Mode>
        ensures mode { result ≡ flock_modes_of self.now description }
        ensures place { IsSome result → IsTrue (has_flock_place self.now description) }
    {
        self.flock_place(description)?
    }

    /// The place that is kept for the flock lock of the description, with the mode that stands there: what
    /// [`Book::flock_room`] and [`Book::flock_mode`] tell, at once. It takes no memory.
    pub fn flock_place(&self, description: u64) -> Option<Option<Mode>>
        ensures mode { option_flatten result ≡ flock_modes_of self.now description }
        ensures place { is_some result ≡ has_flock_place self.now description }
    {
        self.flocks.place(description)
    }

    /// Whether another description's flock lock conflicts with one of this mode (flock(2)). It takes no memory.
    pub fn flock_blocked(&self, description: u64, mode: Mode) -> bool
        ensures { IsTrue result ↔ FlockConflict (flock_modes_of self.now) (Owner.Description description) mode }
    {
        self.flocks.blocked(description, mode)
    }

    /// Whether each description is kept from a flock lock of this mode by another one's: so it is where two locks conflict with
    /// such a one (flock(2)). It takes no memory.
    pub fn flock_blocks_all(&self, mode: Mode) -> bool
        ensures { IsTrue result ↔ ((description : ℕ) → FlockConflict (flock_modes_of self.now) (Owner.Description description) mode) }
    {
        self.flocks.blocks_all(mode)
    }

    /// Sets the flock mode of the description, or removes it where `mode` is `None`; a place that is kept for it stays
    /// (flock(2)). No conflict is looked for.
    ///
    /// `Memory`, which comes neither where a place is kept nor for a removal, leaves the book as it was.
    pub fn flock_set(&mut self, description: u64, mode: Option<Mode>) -> Result<(), Memory>
        ensures ok { OnOk result (SetsFlock self.old self.new description mode) }
        ensures there { IsTrue (has_flock_place self.old description) → IsOk result }
        ensures removal { mode ≡ None → IsOk result }
        ensures err { OnErr result (SameBook self.old self.new) }
    {
        if mode.is_some() {
            self.flocks.put(description, mode)?;
        } else {
            self.flocks.replace(description, None);
        }
        Ok(())
    }

    /// Keeps a place for the flock lock of the description, until [`Book::release_flock`] of it.
    ///
    /// `Memory`, which never comes where that place is kept already, leaves the book as it was.
    pub fn flock_reserve(&mut self, description: u64) -> Result<(), Memory>
        ensures ok { OnOk result (ReservesFlock self.old self.new description) }
        ensures there { IsTrue (has_flock_place self.old description) → IsOk result }
        ensures err { OnErr result (SameBook self.old self.new) }
    {
        if !self.flock_room(description) {
            self.flocks.put(description, None)?;
        }
        Ok(())
    }

    /// Whether a place is kept for the flock lock of the description. It takes no memory.
    pub fn flock_room(&self, description: u64) -> bool
        ensures { result ≡ has_flock_place self.now description }
    {
        self.flock_place(description).is_some()
    }

    /// Sets the flock mode in the place that is kept, or removes it, as [`Book::flock_set`] does, and hands back the mode
    /// that stood there. It takes no memory.
    pub fn flock_set_reserved(&mut self, description: u64, mode: Option<Mode>) -> Option<Mode>
        requires { IsSome mode → IsTrue (has_flock_place self.old description) }
        ensures sets { SetsFlock self.old self.new description mode }
        ensures before { result ≡ flock_modes_of self.old description }
    {
        self.flocks.replace(description, mode)?
    }

    /// Removes the flock lock of the description, and the place kept for it (flock(2): its last close). It takes no
    /// memory.
    #[tactic(auto, using(crate::proofs::BookLemmas::flock_released))]
    pub fn release_flock(&mut self, description: u64)
        ensures { ReleasesFlock self.old self.new description }
    {
        self.flocks.remove(description);
    }
}
