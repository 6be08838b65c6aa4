//! The locks of one file: who holds which mode on which bytes, and who has locked the whole file.
ghost use Rattle.std.specs.Prelude.{ℕ, ◌≡◌, None, false};
ghost use Rattle.lock_book.specs.OwnerLists.{AreInUse};
ghost use Rattle.lock_book.specs.Indexing.{AreIndexed, AreIndexed-prop};

mod bytes;
mod conflicts;
mod flocks;
mod holders;
mod index;
mod lists;
mod reports;

use self::holders::FlockHolders;
use self::index::OwnersIndex;
pub use self::lists::Lists;
use self::lists::OwnerLists;
use crate::Owner;
use std::alloc::Global;

/// The locks on one file: the byte locks of each owner, traditional and OFD alike, and the flock locks of each
/// description. The two families never meet (this project's choice, as on Linux: fcntl_locking(2), flock(2)).
///
/// It may hold room for further sets of an owner and a place for a description's flock lock, which then can't fail.
#[derive(Drop)]
pub struct Book {
    owners: OwnerLists,
    index: OwnersIndex,
    flocks: FlockHolders,
    alloc: Global,
    ghost in_use: { AreInUse owners },
    ghost indexed: { AreIndexed index owners } by { AreIndexed-prop index owners },
}

impl Book {
    ghost use Rattle.std.specs.Prelude.{◌↔◌, IsTrue};
    ghost use Rattle.lock_book.specs.Books.{byte_modes_of, room_in, flock_modes_of, has_flock_place, IsUnlocked};

    /// No lock, no room and no place. It takes no memory.
    pub fn new(alloc: Global) -> Book
        ensures bytes { (owner : Owner) (byte : ℕ) → byte_modes_of result owner byte ≡ None }
        ensures rooms { (owner : Owner) → room_in result owner ≡ 0 }
        ensures flocks { (description : ℕ) → flock_modes_of result description ≡ None }
        ensures places { (description : ℕ) → has_flock_place result description ≡ false }
    {
        Book {
            owners: OwnerLists::new(),
            index: OwnersIndex::none(),
            flocks: FlockHolders::new(alloc),
            alloc,
        }
    }
    /// Whether nobody has a lock on the file, however much room is held. It takes no memory.
    pub fn is_empty(&self) -> bool
        ensures { IsTrue result ↔ IsUnlocked self.now }
    {
        self.flocks.is_empty() && self.has_no_byte_lock()
    }

    /// Whether nobody has a byte lock.
    fn has_no_byte_lock(&self) -> bool
        ensures { IsTrue result ↔ ((owner : Owner) (byte : ℕ) → byte_modes_of self.now owner byte ≡ None) }
    {
        match self.index.get() {
            Some(index) => index.len() == 0,
            None => self.lists_are_empty(),
        }
    }

    /// What [`Book::has_no_byte_lock`] tells, by the lists of all owners in turn.
    fn lists_are_empty(&self) -> bool
        ensures { IsTrue result ↔ ((owner : Owner) (byte : ℕ) → byte_modes_of self.now owner byte ≡ None) }
    {
        for (_, list) in self.owners.iter() {
            if !list.is_empty() {
                return false;
            }
        }
        true
    }
}
