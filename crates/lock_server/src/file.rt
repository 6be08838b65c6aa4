//! The locks on one file, and its waits.
ghost use Rattle.std.specs.Prelude.{All};
ghost use Rattle.range_core.specs.Ranges.{IsByteRange};
ghost use Rattle.lock_book.specs.Books.{byte_modes_of};
ghost use Rattle.lock_server.specs.FlockOwners.{AreKnown};
ghost use Rattle.lock_server.specs.Locks.{AreInFile, AreOfNumbers};
ghost use Rattle.lock_server.specs.Room.{HasRoom};

mod blockers;
mod bytes;
mod clients;
mod counting;
mod export;
mod flocks;
mod freeing;
mod granting;
pub(crate) mod having;
mod holding;
mod list;
mod listing;

use crate::Pending;
use crate::hull::Hull;
use arrival_list::ArrivalList;
use lock_book::Book;
use std::alloc::Global;
use std::collections::BTreeSet;

/// The locks on one file, and its waits in order of arrival. Owners are numbers, of descriptions in the book. Room is held for the grant
/// of each wait.
#[derive(Drop)]
pub struct LockFile {
    book: Book,
    /// The owners for whose flock lock the book keeps a place: a book tells of an owner whether it does, and lists none.
    flock_owners: BTreeSet<u64>,
    waits: ArrivalList<Pending, Hull>,
    ghost ranges: { All (λ wait. IsByteRange wait.span) waits.items },
    ghost room: { HasRoom book waits.items },
    ghost numbers: { AreOfNumbers (byte_modes_of book) },
    ghost in_file: { AreInFile (byte_modes_of book) },
    ghost known: { AreKnown flock_owners book },
}

#[tactic(auto, unfolding(crate::specs::FileView::file_state))]
impl LockFile {
    ghost use Rattle.std.specs.Prelude.{◌↔◌, ◌≡◌, ℕ, [], IsTrue, None};
    ghost use Rattle.lock_server.specs.Files.{SameFile, untouched};
    ghost use Rattle.lock_server.specs.FileView.{file_state};

    /// No lock and no wait. It takes no memory.
    pub fn new(alloc: Global) -> LockFile
        ensures { SameFile untouched (file_state result) }
    {
        LockFile {
            book: Book::new(alloc),
            flock_owners: BTreeSet::new(alloc),
            waits: ArrivalList::new(alloc),
        }
    }

    /// Whether there is no lock and no wait.
    pub fn is_untouched(&self) -> bool
        ensures { IsTrue result ↔ SameFile (file_state self.now) untouched }
    {
        self.waits.is_empty() && self.book.is_empty()
    }
}
