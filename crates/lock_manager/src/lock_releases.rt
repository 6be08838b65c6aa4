//! What the closing of descriptors does to the locks.
ghost use Rattle.std.specs.Prelude.{ℕ, ◌≡◌, ◌≢◌, ◌<◌, All, vec_len};
ghost use Rattle.fd_table.specs.declared.TheConstants.{FILES};
ghost use Rattle.lock_book.specs.declared.Owner.TheVariants.{Process};
ghost use Rattle.wait_core.specs.declared.Policy.{Policy};
ghost use Rattle.wait_core.specs.Locks.{locks_of};
ghost use Rattle.wait_core.specs.Cycles.{IsFreeOfCycles};
ghost use Rattle.wait_core.specs.WaitsView.{waits_of};
ghost use Rattle.lock_manager.specs.LockReleases.{ReleasesInBook, ReleasesLocks, ReleasesRoom};
ghost use Rattle.lock_manager.specs.WaitsKept.{SameWaits, StayKnown};

use lock_book::{Book, Owner};
use range_core::Span;
use wait_core::{Waits, stay_free_of_cycles};

/// Removes, on each of these files, of which the process closed a descriptor, its traditional locks (POSIX.1-2017 close), and
/// the OFD and flock locks of these descriptions, which were closed for good (fcntl_locking(2); flock(2)), and tells the
/// waits. It takes no memory.
pub fn release(books: &mut Vec<Book>, waits: &mut Waits, p: u8, files: &[u8], descriptions: &[u64])
    requires books { vec_len books.old ≡ FILES }
    requires in_range { All (λ file. file < FILES) files.now }
    ensures locks { ReleasesLocks (locks_of books.old.items) (locks_of books.new.items) p files.now descriptions.now }
    ensures room { ReleasesRoom books.old.items books.new.items p files.now descriptions.now }
    ensures count { vec_len books.new ≡ FILES }
    ensures waits { SameWaits waits.old waits.new }
    ensures known { StayKnown waits.old waits.new (locks_of books.old.items) (locks_of books.new.items) }

    // Where the process has no traditional wait no cycle is closed.
    ensures free { (policy : Policy) → All (λ wait. wait.owner ≢ Process p) (waits_of waits.old) →
        IsFreeOfCycles policy (locks_of books.old.items) (waits_of waits.old) → IsFreeOfCycles policy (locks_of books.new.items) (waits_of waits.new) }
{
    // A law, and nothing to run.
    stay_free_of_cycles();
    for file in files {
        release_in(&mut books[usize::from(*file)], p, descriptions);
        waits.refresh_owner(*file, Owner::Process(p), Span::WHOLE_FILE, books);
    }
}

/// The same on one file, whose book this is.
fn release_in(book: &mut Book, p: u8, descriptions: &[u64])
    ensures { ReleasesInBook book.old book.new p descriptions.now }
{
    book.release_owner(Owner::Process(p));
    for description in descriptions {
        book.release_owner(Owner::Description(*description));
        book.release_flock(*description);
    }
}
