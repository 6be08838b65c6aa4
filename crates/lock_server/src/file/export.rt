//! What stands on one file, as words.
ghost use Rattle.lock_server.specs.Bytes.{file_words, flock_words, listed, lock_words, wait_words};
ghost use Rattle.lock_server.specs.FileView.{file_state};
ghost use Rattle.lock_server.specs.Inventory.{AreByteLocks, AreJust, AreLocksOf, IsEntryOf};
ghost use Rattle.lock_server.specs.Listing.{IsFlockLock, flock_place};
ghost use Rattle.lock_server.specs.Words.{Puts, PutsSome};
ghost use Rattle.owner_runs.specs.Lists.{modes_of};
ghost use Rattle.std.specs.Prelude.{◌≡◌, ℕ};
ghost use Rattle.std.specs.List.{flat_map};

use super::LockFile;
use crate::{FlockLock, Lock, Pending, words};
use lock_book::Owner;
use owner_runs::OwnerRuns;

#[tactic(auto, unfolding(crate::specs::FileView::file_state))]
impl LockFile {
    /// Puts the number of the file, and what stands on it.
    pub fn put(&self, out: &mut [u8], at: usize, number: u64) -> usize
        ensures { PutsSome (IsEntryOf number (file_state self.now)) file_words out.old at out.new result }
    {
        let at = words::put(out, at, number);
        let at = self.put_locks(out, at);
        let at = self.put_flocks(out, at);
        self.put_waits(out, at)
    }

    /// Puts how many byte locks there are, and these.
    fn put_locks(&self, out: &mut [u8], at: usize) -> usize
        ensures { PutsSome (AreByteLocks (file_state self.now)) (listed lock_words) out.old at out.new result }
    {
        let size = self.put_each_lock(&mut [], 0);
        // Each takes four words of eight bytes.
        let at = words::put(out, at, (size / 32) as u64);
        self.put_each_lock(out, at)
    }

    /// Puts the byte locks, by owner and first byte.
    fn put_each_lock(&self, out: &mut [u8], at: usize) -> usize
        ensures { PutsSome (AreByteLocks (file_state self.now)) (flat_map lock_words) out.old at out.new result }
    {
        let mut behind = at;
        for (owner, list) in self.book.lists() {
            // No process has a lock here.
            let Owner::Description(number) = *owner else {
                continue;
            };
            behind = self.put_runs(out, behind, number, list);
        }
        behind
    }

    /// Puts the byte locks of the owner, by first byte; this is its list.
    fn put_runs(&self, out: &mut [u8], at: usize, owner: u64, list: &OwnerRuns) -> usize
        requires { (byte : ℕ) → modes_of list.now byte ≡ (file_state self.now).bytes owner byte }
        ensures { PutsSome (AreLocksOf (file_state self.now) owner) (flat_map lock_words) out.old at out.new result }
    {
        let mut behind = at;
        for (mode, span) in list.runs() {
            let lock = Lock { owner, mode, span };
            behind = put_lock(out, behind, lock);
        }
        behind
    }

    /// Puts how many flock locks there are, and these.
    fn put_flocks(&self, out: &mut [u8], at: usize) -> usize
        ensures { PutsSome (AreJust flock_place (IsFlockLock (file_state self.now))) (listed flock_words) out.old at out.new result }
    {
        let size = self.put_each_flock(&mut [], 0);
        // Each takes two words of eight bytes.
        let at = words::put(out, at, (size / 16) as u64);
        self.put_each_flock(out, at)
    }

    /// Puts the flock locks, by owner.
    fn put_each_flock(&self, out: &mut [u8], at: usize) -> usize
        ensures { PutsSome (AreJust flock_place (IsFlockLock (file_state self.now))) (flat_map flock_words) out.old at out.new result }
    {
        let mut behind = at;
        let mut above = None;
        while let Some(lock) = self.next_flock(above) {
            behind = put_flock(out, behind, lock);
            above = Some(lock.owner);
        }
        behind
    }

    /// Puts how many waits there are, and these, in order of arrival.
    fn put_waits(&self, out: &mut [u8], at: usize) -> usize
        ensures { Puts (listed wait_words (file_state self.now).waits) out.old at out.new result }
    {
        let mut behind = words::put(out, at, self.waits.len());
        let mut place = 0;
        while let Some(wait) = self.waits.get(place) {
            behind = put_wait(out, behind, &wait);
            place += 1;
        }
        behind
    }
}

/// Puts a byte lock.
fn put_lock(out: &mut [u8], at: usize, lock: Lock) -> usize
    ensures { Puts (lock_words lock) out.old at out.new result }
{
    let mode = words::mode_word(lock.mode);
    words::put_all(
        out,
        at,
        &[lock.owner, lock.span.first, lock.span.last, mode],
    )
}

/// Puts a flock lock.
fn put_flock(out: &mut [u8], at: usize, lock: FlockLock) -> usize
    ensures { Puts (flock_words lock) out.old at out.new result }
{
    words::put_all(out, at, &[lock.owner, words::mode_word(lock.mode)])
}

/// Puts a wait.
fn put_wait(out: &mut [u8], at: usize, wait: &Pending) -> usize
    ensures { Puts (wait_words wait.now) out.old at out.new result }
{
    let at = words::put_all(
        out,
        at,
        &[wait.ticket, wait.owner, words::family_word(wait.family)],
    );
    let mode = words::mode_word(wait.mode);
    let detect = words::flag_word(wait.detect);
    words::put_all(out, at, &[wait.span.first, wait.span.last, mode, detect])
}
