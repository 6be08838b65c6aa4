//! How many locks and waits clients have on one file.
ghost use Rattle.std.specs.Prelude.{◌≡◌};
ghost use Rattle.lock_server.specs.Counting.{AreCountsOn, flock_locks_on, lock_of, runs_of, runs_on, told, waits_on};
ghost use Rattle.lock_server.specs.FileView.{file_state};

use super::LockFile;
use crate::Counts;
use crate::leaving::Leaving;
use crate::owners::Owners;
use lock_book::Owner;

#[tactic(auto, unfolding(crate::specs::FileView::file_state))]
impl LockFile {
    /// How many runs, flock locks and waits the owners have.
    pub fn counts(&self, owners: Owners) -> Counts
        ensures { AreCountsOn (file_state self.now) owners.first owners.last result }
    {
        Counts {
            runs: self.count_runs(owners),
            flock_locks: self.count_flock_locks(owners),
            waits: self.count_waits(owners),
        }
    }

    /// How many runs they have.
    fn count_runs(&self, owners: Owners) -> usize
        ensures { result ≡ told (runs_on owners.first owners.last (file_state self.now)) }
    {
        let mut count = 0_usize;
        let mut above = owners.before();
        while let Some(owner) = self.next_listed(above) {
            if owners.last < owner {
                return count;
            }
            count = count.saturating_add(self.runs_of(owner));
            above = Some(owner);
        }
        count
    }

    /// How many runs the owner has.
    fn runs_of(&self, owner: u64) -> usize
        ensures { result ≡ runs_of ((file_state self.now).bytes owner) }
    {
        match self.book.list(Owner::Description(owner)) {
            Some(list) => list.len(),
            None => 0,
        }
    }

    /// How many flock locks they have.
    fn count_flock_locks(&self, owners: Owners) -> usize
        ensures { result ≡ told (flock_locks_on owners.first owners.last (file_state self.now)) }
    {
        let mut count = 0_usize;
        let mut above = owners.before();
        while let Some(owner) = self.next_flock_owner(above) {
            if owners.last < owner {
                return count;
            }
            count = count.saturating_add(self.flock_locks_of(owner));
            above = Some(owner);
        }
        count
    }

    /// How many flock locks the owner has: one or none.
    fn flock_locks_of(&self, owner: u64) -> usize
        ensures { result ≡ lock_of ((file_state self.now).flocks owner) }
    {
        match self.flock_mode(owner) {
            Some(_) => 1,
            None => 0,
        }
    }

    /// How many waits they have.
    fn count_waits(&self, owners: Owners) -> usize
        ensures { result ≡ waits_on owners.first owners.last (file_state self.now) }
    {
        self.waits.count_where(Leaving::Of(owners)) as usize
    }
}
