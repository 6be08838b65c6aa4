//! How many locks and waits clients have.
ghost use Rattle.lock_server.specs.Counting.{AreCounts, AreCountsOn, told};
ghost use Rattle.std.specs.Prelude.{◌≡◌, ◌+◌};
ghost use Rattle.lock_server.specs.HoldingsView.{KeepsHolders};
ghost use Rattle.lock_server.specs.TableView.{table_state};

use super::Table;
use crate::Counts;
use crate::holdings::Holdings;
use crate::owners::Owners;

#[tactic(auto, unfolding(crate::specs::TableView::table_state, crate::specs::TableView::entry_of))]
impl Table {
    /// How many runs, flock locks and waits the owners have on all files.
    pub fn counts(&self, holdings: &Holdings, owners: Owners) -> Counts
        requires { KeepsHolders holdings.now (table_state self.now) }
        ensures { AreCounts (table_state self.now) owners.first owners.last result }
    {
        let few = self.are_few(holdings, owners);
        let mut counts = Counts::none();
        let mut above = None;
        while let Some(file) = self.next_file_of(holdings, owners, few, above) {
            counts = counts.plus(self.counts_on(file, owners));
            above = Some(file);
        }
        counts
    }

    /// How many they have on the file.
    fn counts_on(&self, file: u64, owners: Owners) -> Counts
        ensures { AreCountsOn ((table_state self.now).files file) owners.first owners.last result }
    {
        match self.files.get(&file) {
            Some(locks) => locks.counts(owners),
            None => Counts::none(),
        }
    }
}

impl Counts {
    /// None.
    fn none() -> Counts
        ensures runs { result.runs ≡ 0 }
        ensures flock_locks { result.flock_locks ≡ 0 }
        ensures waits { result.waits ≡ 0 }
    {
        Counts {
            runs: 0,
            flock_locks: 0,
            waits: 0,
        }
    }

    /// Both together.
    fn plus(self, other: Counts) -> Counts
        ensures runs { result.runs ≡ told (self.runs + other.runs) }
        ensures flock_locks { result.flock_locks ≡ told (self.flock_locks + other.flock_locks) }
        ensures waits { result.waits ≡ told (self.waits + other.waits) }
    {
        Counts {
            runs: self.runs.saturating_add(other.runs),
            flock_locks: self.flock_locks.saturating_add(other.flock_locks),
            waits: self.waits.saturating_add(other.waits),
        }
    }
}
