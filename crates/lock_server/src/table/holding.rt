//! Who has something on which file.
ghost use Rattle.std.specs.Prelude.{◌≡◌, ◌<◌, ◌≤◌, ◌↔◌, ℕ, IfNone, IfSome, IsTrue};
ghost use Rattle.lock_server.specs.Holding.{HasNoLock, HasNothing};
ghost use Rattle.lock_server.specs.Listing.{number_behind};
ghost use Rattle.lock_server.specs.TableView.{table_state};

use super::Table;

#[tactic(auto, unfolding(crate::specs::TableView::table_state, crate::specs::TableView::entry_of))]
impl Table {
    /// Whether the owner has neither a lock nor a wait on the file.
    pub fn has_nothing(&self, file: u64, owner: u64) -> bool
        ensures { IsTrue result ↔ HasNothing ((table_state self.now).files file) owner }
    {
        match self.files.get(&file) {
            Some(locks) => locks.has_nothing(owner),
            None => true,
        }
    }

    /// The least owner that has a lock on the file or room for one, above this one where one is given: among those with room is each
    /// that waits.
    pub fn next_known(&self, file: u64, above: Option<u64>) -> Option<u64>
        ensures above { IfSome result (λ owner. number_behind above ≤ owner) }
        ensures least { IfSome result (λ owner. (other : ℕ) → number_behind above ≤ other → other < owner → HasNoLock ((table_state self.now).files file) other) }
        ensures none { IfNone result ((owner : ℕ) → number_behind above ≤ owner → HasNoLock ((table_state self.now).files file) owner) }
    {
        self.files.get(&file)?.next_known(above)
    }
}
