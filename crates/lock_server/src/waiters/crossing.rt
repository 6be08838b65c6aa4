//! Which owners with detected waits are crossed.
ghost use Rattle.std.specs.Prelude.{◌≡◌, ◌≢◌, ◌<◌, ℕ, [], IfOk, IfSome, IfNone, IsTrue, false};
ghost use Rattle.std.specs.BTreeSet.{contains};
ghost use Rattle.std.specs.Ordering.{nat_cmp};
ghost use Rattle.lock_server.specs.OpeningsView.{IsAbove};
ghost use Rattle.lock_server.specs.WaitersView.{crossed_of, files_of};

use super::Waiters;
use crate::Memory;
use std::collections::BTreeSet;
use std::ops::Bound;

#[tactic(auto, unfolding(crate::specs::WaitersView::crossed_of, crate::specs::WaitersView::waiter_of, crate::specs::WaitersView::files_of))]
impl Waiters {
    /// Whether the owner is crossed.
    pub fn is_crossed(&self, owner: u64) -> bool
        ensures { result ≡ crossed_of self.now owner }
    {
        match self.owners.get(&owner) {
            Some(waiter) => waiter.crossed,
            None => false,
        }
    }

    /// The owners that aren't crossed: among them is each one of these with a detected wait.
    pub fn uncrossed(&self) -> Result<BTreeSet<u64>, Memory>
        ensures none_crossed { IfOk result (λ owners. (owner : ℕ) → IsTrue (contains nat_cmp owners owner) → crossed_of self.now owner ≡ false) }
        ensures all { IfOk result (λ owners. (owner : ℕ) → files_of self.now owner ≢ [] → crossed_of self.now owner ≡ false → IsTrue (contains nat_cmp owners owner)) }
    {
        let mut uncrossed = BTreeSet::new(self.alloc);
        let mut above = None;
        while let Some(owner) = self.next_owner(above) {
            if !self.is_crossed(owner) {
                uncrossed.insert(owner)?;
            }
            above = Some(owner);
        }
        Ok(uncrossed)
    }

    /// The least owner that has an entry, above this one where one is given: among those with one is each with a detected wait.
    fn next_owner(&self, above: Option<u64>) -> Option<u64>
        ensures above { IfSome result (λ owner. IsAbove above owner) }
        ensures least { IfSome result (λ owner. (other : ℕ) → IsAbove above other → other < owner → files_of self.now other ≡ []) }
        ensures none { IfNone result ((owner : ℕ) → IsAbove above owner → files_of self.now owner ≡ []) }
    {
        let first = match above {
            None => Bound::Unbounded,
            Some(owner) => Bound::Excluded(owner),
        };
        let (owner, _) = self.owners.range((first, Bound::Unbounded)).next()?;
        Some(*owner)
    }
}
