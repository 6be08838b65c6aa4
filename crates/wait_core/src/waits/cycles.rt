//! Whether a wait would close a cycle.
ghost use Rattle.std.specs.Prelude.{ℕ, ◌≡◌, ◌≤◌, ◌↔◌, length, IsTrue};
ghost use Rattle.wait_core.specs.Locks.{Locks, locks_of};
ghost use Rattle.wait_core.specs.Cycles.{ClosesCycle, IsBlockedByProcess, IsTraditional, WaitsFor};
ghost use Rattle.wait_core.specs.Processes.{is_member};
ghost use Rattle.wait_core.specs.WellFormed.{IsWellFormed};
ghost use Rattle.wait_core.specs.WaitsView.{waits_of, policy_of, processes_of, AreTold};

use super::Waits;
use crate::processes::{PROCESSES, ProcessSet};
use crate::{Policy, Wait};
use lock_book::{Book, conflicts_are_decided};

#[tactic(auto, unfolding(crate::specs::WaitsView::waits_of, crate::specs::WaitsView::policy_of, crate::specs::WaitsView::processes_of, crate::specs::WaitsView::has_pair))]
impl Waits {
    /// Whether a traditional wait that would join closes a cycle: some process that blocks it is led to its process, each
    /// process of the chain waiting for the next (POSIX.1-2017 fcntl, `EDEADLK`). Locks and waits of open file
    /// descriptions make no step.
    ///
    /// The pairs are those of the books, a book for each of the 64 files.
    pub fn would_cycle(&self, wait: &Wait, books: &[Book]) -> bool
        requires traditional { IsTraditional wait.now }
        requires well_formed { IsWellFormed (processes_of self.now) wait.now }
        requires books { length books.now ≡ 64 }
        requires told { ∥ AreTold self.now (locks_of books.now) ∥₁ }
        ensures { IsTrue result ↔ ClosesCycle (policy_of self.now) (locks_of books.now) (waits_of self.now) wait.now }
    {
        // A chain that comes to a process ends with one that waits for it.
        if !self.all_waited_for().has(wait.p) {
            return false;
        }
        self.is_led_back(wait, books)
    }

    /// The same, where it asks who blocks the wait, and follows each.
    fn is_led_back(&self, wait: &Wait, books: &[Book]) -> bool
        requires traditional { IsTraditional wait.now }
        requires well_formed { IsWellFormed (processes_of self.now) wait.now }
        requires books { length books.now ≡ 64 }
        requires told { ∥ AreTold self.now (locks_of books.now) ∥₁ }
        ensures { IsTrue result ↔ ClosesCycle (policy_of self.now) (locks_of books.now) (waits_of self.now) wait.now }
    {
        // A law, and nothing to run.
        conflicts_are_decided();
        let mut reached = self.blockers(wait, books);
        let mut followed = ProcessSet::empty();
        while let Some(next) = reached.first_beyond(followed) {
            reached = reached.union(self.waited_for(next));
            followed = followed.with(next);
        }
        reached.has(wait.p)
    }

    /// The processes that would block the wait, were it to join.
    fn blockers(&self, wait: &Wait, books: &[Book]) -> ProcessSet
        requires well_formed { IsWellFormed (processes_of self.now) wait.now }
        requires books { length books.now ≡ 64 }
        ensures { (q : ℕ) → 1 ≤ q → q ≤ PROCESSES
            → IsTrue (is_member result q) ↔ IsBlockedByProcess (policy_of self.now) (locks_of books.now) (waits_of self.now) wait.now q }
    {
        let by_lock = wait.blocking_by_lock(books);
        match self.policy {
            Policy::Held => by_lock,
            Policy::Queue => by_lock.union(wait.blocking_by_wait(self.on(wait.file))),
        }
    }

    /// Processes among which is each one that some process waits for.
    fn all_waited_for(&self) -> ProcessSet
        ensures { (p q : ℕ) → 1 ≤ q → q ≤ PROCESSES → (locks : Locks) → AreTold self.now locks
            → WaitsFor (policy_of self.now) locks (waits_of self.now) p q → IsTrue (is_member result q) }
    {
        let by_lock = self.pairs.all_told();
        match self.policy {
            Policy::Held => by_lock,
            Policy::Queue => by_lock.union(self.ahead.all_told()),
        }
    }

    /// The processes that this one waits for.
    fn waited_for(&self, p: u8) -> ProcessSet
        requires { p ≤ PROCESSES }
        ensures { (q : ℕ) → 1 ≤ q → q ≤ PROCESSES → (locks : Locks) → AreTold self.now locks
            → IsTrue (is_member result q) ↔ WaitsFor (policy_of self.now) locks (waits_of self.now) p q }
    {
        let row = self.pairs.row(p);
        match self.policy {
            Policy::Held => row,
            Policy::Queue => row.union(self.ahead.row(p)),
        }
    }
}
