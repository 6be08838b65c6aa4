//! Which process waits for which.
ghost use Rattle.std.specs.Prelude.{◌≡◌, ◌≢◌, ℕ, suc, ◌<◌, ◌≤◌, ◌↔◌, ◌==◌, if◌then◌else◌, false, IsFalse, All, AllPairs, IfOk, IsTrue, length, vec_len};
ghost use Rattle.wait_core.specs.declared.processes.TheConstants.{ROWS};
ghost use Rattle.lock_book.specs.declared.Owner.TheVariants.{Process};
ghost use Rattle.std.specs.Option.{option_copied};
ghost use Rattle.lock_book.specs.OwnerLists.{modes_in_list};
ghost use Rattle.wait_core.specs.Locks.{Locks, locks_of};
ghost use Rattle.wait_core.specs.Pairs.{IsBlockedWait, IsOff, IsOn};
ghost use Rattle.wait_core.specs.Processes.{is_member};
ghost use Rattle.wait_core.specs.WellFormed.{IsWellFormed};

use crate::Wait;
use crate::processes::{PROCESSES, ProcessSet, ROWS};
use crate::queues::FileWaits;
use lock_book::{Book, Owner};
use owner_runs::OwnerRuns;
use range_core::{Memory, Span};
use std::alloc::Global;

/// Which process waits for which: by a lock, or behind another wait, as its owner says.
#[derive(Debug, Drop)]
pub struct Pairs {
    /// Row `p` has the processes that process `p` waits for.
    rows: Vec<ProcessSet>,
    ghost complete: { vec_len rows ≡ ROWS },
}

#[tactic(auto, unfolding(crate::specs::PairsView::pair_in))]
impl Pairs {
    ghost use Rattle.wait_core.specs.PairsView.{pair_in, TellsPair, TellsWait};

    /// No pair; this takes the memory of all of them.
    pub fn new(alloc: Global) -> Result<Pairs, Memory>
        ensures { IfOk result (λ pairs. (p q : ℕ) → ¬ IsTrue (pair_in pairs p q)) }
    {
        let rows = Vec::from_elem(alloc, ProcessSet::empty(), ROWS)?;
        Ok(Pairs { rows })
    }

    /// The processes that this one is told to wait for.
    pub fn row(&self, p: u8) -> ProcessSet
        requires { p ≤ PROCESSES }
        ensures { (q : ℕ) → is_member result q ≡ pair_in self.now p q }
    {
        self.rows[usize::from(p)]
    }

    /// Tells anew for which processes the one of this wait waits by a lock.
    pub fn tell(&mut self, wait: &Wait, books: &[Book])
        requires wait { IsWellFormed PROCESSES wait.now }
        requires books { length books.now ≡ 64 }
        ensures told { TellsWait self.new (locks_of books.now) wait.now }
        ensures others { (p q : ℕ) → p ≢ wait.now.p → pair_in self.new p q ≡ pair_in self.old p q }
    {
        self.rows[usize::from(wait.p)] = row_of(wait, books);
    }

    /// Tells anew for which processes those wait by a lock whose waits these are.
    pub fn tell_all(&mut self, waits: FileWaits<'_>, books: &[Book])
        requires waits { All (IsWellFormed PROCESSES) waits }
        requires apart { AllPairs (λ v w. v.p ≢ w.p) waits }
        requires books { length books.now ≡ 64 }
        ensures told { All (TellsWait self.new (locks_of books.now)) waits.entry }
        ensures others { (p q : ℕ) → All (λ wait. wait.p ≢ p) waits.entry → pair_in self.new p q ≡ pair_in self.old p q }
    {
        for wait in waits {
            self.tell(wait, books);
        }
    }

    /// Tells anew which of the processes whose waits these are, all those on the file, and meet the range, wait for the owner by a
    /// lock: none where it is no process.
    pub fn tell_of_owner(
        &mut self,
        file: u8,
        owner: Owner,
        span: Span,
        waits: FileWaits<'_>,
        books: &[Book],
    )
        requires waits { All (IsWellFormed PROCESSES) waits }
        requires apart { AllPairs (λ v w. v.p ≢ w.p) waits }
        requires on_file { All (λ wait. wait.file ≡ file) waits }
        requires books { length books.now ≡ 64 }
        ensures told { (q : ℕ) → Process q ≡ owner → 1 ≤ q → q ≤ PROCESSES
            → All (λ wait. IsOn file span wait → TellsPair self.new (locks_of books.now) q wait) waits.entry }
        ensures others { (p r : ℕ) → r ≤ PROCESSES → (Process r ≡ owner → All (IsOff p file span) waits.entry) → pair_in self.new p r ≡ pair_in self.old p r }
    {
        if let Owner::Process(q) = owner
            && (1..=PROCESSES).contains(&q)
        {
            self.tell_of_process(file, q, span, waits, books);
        }
    }

    /// Tells anew which of the processes whose waits these are, all those on the file, and meet the range, wait for this one by a lock.
    fn tell_of_process(&mut self, file: u8, q: u8, span: Span, waits: FileWaits<'_>, books: &[Book])
        requires from_one { 1 ≤ q }
        requires few { q ≤ PROCESSES }
        requires waits { All (IsWellFormed PROCESSES) waits }
        requires apart { AllPairs (λ v w. v.p ≢ w.p) waits }
        requires on_file { All (λ wait. wait.file ≡ file) waits }
        requires books { length books.now ≡ 64 }
        ensures told { All (λ wait. IsOn file span wait → TellsPair self.new (locks_of books.now) q wait) waits.entry }
        ensures others { (p r : ℕ) → r ≤ PROCESSES → (r ≡ q → All (IsOff p file span) waits.entry) → pair_in self.new p r ≡ pair_in self.old p r }
    {
        let Some(book) = books.get(usize::from(file)) else {
            // Each wait is on a file with a book.
            return;
        };
        let list = book.list(Owner::Process(q));
        for waiting in waits {
            if waiting.meets(span) {
                self.tell_pair(waiting, q, list);
            }
        }
    }

    /// Tells anew whether the process of this wait waits for the other one by a lock, of which the list has the modes on the wait's
    /// file.
    fn tell_pair(&mut self, wait: &Wait, q: u8, list: Option<&OwnerRuns>)
        requires from_one { 1 ≤ q }
        requires few { q ≤ PROCESSES }
        requires wait { IsWellFormed PROCESSES wait.now }
        ensures told { (locks : Locks) → ((byte : ℕ) → modes_in_list (option_copied list.entry) byte ≡ locks.bytes wait.now.file (Process q) byte)
            → TellsPair self.new locks q wait.now }
        ensures others { (p r : ℕ) → r ≤ PROCESSES → (p ≡ wait.now.p → r ≢ q) → pair_in self.new p r ≡ pair_in self.old p r }
    {
        let blocks = wait.waits_for(q, list);
        let row = &mut self.rows[usize::from(wait.p)];
        *row = row.put(q, blocks);
    }

    /// Whether the process is told to wait for some process by a lock.
    pub fn has_any(&self, process: u8) -> bool
        requires { process ≤ PROCESSES }
        ensures some { IsTrue result → (k : ℕ) × (k < PROCESSES) × IsTrue (pair_in self.now process (suc k)) }
        ensures none { IsFalse result → (q : ℕ) → ¬ IsTrue (pair_in self.now process q) }
    {
        !self.row(process).is_empty()
    }

    /// Processes among which is each one that some process is told to wait for.
    pub fn all_told(&self) -> ProcessSet
        ensures { (p q : ℕ) → IsTrue (pair_in self.now p q) → IsTrue (is_member result q) }
    {
        let mut all = ProcessSet::empty();
        for row in &self.rows {
            all = all.union(*row);
        }
        all
    }

    /// Tells for which processes this one waits.
    pub fn tell_row(&mut self, process: u8, row: ProcessSet)
        requires { process ≤ PROCESSES }
        ensures told { (q : ℕ) → pair_in self.new process q ≡ is_member row q }
        ensures others { (p q : ℕ) → p ≢ process → pair_in self.new p q ≡ pair_in self.old p q }
    {
        self.rows[usize::from(process)] = row;
    }

    /// Forgets which processes wait for this one.
    pub fn forget_blocker(&mut self, process: u8)
        ensures { (p q : ℕ) → 1 ≤ q → q ≤ PROCESSES → pair_in self.new p q ≡ (if q == process then false else pair_in self.old p q) }
    {
        if (1..=PROCESSES).contains(&process) {
            self.clear(process);
        }
    }

    /// Takes the process out of each row.
    fn clear(&mut self, process: u8)
        requires from_one { 1 ≤ process }
        requires few { process ≤ PROCESSES }
        ensures { (p q : ℕ) → q ≤ PROCESSES → pair_in self.new p q ≡ (if q == process then false else pair_in self.old p q) }
    {
        for row in self.rows.iter_mut() {
            *row = row.without(process);
        }
    }

    /// Forgets for which processes this one waits.
    pub fn forget(&mut self, process: u8)
        ensures forgotten { (q : ℕ) → ¬ IsTrue (pair_in self.new process q) }
        ensures others { (p q : ℕ) → p ≢ process → pair_in self.new p q ≡ pair_in self.old p q }
    {
        if let Some(row) = self.rows.get_mut(usize::from(process)) {
            *row = ProcessSet::empty();
        }
    }
}

/// For which processes the one of this wait waits by a lock: none where the wait isn't traditional.
fn row_of(wait: &Wait, books: &[Book]) -> ProcessSet
    requires wait { IsWellFormed PROCESSES wait.now }
    requires books { length books.now ≡ 64 }
    ensures { (q : ℕ) → 1 ≤ q → q ≤ PROCESSES → IsTrue (is_member result q) ↔ IsBlockedWait (locks_of books.now) wait.now.p q wait.now }
{
    if wait.is_traditional() {
        wait.blocking_by_lock(books)
    } else {
        ProcessSet::empty()
    }
}
