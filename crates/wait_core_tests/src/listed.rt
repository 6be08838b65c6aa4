//! Waits as a plain list that keeps nothing: each answer asks the books about each wait.
ghost use Rattle.std.specs.Prelude.{◌≡◌, All, IfOk, IfSome, length, vec_len};
ghost use Rattle.wait_core.specs.WellFormed.{IsWellFormed};

use lock_book::{Book, Owner};
use range_core::{Memory, Mode, Span};
use std::alloc::Global;
use wait_core::{Family, Policy, Wait};

/// A book without locks for each of the 64 files.
pub fn empty_books(alloc: Global) -> Result<Vec<Book>, Memory>
    ensures { IfOk result (λ books. vec_len books ≡ 64) }
{
    let mut books = Vec::new(alloc);
    for _file in 0..64u8 {
        books.push(Book::new(alloc))?;
    }
    Ok(books)
}

/// The pending requests of at most so many processes, in order of arrival.
#[derive(Drop)]
pub struct ListedWaits {
    waits: Vec<Wait>,
    policy: Policy,
    processes: u8,
    ghost well_formed: { All (IsWellFormed 64) waits.items },
}

impl ListedWaits {
    /// No wait yet; the processes are numbered from 1.
    pub fn new(alloc: Global, policy: Policy, processes: u8) -> ListedWaits {
        ListedWaits {
            waits: Vec::new(alloc),
            policy,
            processes,
        }
    }

    /// The waits, in order of arrival.
    pub fn list(&self) -> &[Wait] {
        &self.waits
    }

    /// The wait of the process, where it has one.
    pub fn of(&self, p: u8) -> Option<Wait> {
        self.waits.iter().find(|wait| wait.p == p).copied()
    }

    /// Puts the wait of a process that has none behind the others.
    pub fn join(&mut self, wait: Wait) -> Result<(), Memory>
        requires { IsWellFormed 64 wait }
    {
        self.waits.push(wait)?;
        Ok(())
    }

    /// Takes the wait of the process out of the list, where it has one.
    pub fn remove(&mut self, p: u8) -> Option<Wait> {
        let place = self.waits.iter().position(|wait| wait.p == p)?;
        Some(self.waits.remove(place))
    }

    /// The earliest wait that nothing blocks.
    pub fn next_ready(&self, books: &[Book]) -> Option<Wait>
        requires { length books.now ≡ 64 }
        ensures { IfSome result (IsWellFormed 64) }
    {
        for (i, wait) in self.waits.iter().enumerate() {
            if !is_blocked_by_lock(wait, books) && !self.is_behind(wait, i) {
                return Some(*wait);
            }
        }
        None
    }

    /// Whether a request that would wait is blocked: by a lock or, under the queue policy, by a wait that conflicts with it.
    pub fn is_blocked(&self, wait: &Wait, books: &[Book]) -> bool
        requires books { length books.now ≡ 64 }
        requires wait { IsWellFormed 64 wait.now }
    {
        is_blocked_by_lock(wait, books) || self.is_behind(wait, self.waits.len())
    }

    /// Whether a request that would wait would close a cycle: its process is reached from the processes that block it. None but one for a
    /// lock of its process does.
    pub fn would_cycle(&self, wait: &Wait, books: &[Book]) -> bool
        requires books { length books.now ≡ 64 }
        requires wait { IsWellFormed 64 wait.now }
    {
        if !is_traditional(wait) {
            return false;
        }
        let mut reached = [false; 256];
        self.reach(wait, self.waits.len(), books, &mut reached);
        for _round in 0..self.waits.len() {
            for (i, other) in self.waits.iter().enumerate() {
                if reached[usize::from(other.p)] && is_traditional(other) {
                    self.reach(other, i, books, &mut reached);
                }
            }
        }
        reached[usize::from(wait.p)]
    }

    /// Whether one of so many earlier waits conflicts with the wait, under the queue policy.
    fn is_behind(&self, wait: &Wait, earlier: usize) -> bool {
        for other in self.waits.iter().take(earlier) {
            if self.policy == Policy::Queue && conflict(other, wait) {
                return true;
            }
        }
        false
    }

    /// Marks the processes that block the wait, which has so many waits before it.
    fn reach(&self, wait: &Wait, earlier: usize, books: &[Book], reached: &mut [bool; 256])
        requires books { length books.now ≡ 64 }
        requires wait { IsWellFormed 64 wait.now }
    {
        let book = &books[usize::from(wait.file)];
        for q in 1..=self.processes {
            if book.process_blocks(q, wait.owner, wait.span, wait.mode) {
                reached[usize::from(q)] = true;
            }
        }
        for other in self.waits.iter().take(earlier) {
            if self.policy == Policy::Queue && is_traditional(other) && conflict(other, wait) {
                reached[usize::from(other.p)] = true;
            }
        }
    }
}

/// Whether a lock of another owner blocks the request; waits don't count.
pub fn is_blocked_by_lock(wait: &Wait, books: &[Book]) -> bool
    requires books { length books.now ≡ 64 }
    requires wait { IsWellFormed 64 wait.now }
{
    let book = &books[usize::from(wait.file)];
    match (wait.family, wait.owner) {
        (Family::Bytes, owner) => book.blocked(owner, wait.span, wait.mode),
        (Family::Whole, Owner::Description(description)) => {
            book.flock_blocked(description, wait.mode)
        },
        (Family::Whole, Owner::Process(_)) => false,
    }
}

/// Whether the wait is for a lock of its process.
fn is_traditional(wait: &Wait) -> bool {
    wait.owner == Owner::Process(wait.p)
}

/// Whether the two waits are for locks that can't both be held: of two owners, on one file, one at least to write, and with a byte in
/// common where they are byte locks.
fn conflict(one: &Wait, other: &Wait) -> bool {
    let writes = one.mode == Mode::Write || other.mode == Mode::Write;
    let meet = one.span.first <= other.span.last && other.span.first <= one.span.last;
    let on_one_file = one.file == other.file && one.family == other.family;
    on_one_file && one.owner != other.owner && writes && (one.family == Family::Whole || meet)
}
