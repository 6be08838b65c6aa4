//! The queue of each file: the waits on it, each linked to the ones before and after it.
ghost use Rattle.std.specs.Prelude.{ℕ, ◌≡◌, ◌≢◌, ◌<◌, ◌≤◌, if◌then◌else◌, List, [], None, Any, IfOk, length, slice_index_or, vec_len};
ghost use Rattle.wait_core.specs.declared.files.TheConstants.{FILES};
ghost use Rattle.wait_core.specs.declared.processes.TheConstants.{PROCESSES, ROWS};
ghost use Rattle.wait_core.specs.Links.{Leaves, is_process};
ghost use Rattle.wait_core.specs.WellFormed.{IsWellFormed};

use crate::Wait;
use crate::files::FILES;
use crate::processes::{PROCESSES, ROWS};
use range_core::Memory;
use std::alloc::Global;
use std::marker::Model;

/// The queue of each file, linked by processes, so that a wait joins and leaves it without a search. Only [`Queues::new`] takes
/// memory.
#[derive(Debug, Drop)]
pub struct Queues {
    /// By file, the process of the latest wait on it.
    latest: Vec<Option<u8>>,
    /// By process, its wait.
    waits: Vec<Option<Wait>>,
    /// By process that waits, the process of the wait before its own.
    before: Vec<Option<u8>>,
    /// By process that waits, the process of the wait after its own.
    after: Vec<Option<u8>>,
    ghost latest_of_files: { vec_len latest ≡ FILES },
    ghost waits_of_processes: { vec_len waits ≡ ROWS },
    ghost before_processes: { vec_len before ≡ ROWS },
    ghost after_processes: { vec_len after ≡ ROWS },
}

#[tactic(auto, unfolding(crate::specs::Queues::latest_on, crate::specs::Queues::links_in))]
impl Queues {
    ghost use Rattle.wait_core.specs.Queues.{AreQueues, latest_on, links_in, with_wait, without_wait};

    /// No wait; this takes the memory of all queues.
    pub fn new(alloc: Global) -> Result<Queues, Memory>
        ensures none { IfOk result (λ queues. AreQueues queues (λ file. [])) }
        ensures free { IfOk result (λ queues. (p : ℕ) → (links_in queues).waits p ≡ None) }
    {
        Ok(Queues {
            latest: Vec::from_elem(alloc, None, usize::from(FILES))?,
            waits: Vec::from_elem(alloc, None, ROWS)?,
            before: Vec::from_elem(alloc, None, ROWS)?,
            after: Vec::from_elem(alloc, None, ROWS)?,
        })
    }

    /// The wait of a process that has none joins the queue of its file.
    pub fn join(&mut self, wait: Wait)
        requires wait { IsWellFormed PROCESSES wait }
        requires free { (links_in self.old).waits wait.p ≡ None }
        ensures joined { (queues : ℕ → List Wait) → AreQueues self.old queues → AreQueues self.new (with_wait queues wait) }
        ensures others { (p : ℕ) → p ≢ wait.p → (links_in self.old).waits p ≡ None → (links_in self.new).waits p ≡ None }
    {
        let process = usize::from(wait.p);
        let before = self.latest[usize::from(wait.file)].replace(wait.p);
        self.waits[process] = Some(wait);
        self.after[process] = None;
        self.tie(before, Some(wait.p));
    }

    /// The wait leaves the queue of its file.
    pub fn leave(&mut self, wait: &Wait)
        requires { IsWellFormed PROCESSES wait.now }
        ensures left { (queues : ℕ → List Wait) → AreQueues self.old queues → Any (λ v. v ≡ wait.now) (queues wait.now.file)
            → AreQueues self.new (without_wait queues wait.now.p) }
        ensures free { (links_in self.new).waits wait.now.p ≡ None }
        ensures others { (p : ℕ) → (links_in self.old).waits p ≡ None → (links_in self.new).waits p ≡ None }
    {
        let (before, after) = self.take_out(wait.p);
        if after.is_none() {
            self.latest[usize::from(wait.file)] = before;
        }
    }

    /// The process has no wait, and those before and after it come to stand next to each other: these are told.
    fn take_out(&mut self, p: u8) -> (Option<u8>, Option<u8>)
        requires { p ≤ PROCESSES }
        ensures before { result.0 ≡ (links_in self.old).before p }
        ensures after { result.1 ≡ (links_in self.old).after p }
        ensures latest { (file : ℕ) → latest_on self.new file ≡ latest_on self.old file }
        ensures free { (links_in self.new).waits p ≡ None }
        ensures left { Leaves (links_in self.old) (links_in self.new) p }
    {
        let process = usize::from(p);
        let (before, after) = (self.before[process], self.after[process]);
        self.waits[process] = None;
        self.tie(before, after);
        (before, after)
    }

    /// The waits of the two processes come to stand next to each other.
    fn tie(&mut self, before: Option<u8>, after: Option<u8>)
        ensures latest { (file : ℕ) → latest_on self.new file ≡ latest_on self.old file }
        ensures waits { (p : ℕ) → (links_in self.new).waits p ≡ (links_in self.old).waits p }
        ensures before { (p : ℕ) → p < ROWS → (links_in self.new).before p ≡ (if is_process after p then before else (links_in self.old).before p) }
        ensures after { (p : ℕ) → p < ROWS → (links_in self.new).after p ≡ (if is_process before p then after else (links_in self.old).after p) }
    {
        put(&mut self.after, before, after);
        put(&mut self.before, after, before);
    }

    /// The waits on the file, the latest first.
    pub fn on(&self, file: u8) -> FileWaits<'_>
        requires { (queues : ℕ → List Wait) × AreQueues self.now queues × (length (queues file) ≤ PROCESSES) }
        ensures { (queues : ℕ → List Wait) → AreQueues self.now queues → length (queues file) ≤ PROCESSES → result ≡ queues file }
    {
        FileWaits {
            waits: &self.waits,
            before: &self.before,
            next: self.latest(file),
        }
    }

    /// The process of the latest wait on the file, where there is one.
    fn latest(&self, file: u8) -> Option<u8>
        ensures { result ≡ latest_on self.now file }
    {
        self.latest.get(usize::from(file)).copied().flatten()
    }
}

/// Puts the neighbour into the row of the process, where there is one.
fn put(rows: &mut [Option<u8>], process: Option<u8>, neighbour: Option<u8>)
    ensures length { length rows.new ≡ length rows.old }
    ensures rows { (p : ℕ) → p < length rows.old
        → slice_index_or rows.new p None ≡ (if is_process process p then neighbour else slice_index_or rows.old p None) }
{
    let Some(p) = process else {
        return;
    };
    let place = usize::from(p);
    if place < rows.len() {
        rows[place] = neighbour;
    }
}

/// The waits on a file, the latest first.
#[derive(Drop)]
pub struct FileWaits<'a> {
    waits: &'a [Option<Wait>],
    before: &'a [Option<u8>],
    /// The process whose wait comes next.
    next: Option<u8>,
}

impl<'a> Model for FileWaits<'a> {
    ghost use Rattle.std.specs.Prelude.{◌≡◌, List, length};
    ghost use Rattle.wait_core.specs.declared.Wait.{Wait};
    ghost use Rattle.wait_core.specs.declared.processes.TheConstants.{PROCESSES, ROWS};
    ghost use Rattle.wait_core.specs.Links.{IsLed, follow, row_at};

    ghost Value = { List Wait };

    ghost view = { λ a. follow (row_at a.waits.now) (row_at a.before.now) PROCESSES a.next };

    ghost invariant = { λ a. (length a.waits.now ≡ ROWS) × (length a.before.now ≡ ROWS)
        × IsLed (row_at a.waits.now) (row_at a.before.now) PROCESSES a.next };
}

impl<'a> Iterator for FileWaits<'a> {
    ghost use Rattle.std.specs.Prelude.{length};
    ghost use Rattle.std.specs.Iterator.{at_most};
    ghost use Rattle.std.specs.Map.Iter.{TakesFirst, deref};

    type Item = &'a Wait;

    ghost next_gives = { TakesFirst deref };

    ghost remaining = { λ waits. at_most (length waits) };

    fn next(&mut self) -> Option<&'a Wait> {
        let process = usize::from(self.next?);
        self.next = self.before[process];
        Some(self.waits[process].as_ref().unwrap())
    }
}
