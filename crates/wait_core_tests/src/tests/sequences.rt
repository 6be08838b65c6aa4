//! The waits against a plain list of them, on sequences made by a written rule, and at full size.
ghost use Rattle.std.specs.Prelude.{◌≡◌, ◌<◌, ◌≤◌, None, vec_len};
ghost use Rattle.range_core.specs.Ranges.{IsByteRange};
ghost use Rattle.wait_core.specs.Cycles.{IsTraditional};
ghost use Rattle.wait_core.specs.Locks.{locks_of};
ghost use Rattle.wait_core.specs.Settled.{AreBlockedElsewhere};
ghost use Rattle.wait_core.specs.WellFormed.{IsWellFormed};
ghost use Rattle.wait_core.specs.WaitsView.{waits_of, wait_of, processes_of, AreTold};

use super::bytes;
use crate::listed::{ListedWaits, empty_books};
use crate::rule::Rule;
use lock_book::{Book, Owner};
use range_core::{Mode, OFFMAX, Span};
use std::alloc::Global;
use std::process::Abort;
use std::test::Fail;
use wait_core::{Family, Policy, Wait, Waits};

/// The books of all files, the waits on them, and the same waits as a list that keeps nothing.
#[derive(Drop)]
struct Both {
    books: Vec<Book>,
    waits: Waits,
    listed: ListedWaits,
    ghost files: { vec_len books ≡ 64 },
    ghost processes: { processes_of waits ≡ 64 },
    ghost told: { ∥ AreTold waits (locks_of books.items) ∥₁ },
    ghost blocked: { ∥ AreBlockedElsewhere waits (locks_of books.items) ∥₁ },
}

impl Both {
    /// No lock and no wait; the list looks at so many processes.
    fn new(alloc: Global, policy: Policy, processes: u8) -> Result<Both, Fail> {
        let books = empty_books(alloc)?;
        let waits = Waits::new(alloc, 64, policy)?;
        let listed = ListedWaits::new(alloc, policy, processes);
        Ok(Both {
            books,
            waits,
            listed,
        })
    }

    /// The owner has this mode on the range of file 0 or 1.
    fn lock(&mut self, file: u8, owner: Owner, span: Span, mode: Option<Mode>) -> Result<(), Fail>
        requires file { file < 64 }
        requires span { IsByteRange span }
    {
        let done = self.books[usize::from(file)].set(owner, span, mode);
        self.waits.refresh(file, &self.books);
        Ok(done?)
    }

    /// The process waits, if it doesn't yet.
    fn join(&mut self, wait: Wait) -> Result<(), Fail>
        requires { IsWellFormed 64 wait }
    {
        if self.waits.of(wait.p).is_none() {
            self.put(wait);
            self.listed.join(wait)?;
        }
        Ok(())
    }

    /// Puts the wait of a process that has none into the list: one that an earlier one blocks is known to be blocked.
    fn put(&mut self, wait: Wait)
        requires none { wait_of (waits_of self.old.waits) wait.p ≡ None }
        requires well_formed { IsWellFormed 64 wait }
    {
        if self.waits.queued(&wait) {
            self.waits.join_blocked(wait, &self.books);
        } else {
            self.waits.join(wait, &self.books);
        }
    }

    /// The process waits no more.
    fn leave(&mut self, p: u8) {
        self.waits.leave(p);
        self.listed.remove(p);
    }

    /// Whether the wait would close a cycle, of which both tell the same.
    fn would_cycle(&self, rt: &impl Abort, wait: &Wait) -> bool
        requires traditional { IsTraditional wait.now }
        requires well_formed { IsWellFormed 64 wait.now }
    {
        let cycle = self.waits.would_cycle(wait, &self.books);
        let listed = self.listed.would_cycle(wait, &self.books);
        assert!(rt; cycle == listed);
        cycle
    }

    /// The next wait to be granted, of which both tell the same, as of the list; where there is none, no file counts as changed.
    fn next_ready(&mut self, rt: &impl Abort) -> Option<Wait> {
        let next = self.waits.next_ready_on_changed(&self.books);
        let is_next = next == self.waits.next_ready(&self.books);
        let is_listed = next == self.listed.next_ready(&self.books);
        let are_same = self.waits.list() == self.listed.list();
        assert!(rt; is_next && is_listed && are_same);
        match next {
            Some(_) => {},
            None => self.waits.forget_changes(),
        }
        next
    }
}

/// The traditional wait of a process on these bytes of the file.
fn traditional(p: u8, file: u8, span: Span, mode: Mode) -> Wait
    requires from_one { 1 ≤ p }
    requires process { p ≤ 64 }
    requires file { file < 64 }
    requires span { IsByteRange span }
    ensures traditional { IsTraditional result }
    ensures well_formed { IsWellFormed 64 result }
{
    Wait {
        p,
        n: 1,
        file,
        family: Family::Bytes,
        owner: Owner::Process(p),
        span,
        mode,
    }
}

/// The held policy by even numbers, and the queue policy by odd ones.
fn policy_of(x: u64) -> Policy {
    if x % 2 == 0 {
        Policy::Held
    } else {
        Policy::Queue
    }
}

/// The byte of that number.
fn byte(number: u8) -> Span
    ensures { IsByteRange result }
{
    bytes(u64::from(number), u64::from(number))
}

/// Process 1 to 64 hold the byte of their number each, and each but the last waits for the next one's.
fn chain(alloc: Global, policy: Policy) -> Result<Both, Fail> {
    let mut both = Both::new(alloc, policy, 64)?;
    for p in (1..=64u8).rev() {
        both.lock(0, Owner::Process(p), byte(p), Some(Mode::Write))?;
        if p < 64 {
            both.join(traditional(p, 0, byte(p + 1), Mode::Write))?;
        }
    }
    Ok(both)
}

/// Whether a wait of process 64 for the byte would close a cycle, on file 0 or on another one.
fn closes(rt: &impl Abort, both: &Both, is_other_file: bool, number: u8) -> bool {
    let file = u8::from(is_other_file);
    both.would_cycle(rt, &traditional(64, file, byte(number), Mode::Read))
}

/// The last process waits too, and leaves with the one in the middle: no cycle is left, and who is before it is next once it unlocks.
fn break_chain(rt: &impl Abort, both: &mut Both) -> Result<(), Fail> {
    both.join(traditional(64, 0, byte(1), Mode::Read))?;
    let is_none = both.next_ready(rt).is_none();
    assert!(rt; is_none && both.waits.list().len() == 64);
    both.leave(64);
    both.leave(32);
    assert!(rt; !closes(rt, both, false, 1));
    both.lock(0, Owner::Process(64), byte(64), None)?;
    let next = both.next_ready(rt);
    assert!(rt; matches!(next, Some(Wait { p: 63, .. })));
    Ok(())
}

/// The last one of a chain of 64 closes a cycle, by that byte of that file alone, and no more where one of the chain has left.
#[test]
fn follows_a_chain_of_64(rt: HostRuntime) -> Result<(), Fail> {
    for x in 0..2 {
        let mut both = chain(rt.alloc(), policy_of(x))?;
        let (same, past, other) = (
            closes(&rt, &both, false, 1),
            closes(&rt, &both, false, 65),
            closes(&rt, &both, true, 1),
        );
        assert!(rt; same && !past && !other);
        break_chain(&rt, &mut both)?;
    }
    Ok(())
}

/// A wait by the rule: of one of 6 processes, on file 0 or 1, for a lock of the process or of a description.
fn next_wait(rule: &mut Rule) -> Wait
    ensures { IsWellFormed 64 result }
{
    let p = rule.below(6) as u8 + 1;
    let file = rule.below(2) as u8;
    let mode = next_mode(rule);
    let wait = traditional(p, file, next_span(rule), mode);
    match rule.below(8) {
        0 => Wait {
            owner: Owner::Description(rule.below(3)),
            ..wait
        },
        1 => Wait {
            family: Family::Whole,
            owner: Owner::Description(rule.below(3)),
            ..wait
        },
        _ => wait,
    }
}

/// One or more of the bytes from 0 to 11, by the rule.
fn next_span(rule: &mut Rule) -> Span
    ensures { IsByteRange result }
{
    let first = rule.below(8);
    bytes(first, first + rule.below(4))
}

/// A mode by the rule.
fn next_mode(rule: &mut Rule) -> Mode {
    if rule.below(3) == 0 {
        Mode::Read
    } else {
        Mode::Write
    }
}

/// One step by the rule: a lock is set or removed, or a process begins to wait or waits no more.
fn step(both: &mut Both, rule: &mut Rule) -> Result<(), Fail> {
    let Wait {
        p,
        file,
        owner,
        span,
        mode,
        ..
    } = next_wait(rule);
    match rule.below(8) {
        0..=2 => both.lock(file, owner, span, Some(mode)),
        3 => both.lock(file, owner, span, None),
        4 => {
            both.leave(p);
            Ok(())
        },
        _ => both.join(next_wait(rule)),
    }
}

/// A step, and what both tell then; counts the cycles that a wait would close, and how often a wait is ready.
fn turn(
    rt: &impl Abort,
    both: &mut Both,
    rule: &mut Rule,
    seen: &mut [u64; 2],
) -> Result<(), Fail> {
    step(both, rule)?;
    let p = rule.below(6) as u8 + 1;
    let probe = traditional(p, 0, next_span(rule), Mode::Write);
    let (cycle, next) = (both.would_cycle(rt, &probe), both.next_ready(rt));
    seen[0] = seen[0].wrapping_add(u64::from(cycle));
    seen[1] = seen[1].wrapping_add(u64::from(next.is_some()));
    Ok(())
}

/// On 500 sequences of 40 steps both tell the same list, the same next wait and the same of cycles, of which there are some.
#[test]
fn answers_as_a_plain_list(rt: HostRuntime) -> Result<(), Fail> {
    let mut seen = [0; 2];
    for x in 0..500u64 {
        let mut rule = Rule::new(x);
        let mut both = Both::new(rt.alloc(), policy_of(x), 6)?;
        for _step in 0..40u8 {
            turn(&rt, &mut both, &mut rule, &mut seen)?;
        }
    }
    let [cycles, ready] = seen;
    assert!(rt; cycles > 1000 && ready > 1000 && ready < 19000);
    Ok(())
}
