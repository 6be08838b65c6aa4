//! The byte locks on a file.
ghost use Rattle.std.specs.Prelude.{◌≡◌, ◌≢◌, ◌+◌, ◌^◌, ◌<◌, ◌==◌, ◌↔◌, ◌⊎◌, ℕ, IsTrue, IfOk, OnOk, IfSome, IfNone, All, Any, None, Some, min, max, filter, not};
ghost use Rattle.range_core.specs.Ranges.{Conflict, Covers, IsConstant};
ghost use Rattle.history_core.specs.ByteLists.{AreRanges, AreTrue, Gives, GivesSome, HasByte, HasBytes, IsRange, Meets, Within};

use range_core::{Memory, Mode, Span};
use std::alloc::Global;

/// A range of bytes on all of which an owner has one mode.
#[derive(Clone, Copy, Debug, PartialEq, Eq)]
pub struct ByteLock {
    /// Whose it is.
    pub owner: u64,
    /// The mode.
    pub mode: Mode,
    /// The bytes.
    pub span: Span,
}

impl ByteLock {
    ghost use Rattle.std.specs.Prelude.{◌&&◌};
    ghost use Rattle.history_core.specs.ByteLists.{IsAskedFor, Touches};
    ghost use Rattle.history_core.specs.Locks.{covers};

    /// Whether the lock is the owner's, and has the byte.
    fn is_on(&self, owner: u64, byte: u64) -> bool
        ensures { result ≡ ((self.now.owner == owner) && covers self.now.span byte) }
    {
        self.owner == owner && self.span.first <= byte && byte <= self.span.last
    }

    /// Whether the lock belongs to another owner, shares a byte with the span, and conflicts.
    fn is_in_the_way(&self, owner: u64, mode: Mode, span: Span) -> bool
        ensures { IsTrue result ↔ ((self.now.owner ≢ owner) × Meets self.now.span span × Conflict self.now.mode mode) }
    {
        self.owner != owner && meet(self.span, span) && self.mode.conflicts_with(mode)
    }

    /// What of the lock lies before the span.
    fn before(self, span: Span) -> Option<ByteLock>
        requires { HasBytes self.span }
        ensures range { IfSome result (λ part. HasBytes part.span) }
        ensures gives { (owner byte : ℕ) (mode : Mode) → GivesSome result owner byte mode ↔ (Gives self owner byte mode × (byte < span.first)) }
    {
        if self.span.first >= span.first {
            return None;
        }
        Some(ByteLock {
            owner: self.owner,
            mode: self.mode,
            span: Span {
                first: self.span.first,
                last: self.span.last.min(span.first - 1),
            },
        })
    }

    /// What of the lock lies behind the span.
    fn behind(self, span: Span) -> Option<ByteLock>
        requires { HasBytes self.span }
        ensures range { IfSome result (λ part. HasBytes part.span) }
        ensures gives { (owner byte : ℕ) (mode : Mode) → GivesSome result owner byte mode ↔ (Gives self owner byte mode × (span.last < byte)) }
    {
        if self.span.last <= span.last {
            return None;
        }
        Some(ByteLock {
            owner: self.owner,
            mode: self.mode,
            span: Span {
                first: self.span.first.max(span.last + 1),
                last: self.span.last,
            },
        })
    }

    /// Whether the lock is of another owner than the one that is asked for, conflicts with it, and has one of its bytes.
    fn is_asked_for(self, asked: ByteLock) -> bool
        ensures { IsTrue result ↔ IsAskedFor self asked }
    {
        self.owner != asked.owner
            && self.mode.conflicts_with(asked.mode)
            && self.span.first <= self.span.last
            && asked.span.first <= asked.span.last
            && meet(self.span, asked.span)
    }

    /// Whether the lock stands before the other in a list; no clause rests on that order.
    fn comes_before(&self, other: ByteLock) -> bool {
        self.owner < other.owner || self.owner == other.owner && self.span.first < other.span.first
    }

    /// Whether the lock is of the other's owner and mode, and lies side by side with it.
    fn touches(&self, other: ByteLock) -> bool
        ensures { IsTrue result ↔ Touches self.now other }
    {
        self.owner == other.owner
            && self.mode == other.mode
            && (is_next(self.span, other.span) || is_next(other.span, self.span))
    }
}

/// The byte locks on a file. They are put together as the largest ranges of one mode, by owner and first byte, so that the same locks come to the
/// same list; no clause says so, and none rests on it.
#[derive(Drop)]
pub struct ByteLocks {
    alloc: Global,
    runs: Vec<ByteLock>,
    ghost are_true: { AreTrue runs.items },
}

impl ByteLocks {
    ghost use Rattle.history_core.specs.ByteView.{bytes_of};
    ghost use Rattle.history_core.specs.Locks.{BlocksBytes, bytes_with, bytes_without, IsHeld};
    ghost use Rattle.history_core.specs.ByteLists.{IsBounded, IsBoundedBefore, IsBoundedBehind};
    ghost use Rattle.std.specs.Prelude.{true};

    /// Nobody has a lock.
    pub fn new(alloc: Global) -> ByteLocks
        ensures { bytes_of result ≡ (λ owner. λ byte. None) }
    {
        ByteLocks {
            alloc,
            runs: Vec::new(alloc),
        }
    }

    /// The locks, by owner and first byte.
    pub fn runs(&self) -> &[ByteLock]
        ensures { result.now ≡ self.now.runs.items }
    {
        &self.runs
    }

    /// These locks once more.
    pub fn copy(&self) -> Result<ByteLocks, Memory>
        ensures { IfOk result (λ copy. bytes_of copy ≡ bytes_of self.now) }
    {
        Ok(ByteLocks {
            alloc: self.alloc,
            runs: Vec::from_slice(self.alloc, &self.runs)?,
        })
    }

    /// Whether these are the same locks.
    pub fn is_same(&self, other: &ByteLocks) -> bool
        ensures { IsTrue result ↔ (bytes_of self.now ≡ bytes_of other.now) }
    {
        self.has_same_runs(other) || self.gives_same(other)
    }

    /// Whether these are the same lists, which is told at once.
    fn has_same_runs(&self, other: &ByteLocks) -> bool
        ensures { IsTrue result → self.now.runs.items ≡ other.now.runs.items }
    {
        self.runs.as_slice() == other.runs.as_slice()
    }

    /// Whether each has the locks of the other.
    fn gives_same(&self, other: &ByteLocks) -> bool
        ensures { IsTrue result ↔ (bytes_of self.now ≡ bytes_of other.now) }
    {
        self.has_locks(&other.runs) && other.has_locks(&self.runs)
    }

    /// Whether the owners have all that these locks give them.
    fn has_locks(&self, locks: &[ByteLock]) -> bool
        ensures { IsTrue result ↔ All (λ lock. IsConstant (bytes_of self.now lock.owner) lock.span lock.mode) locks.now }
    {
        locks.iter().all(|lock| self.has_lock(*lock))
    }

    /// The owner's mode on the byte.
    pub fn mode_at(&self, owner: u64, byte: u64) -> Option<Mode>
        ensures { result ≡ bytes_of self.now owner byte }
    {
        let lock = self.lock_at(owner, byte)?;
        Some(lock.mode)
    }

    /// The lock that the owner has on the byte.
    fn lock_at(&self, owner: u64, byte: u64) -> Option<ByteLock>
        ensures some { IfSome result (λ lock. (bytes_of self.now owner byte ≡ Some lock.mode) × Covers lock.span byte
            × IsConstant (bytes_of self.now owner) lock.span lock.mode) }
        ensures none { IfNone result (bytes_of self.now owner byte ≡ None) }
    {
        for lock in self.runs.as_slice() {
            if lock.is_on(owner, byte) {
                return Some(*lock);
            }
        }
        None
    }

    /// Whether the owner has this mode on all these bytes.
    fn has_all(&self, owner: u64, mode: Mode, span: Span) -> bool
        requires { IsRange span }
        ensures { IsTrue result ↔ IsConstant (bytes_of self.now owner) span mode }
    {
        let mut at = span.first;
        loop {
            let Some(lock) = self.lock_at(owner, at) else {
                return false;
            };
            if lock.mode != mode {
                return false;
            }
            if span.last <= lock.span.last {
                return true;
            }
            at = lock.span.last + 1;
        }
    }

    /// Whether this other owner has the mode on all these bytes, and one of them is asked for and conflicts; with `runs` they are to be a
    /// largest range (POSIX.1-2017 fcntl, `F_GETLK`).
    pub fn holds(&self, asked: ByteLock, told: ByteLock, runs: bool) -> bool
        ensures { IsTrue result ↔ IsHeld runs (bytes_of self.now) asked.owner asked.mode asked.span told.owner told.mode told.span }
    {
        if !told.is_asked_for(asked) {
            return false;
        }
        if !self.has_lock(told) {
            return false;
        }
        self.is_whole(told, runs)
    }

    /// Whether any other owner has the mode on all these bytes, and one of them is asked for and conflicts; with `runs` they are to be a
    /// largest range (POSIX.1-2017 fcntl, `F_GETLK`).
    pub fn anybody_holds(&self, asked: ByteLock, mode: Mode, span: Span, runs: bool) -> bool
        ensures { IsTrue result ↔ ((other : ℕ) × IsHeld runs (bytes_of self.now) asked.owner asked.mode asked.span other mode span) }
    {
        self.some_owner_holds(asked, mode, span, runs)
    }

    /// Whether the owner of one of the locks does.
    fn some_owner_holds(&self, asked: ByteLock, mode: Mode, span: Span, runs: bool) -> bool
        ensures { IsTrue result
            ↔ Any (λ lock. IsHeld runs (bytes_of self.now) asked.owner asked.mode asked.span lock.owner mode span) self.now.runs.items }
    {
        self.runs.iter().any(|lock| {
            let told = ByteLock {
                owner: lock.owner,
                mode,
                span,
            };
            self.holds(asked, told, runs)
        })
    }

    /// Whether the owner has the mode on all these bytes; of no byte it has.
    fn has_lock(&self, told: ByteLock) -> bool
        ensures { IsTrue result ↔ IsConstant (bytes_of self.now told.owner) told.span told.mode }
    {
        told.span.first > told.span.last || self.has_all(told.owner, told.mode, told.span)
    }

    /// Whether the bytes are a largest range, where that is asked for.
    fn is_whole(&self, told: ByteLock, runs: bool) -> bool
        ensures { IsTrue result ↔ (runs ≡ true → IsBounded (bytes_of self.now told.owner) told.mode told.span) }
    {
        !runs || self.is_largest(told)
    }

    /// Whether the owner has another mode, or none, on the bytes before and behind these.
    fn is_largest(&self, told: ByteLock) -> bool
        ensures { IsTrue result ↔ IsBounded (bytes_of self.now told.owner) told.mode told.span }
    {
        self.is_bounded_before(told) && self.is_bounded_behind(told)
    }

    /// Whether the owner has another mode, or none, on the byte before these.
    fn is_bounded_before(&self, told: ByteLock) -> bool
        ensures { IsTrue result ↔ IsBoundedBefore (bytes_of self.now told.owner) told.mode told.span }
    {
        told.span.first == 0 || self.mode_at(told.owner, told.span.first - 1) != Some(told.mode)
    }

    /// Whether the owner has another mode, or none, on the byte behind these.
    fn is_bounded_behind(&self, told: ByteLock) -> bool
        ensures { IsTrue result ↔ IsBoundedBehind (bytes_of self.now told.owner) told.mode told.span }
    {
        told.span.last == u64::MAX
            || self.mode_at(told.owner, told.span.last + 1) != Some(told.mode)
    }

    /// Whether a lock of another owner conflicts with this one (POSIX.1-2017 fcntl, `F_SETLK`).
    pub fn blocks(&self, owner: u64, mode: Mode, span: Span) -> bool
        ensures { IsTrue result ↔ BlocksBytes (bytes_of self.now) owner mode span }
    {
        span.first <= span.last && self.blocks_range(owner, mode, span)
    }

    /// Whether a lock of another owner conflicts with this one.
    fn blocks_range(&self, owner: u64, mode: Mode, span: Span) -> bool
        requires { IsRange span }
        ensures { IsTrue result ↔ BlocksBytes (bytes_of self.now) owner mode span }
    {
        self.has_in_the_way(owner, mode, span)
    }

    /// Whether one of the locks is in the way.
    fn has_in_the_way(&self, owner: u64, mode: Mode, span: Span) -> bool
        ensures { IsTrue result ↔ Any (λ lock. (lock.owner ≢ owner) × Meets lock.span span × Conflict lock.mode mode) self.now.runs.items }
    {
        self.runs
            .iter()
            .any(|lock| lock.is_in_the_way(owner, mode, span))
    }

    /// The owner's mode on just these bytes set, or removed (POSIX.1-2017 fcntl, `F_SETLK`).
    pub fn with(&self, owner: u64, span: Span, mode: Option<Mode>) -> Result<ByteLocks, Memory>
        ensures { IfOk result (λ next. bytes_of next ≡ bytes_with (bytes_of self.now) owner span mode) }
    {
        if span.first > span.last {
            self.copy()
        } else {
            self.with_range(owner, span, mode)
        }
    }

    /// The owner's mode on just these bytes set, or removed.
    fn with_range(&self, owner: u64, span: Span, mode: Option<Mode>) -> Result<ByteLocks, Memory>
        requires { IsRange span }
        ensures { IfOk result (λ next. bytes_of next ≡ bytes_with (bytes_of self.now) owner span mode) }
    {
        let rest = self.outside(owner, span)?;
        let runs = inside(self.alloc, rest, owner, span, mode)?;
        Ok(ByteLocks {
            alloc: self.alloc,
            runs,
        })
    }

    /// The locks, but for what the owner has on these bytes.
    fn outside(&self, owner: u64, span: Span) -> Result<Vec<ByteLock>, Memory>
        requires { IsRange span }
        ensures ranges { IfOk result (λ rest. AreRanges rest.items) }
        ensures gives { IfOk result (λ rest. (other byte : ℕ) (mode : Mode) → HasByte rest.items other byte mode
            ↔ (HasByte self.now.runs.items other byte mode × ¬ ((other ≡ owner) × Covers span byte))) }
    {
        let mut rest = Vec::new(self.alloc);
        for lock in self.runs.as_slice() {
            push_outside(&mut rest, *lock, owner, span)?;
        }
        Ok(rest)
    }

    /// The locks of all others (POSIX.1-2017 close, and fcntl, `F_GETLK`).
    pub fn without(&self, owner: u64) -> Result<ByteLocks, Memory>
        ensures { IfOk result (λ next. bytes_of next ≡ bytes_without (bytes_of self.now) owner) }
    {
        Ok(ByteLocks {
            alloc: self.alloc,
            runs: self.of_others(owner)?,
        })
    }

    /// The locks of all others.
    fn of_others(&self, owner: u64) -> Result<Vec<ByteLock>, Memory>
        ensures { IfOk result (λ others. others.items ≡ filter (λ lock. not (lock.owner == owner)) self.now.runs.items) }
    {
        let others = self
            .runs
            .iter()
            .filter(|lock| lock.owner != owner)
            .copied()
            .collect(self.alloc)?;
        Ok(others)
    }
}

/// Whether the spans share a byte.
pub fn meet(one: Span, other: Span) -> bool
    ensures { IsTrue result ↔ Meets one other }
{
    one.first <= other.last && other.first <= one.last
}

/// Whether the one span ends where the other begins.
fn is_next(one: Span, other: Span) -> bool
    ensures { IsTrue result ↔ (one.last + 1 ≡ other.first) }
{
    one.last < other.first && other.first - one.last == 1
}

/// The least span that has the bytes of both.
fn hull(one: Span, other: Span) -> Span
    ensures first { result.first ≡ min one.first other.first }
    ensures last { result.last ≡ max one.last other.last }
{
    Span {
        first: one.first.min(other.first),
        last: one.last.max(other.last),
    }
}

/// Pushes what the lock gives, but for the owner's bytes in the span.
fn push_outside(
    rest: &mut Vec<ByteLock>,
    lock: ByteLock,
    owner: u64,
    span: Span,
) -> Result<(), Memory>
    requires lock { HasBytes lock.span }
    requires span { IsRange span }
    ensures ranges { OnOk result (AreRanges rest.old.items → AreRanges rest.new.items) }
    ensures gives { OnOk result ((other byte : ℕ) (mode : Mode) → HasByte rest.new.items other byte mode
        ↔ (HasByte rest.old.items other byte mode ⊎ (Gives lock other byte mode × ¬ ((other ≡ owner) × Covers span byte)))) }
{
    if lock.owner != owner {
        push_some(rest, Some(lock))?;
        return Ok(());
    }
    push_some(rest, lock.before(span))?;
    push_some(rest, lock.behind(span))?;
    Ok(())
}

/// Pushes the lock, where there is one.
fn push_some(rest: &mut Vec<ByteLock>, lock: Option<ByteLock>) -> Result<(), Memory>
    requires { IfSome lock (λ one. HasBytes one.span) }
    ensures ranges { OnOk result (AreRanges rest.old.items → AreRanges rest.new.items) }
    ensures gives { OnOk result ((owner byte : ℕ) (mode : Mode) → HasByte rest.new.items owner byte mode
        ↔ (HasByte rest.old.items owner byte mode ⊎ GivesSome lock owner byte mode)) }
{
    if let Some(lock) = lock {
        rest.push(lock)?;
    }
    Ok(())
}

/// The locks with the owner's mode on the span, where one is given; the owner has none there.
fn inside(
    alloc: Global,
    rest: Vec<ByteLock>,
    owner: u64,
    span: Span,
    mode: Option<Mode>,
) -> Result<Vec<ByteLock>, Memory>
    requires range { HasBytes span }
    requires ranges { AreRanges rest.items }
    ensures ranges { IfOk result (λ runs. AreRanges runs.items) }
    ensures gives { IfOk result (λ runs. (other byte : ℕ) (given : Mode) → HasByte runs.items other byte given
        ↔ (HasByte rest.items other byte given ⊎ ((mode ≡ Some given) × (other ≡ owner) × Covers span byte))) }
{
    match mode {
        None => Ok(rest),
        Some(mode) => {
            let runs = joined(alloc, &rest, ByteLock { owner, mode, span })?;
            Ok(runs)
        }
    }
}

/// The locks with one more, on whose bytes its owner has none: those of its owner and mode beside it become one with it.
fn joined(alloc: Global, locks: &[ByteLock], lock: ByteLock) -> Result<Vec<ByteLock>, Memory>
    requires range { HasBytes lock.span }
    requires ranges { AreRanges locks.now }
    ensures ranges { IfOk result (λ runs. AreRanges runs.items) }
    ensures gives { IfOk result (λ runs. (other byte : ℕ) (mode : Mode) → HasByte runs.items other byte mode
        ↔ (HasByte locks.now other byte mode ⊎ Gives lock other byte mode)) }
{
    let mut runs = Vec::new(alloc);
    let mut span = lock.span;
    for one in locks {
        span = absorb(&mut runs, lock, span, *one)?;
    }
    let run = ByteLock { span, ..lock };
    let place = runs.as_slice().partition_point(|one| one.comes_before(run));
    runs.insert(place, run)?;
    Ok(runs)
}

/// The bytes of the lock, which has grown to these, and of one more beside it; one that isn't is set aside.
fn absorb(
    aside: &mut Vec<ByteLock>,
    lock: ByteLock,
    span: Span,
    one: ByteLock,
) -> Result<Span, Memory>
    requires has { IsRange lock.span }
    requires grown { Within lock.span span }
    requires range { HasBytes one.span }
    ensures grown { IfOk result (λ next. Within lock.span next × (next.last < 2 ^ 64)) }
    ensures ranges { OnOk result (AreRanges aside.old.items → AreRanges aside.new.items) }
    ensures gives { IfOk result (λ next. (owner byte : ℕ) (mode : Mode) →
        (HasByte aside.new.items owner byte mode ⊎ Gives (record lock { span = next }) owner byte mode)
        ↔ ((HasByte aside.old.items owner byte mode ⊎ Gives (record lock { span = span }) owner byte mode) ⊎ Gives one owner byte mode)) }
{
    if one.touches(lock) {
        return Ok(hull(span, one.span));
    }
    aside.push(one)?;
    Ok(span)
}
