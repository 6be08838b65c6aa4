//! The least owners of the runs of a subtree.
ghost use Rattle.std.specs.Prelude.{◌≡◌, true, false, List, [], ◌∷◌, ◌++◌, ◌||◌};
ghost use Rattle.interval_index.specs.declared.Holder.{Holder};
ghost use Rattle.interval_index.specs.declared.Run.{Run};
ghost use Rattle.interval_index.specs.Holders.{is_before, is_by, has_by};
ghost use Rattle.interval_index.specs.Reaching.{TellsLeast, other_than, precedes};

use crate::{Holder, Run};

/// The least last byte of any run, the least owner, and the least of the other owners.
#[derive(Clone, Copy)]
pub struct Least {
    last: u64,
    holder: Option<Holder>,
    other: Option<Holder>,
}

impl Holder {
    /// Whether the owner comes no later than the other.
    fn is_by(self, bound: Holder) -> bool
        ensures { result ≡ is_by self bound }
    {
        self.class < bound.class || (self.class == bound.class && self.number <= bound.number)
    }
}

/// The lesser of two owners, if there is one.
pub(crate) fn lesser(holder: Option<Holder>, other: Option<Holder>) -> Option<Holder>
    ensures { (bound : Holder) → has_by result bound ≡ (has_by holder bound || has_by other bound) }
{
    match (holder, other) {
        (None, _) => other,
        (_, None) => holder,
        (Some(a), Some(b)) => { if a.is_by(b) { Some(a) } else { Some(b) } }
    }
}

/// Whether the one owner comes no later than the other.
pub(crate) fn is_as_early(holder: Option<Holder>, other: Option<Holder>) -> bool
    ensures yes { result ≡ true → (bound : Holder) → has_by other bound ≡ true → has_by holder bound ≡ true }
    ensures no { result ≡ false → (bound : Holder) → has_by holder bound ≡ true → has_by other bound ≡ true }
{
    match (holder, other) {
        (_, None) => true,
        (None, Some(_)) => false,
        (Some(a), Some(b)) => a.is_by(b),
    }
}

/// Whether there is an owner, and it comes before the other.
fn is_before(holder: Option<Holder>, other: Holder) -> bool
    ensures { result ≡ is_before holder other }
{
    match holder {
        None => false,
        Some(holder) => !other.is_by(holder),
    }
}

impl Least {
    /// That of no run.
    pub(crate) fn nobody() -> Least
        ensures { TellsLeast result [] }
    {
        Least {
            last: u64::MAX,
            holder: None,
            other: None,
        }
    }

    /// That of one run.
    pub(crate) fn of(run: &Run) -> Least
        ensures { TellsLeast result (run.now ∷ []) }
    {
        Least {
            last: run.span.last,
            holder: Some(run.holder()),
            other: None,
        }
    }

    /// That of the runs of both.
    pub(crate) fn append(&mut self, more: Least)
        ensures { (runs others : List Run) → TellsLeast self.old runs → TellsLeast more others → TellsLeast self.new (runs ++ others) }
    {
        self.last = self.last.min(more.last);
        if self.holder == more.holder {
            self.other = lesser(self.other, more.other);
        } else if is_as_early(self.holder, more.holder) {
            self.other = lesser(self.other, more.holder);
        } else {
            self.other = lesser(more.other, self.holder);
            self.holder = more.holder;
        }
    }

    /// One run more. Where two owners come before its owner, and some run may end before it, there is nothing to tell of it.
    pub(crate) fn add(&mut self, run: &Run)
        ensures { (runs : List Run) → TellsLeast self.old runs → TellsLeast self.new (runs ++ run.now ∷ []) }
    {
        if !self.precedes(run) {
            self.append(Least::of(run));
        }
    }

    /// Whether two owners come before the run's, and some run may end before it.
    pub(crate) fn precedes(&self, run: &Run) -> bool
        ensures { result ≡ precedes self.now run.now }
    {
        let holder = run.holder();
        self.last < run.span.last && is_before(self.holder, holder) && is_before(self.other, holder)
    }

    /// The least owner that isn't this one.
    pub(crate) fn other_than(&self, holder: Holder) -> Option<Holder>
        ensures { result ≡ other_than holder self.now.holder self.now.other }
    {
        let least = self.holder?;
        if holder == least {
            self.other
        } else {
            Some(least)
        }
    }

    /// The byte that no run ends before.
    pub(crate) fn last(&self) -> u64
        ensures { result ≡ self.now.last }
    {
        self.last
    }
}
