//! The runs in a tree.
ghost use Rattle.std.specs.Prelude.{ℕ, ◌≡◌, ◌≢◌, ◌+◌, ◌-◌, ◌<◌, ◌≤◌, ◌↔◌, [], ◌∷◌, length, All, List, None, Some, IfNone, IfSome, IsFalse, IsOk, IsTrue, OnErr, OnOk};
ghost use Rattle.std.specs.List.{filter, find};
ghost use Rattle.range_core.specs.declared.TheConstants.{OFFMAX};
ghost use Rattle.range_core.specs.declared.Mode.{Mode};
ghost use Rattle.range_core.specs.declared.Span.{Span};
ghost use Rattle.range_core.specs.Changes.{mode_in};
ghost use Rattle.range_core.specs.Ranges.{AreRuns, Covers, HeldConflicts, IsByteRange, IsConstant, IsFirstHit, IsRun, SplitsRun};
ghost use Rattle.owner_runs.specs.Tests.{ends_from, meets};
ghost use Rattle.owner_runs.specs.Trees.{AreRunsTouching, IsCutOut, IsFree, IsFreedBehind, IsGapFor, IsNext, IsNextRun, IsPieceOf, IsPrior, IsSetOn, IsShortened, IsWhole};

use crate::cuts::EndingFrom;
use crate::runs::Runs;
use crate::writes::{Conflicting, Writes};
use range_core::{Memory, Mode, OFFMAX, Span};
use std::alloc::Global;
use std::marker::Model;
use summary_tree::{Beside, Tree};

/// The runs by rising bytes, the largest ranges that have one mode throughout; and room for more runs.
///
/// Nothing but [`RunTree::reserve`] takes memory.
#[derive(Drop)]
pub(crate) struct RunTree {
    runs: Tree<(Mode, Span), Writes>,
}

impl Model for RunTree {
    ghost use Rattle.summary_tree.specs.Contents.{Contents};
    ghost use Rattle.range_core.specs.declared.Mode.{Mode};
    ghost use Rattle.range_core.specs.declared.Span.{Span};
    ghost use Rattle.owner_runs.specs.Trees.{AreOrdered};

    ghost Value = { Contents (Mode × Span) };

    ghost view = { λ a. a.runs };

    ghost invariant = { λ a. AreOrdered a.runs.items };
}

impl RunTree {
    /// No run and no room. It takes no memory.
    pub(crate) fn new(alloc: Global) -> RunTree
        ensures items { result.items ≡ [] }
        ensures room { result.room ≡ 0 }
    {
        RunTree {
            runs: Tree::new(alloc),
        }
    }

    /// How many runs there are.
    pub(crate) fn count(&self) -> u64
        ensures count { result ≡ length self.now.items }
        ensures runs { AreRuns (mode_in self.now.items) self.now.items }
        ensures ranges { All (λ run. IsByteRange run.1) self.now.items }
    {
        self.runs.len()
    }

    /// Whether there is none.
    pub(crate) fn is_empty(&self) -> bool
        ensures free { IsTrue result ↔ ((byte : ℕ) → mode_in self.now.items byte ≡ None) }
        ensures held { IsFalse result → (byte : ℕ) × (mode : Mode) × (mode_in self.now.items byte ≡ Some mode) }
    {
        self.runs.len() == 0
    }

    /// All runs.
    pub(crate) fn runs(&self) -> Runs<'_>
        ensures runs { AreRuns (mode_in self.now.items) result }
        ensures ranges { All (λ run. IsByteRange run.1) result }
    {
        // The proof reads the order of the runs from the field.
        let _ = &self.runs;
        Runs::of_tree(self, 0, OFFMAX)
    }

    /// The runs that share a byte with the span or lie right beside it.
    pub(crate) fn touching(&self, span: Span) -> Runs<'_>
        requires { IsByteRange span }
        ensures runs { AreRunsTouching (mode_in self.now.items) span result }
        ensures ranges { All (λ run. IsByteRange run.1) result }
    {
        // The proof reads the order of the runs from the field.
        let _ = &self.runs;
        Runs::of_tree(self, span.first.saturating_sub(1), span.last + 1)
    }

    /// Holds room for so many more runs in all, counting the room already there.
    ///
    /// `Memory`, which never comes where that room is there, leaves the tree as it was.
    pub(crate) fn reserve(&mut self, count: u64) -> Result<(), Memory>
        ensures items { self.new.items ≡ self.old.items }
        ensures kept { self.old.room ≤ self.new.room }
        ensures ok { OnOk result (count ≤ self.new.room) }
        ensures there { count ≤ self.old.room → IsOk result }
        ensures err { OnErr result (self.new.room ≡ self.old.room) }
    {
        self.runs.reserve(count)
    }

    /// The first run that ends at the one byte or behind it, if it begins at the other or before it.
    pub(crate) fn meeting(&self, first: u64, last: u64) -> Option<(Mode, Span)>
        ensures found { IfSome result (λ run. find (ends_from first) self.now.items ≡ Some run) }
        ensures run { IfSome result (IsNextRun (mode_in self.now.items) first) }
        ensures begins { IfSome result (λ run. run.1.first ≤ last) }
        ensures others { IfSome result (λ run. filter (meets first last) self.now.items ≡ run ∷ filter (meets (run.1.last + 1) last) self.now.items) }
        ensures none { IfNone result ((byte : ℕ) → first ≤ byte → byte ≤ last → mode_in self.now.items byte ≡ None) }
        ensures nothing { IfNone result (filter (meets first last) self.now.items ≡ []) }
    {
        let run = self.runs.first_from(&EndingFrom(first))?;
        if run.1.first <= last { Some(run) } else { None }
    }

    /// The least byte of the span whose mode conflicts with a lock of the mode `against` by another owner, and `None`
    /// where no byte does.
    pub(crate) fn first_hit(&self, span: Span, against: Mode) -> Option<u64>
        requires { IsByteRange span }
        ensures hit { IfSome result (IsFirstHit (mode_in self.now.items) span against) }
        ensures none { IfNone result ((byte : ℕ) → Covers span byte → ¬ HeldConflicts (mode_in self.now.items byte) against) }
    {
        let run = self
            .runs
            .first_where_from(&EndingFrom(span.first), &Conflicting(against))?;
        if span.last < run.1.first {
            return None;
        }
        Some(run.1.first.max(span.first))
    }

    /// The mode of the byte, and the run on which it lies; `None` where the byte has no mode.
    pub(crate) fn run_at(&self, byte: u64) -> Option<(Mode, Span)>
        ensures run { IfSome result (λ run. IsRun (mode_in self.now.items) byte run.0 run.1) }
        ensures range { IfSome result (λ run. IsByteRange run.1) }
        ensures none { IfNone result (mode_in self.now.items byte ≡ None) }
    {
        self.meeting(byte, byte)
    }

    /// From the first byte that has a mode to the last; `None` where no byte has one.
    pub(crate) fn extent(&self) -> Option<Span>
        ensures some { IfSome result (λ span. (byte : ℕ) → (¬ Covers span byte) → mode_in self.now.items byte ≡ None) }
        ensures ends { IfSome result (λ span. (mode_in self.now.items span.first ≢ None) × (mode_in self.now.items span.last ≢ None)) }
        ensures range { IfSome result IsByteRange }
        ensures none { IfNone result ((byte : ℕ) → mode_in self.now.items byte ≡ None) }
    {
        let first = self.runs.first_from(&EndingFrom(0))?;
        let last = self.runs.last()?;
        Some(Span {
            first: first.1.first,
            last: last.1.last,
        })
    }

    /// Whether a run reaches beyond the span at both ends.
    pub(crate) fn is_split_by(&self, span: Span) -> bool
        requires { IsByteRange span }
        ensures { IsTrue result ↔ SplitsRun (mode_in self.now.items) span }
    {
        match self.meeting(span.first, span.first) {
            Some((_, run)) => run.first < span.first && span.last < run.last,
            None => false,
        }
    }

    /// Removes the mode of just the bytes of the span; where that splits a run it uses up room for one. It takes no memory.
    pub(crate) fn unlock(&mut self, span: Span)
        requires span { IsByteRange span }
        requires room { SplitsRun (mode_in self.old.items) span → 0 < self.old.room }
        ensures modes { IsSetOn (mode_in self.old.items) (mode_in self.new.items) span None }
        ensures room { self.old.room ≤ self.new.room + 1 }
        ensures whole { (¬ SplitsRun (mode_in self.old.items) span) → self.old.room ≤ self.new.room }
    {
        let mut first = span.first;
        while let Some(run) = self.meeting(first, span.last) {
            let left = Span {
                first,
                last: span.last,
            };
            self.cut_out(run, left);
            if span.last <= run.1.last {
                return;
            }
            first = run.1.last + 1;
        }
    }

    /// Removes the mode of each byte. It takes no memory.
    pub(crate) fn clear(&mut self)
        ensures modes { (byte : ℕ) → mode_in self.new.items byte ≡ None }
        ensures room { self.old.room ≤ self.new.room }
    {
        // The proof reads the order of the runs from the field.
        let _ = &self.runs;
        self.unlock(Span::WHOLE_FILE);
    }

    /// Removes the mode of the bytes of the span that lie on this run, the first that ends at its first byte or behind it. It
    /// uses up room for one run where this one reaches beyond the span at both ends.
    fn cut_out(&mut self, run: (Mode, Span), span: Span)
        requires span { IsByteRange span }
        requires found { find (ends_from span.first) self.old.items ≡ Some run }
        requires run { IsNextRun (mode_in self.old.items) span.first run }
        requires begins { run.1.first ≤ span.last }
        requires room { run.1.first < span.first → span.last < run.1.last → 0 < self.old.room }
        ensures modes { IsCutOut (mode_in self.old.items) (mode_in self.new.items) run.1 span }
        ensures room { self.old.room ≤ self.new.room + 1 }
        ensures whole { (¬ ((run.1.first < span.first) × (span.last < run.1.last))) → self.old.room ≤ self.new.room }
    {
        let (mode, held) = run;
        if held.first < span.first {
            self.shorten(span.first, (mode, before(held, span)));
            if span.last < held.last {
                self.put((mode, behind(held, span)));
            }
        } else if span.last < held.last {
            self.shorten(span.first, (mode, behind(held, span)));
        } else {
            self.take(span.first);
        }
    }

    /// The last run that ends before the byte, and the first that ends at it or behind it.
    pub(crate) fn beside(&self, byte: u64) -> Beside<(Mode, Span)>
        ensures before { IsPrior (mode_in self.now.items) byte result.before }
        ensures behind { IsNext self.now.items byte result.behind }
    {
        self.runs.beside(&EndingFrom(byte))
    }

    /// Sets the mode on just the bytes of the span, and uses up room for two runs at most. It takes no memory.
    pub(crate) fn set(&mut self, span: Span, mode: Mode)
        requires span { IsByteRange span }
        requires room { 2 ≤ self.old.room }
        ensures modes { IsSetOn (mode_in self.old.items) (mode_in self.new.items) span (Some mode) }
        ensures room { self.old.room ≤ self.new.room + 2 }
    {
        let beside = self.beside(span.first);
        if is_set(beside.behind, span, mode) {
            return;
        }
        self.set_beside(span, mode, beside);
    }

    /// Sets the mode as [`RunTree::set`] does, beside the runs that were found there.
    pub(crate) fn set_beside(&mut self, span: Span, mode: Mode, beside: Beside<(Mode, Span)>)
        requires span { IsByteRange span }
        requires before { IsPrior (mode_in self.old.items) span.first beside.before }
        requires behind { IsNext self.old.items span.first beside.behind }
        requires room { 2 ≤ self.old.room }
        ensures modes { IsSetOn (mode_in self.old.items) (mode_in self.new.items) span (Some mode) }
        ensures room { self.old.room ≤ self.new.room + 2 }
    {
        match beside.behind {
            Some((_, run)) if run.first <= span.last => {
                self.unlock(span);
                let beside = self.beside(span.first);
                self.lock(span, mode, beside);
            }
            _ => self.lock(span, mode, beside),
        }
    }

    /// Sets the mode on just the bytes of the span, none of which has one, and uses up room for one run at most.
    fn lock(&mut self, span: Span, mode: Mode, beside: Beside<(Mode, Span)>)
        requires span { IsByteRange span }
        requires free { IsFree (mode_in self.old.items) span }
        requires before { IsPrior (mode_in self.old.items) span.first beside.before }
        requires behind { IsNext self.old.items span.first beside.behind }
        requires room { 0 < self.old.room }
        ensures modes { IsSetOn (mode_in self.old.items) (mode_in self.new.items) span (Some mode) }
        ensures room { self.old.room ≤ self.new.room + 1 }
    {
        let last = self.join_behind(span, mode, beside.behind);
        let first = span.first;
        self.join_before(Span { first, last }, mode, beside.before);
    }

    /// Sets the mode on just the bytes of the span, none of which has one, and right behind which none begins: it lengthens the run
    /// before the span, where that is of the mode and ends right there, and else puts a run in.
    fn join_before(&mut self, span: Span, mode: Mode, before: Option<(Mode, Span)>)
        requires span { IsByteRange span }
        requires free { IsFree (mode_in self.old.items) span }
        requires before { IsPrior (mode_in self.old.items) span.first before }
        requires behind { mode_in self.old.items (span.last + 1) ≢ Some mode }
        requires room { 0 < self.old.room }
        ensures modes { IsSetOn (mode_in self.old.items) (mode_in self.new.items) span (Some mode) }
        ensures room { self.old.room ≤ self.new.room + 1 }
    {
        match before {
            Some((held, run)) if held == mode && run.last + 1 == span.first => {
                self.lengthen((held, run), span.last);
            }
            _ => self.put((mode, span)),
        }
    }

    /// Takes out the next run, where it is of the mode and begins right behind the span, and tells where it ended; where the span
    /// does, if it stays.
    fn join_behind(&mut self, span: Span, mode: Mode, next: Option<(Mode, Span)>) -> u64
        requires span { IsByteRange span }
        requires free { IsFree (mode_in self.old.items) span }
        requires next { IsNext self.old.items span.first next }
        ensures modes { IsFreedBehind (mode_in self.old.items) (mode_in self.new.items) mode span.last result }
        ensures range { result ≤ OFFMAX }
        ensures room { self.new.room ≡ self.old.room }
    {
        let Some((held, run)) = next else {
            return span.last;
        };
        if held == mode && run.first == span.last + 1 {
            self.take(span.first);
            return run.last;
        }
        span.last
    }

    /// Lengthens the run up to this byte; the room stays.
    fn lengthen(&mut self, run: (Mode, Span), last: u64)
        requires run { (run.1.first ≤ run.1.last) × IsWhole (mode_in self.old.items) run }
        requires last { (run.1.last ≤ last) × (last ≤ OFFMAX) }
        requires free { (byte : ℕ) → run.1.last < byte → byte ≤ last → mode_in self.old.items byte ≡ None }
        requires behind { mode_in self.old.items (last + 1) ≢ Some run.0 }
        ensures modes { IsSetOn (mode_in self.old.items) (mode_in self.new.items) (record { first = run.1.first; last = last }) (Some run.0) }
        ensures room { self.new.room ≡ self.old.room }
    {
        let (mode, held) = run;
        let first = held.first;
        self.runs
            .replace(&EndingFrom(held.last), (mode, Span { first, last }));
    }

    /// Takes out the first run that ends at the byte or behind it; the room stays.
    fn take(&mut self, byte: u64)
        ensures modes { (run : Mode × Span) → find (ends_from byte) self.old.items ≡ Some run → IsSetOn (mode_in self.old.items) (mode_in self.new.items) run.1 None }
        ensures room { self.new.room ≡ self.old.room }
    {
        self.runs.take(&EndingFrom(byte));
    }

    /// Puts a piece of it in place of the first run that ends at the byte or behind it; the room stays.
    fn shorten(&mut self, byte: u64, piece: (Mode, Span))
        requires { IfSome (find (ends_from byte) self.old.items) (λ run. IsPieceOf run piece) }
        ensures modes { (run : Mode × Span) → find (ends_from byte) self.old.items ≡ Some run → IsShortened (mode_in self.old.items) (mode_in self.new.items) run.1 piece.1 }
        ensures room { self.new.room ≡ self.old.room }
    {
        self.runs.replace(&EndingFrom(byte), piece);
    }

    /// Puts in a run, and uses up room for one.
    pub(crate) fn put(&mut self, run: (Mode, Span))
        requires range { IsByteRange run.1 }
        requires gap { IsGapFor (mode_in self.old.items) run.0 run.1 }
        requires room { 0 < self.old.room }
        ensures modes { IsSetOn (mode_in self.old.items) (mode_in self.new.items) run.1 (Some run.0) }
        ensures room { self.new.room + 1 ≡ self.old.room }
    {
        self.runs.put(&EndingFrom(run.1.first), run);
    }
}

/// Whether the next run from the first byte of the span on is of the mode and reaches over all of it.
pub(crate) fn is_set(next: Option<(Mode, Span)>, span: Span, mode: Mode) -> bool
    requires { IsByteRange span }
    ensures { (runs : List (Mode × Span)) → IsNext runs span.first next → IsTrue result ↔ IsConstant (mode_in runs) span mode }
{
    match next {
        Some((held, run)) => held == mode && run.first <= span.first && span.last <= run.last,
        None => false,
    }
}

/// The part of a run that lies before a span.
fn before(run: Span, span: Span) -> Span
    requires { run.first < span.first }
    ensures { result ≡ record { first = run.first; last = span.first - 1 } }
{
    Span {
        first: run.first,
        last: span.first - 1,
    }
}

/// The part of a run that lies behind a span.
fn behind(run: Span, span: Span) -> Span
    requires { span.last < run.last }
    ensures { result ≡ record { first = span.last + 1; last = run.last } }
{
    Span {
        first: span.last + 1,
        last: run.last,
    }
}
