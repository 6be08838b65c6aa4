//! One run, or none.
ghost use Rattle.std.specs.Prelude.{ℕ, ◌≡◌, ◌+◌, ◌<◌, ◌≤◌, ◌↔◌, [], ◌∷◌, All, None, Some, IfNone, IfSome, IsFalse, IsTrue};
ghost use Rattle.range_core.specs.declared.Mode.{Mode};
ghost use Rattle.range_core.specs.Changes.{mode_in, SetsMode};
ghost use Rattle.range_core.specs.Ranges.{AreRuns, Covers, HeldConflicts, IsByteRange, IsConstant, IsFirstHit, IsRun, SplitsRun};
ghost use Rattle.owner_runs.specs.Lone.{IsLeftOf};
ghost use Rattle.owner_runs.specs.Trees.{IsSetOn};

use range_core::{Mode, Span};
use std::marker::Model;
use std::slice;

/// One run, or none, and then perhaps room for one set: the run that this makes is put here. So an owner with one lock, or who
/// waits for one, takes no block of memory.
///
/// Nothing takes memory: what has no place here is refused.
#[derive(Drop)]
pub(crate) struct LoneRun {
    place: Place,
}

/// What stands in the place of the one run.
#[derive(Clone, Copy)]
enum Place {
    /// No run, and no room.
    Nothing,
    /// No run, and room for one set.
    Held,
    /// The run, and no room.
    Run((Mode, Span)),
}

impl Model for LoneRun {
    ghost use Rattle.summary_tree.specs.Contents.{Contents};
    ghost use Rattle.range_core.specs.declared.Mode.{Mode};
    ghost use Rattle.range_core.specs.declared.Span.{Span};
    ghost use Rattle.owner_runs.specs.Trees.{AreOrdered};
    ghost use Rattle.owner_runs.specs.Lone.{contents_of};

    ghost Value = { Contents (Mode × Span) };

    ghost view = { λ a. contents_of a.place };

    ghost invariant = { λ a. AreOrdered (contents_of a.place).items };
}

impl LoneRun {
    /// No run, and no room.
    pub(crate) fn nothing() -> LoneRun
        ensures items { result.items ≡ [] }
        ensures room { result.room ≡ 0 }
    {
        LoneRun {
            place: Place::Nothing,
        }
    }

    /// One run, and no room.
    pub(crate) fn of(span: Span, mode: Mode) -> LoneRun
        requires { IsByteRange span }
        ensures items { result.items ≡ (mode, span) ∷ [] }
        ensures room { result.room ≡ 0 }
    {
        LoneRun {
            place: Place::Run((mode, span)),
        }
    }

    /// For how many further sets there is room.
    pub(crate) fn room(&self) -> usize
        ensures { result ≡ self.now.room }
    {
        match self.place {
            Place::Nothing | Place::Run(_) => 0,
            Place::Held => 1,
        }
    }

    /// The run, if there is one, as a list.
    pub(crate) fn runs(&self) -> &[(Mode, Span)]
        ensures items { result.now ≡ self.now.items }
        ensures runs { AreRuns (mode_in self.now.items) result.now }
        ensures ranges { All (λ run. IsByteRange run.1) result.now }
    {
        match &self.place {
            Place::Nothing | Place::Held => &[],
            Place::Run(run) => slice::from_ref(run),
        }
    }

    /// The run, if there is one, by itself.
    pub(crate) fn run(&self) -> Option<(Mode, Span)>
        ensures some { IfSome result (λ run. (self.now.items ≡ run ∷ []) × (self.now.room ≡ 0) × IsByteRange run.1) }
        ensures none { IfNone result (self.now.items ≡ []) }
    {
        match self.place {
            Place::Nothing | Place::Held => None,
            Place::Run(run) => Some(run),
        }
    }

    /// Holds room for so many sets in all, where there is place for it; else it says no, and all is as it was.
    pub(crate) fn hold(&mut self, sets: usize) -> bool
        ensures items { self.new.items ≡ self.old.items }
        ensures kept { self.old.room ≤ self.new.room }
        ensures yes { IsTrue result → sets ≤ self.new.room }
        ensures no { IsFalse result → (self.old.room < sets) × (self.new.room ≡ self.old.room) }
    {
        match self.place {
            Place::Nothing if sets == 1 => {
                self.place = Place::Held;
                true
            }
            _ => sets <= self.room(),
        }
    }

    /// The mode of the byte, and the run on which it lies; `None` where the byte has no mode.
    pub(crate) fn run_at(&self, byte: u64) -> Option<(Mode, Span)>
        ensures run { IfSome result (λ run. IsRun (mode_in self.now.items) byte run.0 run.1) }
        ensures range { IfSome result (λ run. IsByteRange run.1) }
        ensures none { IfNone result (mode_in self.now.items byte ≡ None) }
    {
        let run = self.run()?;
        if byte < run.1.first || run.1.last < byte {
            return None;
        }
        Some(run)
    }

    /// The least byte of the span whose mode conflicts with a lock of the mode `against` by another owner, and `None`
    /// where no byte does.
    pub(crate) fn first_hit(&self, span: Span, against: Mode) -> Option<u64>
        requires { IsByteRange span }
        ensures hit { IfSome result (IsFirstHit (mode_in self.now.items) span against) }
        ensures none { IfNone result ((byte : ℕ) → Covers span byte → ¬ HeldConflicts (mode_in self.now.items byte) against) }
    {
        let (mode, run) = self.run()?;
        if !mode.conflicts_with(against) || !overlap(run, span) {
            return None;
        }
        Some(run.first.max(span.first))
    }

    /// Sets the mode on just the bytes of the span, or removes it where `mode` is `None`, where what comes of it has place here and
    /// the room stays; else it says no, and all is as it was.
    pub(crate) fn set(&mut self, span: Span, mode: Option<Mode>) -> bool
        requires { IsByteRange span }
        ensures yes { IsTrue result → SetsMode (mode_in self.old.items) (mode_in self.new.items) span mode }
        ensures room { self.new.room ≡ self.old.room }
        ensures unlock { mode ≡ None → (¬ SplitsRun (mode_in self.old.items) span) → IsTrue result }
        ensures again { (wanted : Mode) → mode ≡ Some wanted → IsConstant (mode_in self.old.items) span wanted → IsTrue result }
        ensures no { IsFalse result → self.new.items ≡ self.old.items }
    {
        match mode {
            Some(mode) => self.lock(span, mode),
            None => self.unlock(span),
        }
    }

    /// Sets the mode as [`LoneRun::set`] does, in the room that was held, and uses it up.
    pub(crate) fn set_reserved(&mut self, span: Span, mode: Option<Mode>)
        requires span { IsByteRange span }
        requires room { 1 ≤ self.old.room }
        ensures modes { SetsMode (mode_in self.old.items) (mode_in self.new.items) span mode }
        ensures room { self.old.room ≤ self.new.room + 1 }
    {
        if let Some(mode) = mode {
            self.place = Place::Run((mode, span));
        }
    }

    /// Sets the mode on just the bytes of the span, where one run without room comes of it.
    fn lock(&mut self, span: Span, mode: Mode) -> bool
        requires { IsByteRange span }
        ensures yes { IsTrue result → IsSetOn (mode_in self.old.items) (mode_in self.new.items) span (Some mode) }
        ensures room { self.new.room ≡ self.old.room }
        ensures again { IsConstant (mode_in self.old.items) span mode → IsTrue result }
        ensures no { IsFalse result → self.new.items ≡ self.old.items }
    {
        match self.place {
            Place::Held => return false,
            Place::Nothing => self.place = Place::Run((mode, span)),
            Place::Run((held, run)) => {
                let Some(joined) = joined(held, run, mode, span) else {
                    return false;
                };
                self.place = Place::Run((mode, joined));
            }
        }
        true
    }

    /// Removes the mode of just the bytes of the span, where that splits no run.
    fn unlock(&mut self, span: Span) -> bool
        requires { IsByteRange span }
        ensures yes { IsTrue result → IsSetOn (mode_in self.old.items) (mode_in self.new.items) span None }
        ensures room { self.new.room ≡ self.old.room }
        ensures whole { (¬ SplitsRun (mode_in self.old.items) span) → IsTrue result }
        ensures no { IsFalse result → self.new.items ≡ self.old.items }
    {
        let Some((mode, run)) = self.run() else {
            return true;
        };
        if !overlap(run, span) {
            return true;
        }
        let Some(left) = left_of(run, span) else {
            return false;
        };
        self.place = match left {
            Some(left) => Place::Run((mode, left)),
            None => Place::Nothing,
        };
        true
    }

    /// Removes the mode of each byte; the room stays.
    pub(crate) fn clear(&mut self)
        ensures modes { (byte : ℕ) → mode_in self.new.items byte ≡ None }
        ensures room { self.new.room ≡ self.old.room }
    {
        if self.run().is_some() {
            self.place = Place::Nothing;
        }
    }
}

/// Whether the two share a byte.
fn overlap(run: Span, span: Span) -> bool
    ensures { IsTrue result ↔ (run.first ≤ span.last) × (span.first ≤ run.last) }
{
    run.first <= span.last && span.first <= run.last
}

/// The range of the run and the span together, where one run of the mode comes of both: the span covers the run, or the run is of
/// the mode too and touches it.
fn joined(held: Mode, run: Span, mode: Mode, span: Span) -> Option<Span>
    requires run { IsByteRange run }
    requires span { IsByteRange span }
    ensures range { IfSome result IsByteRange }
    ensures inside { IfSome result (λ all. (byte : ℕ) → Covers span byte → Covers all byte) }
    ensures mode { IfSome result (λ all. (byte : ℕ) → Covers all byte → (¬ Covers span byte) → Covers run byte × (held ≡ mode)) }
    ensures outside { IfSome result (λ all. (byte : ℕ) → (¬ Covers all byte) → ¬ Covers run byte) }
    ensures none { IfNone result (¬ ((held ≡ mode) × (run.first ≤ span.first) × (span.last ≤ run.last))) }
{
    if span.first <= run.first && run.last <= span.last {
        return Some(span);
    }
    if held != mode || span.last + 1 < run.first || run.last + 1 < span.first {
        return None;
    }
    Some(Span {
        first: run.first.min(span.first),
        last: run.last.max(span.last),
    })
}

/// What an unlock of the span, which shares a byte with the run, leaves of that, if anything; `None` where it splits the run.
fn left_of(run: Span, span: Span) -> Option<Option<Span>>
    requires run { IsByteRange run }
    requires span { IsByteRange span }
    requires overlap { (run.first ≤ span.last) × (span.first ≤ run.last) }
    ensures some { IfSome result (IsLeftOf run span) }
    ensures splits { IfNone result ((run.first < span.first) × (span.last < run.last)) }
{
    match (run.first < span.first, span.last < run.last) {
        (true, true) => None,
        (true, false) => Some(Some(Span {
            first: run.first,
            last: span.first - 1,
        })),
        (false, true) => Some(Some(Span {
            first: span.last + 1,
            last: run.last,
        })),
        (false, false) => Some(None),
    }
}
