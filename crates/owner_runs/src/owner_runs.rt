//! A mode for each byte of a file, as a list of runs or as a tree of them.
ghost use Rattle.std.specs.Prelude.{ℕ, ◌≡◌, ◌≢◌, ◌+◌, ◌<◌, ◌≤◌, ◌↔◌, All, AllPairs, List, None, Some, IfNone, IfOk, IfSome, IsFalse, IsOk, IsTrue, OnErr, OnOk, length};
ghost use Rattle.range_core.specs.declared.Mode.{Mode};
ghost use Rattle.range_core.specs.declared.Span.{Span};
ghost use Rattle.range_core.specs.Changes.{mode_in, SameList, SetsMode, modes_of as list_modes_of, room_of as list_room_of};
ghost use Rattle.range_core.specs.Ranges.{AreRuns, Covers, HeldConflicts, IsByteRange, IsConstant, IsFirstHit, IsRun, Modes, SplitsRun};
ghost use Rattle.owner_runs.specs.Lists.{AreTouched, IsExtent, modes_of, room_of, SameRuns, StandsFor};
ghost use Rattle.owner_runs.specs.Trees.{AreRunsTouching};

use crate::lone_run::LoneRun;
use crate::run_tree::RunTree;
use crate::runs::Runs;
use crate::set_tree::SetTree;
use range_core::{Memory, Mode, RangeList, Span};
use std::alloc::Global;

/// How many runs a list has at most that isn't made a tree by the next set or reservation.
const FEW_RUNS: usize = 64;

/// The modes of one lock owner on the bytes of one file, seen as a mode, or none, for each byte.
///
/// It may hold room for further sets, which then can't fail. One run, or room for one set and no run, takes no block of memory,
/// so that of many owners with a lock each every one takes little. Beyond 64 runs they are moved into a tree, where there is memory
/// for it, by the next set that may want memory anyway: of a mode, an unlock that splits a run, or a reservation. So neither
/// another unlock nor a set in room that was held asks for any. The tree stays when runs go, since an unlock that made a list
/// of it would want memory; [`OwnerRuns::clear`] makes a list again, which has no run and so wants none.
#[derive(Drop)]
pub struct OwnerRuns {
    kept: Kept,
    alloc: Global,
}

/// The runs, by rising bytes: the largest ranges that have one mode throughout. A list and a tree are in a box, so that one run
/// takes no more than its own room.
#[derive(Drop)]
enum Kept {
    Lone(LoneRun),
    Few(Box<RangeList>),
    Many(Box<SetTree>),
}

/// Runs as they stand.
#[derive(Drop)]
enum Standing<'a> {
    Listed(&'a [(Mode, Span)]),
    InTree(&'a RunTree),
}

#[tactic(auto, unfolding(crate::specs::Lists::modes_of, crate::specs::Lists::room_of))]
impl OwnerRuns {
    /// No mode on any byte, and no room. It takes no memory.
    pub fn new(alloc: Global) -> OwnerRuns
        ensures modes { (byte : ℕ) → modes_of result byte ≡ None }
        ensures room { room_of result ≡ 0 }
    {
        OwnerRuns {
            kept: Kept::Lone(LoneRun::nothing()),
            alloc,
        }
    }

    /// The mode on just the bytes of the span, and no room. It takes no memory.
    pub fn of(alloc: Global, span: Span, mode: Mode) -> OwnerRuns
        requires { IsByteRange span }
        ensures modes { SetsMode (λ byte. None) (modes_of result) span (Some mode) }
        ensures room { room_of result ≡ 0 }
    {
        OwnerRuns {
            kept: Kept::Lone(LoneRun::of(span, mode)),
            alloc,
        }
    }

    /// Sets the mode on just the bytes of the span, or removes it where `mode` is `None`; the room that is held stays
    /// (POSIX.1-2017 fcntl, `F_SETLK`: the new lock replaces the owner's old ones on these bytes).
    ///
    /// `Memory`, which never comes where an unlock splits no run or a lock is there already, leaves the runs as they were.
    pub fn set(&mut self, span: Span, mode: Option<Mode>) -> Result<(), Memory>
        requires { IsByteRange span }
        ensures ok { OnOk result (SetsMode (modes_of self.old) (modes_of self.new) span mode) }
        ensures room { OnOk result (room_of self.old ≤ room_of self.new) }
        ensures unlock { mode ≡ None → (¬ SplitsRun (modes_of self.old) span) → IsOk result }
        ensures again { (wanted : Mode) → mode ≡ Some wanted → IsConstant (modes_of self.old) span wanted → IsOk result }
        ensures err { OnErr result (SameRuns self.old self.new) }
    {
        self.ready(span, mode);
        match &mut self.kept {
            Kept::Lone(lone) => {
                if !lone.set(span, mode) {
                    self.kept = Kept::Few(list_with(self.alloc, lone, span, mode)?);
                }
                Ok(())
            }
            Kept::Few(list) => set_listed(list.as_mut(), span, mode),
            Kept::Many(tree) => tree.set(span, mode),
        }
    }

    /// Whether each byte of the span has the mode.
    pub fn has_already(&self, span: Span, mode: Mode) -> bool
        requires { IsByteRange span }
        ensures { IsTrue result ↔ IsConstant (modes_of self.now) span mode }
    {
        is_covered(self.run_at(span.first), span, mode)
    }

    /// Moves many runs into a tree before a set that may want memory anyway, where there is some.
    fn ready(&mut self, span: Span, mode: Option<Mode>)
        ensures { SameRuns self.old self.new }
    {
        if mode.is_some() || self.is_long_and_split_by(span) {
            self.plant();
        }
    }

    /// Whether a list of many runs has one that reaches beyond the span at both ends.
    fn is_long_and_split_by(&self, span: Span) -> bool {
        let Kept::Few(list) = &self.kept else {
            return false;
        };
        if list.runs().len() <= FEW_RUNS {
            return false;
        }
        match list.run_at(span.first) {
            Some((_, run)) => run.first < span.first && span.last < run.last,
            None => false,
        }
    }

    /// Moves the runs into a tree, where they are many and there is memory.
    fn plant(&mut self)
        ensures { SameRuns self.old self.new }
    {
        let Kept::Few(list) = &self.kept else {
            return;
        };
        let Some(tree) = tree_of(self.alloc, list) else {
            return;
        };
        if let Ok(tree) = Box::new(self.alloc, tree) {
            self.kept = Kept::Many(tree);
        }
    }

    /// Holds room for so many further sets in all, counting the room already there.
    ///
    /// `Memory`, which never comes where that room is there, leaves the runs as they were.
    pub fn reserve(&mut self, sets: usize) -> Result<(), Memory>
        ensures modes { (byte : ℕ) → modes_of self.new byte ≡ modes_of self.old byte }
        ensures kept { room_of self.old ≤ room_of self.new }
        ensures ok { OnOk result (sets ≤ room_of self.new) }
        ensures there { sets ≤ room_of self.old → IsOk result }
        ensures err { OnErr result (SameRuns self.old self.new) }
    {
        self.plant();
        match &mut self.kept {
            Kept::Lone(lone) => {
                if !lone.hold(sets) {
                    self.kept = Kept::Few(list_for(self.alloc, lone, sets)?);
                }
                Ok(())
            }
            Kept::Few(list) => list.reserve(sets),
            Kept::Many(tree) => tree.reserve(sets),
        }
    }

    /// For how many further sets there is room.
    pub fn room(&self) -> usize
        ensures { result ≡ room_of self.now }
    {
        match &self.kept {
            Kept::Lone(lone) => lone.room(),
            Kept::Few(list) => list.room(),
            Kept::Many(tree) => tree.room,
        }
    }

    /// Sets the mode as [`OwnerRuns::set`] does, in room that was held: it takes no memory and uses at most one place up.
    pub fn set_reserved(&mut self, span: Span, mode: Option<Mode>)
        requires span { IsByteRange span }
        requires room { 1 ≤ room_of self.old }
        ensures modes { SetsMode (modes_of self.old) (modes_of self.new) span mode }
        ensures room { room_of self.old ≤ room_of self.new + 1 }
    {
        match &mut self.kept {
            Kept::Lone(lone) => lone.set_reserved(span, mode),
            Kept::Few(list) => list.set_reserved(span, mode),
            Kept::Many(tree) => tree.set_reserved(span, mode),
        }
    }

    /// Removes the mode of each byte; the room that is held stays. It takes no memory.
    pub fn clear(&mut self)
        ensures modes { (byte : ℕ) → modes_of self.new byte ≡ None }
        ensures room { room_of self.new ≡ room_of self.old }
    {
        if self.room() == 0 {
            self.kept = Kept::Lone(LoneRun::nothing());
            return;
        }
        match &mut self.kept {
            Kept::Lone(lone) => lone.clear(),
            Kept::Few(list) => list.clear(),
            Kept::Many(tree) => tree.clear(),
        }
    }

    /// Whether no byte has a mode.
    pub fn is_empty(&self) -> bool
        ensures free { IsTrue result ↔ ((byte : ℕ) → modes_of self.now byte ≡ None) }
        ensures held { IsFalse result → (byte : ℕ) × (mode : Mode) × (modes_of self.now byte ≡ Some mode) }
    {
        match self.standing() {
            Standing::Listed(runs) => runs.is_empty(),
            Standing::InTree(tree) => tree.is_empty(),
        }
    }

    /// How many runs there are.
    pub fn len(&self) -> usize
        ensures { (runs : List (Mode × Span)) × AreRuns (modes_of self.now) runs × All (λ run. IsByteRange run.1) runs × (result ≡ length runs) }
    {
        match self.standing() {
            Standing::Listed(runs) => runs.len(),
            Standing::InTree(tree) => tree.count() as usize,
        }
    }

    /// The mode of one byte.
    pub fn mode_at(&self, byte: u64) -> Option<Mode>
        ensures { result ≡ modes_of self.now byte }
    {
        let (mode, _) = self.run_at(byte)?;
        Some(mode)
    }

    /// The least byte of the span whose mode conflicts with a lock of the mode `against` by another owner, and `None`
    /// where no byte does.
    pub fn first_hit(&self, span: Span, against: Mode) -> Option<u64>
        requires { IsByteRange span }
        ensures hit { IfSome result (IsFirstHit (modes_of self.now) span against) }
        ensures none { IfNone result ((byte : ℕ) → Covers span byte → ¬ HeldConflicts (modes_of self.now byte) against) }
    {
        match &self.kept {
            Kept::Lone(lone) => lone.first_hit(span, against),
            Kept::Few(list) => list.first_hit(span, against),
            Kept::Many(tree) => tree.runs.first_hit(span, against),
        }
    }

    /// The mode of the byte, and the largest range round it on all of which there is this one mode; `None` where the byte
    /// has no mode (fcntl_locking(2): adjacent ranges of one mode are one lock).
    pub fn run_at(&self, byte: u64) -> Option<(Mode, Span)>
        ensures run { IfSome result (λ run. IsRun (modes_of self.now) byte run.0 run.1) }
        ensures range { IfSome result (λ run. IsByteRange run.1) }
        ensures none { IfNone result (modes_of self.now byte ≡ None) }
    {
        match &self.kept {
            Kept::Lone(lone) => lone.run_at(byte),
            Kept::Few(list) => list.run_at(byte),
            Kept::Many(tree) => tree.runs.run_at(byte),
        }
    }

    /// From the first byte that has a mode to the last; `None` where no byte has one.
    pub fn extent(&self) -> Option<Span>
        ensures some { IfSome result (λ span. (byte : ℕ) → (¬ Covers span byte) → modes_of self.now byte ≡ None) }
        ensures ends { IfSome result (λ span. (modes_of self.now span.first ≢ None) × (modes_of self.now span.last ≢ None)) }
        ensures range { IfSome result IsByteRange }
        ensures none { IfNone result ((byte : ℕ) → modes_of self.now byte ≡ None) }
    {
        match self.standing() {
            Standing::Listed(runs) => extent_of(runs),
            Standing::InTree(tree) => tree.extent(),
        }
    }

    /// All the runs, by rising bytes: each the largest range round its bytes on all of which there is one mode.
    pub fn runs(&self) -> Runs<'_>
        ensures runs { AreRuns (modes_of self.now) result }
        ensures ranges { All (λ run. IsByteRange run.1) result }
    {
        match self.standing() {
            Standing::Listed(runs) => Runs::of_list(runs),
            Standing::InTree(tree) => tree.runs(),
        }
    }

    /// The runs that share a byte with the span or lie right beside it, by rising bytes.
    pub fn touching(&self, span: Span) -> Runs<'_>
        requires { IsByteRange span }
        ensures runs { AreRunsTouching (modes_of self.now) span result }
        ensures ranges { All (λ run. IsByteRange run.1) result }
    {
        match self.standing() {
            Standing::Listed(runs) => Runs::of_list(touching(runs, span)),
            Standing::InTree(tree) => tree.touching(span),
        }
    }

    /// The runs as they stand, side by side or in a tree.
    fn standing(&self) -> Standing<'_>
        ensures { StandsFor (modes_of self.now) result }
    {
        match &self.kept {
            Kept::Lone(lone) => Standing::Listed(lone.runs()),
            Kept::Few(list) => Standing::Listed(list.runs()),
            Kept::Many(tree) => Standing::InTree(&tree.runs),
        }
    }
}

/// Whether the run of the span's first byte, where that has a mode, is of the mode and reaches over all of it.
fn is_covered(run: Option<(Mode, Span)>, span: Span, mode: Mode) -> bool
    requires { IsByteRange span }
    ensures { (modes : Modes) → IfSome run (λ run. IsRun modes span.first run.0 run.1) → IfNone run (modes span.first ≡ None)
        → IsTrue result ↔ IsConstant modes span mode }
{
    match run {
        Some((held, run)) => held == mode && span.last <= run.last,
        None => false,
    }
}

/// Sets the mode in a list as [`RangeList::set`] does; a lock that is there already changes nothing.
fn set_listed(list: &mut RangeList, span: Span, mode: Option<Mode>) -> Result<(), Memory>
    requires { IsByteRange span }
    ensures ok { OnOk result (SetsMode (list_modes_of list.old) (list_modes_of list.new) span mode) }
    ensures room { OnOk result (list_room_of list.old ≤ list_room_of list.new) }
    ensures unlock { mode ≡ None → (¬ SplitsRun (list_modes_of list.old) span) → IsOk result }
    ensures again { (wanted : Mode) → mode ≡ Some wanted → IsConstant (list_modes_of list.old) span wanted → IsOk result }
    ensures err { OnErr result (SameList list.old list.new) }
{
    if let Some(wanted) = mode {
        if is_covered(list.run_at(span.first), span, wanted) {
            return Ok(());
        }
    }
    list.set(span, mode)
}

/// A list of the run, if there is one, and with its room, in which the mode is set.
fn list_with(
    alloc: Global,
    lone: &LoneRun,
    span: Span,
    mode: Option<Mode>,
) -> Result<Box<RangeList>, Memory>
    requires { IsByteRange span }
    ensures modes { IfOk result (λ list. SetsMode (mode_in lone.now.items) (list_modes_of list.value) span mode) }
    ensures room { IfOk result (λ list. lone.now.room ≤ list_room_of list.value) }
{
    let mut list = list_for(alloc, lone, lone.room())?;
    list.set(span, mode)?;
    Ok(list)
}

/// A list of the run, if there is one, with room for so many sets.
fn list_for(alloc: Global, lone: &LoneRun, sets: usize) -> Result<Box<RangeList>, Memory>
    ensures modes { IfOk result (λ list. (byte : ℕ) → list_modes_of list.value byte ≡ mode_in lone.now.items byte) }
    ensures room { IfOk result (λ list. sets ≤ list_room_of list.value) }
{
    let mut list = RangeList::new(alloc);
    if let Some((mode, span)) = lone.run() {
        list.set(span, Some(mode))?;
    }
    list.reserve(sets)?;
    Ok(Box::new(alloc, list)?)
}

/// A tree of the runs of this list and with its room, where they are many and there is memory.
fn tree_of(alloc: Global, list: &RangeList) -> Option<SetTree>
    ensures modes { IfSome result (λ tree. (byte : ℕ) → mode_in tree.runs.items byte ≡ list_modes_of list.now byte) }
    ensures room { IfSome result (λ tree. tree.room ≡ list_room_of list.now) }
{
    let runs = list.runs();
    if runs.len() <= FEW_RUNS {
        return None;
    }
    SetTree::of_runs(alloc, runs, list.room()).ok()
}

/// From the first byte of the runs to the last; `None` where there is none.
fn extent_of(runs: &[(Mode, Span)]) -> Option<Span>
    requires { All (λ run. IsByteRange run.1) runs.now }
    ensures extent { (modes : Modes) → AreRuns modes runs.now → IfSome result (IsExtent modes) }
    ensures none { (modes : Modes) → AreRuns modes runs.now → IfNone result ((byte : ℕ) → modes byte ≡ None) }
{
    let first = runs.first()?;
    let last = runs.last()?;
    Some(Span {
        first: first.1.first,
        last: last.1.last,
    })
}

/// Those of the runs, which come in order, that share a byte with the span or lie right beside it.
fn touching(runs: &[(Mode, Span)], span: Span) -> &[(Mode, Span)]
    requires span { IsByteRange span }
    requires rising { AllPairs (λ run other. run.1.last < other.1.first) runs.now }
    requires ranges { All (λ run. IsByteRange run.1) runs.now }
    ensures runs { (modes : Modes) → AreRuns modes runs.now → AreRunsTouching modes span result.now }
    ensures ranges { All (λ run. IsByteRange run.1) result.now }
{
    let (start, end) = touched(runs, span);
    &runs[start..end]
}

/// From where to where they stand.
fn touched(runs: &[(Mode, Span)], span: Span) -> (usize, usize)
    requires span { IsByteRange span }
    requires rising { AllPairs (λ run other. run.1.last < other.1.first) runs.now }
    requires ranges { All (λ run. IsByteRange run.1) runs.now }
    ensures { AreTouched runs.now span result.0 result.1 }
{
    let before = span.first.saturating_sub(1);
    let behind = span.last + 1;
    let start = runs.partition_point(|run| run.1.last < before);
    let end = runs.partition_point(|run| run.1.first <= behind);
    (start, end)
}
