//! The runs of all owners of a file together, where there are many owners.
ghost use Rattle.std.specs.Prelude.{ℕ, ◌≡◌, ◌≢◌, ◌&&◌, ◌||◌, Bool, true, not, IsTrue, IfSome, None, Some, List, All};
ghost use Rattle.std.specs.List.{find};
ghost use Rattle.owner_runs.specs.declared.owner_runs.OwnerRuns.{OwnerRuns};
ghost use Rattle.range_core.specs.Ranges.{Covers, IsByteRange, IsConstant, IsRun};
ghost use Rattle.owner_runs.specs.Lists.{modes_of};
ghost use Rattle.interval_index.specs.declared.Run.{Run};
ghost use Rattle.interval_index.specs.Standing.{AreRunsOf, HolderModes};
ghost use Rattle.interval_index.specs.Tests.{has_key, with_run, without};
ghost use Rattle.lock_book.specs.declared.Owner.{Owner};
ghost use Rattle.lock_book.specs.Conflicts.{ByteModes};
ghost use Rattle.lock_book.specs.Indexing.{AreIndexed, AreRunsWhere, HasJust, HasNoneOf, IsKeptAs, IsKeptOutside, IsKeptWithout, IsLeftIn, as_holder, holder_modes, is_listed, modes_among, run_by, without_left};

use super::lists::OwnerLists;
use crate::Owner;
use interval_index::{Holder, Run, RunIndex};
use owner_runs::{OwnerRuns, Runs, owners_stand_for_runs};
use range_core::{Mode, Span};
use std::alloc::Global;

/// Beyond so many owners a file has an index. It goes where no more are left, with few runs.
const FEW_OWNERS: usize = 8;

/// With so many runs, and few owners, an index goes: were it dropped when owners go, a few who come and go would make it
/// each time.
const FEW_RUNS: u64 = 4;

/// For how many more runs an index has room: for so few that one of some dozens is still a list.
const SPARE_RUNS: u64 = 32;

/// The runs of all owners of a file, or none: it is a help and no more, and where its memory is refused there is none.
///
/// Almost all files have few owners: the index of many is in a box, so that a file without one takes little.
#[derive(Drop)]
pub struct OwnersIndex {
    runs: Option<Box<RunIndex>>,
}

impl OwnersIndex {
    /// No index. It takes no memory.
    pub fn none() -> OwnersIndex
        ensures { result.runs ≡ None }
    {
        OwnersIndex { runs: None }
    }

    /// The index, if there is one: where it keeps the runs of all lists, it tells what each owner has.
    pub fn get(&self) -> Option<&RunIndex>
        ensures kept { (lists : List (Owner × OwnerRuns)) → AreIndexed self.now lists
            → IfSome result (λ index. AreRunsWhere (holder_modes (modes_among lists)) (λ run. true) index.now.runs) }
        ensures told { (lists : List (Owner × OwnerRuns)) → AreIndexed self.now lists
            → IfSome result (λ index. AreRunsOf (holder_modes (modes_among lists)) index.now.runs) }
    {
        // A byte that has a mode lies in some largest range.
        owners_stand_for_runs();
        self.runs.as_deref()
    }

    /// Readies the index for one more set: makes it where there are many owners and none, drops it where few are left with few
    /// runs, and holds room.
    pub fn prepare(&mut self, alloc: Global, owners: &OwnerLists)
        requires { AreIndexed self.old owners.now }
        ensures { AreIndexed self.new owners.now }
    {
        if !self.is_wanted(owners) {
            self.runs = None;
            return;
        }
        if let Some(index) = &mut self.runs {
            // Where that fails there is still the room that is left.
            let _ = index.reserve(SPARE_RUNS);
            return;
        }
        self.runs = index_of(alloc, owners);
    }

    /// Whether there are so many owners, or runs in the index, that there is to be one.
    fn is_wanted(&self, owners: &OwnerLists) -> bool {
        self.runs
            .as_deref()
            .is_some_and(|index| index.len() > FEW_RUNS)
            || owners.has_more_than(FEW_OWNERS)
    }

    /// Whether there is an index, of which a set leaves all runs as they are, since the list has the mode on each byte of the span already.
    pub fn stays(&self, list: &OwnerRuns, span: Span, mode: Option<Mode>) -> bool
        requires { IsByteRange span }
        ensures same { IsTrue result → (byte : ℕ) → Covers span byte → modes_of list.now byte ≡ mode }
        ensures told { (wanted : Mode) → mode ≡ Some wanted → self.now.runs ≢ None → IsConstant (modes_of list.now) span wanted → IsTrue result }
    {
        match mode {
            Some(wanted) => self.runs.is_some() && list.has_already(span, wanted),
            None => false,
        }
    }

    /// Takes out the runs of the owner that share a byte with the span or lie right beside it, but for the first, where another
    /// may be put in its place ([`OwnersIndex::put_in`]): its first byte is told. It takes no memory.
    pub fn take_out(&mut self, owner: Owner, list: &OwnerRuns, span: Span) -> Option<u64>
        requires { IsByteRange span }
        ensures kept { (modes : ByteModes) → ((byte : ℕ) → modes owner byte ≡ modes_of list.now byte) → IsKeptAs self.old modes
            → IsKeptOutside self.new modes owner span result }
        ensures left { (modes : ByteModes) → ((byte : ℕ) → modes owner byte ≡ modes_of list.now byte) → IsKeptAs self.old modes
            → IsLeftIn self.new owner result }
    {
        let Some(index) = &mut self.runs else {
            return None;
        };
        let mut runs = list.touching(span);
        let Some((_, first)) = runs.next() else {
            return None;
        };
        take_runs(index.as_mut(), owner, runs);
        Some(first.first)
    }

    /// Takes out all runs of the owner. It takes no memory.
    pub fn take_all(&mut self, owner: Owner, list: &OwnerRuns)
        ensures { (modes : ByteModes) → ((byte : ℕ) → modes owner byte ≡ modes_of list.now byte) → IsKeptAs self.old modes
            → IsKeptWithout self.new modes owner }
    {
        if let Some(index) = &mut self.runs {
            take_runs(index.as_mut(), owner, list.runs());
        }
    }

    /// Puts in the runs of the owner that share a byte with the span or lie right beside it, in room that is held; without
    /// that room there is no index any more. One that was left there goes. It takes no memory.
    pub fn put_in(&mut self, owner: Owner, list: &OwnerRuns, span: Span, left: Option<u64>)
        requires span { IsByteRange span }
        requires left { IsLeftIn self.old owner left }
        ensures { (modes : ByteModes) → ((byte : ℕ) → modes owner byte ≡ modes_of list.now byte) → IsKeptOutside self.old modes owner span left
            → IsKeptAs self.new modes }
    {
        let Some(index) = &mut self.runs else {
            return;
        };
        let index = index.as_mut();
        let mut runs = list.touching(span);
        let Some((mode, first)) = runs.next() else {
            take_left(index, owner, left);
            return;
        };
        if !put_first(index, owner, mode, first, left) || !put_runs(index, owner, runs) {
            self.runs = None;
        }
    }

    /// Puts in the only run of an owner of whom there is none, in room that is held; without that room there is no index any
    /// more. It takes no memory.
    pub fn put_only(&mut self, owner: Owner, mode: Mode, span: Span)
        requires span { IsByteRange span }
        requires new { HasNoneOf self.old owner }
        ensures { (modes : ByteModes) → HasJust (modes owner) mode span → IsKeptOutside self.old modes owner span None → IsKeptAs self.new modes }
    {
        let Some(index) = &mut self.runs else {
            return;
        };
        let index = index.as_mut();
        if index.room() == 0 {
            self.runs = None;
            return;
        }
        index.add(run_of(owner, mode, span));
    }
}

/// Takes out the run of the owner that was left at a byte, if one was.
fn take_left(index: &mut RunIndex, owner: Owner, left: Option<u64>)
    ensures { index.new.runs ≡ without_left (as_holder owner) left index.old.runs }
{
    if let Some(byte) = left {
        index.take(byte, holder(owner));
    }
}

/// Puts in this run of the owner, in the place of the one that was left where that begins there too, or else in room that is held,
/// and tells whether there was room.
fn put_first(index: &mut RunIndex, owner: Owner, mode: Mode, span: Span, left: Option<u64>) -> bool
    requires span { IsByteRange span }
    requires left { IfSome left (λ byte. find (has_key byte (as_holder owner)) index.old.runs ≢ None) }
    ensures { IsTrue result → index.new.runs
        ≡ with_run (run_by owner mode span) (without span.first (as_holder owner) (without_left (as_holder owner) left index.old.runs)) }
{
    if left == Some(span.first) {
        index.replace(run_of(owner, mode, span));
        return true;
    }
    take_left(index, owner, left);
    put_run(index, owner, mode, span)
}

/// Takes out the runs of the owner that begin where these do.
fn take_runs(index: &mut RunIndex, owner: Owner, runs: Runs<'_>)
    ensures { (modes : HolderModes) (passes : Run → Bool) → AreRunsWhere modes passes index.old.runs
        → AreRunsWhere modes (λ run. passes run && not (is_listed (as_holder owner) runs.entry run)) index.new.runs }
{
    for (_, span) in runs {
        index.take(span.first, holder(owner));
    }
}

/// Puts in these runs of the owner, in room that is held, and tells whether there was room.
fn put_runs(index: &mut RunIndex, owner: Owner, runs: Runs<'_>) -> bool
    requires { All (λ run. IsByteRange run.1) runs }
    ensures { IsTrue result → (modes : HolderModes) (passes : Run → Bool)
        → All (λ run. IsRun (modes (as_holder owner)) run.1.first run.0 run.1) runs.entry → AreRunsWhere modes passes index.old.runs
        → AreRunsWhere modes (λ run. passes run || is_listed (as_holder owner) runs.entry run) index.new.runs }
{
    for (mode, span) in runs {
        if !put_run(index, owner, mode, span) {
            return false;
        }
    }
    true
}

/// Puts in this run of the owner, in room that is held, and tells whether there was room.
fn put_run(index: &mut RunIndex, owner: Owner, mode: Mode, span: Span) -> bool
    requires { IsByteRange span }
    ensures { IsTrue result → index.new.runs ≡ with_run (run_by owner mode span) (without span.first (as_holder owner) index.old.runs) }
{
    if index.room() == 0 {
        return false;
    }
    index.put(run_of(owner, mode, span));
    true
}

/// Puts in these runs of the owner, and tells whether there was memory.
fn add_runs(index: &mut RunIndex, owner: Owner, runs: Runs<'_>) -> bool
    requires { All (λ run. IsByteRange run.1) runs }
    ensures { IsTrue result → (modes : HolderModes) (passes : Run → Bool)
        → All (λ run. IsRun (modes (as_holder owner)) run.1.first run.0 run.1) runs.entry → AreRunsWhere modes passes index.old.runs
        → AreRunsWhere modes (λ run. passes run || is_listed (as_holder owner) runs.entry run) index.new.runs }
{
    for (mode, span) in runs {
        if index.reserve(1).is_err() {
            return false;
        }
        index.put(run_of(owner, mode, span));
    }
    true
}

/// An index of the runs of these lists, with room for more; none where memory is refused.
fn index_of(alloc: Global, owners: &OwnerLists) -> Option<Box<RunIndex>>
    ensures { IfSome result (λ index. AreRunsWhere (holder_modes (modes_among owners.now)) (λ run. true) index.value.runs) }
{
    let mut index = RunIndex::new(alloc);
    for (owner, list) in owners.iter() {
        if !add_runs(&mut index, *owner, list.runs()) {
            return None;
        }
    }
    // Where that fails there is still the room that is left.
    let _ = index.reserve(SPARE_RUNS);
    Box::new(alloc, index).ok()
}

/// The run of an owner.
fn run_of(owner: Owner, mode: Mode, span: Span) -> Run
    ensures { result ≡ run_by owner mode span }
{
    let holder = holder(owner);
    Run {
        span,
        number: holder.number,
        class: holder.class,
        mode,
    }
}

/// The owner as the index orders it: the processes come before the descriptions.
pub fn holder(owner: Owner) -> Holder
    ensures { result ≡ as_holder owner }
{
    match owner {
        Owner::Process(number) => Holder {
            class: 0,
            number: u64::from(number),
        },
        Owner::Description(number) => Holder { class: 1, number },
    }
}

/// The owner that the index orders so, if there is one.
pub fn owner_of(holder: Holder) -> Option<Owner>
    ensures { IfSome result (λ owner. as_holder owner ≡ holder) }
{
    match holder.class {
        0 => Some(Owner::Process(u8::try_from(holder.number).ok()?)),
        1 => Some(Owner::Description(holder.number)),
        _ => None,
    }
}
