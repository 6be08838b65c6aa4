//! A mode for each byte of a file, as a list of runs.
ghost use Rattle.std.specs.Prelude.{ℕ, ◌≡◌, ◌≢◌, ◌+◌, ◌*◌, ◌^◌, ◌≤◌, ◌<◌, length, drop, All, AllPairs, None, Some, IfSome, IfNone, IsOk, IsTrue, OnOk, OnErr};
ghost use Rattle.std.specs.List.Sorted.{IsPartitionPoint};
ghost use Rattle.smallvec.specs.SmallVec.{small_vec_len};
ghost use Rattle.range_core.specs.Ranges.{IsApart, IsByteRange, AreReads};

use crate::memory::doubled;
use crate::replacement::replacement;
use crate::splice::splice;
use crate::{Memory, Mode, Span};
use smallvec::SmallVec;
use std::alloc::Global;

/// The modes of one lock owner on the bytes of one file, seen as a mode, or none, for each byte.
///
/// It may hold room for further sets, which then can't fail.
#[derive(Drop)]
pub struct RangeList {
    /// The runs, by rising bytes: the largest ranges that have one mode throughout.
    runs: SmallVec<(Mode, Span), 2>,
    /// For how many further sets room is held, however much more there is.
    room: usize,
    /// Whether each run is known to be a read lock: then nobody who wants to read needs to look for one in the way.
    only_reads: bool,
    ghost ranges: { All (λ run. IsByteRange run.1) runs.items },
    ghost apart: { AllPairs IsApart runs.items },
    ghost held: { small_vec_len runs + 2 * room ≤ runs.capacity },
    ghost countable: { 2 * room < 2 ^ 64 },
    ghost read: { IsTrue only_reads → AreReads runs.items },
}

#[tactic(auto, unfolding(crate::specs::Changes::modes_of, crate::specs::Changes::room_of))]
impl RangeList {
    ghost use Rattle.range_core.specs.Ranges.{AreRuns, Covers, HeldConflicts, IsFirstHit, IsRun, SplitsRun};
    ghost use Rattle.range_core.specs.Changes.{modes_of, room_of, SameList, SetsMode};
    ghost use Rattle.range_core.specs.Replacing.{AreTouched};

    /// No mode on any byte, and no room. It takes no memory.
    pub fn new(alloc: Global) -> RangeList
        ensures modes { (byte : ℕ) → modes_of result byte ≡ None }
        ensures room { room_of result ≡ 0 }
    {
        RangeList {
            runs: SmallVec::new(alloc),
            room: 0,
            only_reads: true,
        }
    }

    /// Sets the mode on just the bytes of the span, or removes it where `mode` is `None`; the room that is held stays
    /// (POSIX.1-2017 fcntl, `F_SETLK`: the new lock replaces the owner's old ones on these bytes).
    ///
    /// `Memory`, which never comes where an unlock splits no run, leaves the list as it was.
    pub fn set(&mut self, span: Span, mode: Option<Mode>) -> Result<(), Memory>
        requires { IsByteRange span }
        ensures ok { OnOk result (SetsMode (modes_of self.old) (modes_of self.new) span mode) }
        ensures room { OnOk result (room_of self.old ≤ room_of self.new) }
        ensures unlock { mode ≡ None → (¬ SplitsRun (modes_of self.old) span) → IsOk result }
        ensures err { OnErr result (SameList self.old self.new) }
    {
        let (start, end) = self.touched(span);
        let left = replacement(&self.runs.as_slice()[start..end], span, mode);
        self.grow(end - start, left.len())?;
        splice(&mut self.runs, start, end, left.as_slice());
        self.only_reads = stay_reads(self.only_reads, mode);
        Ok(())
    }

    /// Makes room for so many runs in the place of others, two more of them at most; the room that is held stays.
    ///
    /// `Memory`, which never comes where no more runs come than go, leaves the list as it was.
    fn grow(&mut self, go: usize, come: usize) -> Result<(), Memory>
        requires { come ≤ go + 2 }
        ensures runs { self.new.runs.items ≡ self.old.runs.items }
        ensures held { room_of self.new ≡ room_of self.old }
        ensures ok { OnOk result (small_vec_len self.old.runs + 2 * room_of self.old + come ≤ self.new.runs.capacity + go) }
        ensures there { come ≤ go → IsOk result }
        ensures err { OnErr result (SameList self.old self.new) }
    {
        if come > go {
            self.make_places(self.room + 1)?;
        }
        Ok(())
    }

    /// Makes places for so many sets, each of which adds two runs at most: a piece on either side of its own.
    ///
    /// `Memory` leaves the list as it was.
    fn make_places(&mut self, sets: usize) -> Result<(), Memory>
        ensures runs { self.new.runs.items ≡ self.old.runs.items }
        ensures held { room_of self.new ≡ room_of self.old }
        ensures ok { OnOk result (small_vec_len self.old.runs + 2 * sets ≤ self.new.runs.capacity) }
        ensures countable { OnOk result (2 * sets < 2 ^ 64) }
        ensures err { OnErr result (SameList self.old self.new) }
    {
        self.runs.reserve(doubled(sets)?)?;
        Ok(())
    }

    /// Holds room for so many further sets in all, counting the room already there.
    ///
    /// `Memory`, which never comes where that room is there, leaves the list as it was.
    pub fn reserve(&mut self, sets: usize) -> Result<(), Memory>
        ensures modes { (byte : ℕ) → modes_of self.new byte ≡ modes_of self.old byte }
        ensures kept { room_of self.old ≤ room_of self.new }
        ensures ok { OnOk result (sets ≤ room_of self.new) }
        ensures there { sets ≤ room_of self.old → IsOk result }
        ensures err { OnErr result (SameList self.old self.new) }
    {
        if self.room < sets {
            self.make_places(sets)?;
            self.room = sets;
        }
        Ok(())
    }

    /// For how many further sets there is room.
    pub fn room(&self) -> usize
        ensures { result ≡ room_of self.now }
    {
        self.room
    }

    /// Sets the mode as [`RangeList::set`] does, in room that was held: it takes no memory and uses at most one place up.
    pub fn set_reserved(&mut self, span: Span, mode: Option<Mode>)
        requires span { IsByteRange span }
        requires room { 1 ≤ room_of self.old }
        ensures modes { SetsMode (modes_of self.old) (modes_of self.new) span mode }
        ensures room { room_of self.old ≤ room_of self.new + 1 }
    {
        let (start, end) = self.touched(span);
        let put = replacement(&self.runs.as_slice()[start..end], span, mode);
        splice(&mut self.runs, start, end, put.as_slice());
        self.only_reads = stay_reads(self.only_reads, mode);
        self.room -= 1;
    }

    /// Removes the mode of each byte; the room that is held stays. It takes no memory.
    pub fn clear(&mut self)
        ensures modes { (byte : ℕ) → modes_of self.new byte ≡ None }
        ensures room { room_of self.new ≡ room_of self.old }
    {
        self.runs.clear();
        self.only_reads = true;
    }

    /// The mode of one byte.
    pub fn mode_at(&self, byte: u64) -> Option<Mode>
        ensures { result ≡ modes_of self.now byte }
    {
        let (mode, _) = self.run_at(byte)?;
        Some(mode)
    }

    /// The least byte of the span whose mode conflicts with a lock of the mode `against` by another owner, and `None`
    /// where no byte does.
    pub fn first_hit(&self, span: Span, against: Mode) -> Option<u64>
        requires { IsByteRange span }
        ensures hit { IfSome result (IsFirstHit (modes_of self.now) span against) }
        ensures none { IfNone result ((byte : ℕ) → Covers span byte → ¬ HeldConflicts (modes_of self.now byte) against) }
    {
        if self.never_conflicts_with(against) {
            return None;
        }
        let place = self.ending_from(span.first);
        for run in self.from(place) {
            if span.last < run.1.first {
                return None;
            }
            if run.0.conflicts_with(against) {
                return Some(run.1.first.max(span.first));
            }
        }
        None
    }

    /// Whether it is known at once that no byte has a mode that conflicts with a lock of this one by another owner.
    fn never_conflicts_with(&self, against: Mode) -> bool
        ensures { IsTrue result → (byte : ℕ) → ¬ HeldConflicts (modes_of self.now byte) against }
    {
        self.only_reads && against == Mode::Read
    }

    /// The mode of the byte, and the largest range round it on all of which there is this one mode; `None` where the byte
    /// has no mode (fcntl_locking(2): adjacent ranges of one mode are one lock).
    pub fn run_at(&self, byte: u64) -> Option<(Mode, Span)>
        ensures run { IfSome result (λ run. IsRun (modes_of self.now) byte run.0 run.1) }
        ensures range { IfSome result (λ run. IsByteRange run.1) }
        ensures none { IfNone result (modes_of self.now byte ≡ None) }
    {
        match self.runs.get(self.ending_from(byte)) {
            Some(run) if run.1.first <= byte => Some(*run),
            _ => None,
        }
    }

    /// All the runs, by rising bytes: each the largest range round its bytes on all of which there is one mode.
    #[tactic(auto, using(crate::proofs::RunLemmas::AreRuns_in_order), unfolding(crate::specs::Changes::modes_of))]
    pub fn runs(&self) -> &[(Mode, Span)]
        ensures runs { AreRuns (modes_of self.now) result.now }
        ensures ranges { All (λ run. IsByteRange run.1) result.now }
    {
        self.runs.as_slice()
    }

    /// From where to where in the list the runs stand that share a byte with the span or lie right beside it.
    fn touched(&self, span: Span) -> (usize, usize)
        requires { IsByteRange span }
        ensures { AreTouched self.now.runs.items span result.0 result.1 }
    {
        let start = self.ending_from(span.first.saturating_sub(1));
        let end = self.beginning_after(span.last + 1);
        (start, end)
    }

    /// The runs from a place on.
    fn from(&self, place: usize) -> &[(Mode, Span)]
        requires { place ≤ length self.now.runs.items }
        ensures { result.now ≡ drop place self.now.runs.items }
    {
        &self.runs.as_slice()[place..]
    }

    /// How many runs end before the byte.
    fn ending_from(&self, byte: u64) -> usize
        ensures bound { result ≤ length self.now.runs.items }
        ensures parts { IsPartitionPoint (λ run. run.1.last < byte) (λ run. byte ≤ run.1.last) self.now.runs.items result }
    {
        self.runs
            .as_slice()
            .partition_point(|run| run.1.last < byte)
    }

    /// How many runs begin at the byte or before it.
    fn beginning_after(&self, byte: u64) -> usize
        ensures bound { result ≤ length self.now.runs.items }
        ensures parts { IsPartitionPoint (λ run. run.1.first ≤ byte) (λ run. byte < run.1.first) self.now.runs.items result }
    {
        self.runs
            .as_slice()
            .partition_point(|run| run.1.first <= byte)
    }
}

/// Whether runs that are known to be read locks are so still once this mode is set among them.
fn stay_reads(only_reads: bool, mode: Option<Mode>) -> bool
    ensures { IsTrue result → IsTrue only_reads × (mode ≢ Some Mode.Write) }
{
    only_reads && mode != Some(Mode::Write)
}
