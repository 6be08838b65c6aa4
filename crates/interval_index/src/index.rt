//! The runs in order.
ghost use Rattle.std.specs.Prelude.{◌≡◌, ◌≢◌, ◌+◌, ◌<◌, ◌≤◌, ◌↔◌, ◌&&◌, IsTrue, IsFalse, IsOk, OnOk, OnErr, Some, None, IfSome, IfNone, Any, cond, [], length};
ghost use Rattle.std.specs.List.{find};
ghost use Rattle.interval_index.specs.Holders.{holder_of, is_same_holder};
ghost use Rattle.interval_index.specs.Runs.{Blocks};
ghost use Rattle.interval_index.specs.Standing.{AreRunsOf, HolderConflict, HolderModes, IsFirstInTheWay, IsRunThere};
ghost use Rattle.interval_index.specs.Tests.{beginning_by, blocks, has_key, is_after, without, with_run};

use crate::keys::{After, Beyond, Key};
use crate::queries::Reaching;
use crate::reach::Reaches;
use crate::{FirstInTheWay, Holder, Run};
use range_core::{Memory, Mode, Span};
use std::alloc::Global;
use std::marker::Model;
use summary_tree::Tree;

/// The runs of many owners, in the order of their first bytes and then of their owners, at most one of an owner from a
/// byte on; and room for more runs.
///
/// Nothing but [`RunIndex::reserve`] takes memory.
#[derive(Drop)]
pub struct RunIndex {
    runs: Tree<Run, Reaches>,
}

impl Model for RunIndex {
    ghost use Rattle.interval_index.specs.Contents.{RunContents};
    ghost use Rattle.interval_index.specs.Runs.{AreOrdered};

    ghost Value = { RunContents };

    ghost view = { λ a. record { runs = a.runs.items; room = a.runs.room } };

    ghost invariant = { λ a. AreOrdered a.runs.items };
}

impl RunIndex {
    /// No run and no room. It takes no memory.
    pub fn new(alloc: Global) -> RunIndex
        ensures runs { result.runs ≡ [] }
        ensures room { result.room ≡ 0 }
    {
        RunIndex {
            runs: Tree::new(alloc),
        }
    }

    /// How many runs there are.
    pub fn len(&self) -> u64
        ensures { result ≡ length self.now.runs }
    {
        self.runs.len()
    }

    /// For how many more runs there is room.
    pub fn room(&self) -> u64
        ensures { result ≡ self.now.room }
    {
        self.runs.room()
    }

    /// The first run, in order, that stands in the way of a lock.
    pub fn first(&self, holder: Holder, span: Span, wanted: Mode) -> Option<Run>
        ensures { result ≡ find (blocks holder span wanted) self.now.runs }
    {
        let query = Reaching {
            holder,
            byte: span.first,
            wanted,
        };
        // Of the runs that reach the range the first begins first: where it begins behind the range, so do all.
        self.runs.first_where_before(&Beyond(span.last), &query)
    }

    /// The next run, behind this one, that stands in the way of a lock.
    pub fn next(&self, run: &Run, holder: Holder, span: Span, wanted: Mode) -> Option<Run>
        ensures { result ≡ find (λ other. is_after run.now other && blocks holder span wanted other) self.now.runs }
    {
        let after = After {
            first: run.span.first,
            holder: run.holder(),
        };
        let query = Reaching {
            holder,
            byte: span.first,
            wanted,
        };
        beginning_by(self.runs.first_where_from(&after, &query), span.last)
    }

    /// Whether some run stands in the way of a lock.
    pub fn is_blocked(&self, holder: Holder, span: Span, wanted: Mode) -> bool
        requires { span.first ≤ span.last }
        ensures runs { IsTrue result ↔ Any (Blocks holder span wanted) self.now.runs }
        ensures modes { (modes : HolderModes) → AreRunsOf modes self.now.runs → IsTrue result ↔ HolderConflict modes holder span wanted }
    {
        // The proof reads the order of the runs from the field.
        let _ = &self.runs;
        self.first(holder, span, wanted).is_some()
    }

    /// The least byte of the range that some run blocks, of the owners of those that block there the least, and its run there
    /// where the search met it.
    pub fn first_in_the_way(
        &self,
        holder: Holder,
        span: Span,
        wanted: Mode,
    ) -> Option<FirstInTheWay>
        requires { span.first ≤ span.last }
        ensures first { (modes : HolderModes) → AreRunsOf modes self.now.runs → IfSome result (λ hit. IsFirstInTheWay modes holder span wanted hit.byte hit.holder) }
        ensures run { IfSome result (λ hit. IfSome hit.run (IsRunThere self.now.runs hit.holder hit.byte)) }
        ensures none { (modes : HolderModes) → AreRunsOf modes self.now.runs → IfNone result (¬ HolderConflict modes holder span wanted) }
    {
        // The proof reads the order of the runs from the field.
        let _ = &self.runs;
        let run = self.first(holder, span, wanted)?;
        // No run that comes before this one reaches its first byte, and those that begin there too are of later owners.
        if span.first <= run.span.first {
            return Some(in_the_way(run.span.first, run.holder(), run));
        }
        let query = Reaching {
            holder,
            byte: span.first,
            wanted,
        };
        let mut least: Option<Holder> = None;
        self.runs
            .walk_before(&Beyond(span.first), &query, &mut least);
        Some(in_the_way(span.first, least?, run))
    }

    /// Holds room for so many more runs in all, counting the room already there.
    ///
    /// `Memory`, which never comes where that room is there, leaves the index as it was.
    pub fn reserve(&mut self, count: u64) -> Result<(), Memory>
        ensures runs { self.new.runs ≡ self.old.runs }
        ensures kept { self.old.room ≤ self.new.room }
        ensures ok { OnOk result (count ≤ self.new.room) }
        ensures there { count ≤ self.old.room → IsOk result }
        ensures err { OnErr result (self.new.room ≡ self.old.room) }
    {
        self.runs.reserve(count)
    }

    /// Whether a run has this first byte and this owner.
    fn has(&self, first: u64, holder: Holder) -> bool
        ensures yes { IsTrue result → find (has_key first holder) self.now.runs ≢ None }
        ensures no { IsFalse result → find (has_key first holder) self.now.runs ≡ None }
    {
        let Some(run) = self.runs.first_from(&Key { first, holder }) else {
            return false;
        };
        run.has_key(first, holder)
    }

    /// Takes out the run with this first byte and this owner; the room stays. It takes no memory.
    pub fn take(&mut self, first: u64, holder: Holder) -> Option<Run>
        ensures run { result ≡ find (has_key first holder) self.old.runs }
        ensures runs { self.new.runs ≡ without first holder self.old.runs }
        ensures room { self.new.room ≡ self.old.room }
    {
        if !self.has(first, holder) {
            return None;
        }
        self.runs.take(&Key { first, holder })
    }

    /// Puts in a run, in place of one with its first byte and its owner; where there is none it uses up room for one. It takes no
    /// memory.
    pub fn put(&mut self, run: Run)
        requires range { run.span.first ≤ run.span.last }
        requires room { 0 < self.old.room }
        ensures runs { self.new.runs ≡ with_run run (without run.span.first (holder_of run) self.old.runs) }
        ensures replaced { find (has_key run.span.first (holder_of run)) self.old.runs ≢ None → self.new.room ≡ self.old.room }
        ensures added { find (has_key run.span.first (holder_of run)) self.old.runs ≡ None → self.new.room + 1 ≡ self.old.room }
    {
        if self.has(run.span.first, run.holder()) {
            self.replace(run);
        } else {
            self.add(run);
        }
    }

    /// Puts a run in place of the one with its first byte and its owner; the room stays. It takes no memory.
    pub fn replace(&mut self, run: Run)
        requires range { run.span.first ≤ run.span.last }
        requires held { find (has_key run.span.first (holder_of run)) self.old.runs ≢ None }
        ensures runs { self.new.runs ≡ with_run run (without run.span.first (holder_of run) self.old.runs) }
        ensures room { self.new.room ≡ self.old.room }
    {
        let key = Key {
            first: run.span.first,
            holder: run.holder(),
        };
        self.runs.replace(&key, run);
    }

    /// Puts in a run where none has its first byte and its owner, and uses up room for one. It takes no memory.
    pub fn add(&mut self, run: Run)
        requires range { run.span.first ≤ run.span.last }
        requires new { find (has_key run.span.first (holder_of run)) self.old.runs ≡ None }
        requires room { 0 < self.old.room }
        ensures runs { self.new.runs ≡ with_run run (without run.span.first (holder_of run) self.old.runs) }
        ensures room { self.new.room + 1 ≡ self.old.room }
    {
        let key = Key {
            first: run.span.first,
            holder: run.holder(),
        };
        self.runs.put(&key, run);
    }
}

/// The run, if it begins at the byte or before it.
fn beginning_by(run: Option<Run>, byte: u64) -> Option<Run>
    ensures { result ≡ beginning_by byte run }
{
    match run {
        None => None,
        Some(run) => {
            if run.span.first <= byte {
                Some(run)
            } else {
                None
            }
        }
    }
}

/// The owner blocks the byte, by the run if that is the owner's.
fn in_the_way(byte: u64, holder: Holder, run: Run) -> FirstInTheWay
    ensures byte { result.byte ≡ byte }
    ensures holder { result.holder ≡ holder }
    ensures run { result.run ≡ cond (is_same_holder (holder_of run) holder) (Some run) None }
{
    let is_its = run.holder() == holder;
    FirstInTheWay {
        byte,
        holder,
        run: if is_its { Some(run) } else { None },
    }
}
