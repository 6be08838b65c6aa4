//! The runs in a tree, with room for sets.
ghost use Rattle.std.specs.Prelude.{ℕ, ◌≡◌, ◌+◌, ◌*◌, ◌<◌, ◌≤◌, ◌^◌, [], None, Some, IfOk, IsOk, OnErr, OnOk, length};
ghost use Rattle.range_core.specs.declared.Mode.{Mode};
ghost use Rattle.range_core.specs.Changes.{mode_in, SetsMode};
ghost use Rattle.range_core.specs.Ranges.{IsByteRange, IsConstant, SplitsRun};
ghost use Rattle.owner_runs.specs.Trees.{AreOrdered};

use crate::run_tree::{RunTree, is_set};
use range_core::{Memory, Mode, Span, counted};
use std::alloc::Global;

/// The runs in a tree, and room for further sets, which then can't fail.
#[derive(Drop)]
pub(crate) struct SetTree {
    pub(crate) runs: RunTree,
    /// For how many further sets room is held, each of which puts two runs in at most: a piece behind its own, and that.
    pub(crate) room: usize,
    ghost held: { 2 * room ≤ runs.room },
    ghost countable: { 2 * room < 2 ^ 64 },
}

impl SetTree {
    /// These runs, with room for so many sets.
    pub(crate) fn of_runs(
        alloc: Global,
        runs: &[(Mode, Span)],
        room: usize,
    ) -> Result<SetTree, Memory>
        requires { AreOrdered runs.now }
        ensures modes { IfOk result (λ tree. (byte : ℕ) → mode_in tree.runs.items byte ≡ mode_in runs.now byte) }
        ensures room { IfOk result (λ tree. tree.room ≡ room) }
    {
        let mut tree = RunTree::new(alloc);
        let places = counted(room as u64, room as u64)?;
        tree.reserve(counted(runs.len() as u64, places)?)?;
        put_all(&mut tree, runs);
        Ok(SetTree { runs: tree, room })
    }

    /// Sets the mode on just the bytes of the span, or removes it where `mode` is `None`; the room that is held stays.
    ///
    /// `Memory`, which never comes where an unlock splits no run or a lock is there already, leaves the tree as it was.
    pub(crate) fn set(&mut self, span: Span, mode: Option<Mode>) -> Result<(), Memory>
        requires { IsByteRange span }
        ensures ok { OnOk result (SetsMode (mode_in self.old.runs.items) (mode_in self.new.runs.items) span mode) }
        ensures room { self.new.room ≡ self.old.room }
        ensures unlock { mode ≡ None → (¬ SplitsRun (mode_in self.old.runs.items) span) → IsOk result }
        ensures again { (wanted : Mode) → mode ≡ Some wanted → IsConstant (mode_in self.old.runs.items) span wanted → IsOk result }
        ensures err { OnErr result (self.new.runs.items ≡ self.old.runs.items) }
    {
        match mode {
            Some(wanted) => self.lock(span, wanted),
            None => self.unlock(span),
        }
    }

    /// Sets the mode on just the bytes of the span; the room that is held stays.
    ///
    /// `Memory`, which never comes where they have it already, leaves the tree as it was.
    fn lock(&mut self, span: Span, mode: Mode) -> Result<(), Memory>
        requires { IsByteRange span }
        ensures ok { OnOk result (SetsMode (mode_in self.old.runs.items) (mode_in self.new.runs.items) span (Some mode)) }
        ensures room { self.new.room ≡ self.old.room }
        ensures again { IsConstant (mode_in self.old.runs.items) span mode → IsOk result }
        ensures err { OnErr result (self.new.runs.items ≡ self.old.runs.items) }
    {
        let beside = self.runs.beside(span.first);
        if is_set(beside.behind, span, mode) {
            return Ok(());
        }
        self.make_room()?;
        self.runs.set_beside(span, mode, beside);
        Ok(())
    }

    /// Removes the mode of just the bytes of the span; the room that is held stays.
    ///
    /// `Memory`, which never comes where that splits no run, leaves the tree as it was.
    fn unlock(&mut self, span: Span) -> Result<(), Memory>
        requires { IsByteRange span }
        ensures ok { OnOk result (SetsMode (mode_in self.old.runs.items) (mode_in self.new.runs.items) span None) }
        ensures room { self.new.room ≡ self.old.room }
        ensures whole { (¬ SplitsRun (mode_in self.old.runs.items) span) → IsOk result }
        ensures err { OnErr result (self.new.runs.items ≡ self.old.runs.items) }
    {
        if !self.runs.is_split_by(span) {
            self.runs.unlock(span);
            return Ok(());
        }
        self.make_room()?;
        self.runs.unlock(span);
        Ok(())
    }

    /// Makes room for one set more than those that room is held for.
    ///
    /// `Memory` leaves the tree as it was.
    fn make_room(&mut self) -> Result<(), Memory>
        ensures items { self.new.runs.items ≡ self.old.runs.items }
        ensures held { self.new.room ≡ self.old.room }
        ensures ok { OnOk result (2 * self.old.room + 2 ≤ self.new.runs.room) }
    {
        let held = 2 * self.room as u64;
        self.runs.reserve(counted(held, 2)?)
    }

    /// Sets the mode as [`SetTree::set`] does, in room that was held: it takes no memory and uses one place up.
    pub(crate) fn set_reserved(&mut self, span: Span, mode: Option<Mode>)
        requires span { IsByteRange span }
        requires room { 1 ≤ self.old.room }
        ensures modes { SetsMode (mode_in self.old.runs.items) (mode_in self.new.runs.items) span mode }
        ensures room { self.new.room + 1 ≡ self.old.room }
    {
        self.room -= 1;
        change(&mut self.runs, span, mode);
    }

    /// Holds room for so many further sets in all, counting the room already there.
    ///
    /// `Memory`, which never comes where that room is there, leaves the tree as it was.
    pub(crate) fn reserve(&mut self, sets: usize) -> Result<(), Memory>
        ensures items { self.new.runs.items ≡ self.old.runs.items }
        ensures kept { self.old.room ≤ self.new.room }
        ensures ok { OnOk result (sets ≤ self.new.room) }
        ensures there { sets ≤ self.old.room → IsOk result }
        ensures err { OnErr result (self.new.room ≡ self.old.room) }
    {
        if self.room < sets {
            self.runs.reserve(counted(sets as u64, sets as u64)?)?;
            self.room = sets;
        }
        Ok(())
    }

    /// Removes the mode of each byte; the room that is held stays. It takes no memory.
    pub(crate) fn clear(&mut self)
        ensures modes { (byte : ℕ) → mode_in self.new.runs.items byte ≡ None }
        ensures room { self.new.room ≡ self.old.room }
    {
        self.runs.clear();
    }
}

/// Sets the mode on just the bytes of the span, or removes it where `mode` is `None`. It takes no memory, and uses up room for
/// two runs at most.
fn change(runs: &mut RunTree, span: Span, mode: Option<Mode>)
    requires span { IsByteRange span }
    requires room { 2 ≤ runs.old.room }
    ensures modes { SetsMode (mode_in runs.old.items) (mode_in runs.new.items) span mode }
    ensures room { runs.old.room ≤ runs.new.room + 2 }
{
    match mode {
        Some(wanted) => runs.set(span, wanted),
        None => runs.unlock(span),
    }
}

/// Puts the runs into an empty tree that has room for them.
fn put_all(tree: &mut RunTree, runs: &[(Mode, Span)])
    requires empty { tree.old.items ≡ [] }
    requires order { AreOrdered runs.now }
    requires room { length runs.now ≤ tree.old.room }
    ensures modes { (byte : ℕ) → mode_in tree.new.items byte ≡ mode_in runs.now byte }
    ensures room { tree.new.room + length runs.now ≡ tree.old.room }
{
    for run in runs {
        tree.put(*run);
    }
}
