//! Sets of processes.
ghost use Rattle.std.specs.Prelude.{ℕ, suc, ◌≡◌, ◌<◌, ◌≤◌, ◌==◌, ◌||◌, if◌then◌else◌, false, IfNone, IfSome, IsFalse, IsTrue};
ghost use Rattle.wait_core.specs.Processes.{IsFirstBeyond, IsWithin, is_member, lacking, no_process};

use crate::Wait;

/// How many processes there are at most, which are numbered from 1 (this project's choice).
pub const PROCESSES: u8 = 64;

/// How many rows a table by process has: one for each process, and a first one of no process, which stays empty.
pub const ROWS: usize = PROCESSES as usize + 1;

/// A set of processes, in one word: process `p` is bit `p - 1`.
#[derive(Clone, Copy, Debug, PartialEq, Eq)]
pub struct ProcessSet {
    bits: u64,
}

#[tactic(auto, unfolding(crate::specs::Processes::is_member, crate::specs::Processes::lacking))]
impl ProcessSet {
    /// No process.
    pub fn empty() -> ProcessSet
        ensures { result ≡ no_process }
    {
        ProcessSet { bits: 0 }
    }

    /// Whether there is no process in the set.
    pub(crate) fn is_empty(self) -> bool
        ensures none { IsTrue result → (p : ℕ) → is_member self p ≡ false }
        ensures some { IsFalse result → (k : ℕ) × (k < PROCESSES) × IsTrue (is_member self (suc k)) }
    {
        self.bits == 0
    }

    /// Whether the process is in the set.
    pub(crate) fn has(self, p: u8) -> bool
        requires from_one { 1 ≤ p }
        requires few { p ≤ PROCESSES }
        ensures { result ≡ is_member self p }
    {
        self.bits >> (p - 1) & 1 == 1
    }

    /// The set with the process in it.
    pub fn with(self, p: u8) -> ProcessSet
        requires from_one { 1 ≤ p }
        requires few { p ≤ PROCESSES }
        ensures members { (q : ℕ) → is_member result q ≡ (q == p || is_member self q) }
        ensures fewer { IsFalse (is_member self p) → lacking result < lacking self }
    {
        ProcessSet {
            bits: self.bits | 1 << (p - 1),
        }
    }

    /// The set with the process in it, or without it.
    pub fn put(self, p: u8, is_in: bool) -> ProcessSet
        requires from_one { 1 ≤ p }
        requires few { p ≤ PROCESSES }
        ensures { (q : ℕ) → q ≤ PROCESSES → is_member result q ≡ (if q == p then is_in else is_member self q) }
    {
        if is_in { self.with(p) } else { self.without(p) }
    }

    /// The set without the process.
    pub(crate) fn without(self, p: u8) -> ProcessSet
        requires from_one { 1 ≤ p }
        requires few { p ≤ PROCESSES }
        ensures { (q : ℕ) → q ≤ PROCESSES → is_member result q ≡ (if q == p then false else is_member self q) }
    {
        ProcessSet {
            bits: self.bits & !(1 << (p - 1)),
        }
    }

    /// The processes of the two sets.
    pub(crate) fn union(self, other: ProcessSet) -> ProcessSet
        ensures { (q : ℕ) → is_member result q ≡ (is_member self q || is_member other q) }
    {
        ProcessSet {
            bits: self.bits | other.bits,
        }
    }

    /// The process of least number of this set that isn't in the other one; `None` where all of this one are.
    pub fn first_beyond(self, other: ProcessSet) -> Option<u8>
        ensures some { IfSome result (IsFirstBeyond self other) }
        ensures none { IfNone result (IsWithin self other) }
    {
        let beyond = self.bits & !other.bits;
        if beyond == 0 {
            return None;
        }
        Some(beyond.trailing_zeros() as u8 + 1)
    }
}
