//! The order in which the requests of a whole history had their effects.
ghost use Rattle.std.specs.Prelude.{◌≡◌, ◌++◌, ◌+◌, ◌<◌, ◌∷◌, ℕ, List, Option, None, Some, [], IfOk, OnOk, MatchOption, length, map, reverse, vec_len};
ghost use Rattle.std.specs.BTreeMap.{get};
ghost use Rattle.std.specs.Ordering.{nat_cmp};
ghost use Rattle.history_core.specs.declared.order.Happening.{Happening};
ghost use Rattle.history_judge.specs.Merging.{Left, beyond, front, left_in, lefts_in, merged as merged_of, pass, passed, told_as};

use history_core::{Deed, Happening, Request};
use range_core::{Memory, counted};
use std::alloc::Global;
use std::collections::BTreeMap;

/// An effect on one of the files, or the loss of a conversion's old lock there, and when it came.
#[derive(Clone, Copy, Debug, PartialEq, Eq)]
pub struct FileHappening {
    /// Behind how many of the history's lines it came, before the next; the last of them is one of its file.
    pub behind: u64,
    /// The file's number.
    pub file: u64,
    /// Whose it was.
    pub request: Request,
    /// What it was.
    pub deed: Deed,
}

/// What is left of the order of one file while those of all are merged.
#[derive(Drop)]
pub struct FileOrder {
    /// The newest first.
    happenings: Vec<Happening>,
    /// How many of the file's lines came.
    lines: u64,
}

impl FileOrder {
    /// The whole of a file's order, of which no line came.
    pub fn new(mut order: Vec<Happening>) -> FileOrder
        ensures { left_in result ≡ record { told = order.items; lines = 0 } }
    {
        order.reverse();
        FileOrder {
            happenings: order,
            lines: 0,
        }
    }

    /// One line more of the file came, the last of so many of the history: what happened up to the file's next line is told.
    ///
    /// After `Memory` a part of it was told, or none.
    fn pass_line(
        &mut self,
        told: &mut Vec<FileHappening>,
        behind: u64,
        file: u64,
    ) -> Result<(), Memory>
        ensures told { OnOk result (told.new.items ≡ told.old.items ++ map (told_as behind file) (front (self.old.lines + 1) (left_in self.old).told)) }
        ensures left { OnOk result (left_in self.new ≡ record { told = beyond (self.old.lines + 1) (left_in self.old).told; lines = self.old.lines + 1 }) }
    {
        self.lines = counted(self.lines, 1)?;
        while let Some(happening) = self.next_due() {
            told.push(FileHappening {
                behind,
                file,
                request: happening.request,
                deed: happening.deed,
            })?;
        }
        Ok(())
    }

    /// The next that happened, where it came before the file's next line.
    fn next_due(&mut self) -> Option<Happening>
        ensures due { MatchOption result (front self.old.lines (left_in self.old).told ≡ [])
            (λ happening. front self.old.lines (left_in self.old).told ≡ happening ∷ front self.old.lines (left_in self.new).told) }
        ensures left { beyond self.old.lines (left_in self.new).told ≡ beyond self.old.lines (left_in self.old).told }
        ensures none { result ≡ None → self.new ≡ self.old }
        ensures lines { self.new.lines ≡ self.old.lines }
        ensures len { MatchOption result (vec_len self.new.happenings ≡ vec_len self.old.happenings)
            (λ happening. vec_len self.new.happenings < vec_len self.old.happenings) }
    {
        let next = self.happenings.last()?;
        if next.behind > self.lines {
            return None;
        }
        self.happenings.pop()
    }
}

/// The orders of the files, merged to one of the history whose lines are of these files.
pub fn merged(
    alloc: Global,
    mut orders: BTreeMap<u64, FileOrder>,
    files: &[u64],
) -> Result<Vec<FileHappening>, Memory>
    ensures { IfOk result (λ told. told.items ≡ merged_of 0 (lefts_in orders) files.now) }
{
    let mut told = Vec::new(alloc);
    for (index, file) in files.iter().enumerate() {
        pass_line(&mut told, &mut orders, index as u64 + 1, *file)?;
    }
    Ok(told)
}

/// One line more came, of this file, the last of so many: what happened behind it is told.
///
/// After `Memory` a part of it was told, or none.
fn pass_line(
    told: &mut Vec<FileHappening>,
    orders: &mut BTreeMap<u64, FileOrder>,
    behind: u64,
    file: u64,
) -> Result<(), Memory>
    ensures told { OnOk result (told.new.items ≡ told.old.items ++ passed behind file (lefts_in orders.old file)) }
    ensures left { OnOk result ((other : ℕ) → lefts_in orders.new other ≡ pass file (lefts_in orders.old) other) }
{
    match orders.get_mut(&file) {
        Some(order) => order.pass_line(told, behind, file),
        None => Ok(()),
    }
}
