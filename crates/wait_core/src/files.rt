//! Sets of files.
ghost use Rattle.std.specs.Prelude.{ℕ, ◌≡◌, ◌<◌, ◌==◌, ◌||◌, false, true, IfNone, IfSome, IsFalse, IsTrue};
ghost use Rattle.wait_core.specs.Files.{has_file};

use crate::Wait;
use crate::processes::{PROCESSES, ProcessSet};

/// How many files there are, which are numbered from 0 (this project's choice).
pub const FILES: u8 = 64;

/// A set of files, in one word: file `f` stands where process `f + 1` stands in a set of processes.
#[derive(Clone, Copy, Debug, PartialEq, Eq)]
pub struct FileSet {
    places: ProcessSet,
}

#[tactic(auto, unfolding(crate::specs::Files::has_file))]
impl FileSet {
    /// No file.
    pub fn empty() -> FileSet
        ensures { (f : ℕ) → has_file result f ≡ false }
    {
        FileSet {
            places: ProcessSet::empty(),
        }
    }

    /// Whether the file is in the set.
    pub fn has(self, file: u8) -> bool
        requires { file < FILES }
        ensures { result ≡ has_file self file }
    {
        self.places.has(file + 1)
    }

    /// The set with the file in it.
    pub fn with(self, file: u8) -> FileSet
        requires { file < FILES }
        ensures { (f : ℕ) → has_file result f ≡ (f == file || has_file self f) }
    {
        FileSet {
            places: self.places.with(file + 1),
        }
    }

    /// Whether there is no file in the set.
    pub fn is_empty(self) -> bool
        ensures none { IsTrue result → (f : ℕ) → has_file self f ≡ false }
        ensures some { IsFalse result → (f : ℕ) × (f < FILES) × IsTrue (has_file self f) }
    {
        self.places.is_empty()
    }
}
