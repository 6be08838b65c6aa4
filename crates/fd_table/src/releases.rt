//! What a close or an end released.
use crate::{FILE_COUNT, FILES, MOST_DESCRIPTORS};
use arrayvec::ArrayVec;
use std::marker::Model;

/// The most descriptions that one call closes for good, since a process has no more descriptors.
const MOST_RELEASED: usize = MOST_DESCRIPTORS as usize;

/// A descriptor that was closed: its file, and the number of its description if no other descriptor refers to it.
#[derive(Clone, Copy)]
pub(crate) struct Closed {
    pub(crate) file: u8,
    pub(crate) last: Option<u64>,
}

/// What the closing of one descriptor released: its file, and its description if that was closed for good; nothing where it
/// wasn't open.
#[derive(Clone, Copy, Debug, PartialEq, Eq)]
pub struct Release {
    file: Option<u8>,
    description: Option<u64>,
}

impl Model for Release {
    ghost use Rattle.std.specs.Prelude.{◌<◌, All, option_to_list, slice_get};
    ghost use Rattle.fd_table.specs.declared.TheConstants.{FILES};
    ghost use Rattle.fd_table.specs.Releases.{Released};

    ghost Value = { Released };

    ghost view = { λ r. record { files = option_to_list r.file; descriptions = option_to_list r.description } };

    ghost invariant = { λ r. All (λ file. file < FILES) (option_to_list r.file) };

    ghost inverse = { λ released. record { file = slice_get released.files 0; description = slice_get released.descriptions 0 } };
}

impl Release {
    ghost use Rattle.std.specs.Prelude.{◌≡◌, ◌<◌, All, IfSome};
    ghost use Rattle.fd_table.specs.Releases.{released_by};

    /// What was released by this closing, or by none.
    pub(crate) fn of(closed: Option<Closed>) -> Release
        requires { IfSome closed (λ one. one.file < FILES) }
        ensures { result ≡ released_by closed }
    {
        match closed {
            Some(closed) => Release {
                file: Some(closed.file),
                description: closed.last,
            },
            None => Release {
                file: None,
                description: None,
            },
        }
    }

    /// The file of the descriptor, if it was open.
    pub fn files(&self) -> &[u8]
        ensures value { result.now ≡ self.now.files }
        ensures in_range { All (λ file. file < FILES) result.now }
    {
        self.file.as_slice()
    }

    /// The number of the description, if it was closed for good.
    pub fn descriptions(&self) -> &[u64]
        ensures { result.now ≡ self.now.descriptions }
    {
        self.description.as_slice()
    }
}

/// The files of the descriptors that a call closed, and the descriptions that it closed for good.
#[derive(Debug, Drop)]
pub struct Releases {
    // Neither takes memory from an allocator, so no close is refused for want of it.
    files: ArrayVec<u8, FILE_COUNT>,
    descriptions: ArrayVec<u64, MOST_RELEASED>,
}

impl Model for Releases {
    ghost use Rattle.std.specs.Prelude.{◌<◌, All};
    ghost use Rattle.fd_table.specs.declared.TheConstants.{FILES};
    ghost use Rattle.fd_table.specs.Releases.{Released};

    ghost Value = { Released };

    ghost view = { λ r. record { files = r.files.items; descriptions = r.descriptions.items } };

    ghost invariant = { λ r. All (λ file. file < FILES) r.files.items };
}

impl Releases {
    ghost use Rattle.std.specs.Prelude.{◌≡◌, ◌<◌, ◌↔◌, ℕ, length, ◌++◌, ◌∷◌, [], All, Contains, nat_eq};
    ghost use Rattle.std.specs.List.{IsDistinct};
    ghost use Rattle.std.specs.List.Sorted.{IsStrictlyIncreasing};
    ghost use Rattle.fd_table.specs.Releases.{AreExactly, IsMarked, nothing};

    /// Nothing is released.
    pub(crate) fn none() -> Releases
        ensures { result ≡ nothing }
    {
        Releases {
            files: ArrayVec::new(),
            descriptions: ArrayVec::new(),
        }
    }

    /// Adds a file past the last.
    fn push_file(&mut self, file: u8)
        requires room { length self.old.files < FILES }
        requires file { file < FILES }
        ensures { self.new ≡ record self.old { files = self.old.files ++ file ∷ [] } }
    {
        self.files.push(file);
    }

    /// Adds a description past the last.
    pub(crate) fn push_description(&mut self, number: u64)
        requires { length self.old.descriptions < MOST_DESCRIPTORS }
        ensures { self.new ≡ record self.old { descriptions = self.old.descriptions ++ number ∷ [] } }
    {
        self.descriptions.push(number);
    }

    /// Adds the files that are marked, by rising number.
    pub(crate) fn list_files(&mut self, marks: &[bool; FILE_COUNT])
        requires { self.old.files ≡ [] }
        ensures files { AreExactly self.new.files (IsMarked marks.now) }
        ensures descriptions { self.new.descriptions ≡ self.old.descriptions }
    {
        for file in 0..FILES {
            if marks[usize::from(file)] {
                self.push_file(file);
            }
        }
    }

    /// Puts the numbers of the descriptions in order.
    pub(crate) fn sort_descriptions(&mut self)
        ensures rising { IsDistinct nat_eq self.old.descriptions → IsStrictlyIncreasing self.new.descriptions }
        ensures same { (x : ℕ) → Contains self.new.descriptions x ↔ Contains self.old.descriptions x }
        ensures files { self.new.files ≡ self.old.files }
    {
        self.descriptions.sort_unstable();
    }

    /// The files, by rising number and each once.
    pub fn files(&self) -> &[u8]
        ensures value { result.now ≡ self.now.files }
        ensures in_range { All (λ file. file < FILES) result.now }
    {
        &self.files
    }

    /// The numbers of the descriptions, rising and each once.
    pub fn descriptions(&self) -> &[u64]
        ensures { result.now ≡ self.now.descriptions }
    {
        &self.descriptions
    }
}
