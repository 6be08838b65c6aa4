//! Runs of the locks of many owners on one file, in order, and which of them stand in the way of a lock.
#![tactic(auto)]

ghost use Rattle.std.specs.Prelude.{◌≡◌};
ghost use Rattle.interval_index.specs.Holders.{holder_of};

mod index;
mod keys;
mod least;
mod queries;
mod reach;

pub use index::RunIndex;
use range_core::{Mode, Span};

/// An owner of locks, as two numbers: owners are ordered by class, and then by number (this project's choice).
#[derive(Clone, Copy, Debug, PartialEq, Eq)]
pub struct Holder {
    /// Which kind of owner it is.
    pub class: u8,
    /// Which of its kind.
    pub number: u64,
}

/// A lock of one owner on a range.
#[derive(Clone, Copy, Debug, PartialEq, Eq)]
pub struct Run {
    /// The bytes that are locked.
    pub span: Span,
    /// The number of the owner, beside its class, since so a run takes 32 bytes.
    pub number: u64,
    /// The class of the owner.
    pub class: u8,
    /// What the lock allows.
    pub mode: Mode,
}

/// What stands first in the way of a lock.
#[derive(Clone, Copy, Debug, PartialEq, Eq)]
pub struct FirstInTheWay {
    /// The least byte of the range that some run blocks.
    pub byte: u64,
    /// The least owner of those that block there.
    pub holder: Holder,
    /// Its run there, where the search met it: it need not be looked for among the owner's.
    pub run: Option<Run>,
}

impl Run {
    /// Whose lock it is.
    pub fn holder(&self) -> Holder
        ensures { result ≡ holder_of self.now }
    {
        Holder {
            class: self.class,
            number: self.number,
        }
    }
}
