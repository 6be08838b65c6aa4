//! The locks on one file, by owner and by byte.
#![tactic(auto)]

// The proofs of this crate see through what a book stands for, which is opaque to the crates above.
#[tactic(auto, unfolding(crate::specs::Books::list_of, crate::specs::Books::place_of, crate::specs::Books::byte_modes_of, crate::specs::Books::room_in, crate::specs::Books::flock_modes_of, crate::specs::Books::has_flock_place))]
mod book;
mod laws;

pub use book::{Book, Lists};
pub use laws::{
    books_stand_for_some, conflicts_are_decided, locks_have_one_file_report, locks_have_one_report,
};
use range_core::{Mode, Span};

/// Who a lock belongs to. Owners are ordered: processes by number, and then descriptions by number (this project's
/// choice).
#[derive(Clone, Copy, Debug, PartialEq, Eq, PartialOrd, Ord)]
pub enum Owner {
    /// The process of a traditional lock, by its number (POSIX.1-2017 fcntl, `F_SETLK`).
    Process(u8),
    /// The open file description of an OFD lock or of a flock lock, by its number (fcntl_locking(2), "Open file
    /// description locks"; flock(2)).
    Description(u64),
}

/// The lock that a get command reports (POSIX.1-2017 fcntl, `F_GETLK`).
#[derive(Clone, Copy, Debug, PartialEq, Eq)]
pub struct Blocker {
    /// Whose lock it is.
    pub owner: Owner,
    /// The one mode that the owner has on the whole span.
    pub mode: Mode,
    /// The largest range of this mode round the byte that is blocked, also past the range that was asked for.
    pub span: Span,
}

/// One line of the report of held locks (this project's choice).
#[derive(Clone, Copy, Debug, PartialEq, Eq)]
pub struct Held {
    /// The file's number, as the caller of [`Book::held`] gave it.
    pub file: u8,
    /// A flock lock, whose span is then the whole file.
    pub whole: bool,
    /// Whose lock it is.
    pub owner: Owner,
    /// The one mode that the owner has on the whole span.
    pub mode: Mode,
    /// The largest range of this mode, or 0 to [`OFFMAX`](range_core::OFFMAX) for a flock lock.
    pub span: Span,
}
