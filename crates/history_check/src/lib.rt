//! The text of a concurrent history of locks, from its bytes to what is told of it: whether there was an order in which every answer was
//! permitted, and else the first line that tells otherwise.
#![tactic(auto)]

mod check;
mod judging;
mod open_waits;
mod order;
mod order_text;
mod reading;
mod told;

pub use check::HistoryCheck;
pub use judging::{HistoryOutcome, Judging, LockStates};
pub use open_waits::OpenWait;

/// The most bytes that a history may have (this project's choice).
pub const HISTORY_MAX: usize = 1 << 40;
