//! Whole concurrent histories of locks, on any number of files.
#![tactic(auto)]

mod fault;
mod files;
mod held_files;
mod judge;
mod laws;
mod order;

pub use fault::JudgeFault;
pub use held_files::HeldFiles;
pub use judge::{HistoryJudge, OpenRequest};
pub use laws::{ends_are_judged_apart, files_are_judged_apart, orders_are_judged_apart};
pub use order::FileHappening;
